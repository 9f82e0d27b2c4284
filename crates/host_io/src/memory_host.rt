// A host in memory, which fails where its script says.
ghost use Rattle.std.specs.Prelude.{◌≡◌, ◌↔◌, ℕ, ◌+◌, ◌^◌, ◌<◌, ◌≤◌, [], length, ◌++◌, take, drop, IfOk, OnOk, IsErr, IsTrue};
ghost use Rattle.host_io.specs.Calls.{Rose, CountsDisk, CountsTake, CountsSay, Looks, StandsStill, Writes, Syncs, Takes, Says};
ghost use Rattle.host_io.specs.Memory.{HostState, outside_of, risen, risen_if, is_due, due, is_refused, take_count, said_front, bounded, after_disk_call, after_look, after_write, after_sync, after_take, after_say, IsLeft, moment_after};
ghost use Rattle.host_io.specs.Disk.{IsImage};
ghost use Rattle.host_io.specs.Log.{first_trail};

use crate::fault::find_effect;
use crate::log::Log;
use crate::traits::MAX_WRITE;
use crate::{Disk, Effect, Failed, Fault, Host};
use mk_value::{Bytes, Memory};
use std::alloc::Global;
use std::marker::Model;

/// A host whose file, input and output are in memory. A call fails exactly where the script has its number or where it
/// would pass the room that was given; the file's images after a crash at any moment can be asked for.
#[derive(Drop)]
pub struct MemHost {
    log: Log,
    input: Vec<u8>,
    taken: usize,
    script: Vec<Fault>,
    most: usize,
    calls: u64,
    disk_faults: u64,
    take_faults: u64,
    say_faults: u64,
}

impl Model for MemHost {
    ghost use Rattle.std.specs.Prelude.{◌≤◌, drop, length};
    ghost use Rattle.host_io.specs.Memory.{HostState};

    ghost Value = { HostState };

    ghost view = { λ host. record {
      history = host.log;
      input = drop host.taken host.input.items;
      calls = host.calls;
      script = host.script.items;
      most = host.most;
      disk_faults = host.disk_faults;
      take_faults = host.take_faults;
      say_faults = host.say_faults;
    } };

    ghost invariant = { λ host. host.taken ≤ length host.input.items };
}

// A count goes up by one, up to the last value of its type.
fn rise(count: &mut u64)
    ensures risen { count.new ≡ risen count.old }
    ensures later { count.old ≤ count.new }
    ensures rose { Rose count.old count.new }
{
    *count = count.saturating_add(1);
}

impl MemHost {
    /// A host over a file that holds the image, all of it synced. It has this input, and a bound on the bytes of a
    /// piece taken or said (0 is none). It takes all the memory of its later calls: room for so many writes, syncs
    /// and pieces said, and for so many bytes written or said.
    pub fn new(
        alloc: Global,
        image: &[u8],
        input: &[u8],
        script: &[Fault],
        most: usize,
        room: usize,
    ) -> Result<MemHost, Memory>
        ensures { IfOk result (λ host. host ≡ record {
          history = record { trail = first_trail image.now; moments_left = room; bytes_left = room };
          input = input.now;
          calls = 0;
          script = script.now;
          most = most;
          disk_faults = 0;
          take_faults = 0;
          say_faults = 0;
        }) }
    {
        Ok(MemHost {
            log: Log::new(alloc, image, room)?,
            input: Vec::from_slice(alloc, input)?,
            taken: 0,
            script: Vec::from_slice(alloc, script)?,
            most,
            calls: 0,
            disk_faults: 0,
            take_faults: 0,
            say_faults: 0,
        })
    }

    /// The bytes of the file as a read gives them.
    pub fn image(&self) -> &[u8]
        ensures { result.now ≡ (outside_of self.now).now.disk.seen }
    {
        self.log.seen()
    }

    /// The bytes said so far.
    pub fn said(&self) -> &[u8]
        ensures { result.now ≡ (outside_of self.now).now.said }
    {
        self.log.said()
    }

    /// How many calls of [`Disk`] and [`Host`] were made.
    pub fn calls(&self) -> u64
        ensures { result ≡ self.now.calls }
    {
        self.calls
    }

    /// The file's image after a crash that comes when so many calls were made, and that leaves all that was pending
    /// then as at the last sync, as it was written, or all `ff`.
    pub fn crash(&self, after: u64, choice: Effect) -> Result<Bytes, Memory>
        requires { after ≤ self.now.calls }
        ensures left { IfOk result (λ image. IsLeft choice (moment_after after self.now.history.trail).disk image.bytes) }

        // It is one that a crash may leave.
        ensures possible { IfOk result (λ image. IsImage (moment_after after self.now.history.trail).disk image.bytes) }
    {
        Ok(Bytes::from(self.log.crash(after, choice)?))
    }

    // Counts a call, and gives what the script says of it.
    fn begin(&mut self) -> Option<Effect>
        ensures due { result ≡ due self.old }
        ensures counted { self.new ≡ record self.old { calls = risen self.old.calls } }
    {
        let due = find_effect(&self.script, self.calls);
        rise(&mut self.calls);
        due
    }

    // At most so many bytes as one piece may have.
    fn bound(&self, count: usize) -> usize
        ensures { result ≡ bounded self.now.most count }
    {
        if self.most == 0 {
            count
        } else {
            count.min(self.most)
        }
    }

    // Makes a call of the disk that only looks.
    fn look(&mut self) -> Result<(), Failed>
        ensures fails { IsErr result ↔ IsTrue (is_due self.old) }
        ensures after { self.new ≡ after_look self.old }
        ensures counts { CountsDisk (outside_of self.old) (outside_of self.new) result }
    {
        let due = self.begin();
        answer(due.is_some(), &mut self.disk_faults)
    }

    // Makes a call of the disk that writes.
    fn try_write(&mut self, at: usize, from: &[u8]) -> Result<(), Failed>
        requires { at ≤ length (outside_of self.old).now.disk.seen }
        ensures fails { IsErr result ↔ IsTrue (is_refused (length from.now) self.old) }
        ensures after { self.new ≡ after_write at from.now self.old }
        ensures counts { CountsDisk (outside_of self.old) (outside_of self.new) result }
        ensures bound { OnOk result (at + length from.now < 2 ^ 63) }
        ensures refused { 2 ^ 63 ≤ at + length from.now → StandsStill (outside_of self.old) (outside_of self.new) }
    {
        let due = self.begin();
        let fits = self.log.has_room(from.len());
        if fits {
            let left = due.unwrap_or(Effect::Whole);
            self.log.write(self.calls, at, from, left);
        }
        answer(due.is_some() || !fits, &mut self.disk_faults)
    }

    // Fills the front of a piece with the next bytes of the input, and gives their number.
    fn give(&mut self, into: &mut [u8]) -> usize
        ensures count { result ≡ take_count (length into.old) self.old }
        ensures came { self.old.input ≡ take result into.new ++ self.new.input }
        ensures end { result ≡ 0 → 0 < length into.old → self.old.input ≡ [] }
        ensures after { self.new ≡ record self.old { input = drop result self.old.input } }
    {
        let left = self.input.len() - self.taken;
        let count = self.bound(left.min(into.len()));
        into[..count].copy_from_slice(&self.input[self.taken..self.taken + count]);
        self.taken += count;
        count
    }
}

// The end of a call, which raises this count if it failed.
fn answer(failed: bool, faults: &mut u64) -> Result<(), Failed>
    ensures fails { IsErr result ↔ IsTrue failed }
    ensures rises { faults.new ≡ risen_if failed faults.old }
    ensures later { faults.old ≤ faults.new }
    ensures rose { IsTrue failed → Rose faults.old faults.new }
{
    if failed {
        rise(faults);
        return Err(Failed);
    }
    Ok(())
}

impl Disk for MemHost {
    ghost tells = { Unit {0} };

    ghost outside = { outside_of };

    /// Any name and either mode will do.
    fn attach(&mut self, _name: &str, _create: bool) -> Result<(), Failed>
        ensures counts { CountsDisk (outside_of self.old) (outside_of self.new) result }
        ensures same { Looks (outside_of self.old) (outside_of self.new) }
        ensures fails { IsErr result ↔ IsTrue (is_due self.old) }
        ensures after { self.new ≡ after_look self.old }
    {
        self.look()
    }

    fn len(&mut self) -> Result<u64, Failed>
        ensures counts { CountsDisk (outside_of self.old) (outside_of self.new) result }
        ensures same { Looks (outside_of self.old) (outside_of self.new) }
        ensures length { IfOk result (λ n. n ≡ length (outside_of self.old).now.disk.seen) }
        ensures bound { IfOk result (λ n. n < 2 ^ 63) }
        ensures fails { IsErr result ↔ IsTrue (is_due self.old) }
        ensures after { self.new ≡ after_look self.old }
    {
        self.look()?;
        Ok(self.log.seen().len() as u64)
    }

    fn read_at(&mut self, at: u64, into: &mut [u8]) -> Result<(), Failed>
        requires { at + length into.old ≤ length (outside_of self.old).now.disk.seen }
        ensures counts { CountsDisk (outside_of self.old) (outside_of self.new) result }
        ensures same { Looks (outside_of self.old) (outside_of self.new) }
        ensures bytes { OnOk result (into.new ≡ take (length into.old) (drop at (outside_of self.old).now.disk.seen)) }
        ensures fails { IsErr result ↔ IsTrue (is_due self.old) }
        ensures after { self.new ≡ after_look self.old }
    {
        self.look()?;
        let at = at as usize;
        into.copy_from_slice(&self.log.seen()[at..at + into.len()]);
        Ok(())
    }

    /// A write with room leaves all of it, or where it is due to fail what the script says. One without room leaves
    /// nothing.
    fn write_at(&mut self, at: u64, from: &[u8]) -> Result<(), Failed>
        requires short { length from.now ≤ MAX_WRITE }
        requires ends { at + length from.now < 2 ^ 64 }
        requires within { at ≤ length (outside_of self.old).now.disk.seen }
        ensures counts { CountsDisk (outside_of self.old) (outside_of self.new) result }
        ensures writes { Writes at from.now (outside_of self.old) (outside_of self.new) result }
        ensures bound { OnOk result (at + length from.now < 2 ^ 63) }
        ensures refused { 2 ^ 63 ≤ at + length from.now → StandsStill (outside_of self.old) (outside_of self.new) }
        ensures fails { IsErr result ↔ IsTrue (is_refused (length from.now) self.old) }
        ensures after { self.new ≡ after_write at from.now self.old }
    {
        self.try_write(at as usize, from)
    }

    fn sync(&mut self) -> Result<(), Failed>
        ensures counts { CountsDisk (outside_of self.old) (outside_of self.new) result }
        ensures syncs { Syncs (outside_of self.old) (outside_of self.new) result }
        ensures fails { IsErr result ↔ IsTrue (is_refused 0 self.old) }
        ensures after { self.new ≡ after_sync self.old }
    {
        let due = self.begin();
        let fits = self.log.has_room(0);
        answer(due.is_some() || !fits, &mut self.disk_faults)?;
        self.log.sync(self.calls);
        Ok(())
    }
}

impl Host for MemHost {
    /// Gives the least of the piece, the bytes left and the bound.
    fn take(&mut self, into: &mut [u8]) -> Result<usize, Failed>
        ensures within { IfOk result (λ n. n ≤ length into.old) }
        ensures counts { CountsTake (outside_of self.old) (outside_of self.new) result }
        ensures takes { Takes (length into.old) into.new (outside_of self.old) (outside_of self.new) result }
        ensures fails { IsErr result ↔ IsTrue (is_due self.old) }
        ensures count { IfOk result (λ n. n ≡ take_count (length into.old) self.old) }
        ensures after { self.new ≡ after_take (length into.old) self.old }
    {
        let due = self.begin();
        answer(due.is_some(), &mut self.take_faults)?;
        Ok(self.give(into))
    }

    /// Says the lesser of the piece and the bound.
    fn say(&mut self, from: &[u8]) -> Result<usize, Failed>
        ensures within { IfOk result (λ n. n ≤ length from.now) }
        ensures progress { IfOk result (λ n. 0 < length from.now → 0 < n) }
        ensures counts { CountsSay (outside_of self.old) (outside_of self.new) result }
        ensures says { Says from.now (outside_of self.old) (outside_of self.new) result }
        ensures fails { IsErr result ↔ IsTrue (is_refused (length (said_front from.now self.old)) self.old) }
        ensures count { IfOk result (λ n. n ≡ bounded self.old.most (length from.now)) }
        ensures after { self.new ≡ after_say from.now self.old }
    {
        let due = self.begin();
        let front = &from[..self.bound(from.len())];
        let fits = self.log.has_room(front.len());
        answer(due.is_some() || !fits, &mut self.say_faults)?;
        self.log.say(self.calls, front);
        Ok(front.len())
    }
}
