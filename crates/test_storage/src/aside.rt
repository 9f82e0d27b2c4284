//! A store over an aside disk: the base is served and never written, and all goes to another file. The bytes, the places and the numbers
//! of calls were worked out by hand.
ghost use Rattle.host_io.specs.Disk.{IsSettled};
ghost use Rattle.host_io.specs.Memory.{outside_of};

use crate::call::{CAP, note, same_number};
use crate::texts::{name, path, value_for};
use crate::worked::{NEW, WORKED};
use aside_disk::{AsideError, BaseRecord, open_aside};
use host_io::{Disk, Effect, Failed, Fault, Host, MemHost};
use mk_value::{Bytes, Memory};
use std::alloc::Global;
use std::process::Abort;
use std::test::Fail;
use storage::{Mode, Space, Store};

/// How many writes, syncs and bytes a host has room for.
const ROOM: usize = 100_000;

/// The number of the worked file.
const NUMBER: u64 = 1;

/// The aside file of the worked file after one commit, which wrote five pieces: it closed the gate of slot 0, put the age and the
/// directory, then the body of the mark, and opened the gate. The mark of slot 1 is chosen, with the number 3 and a log of 352 bytes.
const ASIDE: [u8; 544] = [
    0x4d, 0x4b, 0x43, 0x4f, 0x4c, 0x53, 0x0d, 0x0a, 0x00, 0x00, 0x00, 0x00, 0x00, 0x00, 0x00, 0x00,
    0x00, 0x00, 0x00, 0x00, 0x00, 0x00, 0x00, 0x00, 0x00, 0x00, 0x00, 0x00, 0x00, 0x00, 0x00, 0x00,
    0x00, 0x00, 0x00, 0x00, 0x00, 0x00, 0x00, 0x00, 0x00, 0x00, 0x00, 0x00, 0x00, 0x00, 0x00, 0x00,
    0x00, 0x00, 0x00, 0x00, 0x00, 0x00, 0x00, 0x00, 0x00, 0x00, 0x00, 0x00, 0x00, 0x00, 0x00, 0x00,
    0xa5, 0x01, 0x00, 0x00, 0x00, 0x00, 0x00, 0x00, 0x02, 0x00, 0x00, 0x00, 0x00, 0x00, 0x00, 0x00,
    0xc0, 0x00, 0x00, 0x00, 0x00, 0x00, 0x00, 0x00, 0x40, 0x01, 0x00, 0x00, 0x00, 0x00, 0x00, 0x00,
    0x00, 0x02, 0x00, 0x00, 0x00, 0x00, 0x00, 0x00, 0x00, 0x00, 0x00, 0x00, 0x00, 0x00, 0x00, 0x00,
    0x00, 0x00, 0x00, 0x00, 0x00, 0x00, 0x00, 0x00, 0x00, 0x00, 0x00, 0x00, 0x00, 0x00, 0x00, 0x00,
    0xa5, 0x01, 0x00, 0x00, 0x00, 0x00, 0x00, 0x00, 0x03, 0x00, 0x00, 0x00, 0x00, 0x00, 0x00, 0x00,
    0xc0, 0x00, 0x00, 0x00, 0x00, 0x00, 0x00, 0x00, 0x60, 0x01, 0x00, 0x00, 0x00, 0x00, 0x00, 0x00,
    0x20, 0x02, 0x00, 0x00, 0x00, 0x00, 0x00, 0x00, 0x00, 0x00, 0x00, 0x00, 0x00, 0x00, 0x00, 0x00,
    0x00, 0x00, 0x00, 0x00, 0x00, 0x00, 0x00, 0x00, 0x00, 0x00, 0x00, 0x00, 0x00, 0x00, 0x00, 0x00,
    0x4d, 0x4b, 0x41, 0x53, 0x49, 0x44, 0x45, 0x00, 0x60, 0x01, 0x00, 0x00, 0x00, 0x00, 0x00, 0x00,
    0x01, 0x00, 0x00, 0x00, 0x00, 0x00, 0x00, 0x00, 0x00, 0x00, 0x00, 0x00, 0x00, 0x00, 0x00, 0x00,
    0x00, 0x00, 0x00, 0x00, 0x00, 0x00, 0x00, 0x00, 0x00, 0x00, 0x00, 0x00, 0x00, 0x00, 0x00, 0x00,
    0x00, 0x00, 0x00, 0x00, 0x00, 0x00, 0x00, 0x00, 0x00, 0x00, 0x00, 0x00, 0x00, 0x00, 0x00, 0x00,
    0x40, 0x00, 0x00, 0x00, 0x00, 0x00, 0x00, 0x00, 0x01, 0x00, 0x00, 0x00, 0x00, 0x00, 0x00, 0x00,
    0x00, 0x00, 0x00, 0x00, 0x00, 0x00, 0x00, 0x00, 0x00, 0x00, 0x00, 0x00, 0x00, 0x00, 0x00, 0x00,
    0xc0, 0x00, 0x00, 0x00, 0x00, 0x00, 0x00, 0x00, 0x10, 0x00, 0x00, 0x00, 0x00, 0x00, 0x00, 0x00,
    0x20, 0x00, 0x00, 0x00, 0x00, 0x00, 0x00, 0x00, 0x00, 0x00, 0x00, 0x00, 0x00, 0x00, 0x00, 0x00,
    0x60, 0x01, 0x00, 0x00, 0x00, 0x00, 0x00, 0x00, 0x60, 0x00, 0x00, 0x00, 0x00, 0x00, 0x00, 0x00,
    0x01, 0x00, 0x00, 0x00, 0x14, 0x00, 0x00, 0x00, 0x70, 0x65, 0x6f, 0x70, 0x6c, 0x65, 0x5b, 0x6e,
    0x61, 0x6d, 0x65, 0x3a, 0x53, 0x2c, 0x61, 0x67, 0x65, 0x3a, 0x49, 0x5d, 0x01, 0x00, 0x00, 0x00,
    0x02, 0xd0, 0x00, 0x00, 0x00, 0x00, 0x00, 0x00, 0x00, 0x01, 0x00, 0x00, 0x00, 0x00, 0x00, 0x00,
    0x00, 0xe0, 0x00, 0x00, 0x00, 0x00, 0x00, 0x00, 0x00, 0x03, 0x00, 0x00, 0x00, 0x00, 0x00, 0x00,
    0x00, 0x00, 0x00, 0x00, 0x00, 0x08, 0xc0, 0x00, 0x00, 0x00, 0x00, 0x00, 0x00, 0x00, 0x01, 0x00,
    0x00, 0x00, 0x00, 0x00, 0x00, 0x00, 0x00, 0x00, 0x00, 0x00, 0x00, 0x00, 0x00, 0x00, 0x00, 0x00,
    0x41, 0x00, 0x00, 0x00, 0x00, 0x00, 0x00, 0x00, 0x3f, 0x00, 0x00, 0x00, 0x00, 0x00, 0x00, 0x00,
    0x01, 0x00, 0x00, 0x00, 0x00, 0x00, 0x00, 0x02, 0x00, 0x00, 0x00, 0x00, 0x00, 0x00, 0x00, 0x60,
    0x01, 0x00, 0x00, 0x00, 0x00, 0x00, 0x00, 0x56, 0x00, 0x00, 0x00, 0x00, 0x00, 0x00, 0x00, 0xc0,
    0x01, 0x00, 0x00, 0x00, 0x00, 0x00, 0x00, 0x00, 0x00, 0x00, 0x00, 0x00, 0x00, 0x00, 0x00, 0x00,
    0x00, 0x00, 0x00, 0x00, 0x00, 0x00, 0x00, 0x00, 0x00, 0x00, 0x00, 0x00, 0x00, 0x00, 0x00, 0x00,
    0x40, 0x00, 0x00, 0x00, 0x00, 0x00, 0x00, 0x00, 0x01, 0x00, 0x00, 0x00, 0x00, 0x00, 0x00, 0x00,
    0xa5, 0x00, 0x00, 0x00, 0x00, 0x00, 0x00, 0x00, 0x00, 0x00, 0x00, 0x00, 0x00, 0x00, 0x00, 0x00,
];

/// Sets the age of the first row of the store of a disk, and commits it.
fn commit_age<D: Disk>(alloc: Global, disk: &mut D, age: &str) -> Result<Space, Fail>
    requires { D.tells → IsSettled (D.outside disk.old).now.disk }
{
    let mut store = Store::open(alloc, disk, Mode::Write, u64::from(CAP))?;
    let people = path(alloc, "people")?;
    let property = name("age")?;
    let value = value_for(alloc, store.views(), &people, &property, age)?;
    store.set(&people, 0, &property, &value)?;
    let plan = store.plan(alloc, &note(alloc, "")?)?;
    store.carry(disk, plan)?;
    Ok(store.space())
}

/// Serves the worked file, and commits an age.
fn commit_aside(alloc: Global, host: &mut MemHost, age: &str) -> Result<Space, Fail>
    requires { IsSettled (outside_of host.old).now.disk }
{
    let base = Bytes::from_slice(alloc, &WORKED)?;
    let mut aside = open_aside(base, NUMBER, host)?;
    commit_age(alloc, &mut aside, age)
}

/// The space of the store that is served over the worked file.
fn space_over(alloc: Global, file: &[u8]) -> Result<Space, Fail> {
    let mut host = MemHost::new(alloc, file, b"", &[], 0, ROOM)?;
    let base = Bytes::from_slice(alloc, &WORKED)?;
    let mut aside = open_aside(base, NUMBER, &mut host)?;
    let store = Store::open(alloc, &mut aside, Mode::Write, u64::from(CAP))?;
    Ok(store.space())
}

#[test]
fn a_commit_goes_to_the_aside_file(rt: HostRuntime) -> Result<(), Fail> {
    let mut host = MemHost::new(rt.alloc(), b"", b"", &[], 0, ROOM)?;
    let committed = Space {
        number: 2,
        end: 448,
        used: 144,
    };
    assert_eq!(rt; commit_aside(rt.alloc(), &mut host, "32")?, committed);
    assert_eq!(rt; host.image(), ASIDE.as_slice());
    assert_eq!(rt; space_over(rt.alloc(), &ASIDE)?, committed);
    Ok(())
}

/// A file that is refused, and why.
struct Refused {
    title: &'static str,
    file: &'static [u8],
    base: &'static [u8],
    number: u64,
    refusal: AsideError,
}

static REFUSED: [Refused; 3] = [
    Refused {
        title: "another base",
        file: &ASIDE,
        base: &NEW,
        number: 0,
        refusal: AsideError::OtherBase(
            BaseRecord {
                length: 352,
                number: 1,
            },
            BaseRecord {
                length: 208,
                number: 0,
            },
        ),
    },
    Refused {
        title: "too short for a header",
        file: &[0; 191],
        base: &WORKED,
        number: 1,
        refusal: AsideError::At(0),
    },
    Refused {
        title: "a store, whose directory is no log",
        file: &WORKED,
        base: &WORKED,
        number: 1,
        refusal: AsideError::At(128),
    },
];

/// Why the aside file is refused, if it is.
fn refusal(alloc: Global, refused: &Refused) -> Result<Option<AsideError>, Memory> {
    let base = Bytes::from_slice(alloc, refused.base)?;
    let mut host = MemHost::new(alloc, refused.file, b"", &[], 0, ROOM)?;
    if base.len() > 1000 {
        return Ok(None);
    }
    match open_aside(base, refused.number, &mut host) {
        Ok(_aside) => Ok(None),
        Err(error) => Ok(Some(error)),
    }
}

#[test]
fn a_file_is_refused_by_its_first_cause(rt: HostRuntime) -> Result<(), Fail> {
    for refused in &REFUSED {
        assert_eq!(rt;
            refusal(rt.alloc(), refused)?,
            Some(refused.refusal),
            "{}",
            refused.title
        );
    }
    Ok(())
}

/// A new aside file takes a look, a write and a sync.
const MADE: u64 = 3;

/// The commit takes five writes, four calls for the first sync, and six for each of the two others.
const CALLS: u64 = 21;

/// The number that each image of a crash after so many calls of the commit opens to. Only the last gate decides: pending, it is open as it
/// was written, and closed as at the last sync or torn.
fn numbers_after(made: u64) -> [u64; 3] {
    if made >= CALLS {
        return [2, 2, 2];
    }
    if made + 1 == CALLS {
        return [1, 2, 1];
    }
    [1, 1, 1]
}

const EFFECTS: [Effect; 3] = [Effect::Nothing, Effect::Whole, Effect::Ones];

/// Each image of a crash after so many calls opens to its number.
fn leaves(alloc: Global, host: &MemHost, made: u64) -> Result<(), Fail> {
    let after = MADE.saturating_add(made);
    if after > host.calls() {
        return Err(Fail::new("no such call"));
    }
    for (choice, wanted) in EFFECTS.iter().zip(numbers_after(made)) {
        let image = host.crash(after, *choice)?;
        let space = space_over(alloc, image.as_slice())?;
        same_number("a crash over an aside disk", space.number, wanted)?;
    }
    Ok(())
}

#[test]
fn a_crash_leaves_the_commit_before_or_this_one(rt: HostRuntime) -> Result<(), Fail> {
    let mut host = MemHost::new(rt.alloc(), b"", b"", &[], 0, ROOM)?;
    let _space = commit_aside(rt.alloc(), &mut host, "32")?;
    assert_eq!(rt; host.calls(), MADE + CALLS);
    for made in 0..=CALLS {
        leaves(rt.alloc(), &host, made)?;
    }
    Ok(())
}

/// Puts bytes behind those of a disk.
fn add_more<D: Disk>(disk: &mut D) -> Result<(), Failed> {
    let end = disk.len()?;
    disk.write_at(end, b"more")
}

/// The bytes of a disk that has eight.
fn read_eight<D: Disk>(disk: &mut D) -> Result<[u8; 8], Fail> {
    let mut piece = [0; 8];
    if disk.len()? != 8 {
        return Err(Fail::new("another length"));
    }
    disk.read_at(0, &mut piece)?;
    Ok(piece)
}

/// Puts bytes behind those of a disk and syncs them, each a second time where it failed.
fn add_again<D: Disk>(disk: &mut D) -> Result<[u8; 8], Fail> {
    if add_more(disk).is_err() {
        add_more(disk)?;
    }
    if disk.sync().is_err() {
        disk.sync()?;
    }
    read_eight(disk)
}

/// The bytes of four that an aside file stands for, with four more.
fn eight_over(alloc: Global, file: &[u8]) -> Result<[u8; 8], Fail> {
    let mut host = MemHost::new(alloc, file, b"", &[], 0, ROOM)?;
    let base = Bytes::from_slice(alloc, b"base")?;
    let mut aside = open_aside(base, 0, &mut host)?;
    read_eight(&mut aside)
}

/// Serves four bytes, and puts four more behind them.
fn add_aside(alloc: Global, host: &mut MemHost) -> Result<[u8; 8], Fail>
    requires { IsSettled (outside_of host.old).now.disk }
{
    let base = Bytes::from_slice(alloc, b"base")?;
    let mut aside = open_aside(base, 0, host)?;
    add_again(&mut aside)
}

/// Where this call fails with this effect, the next one goes on, and the file opens to what was synced.
fn goes_on(alloc: Global, call: u64, effect: Effect) -> Result<bool, Fail> {
    let script = [Fault { call, effect }];
    let mut host = MemHost::new(alloc, b"", b"", &script, 0, ROOM)?;
    let read = add_aside(alloc, &mut host)?;
    let again = eight_over(alloc, host.image())?;
    Ok(read == *b"basemore" && again == read)
}

/// A record is put by one call, and synced by four.
#[test]
fn a_sync_goes_on_after_a_fault(rt: HostRuntime) -> Result<(), Fail> {
    for call in MADE..MADE + 5 {
        for effect in EFFECTS {
            assert!(rt;
                goes_on(rt.alloc(), call, effect)?,
                "call {call}, {effect:?}"
            );
        }
    }
    Ok(())
}

#[test]
fn input_and_output_pass_through(rt: HostRuntime) -> Result<(), Fail> {
    let mut host = MemHost::new(rt.alloc(), b"", b"xyz", &[], 0, ROOM)?;
    let base = Bytes::from_slice(rt.alloc(), b"base")?;
    let mut aside = open_aside(base, 0, &mut host)?;
    let mut piece = [0; 8];
    assert_eq!(rt; aside.take(&mut piece)?, 3);
    assert_eq!(rt; &piece[..3], b"xyz".as_slice());
    assert_eq!(rt; aside.say(b"said")?, 4);
    aside.look();
    let disk = aside.into_disk();
    assert_eq!(rt; disk.said(), b"said".as_slice());
    Ok(())
}
