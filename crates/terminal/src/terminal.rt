ghost use Rattle.std.specs.Prelude.{◌≡◌, IfOk};
ghost use Rattle.host_io.specs.Calls.{Counts};
ghost use Rattle.real_host.specs.Untold.{untold};

use crate::screen::Screen;
use host_io::{Disk, Failed, Host};

/// One file, standard input and standard output, with a person at them. It tells no bytes.
#[derive(Drop)]
pub struct Terminal {
    screen: Screen,
    disk_faults: u64,
    take_faults: u64,
    say_faults: u64,
}

impl Terminal {
    /// A host with no file yet, none of whose calls has failed.
    pub fn new(runtime: HostRuntime) -> Terminal {
        Terminal {
            screen: Screen::new(runtime),
            disk_faults: 0,
            take_faults: 0,
            say_faults: 0,
        }
    }
}

/// The answer of a call, with its failure counted, up to the last number of the count.
fn counted<T: Drop>(answer: Result<T, Failed>, faults: &mut u64) -> Result<T, Failed>
    ensures counts { Counts faults.old faults.new result }
    ensures value { IfOk result (λ value. answer ≡ Ok value) }
{
    if answer.is_err() {
        *faults = faults.saturating_add(1);
    }
    answer
}

impl Disk for Terminal {
    ghost tells = { ⊥ };

    ghost outside = { λ t. untold t.disk_faults t.take_faults t.say_faults };

    fn attach(&mut self, name: &str, create: bool) -> Result<(), Failed> {
        let answer = self.screen.attach(name, create);
        counted(answer, &mut self.disk_faults)
    }

    fn len(&mut self) -> Result<u64, Failed> {
        let answer = self.screen.host.len();
        counted(answer, &mut self.disk_faults)
    }

    fn read_at(&mut self, at: u64, into: &mut [u8]) -> Result<(), Failed> {
        let answer = self.screen.host.read_at(at, into);
        counted(answer, &mut self.disk_faults)
    }

    fn write_at(&mut self, at: u64, from: &[u8]) -> Result<(), Failed> {
        let answer = self.screen.host.write_at(at, from);
        counted(answer, &mut self.disk_faults)
    }

    fn sync(&mut self) -> Result<(), Failed> {
        let answer = self.screen.host.sync();
        counted(answer, &mut self.disk_faults)
    }
}

impl Host for Terminal {
    fn take(&mut self, into: &mut [u8]) -> Result<usize, Failed> {
        let answer = self.screen.give(into);
        counted(answer, &mut self.take_faults)
    }

    /// Shows a reply, which is said whole.
    fn say(&mut self, from: &[u8]) -> Result<usize, Failed> {
        let answer = self.screen.say(from);
        counted(answer, &mut self.say_faults)?;
        Ok(from.len())
    }
}
