ghost use Rattle.std.specs.Prelude.{◌≡◌, ◌↔◌, ◌+◌, ◌<◌, ◌≤◌, ◌^◌, length, IfOk, IsErr, IsTrue, OnOk};
ghost use Rattle.host_io.specs.Calls.{Counts};
ghost use Rattle.real_host.specs.Untold.{untold};

use host_io::{Disk, Failed, Host};
use std::fs::{File, Metadata, OpenOptions};
use std::io::{ErrorKind, Read, Write};
use std::os::fd::AsRawFd;
use std::os::unix::fs::{FileExt, MetadataExt};
use std::path::{Path, PathBuf};
use std::{fs, io};

/// The greatest length of a file.
const MAX_LEN: u64 = (1 << 63) - 1;

/// The last of the three descriptors that a program is started with: its input, its output, and where it tells errors.
const LAST_STREAM: i32 = 2;

/// One file, standard input and standard output. It tells no bytes: what reaches the file and the terminal is the
/// machine's own.
#[derive(Drop)]
pub struct RealHost {
    runtime: HostRuntime,
    file: Option<File>,
    sync_failed: bool,
    disk_faults: u64,
    take_faults: u64,
    say_faults: u64,
}

impl RealHost {
    /// A host with no file yet, none of whose calls has failed.
    pub fn new(runtime: HostRuntime) -> RealHost {
        RealHost {
            runtime,
            file: None,
            sync_failed: false,
            disk_faults: 0,
            take_faults: 0,
            say_faults: 0,
        }
    }

    fn file(&self) -> io::Result<&File> {
        self.file
            .as_ref()
            .ok_or(io::Error::from(ErrorKind::NotFound))
    }
}

/// The answer of a call, with its failure counted, up to the last number of the count.
fn counted<T: Drop>(answer: io::Result<T>, faults: &mut u64) -> Result<T, Failed>
    ensures counts { Counts faults.old faults.new result }
    ensures value { IfOk result (λ value. answer ≡ Ok value) }
{
    match answer {
        Ok(value) => Ok(value),
        Err(_) => {
            *faults = faults.saturating_add(1);
            Err(Failed)
        }
    }
}

/// Opens a regular file, and nothing else: a folder has no bytes, and a device would be written over. What is there is
/// looked at before it is opened, since opening a pipe waits for its other end, and once more when it is open.
///
/// What it gives is there to stay: the name of a file that is made, or that stands empty since it was, and the bytes that a
/// process wrote which was stopped before it synced them.
fn open(runtime: &HostRuntime, name: &str, create: bool) -> io::Result<File> {
    match fs::metadata(runtime, name) {
        Ok(found) if !found.is_file() => return Err(ErrorKind::InvalidInput.into()),
        _ => {}
    }
    let opened = OpenOptions::new()
        .read(true)
        .write(create)
        .create(create)
        .open(runtime, name)?;
    let file = apart_from_streams(opened)?;
    lock(&file, create)?;
    let found = file.metadata()?;
    if !found.is_file() {
        return Err(ErrorKind::InvalidInput.into());
    }
    if found.len() > 0 {
        settle(&file, create)?;
    } else if create {
        sync_folder(runtime, name, &found)?;
    }
    Ok(file)
}

/// The file, on a descriptor that no stream has. Who starts the program without an output leaves its descriptor free, and
/// what is said would be written into the file that took it.
fn apart_from_streams(file: File) -> io::Result<File> {
    if file.as_raw_fd() <= LAST_STREAM {
        return file.try_clone();
    }
    Ok(file)
}

/// Takes the file for one process that writes it, or for many that read it, until the process ends. It does not wait for
/// another that has it.
fn lock(file: &File, to_write: bool) -> io::Result<()> {
    if to_write {
        file.try_lock()?;
    } else {
        file.try_lock_shared()?;
    }
    Ok(())
}

/// Makes what a file holds outlast a crash. On a file system that nobody can write a sync is no call at all, and there is
/// nothing to sync.
fn settle(file: &File, to_write: bool) -> io::Result<()> {
    match file.sync_all() {
        Err(error) if !to_write && error.kind() == ErrorKind::InvalidInput => Ok(()),
        answer => answer,
    }
}

/// Makes the name of a new file outlast a crash: the folder is synced in which this file stands, behind all links.
fn sync_folder(runtime: &HostRuntime, name: &str, file: &Metadata) -> io::Result<()> {
    let place = behind_links(runtime, name)?;
    let found = fs::symlink_metadata(runtime, &place)?;
    if found.dev() != file.dev() || found.ino() != file.ino() {
        return Err(ErrorKind::NotFound.into());
    }
    let folder = match place.parent() {
        Some(folder) if !folder.as_os_str().is_empty() => folder,
        _ => Path::new("."),
    };
    File::open(runtime, folder)?.sync_all()
}

/// The name under which a file stands in its folder. One that is no link stays as it is, so that the folders above it need
/// not be known.
fn behind_links(runtime: &HostRuntime, name: &str) -> io::Result<PathBuf> {
    if fs::symlink_metadata(runtime, name)?.is_symlink() {
        return fs::canonicalize(runtime, name);
    }
    Ok(PathBuf::from_str(runtime.alloc(), name)?)
}

/// The file's length, which no file has of 2^63 bytes or more.
fn measure(file: &File) -> io::Result<u64>
    ensures { IfOk result (λ len. len < 2 ^ 63) }
{
    let len = file.metadata()?.len();
    if len > MAX_LEN {
        return Err(ErrorKind::InvalidData.into());
    }
    Ok(len)
}

/// Writes the bytes whole. A file ends below 2^63.
fn write(file: &File, at: u64, from: &[u8]) -> io::Result<()>
    requires { at + length from.now < 2 ^ 64 }
    ensures { OnOk result (at + length from.now < 2 ^ 63) }
{
    if at + from.len() as u64 > MAX_LEN {
        return Err(ErrorKind::InvalidInput.into());
    }
    file.write_all_at(from, at)
}

/// Makes what was written outlast a crash. After a sync that failed the machine may have forgotten what was pending, and
/// the next would succeed without it: so each later one fails.
fn sync(file: &File, failed: &mut bool) -> io::Result<()>
    ensures stays_failed { IsTrue failed.old → IsErr result }
    ensures remembers { IsTrue failed.new ↔ IsErr result }
{
    if *failed {
        return Err(ErrorKind::Other.into());
    }
    let answer = file.sync_all();
    *failed = answer.is_err();
    answer
}

/// The next bytes of standard input, whose end is an answer of 0. A read that a signal cut short is made again.
fn read_input(runtime: &HostRuntime, into: &mut [u8]) -> io::Result<usize>
    ensures { IfOk result (λ n. n ≤ length into.new) }
{
    let mut input = runtime.stdin();
    for _ in 0..u64::MAX {
        match input.read(into) {
            Err(error) if error.kind() == ErrorKind::Interrupted => {}
            answer => return answer,
        }
    }
    Err(ErrorKind::Interrupted.into())
}

/// The front of the bytes goes to standard output: none of a piece that is not empty is an error.
fn write_output(runtime: &HostRuntime, from: &[u8]) -> io::Result<usize>
    ensures within { IfOk result (λ n. n ≤ length from.now) }
    ensures progress { IfOk result (λ n. 0 < length from.now → 0 < n) }
{
    let mut output = runtime.stdout();
    for _ in 0..u64::MAX {
        match output.write(from) {
            Err(error) if error.kind() == ErrorKind::Interrupted => {}
            Ok(0) if !from.is_empty() => return Err(ErrorKind::WriteZero.into()),
            answer => return answer,
        }
    }
    Err(ErrorKind::Interrupted.into())
}

impl Disk for RealHost {
    ghost tells = { ⊥ };

    ghost outside = { λ host. untold host.disk_faults host.take_faults host.say_faults };

    fn attach(&mut self, name: &str, create: bool) -> Result<(), Failed> {
        let opened = open(&self.runtime, name, create);
        let file = counted(opened, &mut self.disk_faults)?;
        self.file = Some(file);
        Ok(())
    }

    fn len(&mut self) -> Result<u64, Failed> {
        let answer = match self.file() {
            Ok(file) => measure(file),
            Err(error) => Err(error),
        };
        counted(answer, &mut self.disk_faults)
    }

    fn read_at(&mut self, at: u64, into: &mut [u8]) -> Result<(), Failed> {
        let answer = match self.file() {
            Ok(file) => file.read_exact_at(into, at),
            Err(error) => Err(error),
        };
        counted(answer, &mut self.disk_faults)
    }

    fn write_at(&mut self, at: u64, from: &[u8]) -> Result<(), Failed> {
        let answer = match self.file() {
            Ok(file) => write(file, at, from),
            Err(error) => Err(error),
        };
        counted(answer, &mut self.disk_faults)
    }

    fn sync(&mut self) -> Result<(), Failed> {
        let answer = match &self.file {
            Some(file) => sync(file, &mut self.sync_failed),
            None => Err(ErrorKind::NotFound.into()),
        };
        counted(answer, &mut self.disk_faults)
    }
}

impl Host for RealHost {
    fn take(&mut self, into: &mut [u8]) -> Result<usize, Failed> {
        let answer = read_input(&self.runtime, into);
        counted(answer, &mut self.take_faults)
    }

    fn say(&mut self, from: &[u8]) -> Result<usize, Failed> {
        let answer = write_output(&self.runtime, from);
        counted(answer, &mut self.say_faults)
    }
}
