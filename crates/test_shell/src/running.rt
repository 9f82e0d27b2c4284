//! Runs of the whole program, each with its status.
ghost use Rattle.host_io.specs.Disk.{IsSettled};
ghost use Rattle.host_io.specs.Memory.{outside_of};

use crate::unviewed::{host, run, serve};
use host_io::{Effect, Fault, MemHost};
use mk_value::{Bytes, Memory};
use session::start;
use shell::Status;
use std::alloc::Global;
use std::process::Abort;
use std::test::Fail;
use storage::Mode;

const ROOM: usize = 16_384;

const CAP: u64 = 4096;

/// The words, the file, the input, the call that fails, the most bytes of a piece; the status, and what was said.
type Case = (
    &'static [&'static str],
    &'static [u8],
    &'static [u8],
    u64,
    usize,
    Status,
    &'static [u8],
);

const RIGHT: &[&str] = &["mkshell", "f"];

const QUIT: &[u8] = b"quit\n";

const USAGE: &[u8] =
    b"usage mkshell [--cap N] [--extend] [--read] [--check] [--sample X --count N] [--save] [--load] [--aside BASE] FILE\n";

/// No call fails.
const NEVER: u64 = u64::MAX;

const CUT: &[u8] = b"getas a[x:I]\n\n  getas  b[s[t:S]] \nadd a 1\n\xff\nquit";

const SAID: &[u8] = b"ok mkshell 0\nok a[x:I]\nok b[s[t:S]]\nok 0\nerr 2 syntax 0\nok quit\n";

const SPACES: &[u8] =
    b"getas c[v:I]\ninsert c 0 64\ncommit\nspace\nset c 0 v 1\ncommit\nspace\nset c 0 v 15\ncommit\nspace\n\
set c 0 v 32768\ncommit\nspace\nset c 0 v 0\ncommit\nspace\n";

const SPACES_SAID: &[u8] =
    b"ok mkshell 0\nok c[v:I]\nok 64\nok commit 1\nok space 1 256 48\nok\nok commit 2\nok space 2 304 64\nok\n\
ok commit 3\nok space 3 352 80\nok\nok commit 4\nok space 4 608 304\nok\nok commit 5\nok space 5 608 48\n";

const CAPPED: &[u8] =
    b"getas c[v:I]\ninsert c 0 64\ncommit\nset c 0 v 1\ncommit\nset c 0 v 15\ncommit\nset c 0 v 32768\ncommit\n\
set c 0 v 0\ncommit\ninsert c 64 4000 1\ncommit\nremove c 0 4064\ncommit\n";

const CAPPED_SAID: &[u8] =
    b"ok mkshell 0\nok c[v:I]\nok 64\nok commit 1\nok\nok commit 2\nok\nok commit 3\nok\nok commit 4\nok\nok commit 5\n\
ok 4064\nerr 10 full 800 608\nok 0\nok commit 6\n";

const SAMPLE: &[&str] = &["mkshell", "--sample", "1", "--count", "0", "f"];

const LOAD: &[&str] = &["mkshell", "--load", "f"];

/// The stream of `people[name:S,age:I]` with the row `("Ann",31)`.
const STREAM: &[u8] =
    b"MKST\x01\0\0\0\x01\0\0\0\x14\0\0\0people[name:S,age:I]\x01\0\0\0\x03\0\0\0Ann\x1f\0\0\0";

/// The same without its last byte, and with one more.
const SHORT: &[u8] =
    b"MKST\x01\0\0\0\x01\0\0\0\x14\0\0\0people[name:S,age:I]\x01\0\0\0\x03\0\0\0Ann\x1f\0\0";

const LONG: &[u8] =
    b"MKST\x01\0\0\0\x01\0\0\0\x14\0\0\0people[name:S,age:I]\x01\0\0\0\x03\0\0\0Ann\x1f\0\0\0\0";

const LOADED: &[u8] = b"ok load 1 1\n";

static CASES: [Case; 47] = [
    (
        RIGHT,
        b"",
        b"getas people[name:S,age:I]\nquit\n",
        NEVER,
        0,
        Status::Done,
        b"ok mkshell 0\nok people[name:S,age:I]\nok quit\n",
    ),
    (RIGHT, b"", b"", NEVER, 0, Status::Done, b"ok mkshell 0\n"),
    (
        RIGHT,
        b"\x00",
        QUIT,
        NEVER,
        0,
        Status::Refused,
        b"refused notastore\n",
    ),
    (
        &["mkshell", "--read", "f"],
        b"",
        QUIT,
        NEVER,
        0,
        Status::Refused,
        b"refused empty\n",
    ),
    (
        &["mkshell", "--check", "f"],
        b"",
        QUIT,
        NEVER,
        0,
        Status::Refused,
        b"refused empty\n",
    ),
    // Commits that change one column, of 64 values that take more bits and fewer again.
    (RIGHT, b"", SPACES, NEVER, 0, Status::Done, SPACES_SAID),
    (
        &["mkshell", "--cap", "608", "f"],
        b"",
        CAPPED,
        NEVER,
        0,
        Status::Done,
        CAPPED_SAID,
    ),
    (&[], b"", QUIT, NEVER, 0, Status::Usage, USAGE),
    (&["mkshell"], b"", QUIT, NEVER, 0, Status::Usage, USAGE),
    (&["mkshell", ""], b"", QUIT, NEVER, 0, Status::Usage, USAGE),
    (
        &["mkshell", "f", "g"],
        b"",
        QUIT,
        NEVER,
        0,
        Status::Usage,
        USAGE,
    ),
    // The file is attached by call 0, measured by call 1, written by call 2 and synced by call 3.
    (RIGHT, b"", QUIT, 0, 0, Status::DiskFault, b""),
    (RIGHT, b"", QUIT, 1, 0, Status::DiskFault, b""),
    (RIGHT, b"", QUIT, 2, 0, Status::DiskFault, b""),
    (RIGHT, b"", QUIT, 3, 0, Status::DiskFault, b""),
    // The greeting is said by call 4, and the input is taken by call 5.
    (RIGHT, b"", QUIT, 4, 0, Status::SayFault, b""),
    (RIGHT, b"", QUIT, 5, 0, Status::TakeFault, b"ok mkshell 0\n"),
    // A sample takes no input, and is made in an empty file. Its file is attached by call 0, measured by calls 1 and 2, made by calls 3 and 4,
    // and committed from call 5 on. Where the cap forbids the commit, call 5 says so.
    (
        SAMPLE,
        b"",
        QUIT,
        NEVER,
        0,
        Status::Done,
        b"ok sample 0 0 1\n",
    ),
    (
        SAMPLE,
        b"\x00",
        QUIT,
        NEVER,
        0,
        Status::Refused,
        b"refused notempty\n",
    ),
    (SAMPLE, b"", QUIT, 1, 0, Status::DiskFault, b""),
    (SAMPLE, b"", QUIT, 2, 0, Status::DiskFault, b""),
    (SAMPLE, b"", QUIT, 4, 0, Status::DiskFault, b""),
    (SAMPLE, b"", QUIT, 5, 0, Status::Done, b"err 9 disk\n"),
    (
        &[
            "mkshell", "--cap", "208", "--sample", "1", "--count", "0", "f",
        ],
        b"",
        QUIT,
        5,
        0,
        Status::SayFault,
        b"",
    ),
    // A stream is loaded into an empty file, however it is cut, and refused at its first wrong field.
    (LOAD, b"", STREAM, NEVER, 0, Status::Done, LOADED),
    (LOAD, b"", STREAM, NEVER, 1, Status::Done, LOADED),
    (LOAD, b"", STREAM, NEVER, 7, Status::Done, LOADED),
    (
        LOAD,
        b"\x00",
        STREAM,
        NEVER,
        0,
        Status::Refused,
        b"refused notempty\n",
    ),
    (
        LOAD,
        b"",
        SHORT,
        NEVER,
        0,
        Status::Refused,
        b"refused badstream 47\n",
    ),
    (
        LOAD,
        b"",
        LONG,
        NEVER,
        1,
        Status::Refused,
        b"refused badstream 51\n",
    ),
    (
        LOAD,
        b"",
        b"",
        NEVER,
        0,
        Status::Refused,
        b"refused badstream 0\n",
    ),
    (
        &["mkshell", "--load", "--cap", "352", "f"],
        b"",
        STREAM,
        NEVER,
        0,
        Status::Done,
        LOADED,
    ),
    (
        &["mkshell", "--load", "--cap", "351", "f"],
        b"",
        STREAM,
        NEVER,
        0,
        Status::Refused,
        b"refused full 352 351\n",
    ),
    // The file is attached by call 0 and measured by call 1; calls 2 and 3 take the stream and its end; calls 4 and 5 make the store, and its commit has
    // five writes, a sync, a write and a sync. Call 14 says the line.
    (LOAD, b"", STREAM, 0, 0, Status::DiskFault, b""),
    (LOAD, b"", STREAM, 1, 0, Status::DiskFault, b""),
    (LOAD, b"", STREAM, 2, 0, Status::TakeFault, b""),
    (LOAD, b"", STREAM, 3, 0, Status::TakeFault, b""),
    (LOAD, b"", STREAM, 4, 0, Status::DiskFault, b""),
    (LOAD, b"", STREAM, 6, 0, Status::DiskFault, b""),
    (LOAD, b"", STREAM, 13, 0, Status::DiskFault, b""),
    (LOAD, b"", STREAM, 14, 0, Status::SayFault, b""),
    // Files that are not saved.
    (
        &["mkshell", "--save", "f"],
        b"",
        QUIT,
        NEVER,
        0,
        Status::Refused,
        b"refused empty\n",
    ),
    (
        &["mkshell", "--save", "f"],
        b"\x00",
        QUIT,
        NEVER,
        0,
        Status::Refused,
        b"refused notastore\n",
    ),
    // The same lines, however they are cut.
    (RIGHT, b"", CUT, NEVER, 1, Status::Done, SAID),
    (RIGHT, b"", CUT, NEVER, 2, Status::Done, SAID),
    (RIGHT, b"", CUT, NEVER, 3, Status::Done, SAID),
    (RIGHT, b"", CUT, NEVER, 7, Status::Done, SAID),
];

/// The status of a run, and what was said.
fn run_over(alloc: Global, case: &Case) -> Result<(Status, Bytes), Memory> {
    let (words, file, input, fails, most, ..) = *case;
    let script = [Fault {
        call: fails,
        effect: Effect::Nothing,
    }];
    let mut host = MemHost::new(alloc, file, input, &script, most, ROOM)?;
    let status = run(alloc, words, &mut host);
    Ok((status, Bytes::from_slice(alloc, host.said())?))
}

/// A run ends with its status, and has said just this.
fn holds(rt: &impl Abort, alloc: Global, case: &Case) -> Result<(), Fail> {
    let (.., status, said) = *case;
    let (ended, spoke) = run_over(alloc, case)?;
    assert_eq!(rt; ended, status);
    assert_eq!(rt; spoke.as_slice(), said);
    Ok(())
}

#[test]
fn each_status_has_its_words(rt: HostRuntime) -> Result<(), Fail> {
    for case in &CASES {
        holds(&rt, rt.alloc(), case)?;
    }
    Ok(())
}

/// How a session over a host's file ends that takes five bytes at most.
fn serve_five(alloc: Global, host: &mut MemHost) -> Result<Status, Fail>
    requires { IsSettled (outside_of host.old).now.disk }
{
    let mut session = start(alloc, host, Mode::Write, CAP)?;
    Ok(serve(alloc, &mut session, host, 5)?)
}

/// A run that takes five bytes of two lines: `size` is answered, and one more byte comes.
#[test]
fn a_budget_is_kept(rt: HostRuntime) -> Result<(), Fail> {
    let mut host = host(rt.alloc(), b"", b"size\nquit\n", &[])?;
    assert_eq!(rt; serve_five(rt.alloc(), &mut host)?, Status::TooMuch);
    assert_eq!(rt; host.said(), b"err 2 syntax 4\n".as_slice());
    Ok(())
}

/// What a run with `--save` says of this file.
fn saved(rt: &impl Abort, alloc: Global, file: &[u8]) -> Result<Bytes, Fail> {
    let mut host = host(alloc, file, b"", &[])?;
    assert_eq!(rt;
        run(alloc, &["mkshell", "--save", "f"], &mut host),
        Status::Done
    );
    assert_eq!(rt; host.image(), file);
    Ok(Bytes::from_slice(alloc, host.said())?)
}

/// What is loaded is said again.
#[test]
fn a_stream_comes_back(rt: HostRuntime) -> Result<(), Fail> {
    let mut made = host(rt.alloc(), b"", STREAM, &[])?;
    assert_eq!(rt; run(rt.alloc(), LOAD, &mut made), Status::Done);
    let stream = saved(&rt, rt.alloc(), made.image())?;
    assert_eq!(rt; stream.as_slice(), STREAM);
    Ok(())
}
