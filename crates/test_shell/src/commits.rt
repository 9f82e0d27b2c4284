//! A commit in a whole run: each of its calls fails, or the machine stops after it.
use crate::unviewed::{host, run};
use host_io::{Effect, Fault, MemHost};
use mk_value::{Bytes, Memory};
use shell::Status;
use std::alloc::Global;
use std::process::Abort;
use std::test::Fail;

const WORDS: &[&str] = &["mkshell", "f"];

/// A view of one row, committed.
const FIRST: &[u8] = b"getas people[name:S,age:I]\nadd people \"Ann\" 31\ncommit\n";

/// A second commit, and what is said up to its reply.
const SECOND: &[u8] = b"set people 0 age 32\ncommit\n";

const COMMITTED: &[u8] = b"ok mkshell 1\nok\nok commit 2\n";

/// More than the calls of a run of the second commit.
const CALLS: u64 = 64;

const EFFECTS: [Effect; 3] = [Effect::Nothing, Effect::Whole, Effect::Ones];

/// A second commit that fails, and what a session does then.
const AFTER: &[u8] = b"set people 0 age 32\ncommit\nadd people \"Bob\" 1\nreopen\nspace\nrevert\n";

/// The line before the commit.
const EDIT: &[u8] = b"set people 0 age 32\n";

/// How many calls a commit over an open slot makes before the one that opens its own gate.
const BEFORE_GATE: u64 = 6;

/// What a failing gate leaves, and what is said then.
static FAILED: [(Effect, &[u8]); 2] = [
    (
        Effect::Nothing,
        b"ok mkshell 1\nok\nerr 9 disk\nerr 11 shut\nok reopen 1\nok space 1 352 144\nerr 3 noname\n",
    ),
    (
        Effect::Whole,
        b"ok mkshell 1\nok\nerr 9 disk\nerr 11 shut\nok reopen 2\nok space 2 448 144\nok revert 1\n",
    ),
];

/// The file that the first commit leaves.
fn first_file(alloc: Global) -> Result<Bytes, Memory> {
    let mut host = host(alloc, b"", FIRST, &[])?;
    let _ = run(alloc, WORDS, &mut host);
    Bytes::from_slice(alloc, host.image())
}

/// The number in a greeting, where it is 1 or 2.
fn number_in(greeting: &[u8]) -> u64 {
    if greeting == b"ok mkshell 1\n".as_slice() {
        return 1;
    }
    if greeting == b"ok mkshell 2\n".as_slice() {
        return 2;
    }
    0
}

/// The number in the greeting of a run over an image, where it is 1 or 2.
fn number_of(alloc: Global, image: &[u8]) -> Result<u64, Memory> {
    let mut host = host(alloc, image, b"", &[])?;
    let _ = run(alloc, WORDS, &mut host);
    Ok(number_in(host.said()))
}

/// What a second commit has left stands for one of the two, and for the second where that was acknowledged.
fn stands(rt: &impl Abort, alloc: Global, host: &MemHost, fault: Fault) -> Result<(), Fail> {
    let number = number_of(alloc, host.image())?;
    let acknowledged = host.said().starts_with(COMMITTED);
    assert!(rt;
        number == 2 || (number == 1 && !acknowledged),
        "call {}, {:?}",
        fault.call,
        fault.effect
    );
    Ok(())
}

/// The second commit over a file, where one call fails.
fn fails_at(rt: &impl Abort, alloc: Global, file: &[u8], fault: Fault) -> Result<(), Fail> {
    let mut host = host(alloc, file, SECOND, &[fault])?;
    let _ = run(alloc, WORDS, &mut host);
    stands(rt, alloc, &host, fault)
}

#[test]
fn each_call_fails(rt: HostRuntime) -> Result<(), Fail> {
    let file = first_file(rt.alloc())?;
    for call in 0..CALLS {
        for effect in EFFECTS {
            fails_at(&rt, rt.alloc(), file.as_slice(), Fault { call, effect })?;
        }
    }
    Ok(())
}

/// The machine stops after so many calls of a run: the image stands for one of the two commits, and for the second after all of them.
fn stops_after(rt: &impl Abort, alloc: Global, host: &MemHost, after: u64) -> Result<(), Fail> {
    for choice in EFFECTS {
        if after > host.calls() {
            return Ok(());
        }
        let image = host.crash(after, choice)?;
        let number = number_of(alloc, image.as_slice())?;
        let committed = after == host.calls();
        assert!(rt;
            number == 2 || (number == 1 && !committed),
            "after {after}, {choice:?}"
        );
    }
    Ok(())
}

/// The machine stops after each call of a run that has committed.
fn stops(rt: &impl Abort, alloc: Global, host: &MemHost) -> Result<(), Fail> {
    assert_eq!(rt; host.said(), COMMITTED);
    for after in 0..CALLS {
        stops_after(rt, alloc, host, after)?;
    }
    Ok(())
}

/// The host of a run over a file that has committed for the second time.
fn second_run(rt: &impl Abort, alloc: Global, file: &[u8]) -> Result<MemHost, Memory> {
    let mut host = host(alloc, file, SECOND, &[])?;
    assert_eq!(rt; run(alloc, WORDS, &mut host), Status::Done);
    Ok(host)
}

#[test]
fn the_machine_stops(rt: HostRuntime) -> Result<(), Fail> {
    let file = first_file(rt.alloc())?;
    let host = second_run(&rt, rt.alloc(), file.as_slice())?;
    stops(&rt, rt.alloc(), &host)
}

/// The number of the call that opens the gate of the second commit. Before it come the calls of a run that ends where the commit would
/// begin, without the take that finds the end of the input, and the commit's own.
fn gate_call(alloc: Global, file: &[u8]) -> Result<u64, Memory> {
    let mut host = host(alloc, file, EDIT, &[])?;
    let _ = run(alloc, WORDS, &mut host);
    Ok(host.calls().saturating_sub(1).saturating_add(BEFORE_GATE))
}

/// The second commit over a file, where the call that opens its gate fails, and what is said then.
fn gate_fails(
    rt: &impl Abort,
    alloc: Global,
    file: &[u8],
    fault: Fault,
    said: &[u8],
) -> Result<(), Fail> {
    let mut host = host(alloc, file, AFTER, &[fault])?;
    assert_eq!(rt; run(alloc, WORDS, &mut host), Status::Done);
    assert_eq!(rt; host.said(), said);
    Ok(())
}

#[test]
fn a_failed_commit_is_found_or_not(rt: HostRuntime) -> Result<(), Fail> {
    let file = first_file(rt.alloc())?;
    let call = gate_call(rt.alloc(), file.as_slice())?;
    for (effect, said) in &FAILED {
        let effect = *effect;
        gate_fails(
            &rt,
            rt.alloc(),
            file.as_slice(),
            Fault { call, effect },
            said,
        )?;
    }
    Ok(())
}
