//! Runs over a base: the words, the refusals in their order, the bytes of the aside file, each failing call and each crash. The bytes were worked
//! out by hand: `docs/ASIDE.md` has them.
use crate::unviewed::{host, run, run_over};
use host_io::{Effect, Fault, MemHost};
use mk_value::{Bytes, Memory};
use shell::Status;
use std::alloc::Global;
use std::process::Abort;
use std::test::Fail;

const WORDS: &[&str] = &["mkshell", "--aside", "base", "f"];

/// A view of one row, committed: the base.
const FIRST: &[u8] = b"getas people[name:S,age:I]\nadd people \"Ann\" 31\ncommit\n";

/// A second commit, over the base, and what is said up to its reply.
const SECOND: &[u8] = b"set people 0 age 32\ncommit\n";

const COMMITTED: &[u8] = b"ok mkshell 1\nok\nok commit 2\n";

/// More than the calls of a run of the second commit.
const CALLS: u64 = 96;

const EFFECTS: [Effect; 3] = [Effect::Nothing, Effect::Whole, Effect::Ones];

/// How long the aside file is after the second commit, and the number of its chosen mark, which stands in slot 1.
const ASIDE_LENGTH: usize = 544;

const ASIDE_MARK: &[u8] = &[0xa5, 1, 0, 0, 0, 0, 0, 0, 3, 0, 0, 0, 0, 0, 0, 0];

/// The base: the file that the first commit leaves.
fn base_file(alloc: Global) -> Result<Bytes, Memory> {
    let mut host = host(alloc, b"", FIRST, &[])?;
    let _ = run(alloc, &["mkshell", "f"], &mut host);
    Bytes::from_slice(alloc, host.image())
}

/// A run over a base: its status, and the host that it leaves. The base is as before.
fn ran(
    rt: &impl Abort,
    alloc: Global,
    base: &[u8],
    file: &[u8],
    input: &[u8],
    script: &[Fault],
) -> Result<(Status, MemHost), Fail> {
    let mut host = host(alloc, file, input, script)?;
    let mut base_host = crate::unviewed::host(alloc, base, b"", &[])?;
    let status = run_over(alloc, WORDS, &mut host, &mut base_host);
    assert_eq!(rt; base_host.image(), base);
    Ok((status, host))
}

/// The aside file of a base after the second commit.
fn aside_file(rt: &impl Abort, alloc: Global, base: &[u8]) -> Result<Bytes, Fail> {
    let (_, host) = ran(rt, alloc, base, b"", SECOND, &[])?;
    Ok(Bytes::from_slice(alloc, host.image())?)
}

#[test]
fn a_commit_goes_to_the_aside_file(rt: HostRuntime) -> Result<(), Fail> {
    let base = base_file(rt.alloc())?;
    let input = b"set people 0 age 32\ncommit\nspace\n";
    let (status, host) = ran(&rt, rt.alloc(), base.as_slice(), b"", input, &[])?;
    assert_eq!(rt; status, Status::Done);
    assert_eq!(rt;
        host.said(),
        b"ok mkshell 1\nok\nok commit 2\nok space 2 448 144\n".as_slice()
    );
    assert_eq!(rt; host.image().len(), ASIDE_LENGTH);
    assert!(rt; host.image().get(128..144) == Some(ASIDE_MARK));
    Ok(())
}

#[test]
fn it_is_opened_again(rt: HostRuntime) -> Result<(), Fail> {
    let base = base_file(rt.alloc())?;
    let aside = aside_file(&rt, rt.alloc(), base.as_slice())?;
    let (status, host) = ran(
        &rt,
        rt.alloc(),
        base.as_slice(),
        aside.as_slice(),
        b"show people\n",
        &[],
    )?;
    assert_eq!(rt; status, Status::Done);
    assert_eq!(rt;
        host.said(),
        b"ok mkshell 2\nok 1\n(\"Ann\",32)\n".as_slice()
    );
    assert_eq!(rt; host.image(), aside.as_slice());
    Ok(())
}

/// A refused run: what is said, and the file as before.
fn refuses(
    rt: &impl Abort,
    alloc: Global,
    base: &[u8],
    file: &[u8],
    said: &[u8],
) -> Result<(), Fail> {
    let (status, host) = ran(rt, alloc, base, file, b"show people\n", &[])?;
    assert_eq!(rt; status, Status::Refused);
    assert_eq!(rt; host.said(), said);
    assert_eq!(rt; host.image(), file);
    Ok(())
}

/// The bytes with another at this place.
fn changed(alloc: Global, bytes: &[u8], at: usize, byte: u8) -> Result<Bytes, Memory> {
    let mut out = Bytes::from_slice(alloc, bytes)?;
    out.truncate(at);
    out.push(byte)?;
    out.push_slice(bytes.get(out.len()..).unwrap_or(b""))?;
    Ok(out)
}

#[test]
fn refusals_come_in_their_order(rt: HostRuntime) -> Result<(), Fail> {
    let alloc = rt.alloc();
    let base = base_file(alloc)?;
    let aside = aside_file(&rt, alloc, base.as_slice())?;
    let zeros = [0; 191];
    // A base that is none is named first, whatever the aside file.
    refuses(&rt, alloc, b"", &zeros, b"refused badbase\n")?;
    refuses(&rt, alloc, &zeros, b"", b"refused badbase\n")?;
    refuses(
        &rt,
        alloc,
        base.as_slice().get(..351).unwrap_or(b""),
        &zeros,
        b"refused badbase\n",
    )?;
    // Then a file that is no aside file, and then one of another base.
    refuses(&rt, alloc, base.as_slice(), &zeros, b"refused aside 0\n")?;
    refuses(
        &rt,
        alloc,
        base.as_slice(),
        base.as_slice(),
        b"refused aside 128\n",
    )?;
    let mut other = host(alloc, b"", b"", &[])?;
    let _ = run(alloc, &["mkshell", "f"], &mut other);
    refuses(
        &rt,
        alloc,
        other.image(),
        aside.as_slice(),
        b"refused otherbase 352 1 208 0\n",
    )?;
    // Then the file for which the two stand: its directory says two views.
    let damaged = changed(alloc, aside.as_slice(), 336, 2)?;
    refuses(
        &rt,
        alloc,
        base.as_slice(),
        damaged.as_slice(),
        b"refused damaged 438\n",
    )
}

/// Base and aside file stand for one of the two commits.
fn number_of(rt: &impl Abort, alloc: Global, base: &[u8], file: &[u8]) -> Result<u64, Fail> {
    let (_, host) = ran(rt, alloc, base, file, b"", &[])?;
    if host.said() == b"ok mkshell 1\n".as_slice() {
        return Ok(1);
    }
    if host.said() == b"ok mkshell 2\n".as_slice() {
        return Ok(2);
    }
    Ok(0)
}

/// The second commit over a base, where one call of the aside file, its input or its output fails.
fn fails_at(
    rt: &impl Abort,
    alloc: Global,
    base: &[u8],
    new: &[u8],
    fault: Fault,
) -> Result<(), Fail> {
    let (_, host) = ran(rt, alloc, base, new, SECOND, &[fault])?;
    let number = number_of(rt, alloc, base, host.image())?;
    let acknowledged = host.said().starts_with(COMMITTED);
    assert!(rt;
        number == 2 || (number == 1 && !acknowledged),
        "call {}, {:?}",
        fault.call,
        fault.effect
    );
    Ok(())
}

/// An aside file of the base without a commit.
fn new_aside(rt: &impl Abort, alloc: Global, base: &[u8]) -> Result<Bytes, Fail> {
    let (_, host) = ran(rt, alloc, base, b"", b"", &[])?;
    Ok(Bytes::from_slice(alloc, host.image())?)
}

#[test]
fn each_call_fails(rt: HostRuntime) -> Result<(), Fail> {
    let base = base_file(rt.alloc())?;
    let new = new_aside(&rt, rt.alloc(), base.as_slice())?;
    for call in 0..CALLS {
        for effect in EFFECTS {
            fails_at(
                &rt,
                rt.alloc(),
                base.as_slice(),
                new.as_slice(),
                Fault { call, effect },
            )?;
        }
    }
    Ok(())
}

/// A call of the base fails: nothing is said, and the aside file is not made.
fn base_fails_at(rt: &impl Abort, alloc: Global, base: &[u8], call: u64) -> Result<(), Fail> {
    let fault = Fault {
        call,
        effect: Effect::Nothing,
    };
    let mut host = host(alloc, b"", b"", &[])?;
    let mut base_host = crate::unviewed::host(alloc, base, b"", &[fault])?;
    let status = run_over(alloc, WORDS, &mut host, &mut base_host);
    if call < base_host.calls() {
        assert_eq!(rt; status, Status::DiskFault, "call {call}");
        assert!(rt;
            host.said().is_empty() && host.image().is_empty(),
            "call {call}"
        );
    } else {
        assert_eq!(rt; status, Status::Done, "call {call}");
    }
    Ok(())
}

#[test]
fn each_call_of_the_base_fails(rt: HostRuntime) -> Result<(), Fail> {
    let base = base_file(rt.alloc())?;
    for call in 0..CALLS {
        base_fails_at(&rt, rt.alloc(), base.as_slice(), call)?;
    }
    Ok(())
}

/// The machine stops after so many calls of a run: base and image stand for one of the two commits, and for the second after all of them.
fn stops_after(
    rt: &impl Abort,
    alloc: Global,
    base: &[u8],
    host: &MemHost,
    after: u64,
) -> Result<(), Fail> {
    for choice in EFFECTS {
        if after > host.calls() {
            return Ok(());
        }
        let image = host.crash(after, choice)?;
        let number = number_of(rt, alloc, base, image.as_slice())?;
        let committed = after == host.calls();
        assert!(rt;
            number == 2 || (number == 1 && !committed),
            "after {after}, {choice:?}"
        );
    }
    Ok(())
}

#[test]
fn the_machine_stops(rt: HostRuntime) -> Result<(), Fail> {
    let base = base_file(rt.alloc())?;
    let new = new_aside(&rt, rt.alloc(), base.as_slice())?;
    let (_, host) = ran(
        &rt,
        rt.alloc(),
        base.as_slice(),
        new.as_slice(),
        SECOND,
        &[],
    )?;
    assert_eq!(rt; host.said(), COMMITTED);
    for after in 0..CALLS {
        stops_after(&rt, rt.alloc(), base.as_slice(), &host, after)?;
    }
    Ok(())
}
