// A host in memory, call by call. The expected values were worked out by hand from the script and the room.
ghost use Rattle.std.specs.Prelude.{◌+◌, ◌≤◌, length};
ghost use Rattle.host_io.specs.Memory.{outside_of};

use host_io::{Disk, Effect, Failed, Fault, Host, MemHost};
use std::process::Abort;
use std::test::Fail;

enum Call {
    Attach,
    Len,
    /// Reads the two bytes from 1 on.
    Read,
    Write(u64, &'static [u8]),
    Sync,
    Take,
    Say(&'static [u8]),
}

/// A call, what it answers (the length, the count, or else 0), and what a read gives then.
type Step = (Call, Option<u64>, &'static [u8]);

// One fault at each kind of call, and a second entry for call 8, which counts for nothing.
static SCRIPT: [Fault; 10] = [
    Fault {
        call: 0,
        effect: Effect::Whole,
    },
    Fault {
        call: 2,
        effect: Effect::Whole,
    },
    Fault {
        call: 4,
        effect: Effect::Whole,
    },
    Fault {
        call: 6,
        effect: Effect::Nothing,
    },
    Fault {
        call: 7,
        effect: Effect::Whole,
    },
    Fault {
        call: 8,
        effect: Effect::Ones,
    },
    Fault {
        call: 8,
        effect: Effect::Nothing,
    },
    Fault {
        call: 10,
        effect: Effect::Whole,
    },
    Fault {
        call: 12,
        effect: Effect::Whole,
    },
    Fault {
        call: 14,
        effect: Effect::Whole,
    },
];

// Over the file `abcd` and the input `xyz`, with two bytes a piece.
static SCRIPTED: [Step; 16] = [
    (Call::Attach, None, b"abcd"),
    (Call::Attach, Some(0), b"abcd"),
    (Call::Len, None, b"abcd"),
    (Call::Len, Some(4), b"abcd"),
    (Call::Read, None, b"abcd"),
    (Call::Read, Some(0), b"abcd"),
    (Call::Write(1, b"XY"), None, b"abcd"),
    (Call::Write(1, b"XY"), None, b"aXYd"),
    (Call::Write(3, b"ZZZ"), None, b"aXY\xff\xff\xff"),
    (Call::Write(0, b"Q"), Some(0), b"QXY\xff\xff\xff"),
    (Call::Sync, None, b"QXY\xff\xff\xff"),
    (Call::Sync, Some(0), b"QXY\xff\xff\xff"),
    (Call::Take, None, b"QXY\xff\xff\xff"),
    (Call::Take, Some(2), b"QXY\xff\xff\xff"),
    (Call::Say(b"hello"), None, b"QXY\xff\xff\xff"),
    (Call::Say(b"hello"), Some(2), b"QXY\xff\xff\xff"),
];

// So many calls, and the image of a crash that leaves what was pending as at the last sync, as written, and all `ff`.
static IMAGES: [(u64, [&[u8]; 3]); 8] = [
    (0, [b"abcd", b"abcd", b"abcd"]),
    (6, [b"abcd", b"abcd", b"abcd"]),
    (7, [b"abcd", b"abcd", b"a\xff\xffd"]),
    (8, [b"abcd", b"aXYd", b"a\xff\xffd"]),
    (9, [b"abcd", b"aXY\xff\xff\xff", b"a\xff\xff\xff\xff\xff"]),
    (
        11,
        [b"abcd", b"QXY\xff\xff\xff", b"\xff\xff\xff\xff\xff\xff"],
    ),
    (
        12,
        [b"QXY\xff\xff\xff", b"QXY\xff\xff\xff", b"QXY\xff\xff\xff"],
    ),
    (
        16,
        [b"QXY\xff\xff\xff", b"QXY\xff\xff\xff", b"QXY\xff\xff\xff"],
    ),
];

// Over an empty file and the input `xyz`, with room for three moments and three bytes, and no bound on a piece.
static ROOMY: [Step; 9] = [
    (Call::Write(0, b"ab"), Some(0), b"ab"),
    (Call::Write(2, b"cd"), None, b"ab"),
    (Call::Say(b"no"), None, b"ab"),
    (Call::Say(b"!"), Some(1), b"ab"),
    (Call::Sync, Some(0), b"ab"),
    (Call::Sync, None, b"ab"),
    (Call::Say(b""), None, b"ab"),
    (Call::Take, Some(3), b"ab"),
    (Call::Take, Some(0), b"ab"),
];

/// Reads as many bytes as the piece has, from 1 on.
fn fill(host: &mut MemHost, piece: &mut [u8]) -> Result<(), Failed>
    requires { 1 + length piece.old ≤ length (outside_of host.old).now.disk.seen }
{
    host.read_at(1, piece)
}

fn read(rt: &impl Abort, host: &mut MemHost) -> Result<u64, Failed> {
    assert!(rt; host.image().len() >= 3);
    let mut piece = [0; 2];
    fill(host, &mut piece)?;
    assert_eq!(rt; piece, *b"bc");
    Ok(0)
}

fn write(rt: &impl Abort, host: &mut MemHost, at: u64, bytes: &[u8]) -> Result<u64, Failed> {
    assert!(rt; bytes.len() <= 3);
    assert!(rt; at <= 3);
    assert!(rt; at as usize <= host.image().len());
    host.write_at(at, bytes)?;
    Ok(0)
}

fn make(rt: &impl Abort, host: &mut MemHost, call: &Call) -> Result<u64, Failed> {
    match call {
        Call::Attach => host.attach("any", true).map(|()| 0),
        Call::Len => host.len(),
        Call::Read => read(rt, host),
        Call::Write(at, bytes) => write(rt, host, *at, bytes),
        Call::Sync => host.sync().map(|()| 0),
        Call::Take => host.take(&mut [0; 4]).map(|n| n as u64),
        Call::Say(piece) => host.say(piece).map(|n| n as u64),
    }
}

fn shows(host: &MemHost, image: &[u8]) -> bool {
    host.image() == image
}

fn run(rt: &impl Abort, host: &mut MemHost, steps: &[Step]) {
    for (call, answer, image) in steps {
        let number = host.calls();
        assert_eq!(rt; make(rt, host, call).ok(), *answer, "call {number}");
        assert!(rt; shows(host, image), "call {number}");
    }
}

/// What a crash leaves of what was pending.
static EFFECTS: [Effect; 3] = [Effect::Nothing, Effect::Whole, Effect::Ones];

/// A crash after so many calls leaves this image.
fn leaves(
    rt: &impl Abort,
    host: &MemHost,
    after: u64,
    choice: Effect,
    image: &[u8],
) -> Result<(), Fail> {
    assert!(rt; after <= host.calls());
    let left = host.crash(after, choice)?;
    assert_eq!(rt; left.as_slice(), image, "after {after}");
    Ok(())
}

/// A crash after so many calls leaves an image of these, by what it leaves of what was pending.
fn crash(rt: &impl Abort, host: &MemHost, after: u64, images: &[&[u8]; 3]) -> Result<(), Fail> {
    for (choice, image) in EFFECTS.iter().zip(images) {
        leaves(rt, host, after, *choice, image)?;
    }
    Ok(())
}

/// Each crash leaves its images.
fn crash_all(rt: &impl Abort, host: &MemHost) -> Result<(), Fail> {
    for (after, images) in &IMAGES {
        crash(rt, host, *after, images)?;
    }
    Ok(())
}

#[test]
fn fails_and_crashes_by_the_script(rt: HostRuntime) -> Result<(), Fail> {
    let mut host = MemHost::new(rt.alloc(), b"abcd", b"xyz", &SCRIPT, 2, 99)?;
    run(&rt, &mut host, &SCRIPTED);
    assert_eq!(rt; host.said(), b"he".as_slice());
    crash_all(&rt, &host)
}

#[test]
fn fails_past_its_room(rt: HostRuntime) -> Result<(), Fail> {
    let mut host = MemHost::new(rt.alloc(), b"", b"xyz", &[], 0, 3)?;
    run(&rt, &mut host, &ROOMY);
    assert_eq!(rt; host.said(), b"!".as_slice());
    Ok(())
}
