// Small reads over a host in memory. What they give and how many calls reach the host were worked out by hand.
use host_io::{Disk, Effect, Failed, Fault, MemHost};
use read_ahead::Ahead;
use std::process::Abort;
use std::test::Fail;

enum Step {
    /// Two bytes from a place on, or a failure.
    Read(u64, Option<[u8; 2]>),
    Write(u64, &'static [u8]),
    Sync,
}

/// Two bytes of the file: the host is asked for its length before.
fn read(rt: &impl Abort, host: &mut Ahead<MemHost>, at: u64) -> Result<[u8; 2], Failed> {
    let len = host.len()?;
    assert!(rt; at < 100);
    assert!(rt; at + 2 <= len);
    let mut bytes = [0; 2];
    host.read_at(at, &mut bytes)?;
    Ok(bytes)
}

fn write(rt: &impl Abort, host: &mut Ahead<MemHost>, at: u64, bytes: &[u8]) -> Result<(), Failed> {
    let len = host.len()?;
    assert!(rt; at <= len);
    assert!(rt; at < 100);
    assert!(rt; bytes.len() <= 3);
    host.write_at(at, bytes)
}

fn make(rt: &impl Abort, host: &mut Ahead<MemHost>, step: &Step) {
    match step {
        Step::Read(at, bytes) => assert_eq!(rt; read(rt, host, *at).ok(), *bytes, "at {at}"),
        Step::Write(at, bytes) => assert!(rt; write(rt, host, *at, bytes).is_ok()),
        Step::Sync => assert!(rt; host.sync().is_ok()),
    }
}

struct Case {
    script: &'static [Fault],
    steps: &'static [Step],
    calls: u64,
}

static CASES: [Case; 3] = [
    // Three reads: a length each, and for the first one more and the piece. A write and a sync let go of it.
    Case {
        script: &[],
        steps: &[
            Step::Read(0, Some(*b"ab")),
            Step::Read(2, Some(*b"cd")),
            Step::Read(6, Some(*b"gh")),
            Step::Write(3, b"X"),
            Step::Read(2, Some(*b"cX")),
            Step::Sync,
            Step::Read(6, Some(*b"gh")),
        ],
        calls: 14,
    },
    // The piece can't be read, but the two bytes can.
    Case {
        script: &[Fault {
            call: 2,
            effect: Effect::Whole,
        }],
        steps: &[Step::Read(0, Some(*b"ab")), Step::Read(2, Some(*b"cd"))],
        calls: 7,
    },
    // Neither can.
    Case {
        script: &[
            Fault {
                call: 2,
                effect: Effect::Whole,
            },
            Fault {
                call: 3,
                effect: Effect::Whole,
            },
        ],
        steps: &[Step::Read(0, None), Step::Read(2, Some(*b"cd"))],
        calls: 7,
    },
];

#[test]
fn reads_ahead(rt: HostRuntime) -> Result<(), Fail> {
    for case in &CASES {
        let host = MemHost::new(rt.alloc(), b"abcdefgh", b"", case.script, 0, 99)?;
        let mut ahead = Ahead::new(rt.alloc(), host);
        for step in case.steps {
            make(&rt, &mut ahead, step);
        }
        assert_eq!(rt; ahead.into_host().calls(), case.calls);
    }
    Ok(())
}
