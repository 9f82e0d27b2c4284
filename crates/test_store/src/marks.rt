// Files with changed bytes, and the writes of a commit to its slots. Expected values were worked out by hand.
use crate::worked::{WORKED, host_over, worked};
use commit_marks::{Mark, MarkError, Marks, close_other, open_gate, read_marks, write_body};
use host_io::{Effect, Failed, Fault, MemHost};
use std::alloc::Global;
use std::process::Abort;
use std::test::Fail;

/// The slot of the chosen mark, its number, and the number of the other mark, if its slot is open.
type Shown = (u8, u64, Option<u64>);

/// How many bytes of the worked file there are, the bytes that are changed, and what is read.
#[derive(Drop)]
struct Case {
    len: usize,
    changes: &'static [(usize, u8)],
    read: Result<Shown, MarkError>,
}

static CASES: [Case; 23] = [
    Case {
        len: 352,
        changes: &[],
        read: Ok((1, 1, Some(0))),
    },
    Case {
        len: 352,
        changes: &[(64, 0), (128, 0)],
        read: Err(MarkError::NoOpenMark),
    },
    Case {
        len: 352,
        changes: &[(65, 9)],
        read: Err(MarkError::BadMark(64)),
    },
    Case {
        len: 352,
        changes: &[(65, 3)],
        read: Err(MarkError::BadMark(64)),
    },
    Case {
        len: 352,
        changes: &[(65, 2)],
        read: Ok((1, 1, Some(0))),
    },
    Case {
        len: 352,
        changes: &[(66, 1)],
        read: Err(MarkError::BadMark(64)),
    },
    Case {
        len: 352,
        changes: &[(104, 1), (129, 9)],
        read: Err(MarkError::BadMark(64)),
    },
    Case {
        len: 352,
        changes: &[(191, 1)],
        read: Err(MarkError::BadMark(128)),
    },
    Case {
        len: 352,
        changes: &[(136, 0)],
        read: Err(MarkError::BadMark(128)),
    },
    Case {
        len: 352,
        changes: &[(72, 2)],
        read: Ok((0, 2, Some(1))),
    },
    Case {
        len: 352,
        changes: &[(144, 1)],
        read: Err(MarkError::BadMark(128)),
    },
    Case {
        len: 352,
        changes: &[(152, 0)],
        read: Err(MarkError::BadMark(128)),
    },
    Case {
        len: 352,
        changes: &[(152, 0x61)],
        read: Err(MarkError::BadMark(128)),
    },
    Case {
        len: 352,
        changes: &[(160, 0x61)],
        read: Err(MarkError::BadMark(128)),
    },
    Case {
        len: 351,
        changes: &[],
        read: Err(MarkError::BadMark(128)),
    },
    Case {
        len: 352,
        changes: &[(128, 0)],
        read: Ok((0, 0, None)),
    },
    Case {
        len: 208,
        changes: &[(128, 0), (129, 9)],
        read: Ok((0, 0, None)),
    },
    Case {
        len: 352,
        changes: &[(7, 0)],
        read: Err(MarkError::NotAStore),
    },
    Case {
        len: 352,
        changes: &[(63, 1)],
        read: Err(MarkError::NotAStore),
    },
    Case {
        len: 191,
        changes: &[],
        read: Err(MarkError::NotAStore),
    },
    Case {
        len: 0,
        changes: &[],
        read: Err(MarkError::NotAStore),
    },
    // The greatest number of a commit, and one more.
    Case {
        len: 208,
        changes: &[
            (72, 0xff),
            (73, 0xff),
            (74, 0xff),
            (75, 0xff),
            (76, 0xff),
            (77, 0xff),
            (78, 0xff),
            (79, 0x7f),
            (128, 0),
        ],
        read: Ok((0, (1 << 63) - 1, None)),
    },
    Case {
        len: 208,
        changes: &[(79, 0x80), (128, 0)],
        read: Err(MarkError::BadMark(64)),
    },
];

fn shown(marks: &Marks) -> Shown {
    (
        marks.slot,
        marks.chosen.number,
        marks.other.map(|mark| mark.number),
    )
}

/// What is read of a file.
fn read(alloc: Global, file: &[u8]) -> Result<Result<Shown, MarkError>, Fail> {
    let mut host = host_over(alloc, file, &[])?;
    Ok(read_marks(&mut host).map(|marks| shown(&marks)))
}

#[test]
fn reads_marks(rt: HostRuntime) -> Result<(), Fail> {
    for case in &CASES {
        let file = worked(rt.alloc(), case.len, case.changes)?;
        assert_eq!(rt; read(rt.alloc(), &file)?, case.read, "{:?}", case.changes);
    }
    Ok(())
}

/// What the marks of the worked file are read as.
const MARKS: Marks = Marks {
    chosen: Mark {
        version: 1,
        number: 1,
        place: 256,
        len: 86,
        end: 352,
    },
    slot: 1,
    other: Some(Mark {
        version: 1,
        number: 0,
        place: 192,
        len: 4,
        end: 208,
    }),
};

/// The mark that a commit over the worked file writes to slot 0.
const NEXT: Mark = Mark {
    version: 2,
    number: 2,
    place: 256,
    len: 86,
    end: 352,
};

/// A step of a commit over the worked file, which is to be in slot 0.
#[derive(Clone, Copy)]
enum Step {
    Close,
    Body,
    Open,
}

fn take(rt: &impl Abort, host: &mut MemHost, marks: &Marks, step: Step) -> Result<(), Failed> {
    assert!(rt; host.image().len() >= 192);
    assert!(rt; marks.slot <= 1);
    match step {
        Step::Close => close_other(host, marks),
        Step::Body => write_body(host, 0, &NEXT),
        Step::Open => open_gate(host, 0),
    }
}

// The steps, and what is read after each.
static STEPS: [(Step, Shown); 3] = [
    (Step::Close, (1, 1, None)),
    (Step::Body, (1, 1, None)),
    (Step::Open, (0, 2, Some(1))),
];

/// Takes the steps until one fails, which is the one that makes the call with the number of the fault.
fn take_all(rt: &impl Abort, alloc: Global, host: &mut MemHost, fault: u64) -> Result<(), Fail> {
    let mut calls = 0;
    for (step, wanted) in &STEPS {
        let answer = take(rt, host, &MARKS, *step);
        assert_eq!(rt; answer.is_err(), calls <= fault && fault < host.calls());
        if answer.is_err() {
            return Ok(());
        }
        calls = host.calls();
        assert_eq!(rt; read(alloc, host.image())?, Ok(*wanted));
    }
    Ok(())
}

/// Each call of the three steps fails once; in the first run none.
#[test]
fn writes_marks(rt: HostRuntime) -> Result<(), Fail> {
    for fault in [9, 0, 1, 2, 3, 4] {
        let script = [Fault {
            call: fault,
            effect: Effect::Nothing,
        }];
        let mut host = host_over(rt.alloc(), &WORKED, &script)?;
        take_all(&rt, rt.alloc(), &mut host, fault)?;
    }
    Ok(())
}

/// A slot that reads closed is not written closed.
#[test]
fn a_closed_slot_stays(rt: HostRuntime) -> Result<(), Fail> {
    let mut host = host_over(rt.alloc(), &WORKED, &[])?;
    let alone = Marks {
        other: None,
        ..MARKS
    };
    assert_eq!(rt; take(&rt, &mut host, &alone, Step::Close), Ok(()));
    assert_eq!(rt; host.calls(), 0);
    Ok(())
}
