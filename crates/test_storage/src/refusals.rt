//! Commits that are not planned, files that are not opened, and calls of the disk that fail.
use crate::call::{CAP, Call, Case, DONE, EMPTY_FILE, File, Turn, WORKED_FILE, answer_all, hold};
use crate::fixture::Fixture;
use crate::worked::WORKED;
use host_io::{Effect, Fault, MemHost};
use mk_value::Memory;
use recovery::OpenError;
use std::alloc::Global;
use std::test::Fail;
use storage::{Mode, Report, check};

/// A new store, with the greatest number of a commit.
const LAST: File = File {
    len: 208,
    changes: &[
        (72, 0xff),
        (73, 0xff),
        (74, 0xff),
        (75, 0xff),
        (76, 0xff),
        (77, 0xff),
        (78, 0xff),
        (79, 0x7f),
        (128, 0),
    ],
};

/// All three causes stand together, then the last two, then the last alone.
static UNPLANNED: [Case; 7] = [
    Case {
        title: "only read",
        file: LAST,
        faults: &[],
        mode: Mode::Read,
        cap: 208,
        turns: &[(Call::Commit(""), "Err(Unplanned(ReadOnly))")],
    },
    Case {
        title: "the last number",
        file: LAST,
        faults: &[],
        mode: Mode::Write,
        cap: 208,
        turns: &[
            (Call::Space, "9223372036854775807 208 16"),
            (Call::Commit(""), "Err(Unplanned(LastNumber))"),
        ],
    },
    Case {
        title: "the last number, behind all that the file has",
        file: LAST,
        faults: &[],
        mode: Mode::Extend,
        cap: 208,
        turns: &[(Call::Commit(""), "Err(Unplanned(LastNumber))")],
    },
    Case {
        title: "full",
        file: EMPTY_FILE,
        faults: &[],
        mode: Mode::Write,
        cap: 223,
        turns: &[(Call::Commit(""), "Err(Unplanned(Full(224, 223)))")],
    },
    Case {
        title: "not full",
        file: EMPTY_FILE,
        faults: &[],
        mode: Mode::Write,
        cap: 224,
        turns: &[
            (Call::Commit(""), "Ok(1)"),
            // The directory goes back to its first place.
            (Call::Commit(""), "Ok(2)"),
            (Call::Space, "2 224 16"),
        ],
    },
    Case {
        title: "full, behind all that the file has",
        file: EMPTY_FILE,
        faults: &[],
        mode: Mode::Extend,
        cap: 224,
        turns: &[
            (Call::Commit(""), "Ok(1)"),
            (Call::Commit(""), "Err(Unplanned(Full(240, 224)))"),
        ],
    },
    Case {
        title: "edits of a store that is only read",
        file: WORKED_FILE,
        faults: &[],
        mode: Mode::Read,
        cap: CAP,
        turns: &[
            (Call::Set("people", 0, "age", "9"), DONE),
            (Call::Views, r#"people[name:S,age:I]{("Ann",9)}"#),
            (Call::Commit(""), "Err(Unplanned(ReadOnly))"),
            (Call::Views, r#"people[name:S,age:I]{("Ann",9)}"#),
        ],
    },
];

#[test]
fn commits_are_not_planned(rt: HostRuntime) -> Result<(), Fail> {
    hold(rt.alloc(), &UNPLANNED)
}

/// Bytes of the worked file that are changed, and what a look at it finds.
static CHECKED: [Case; 1] = [Case {
    title: "looks at changed files",
    file: WORKED_FILE,
    faults: &[],
    mode: Mode::Read,
    cap: 0,
    turns: &[
        (Call::Check(&[]), "1 352 144 1 4"),
        (Call::Check(&[(7, 0)]), "NotAStore"),
        (Call::Check(&[(64, 0), (128, 0)]), "Damaged(64)"),
        (Call::Check(&[(326, 0xe0)]), "Damaged(224)"),
        (Call::Check(&[(240, 1)]), "Damaged(325)"),
        (Call::Check(&[(128, 0)]), "0 208 16 0 1"),
    ],
}];

#[test]
fn files_are_looked_at(rt: HostRuntime) -> Result<(), Fail> {
    hold(rt.alloc(), &CHECKED)
}

/// Calls after the one of the host that fails.
struct Failing {
    title: &'static str,
    /// How many calls of the host the first call makes. One of them fails.
    calls: u64,
    turns: &'static [Turn],
}

/// How many calls of the host it takes to open the worked file: the marks two, the length, the directory, and three blocks.
const CALLS: u64 = 7;

/// A call fails with the disk, the store is as it was, and the call succeeds the next time.
static FAILING: [Failing; 2] = [
    Failing {
        title: "the file is opened anew",
        calls: CALLS,
        turns: &[
            (Call::Reopen, "Err(Failed)"),
            (Call::Views, r#"people[name:S,age:I]{("Ann",31)}"#),
            (Call::Before, "Some(0)"),
            (Call::Reopen, "Ok(1)"),
            (Call::Before, "Some(0)"),
        ],
    },
    // No block is read.
    Failing {
        title: "the commit before is brought back",
        calls: 4,
        turns: &[
            (Call::Revert, "Err(Failed)"),
            (Call::Views, r#"people[name:S,age:I]{("Ann",31)}"#),
            (Call::Before, "Some(0)"),
            (Call::Revert, "Ok(0)"),
            (Call::Views, ""),
        ],
    },
];

static CALLS_MADE: [Case; 1] = [Case {
    title: "calls of the host are counted",
    file: WORKED_FILE,
    faults: &[],
    mode: Mode::Write,
    cap: CAP,
    turns: &[
        (Call::HostCalls, "7"),
        (Call::Reopen, "Ok(1)"),
        (Call::HostCalls, "14"),
        (Call::Revert, "Ok(0)"),
        (Call::HostCalls, "18"),
    ],
}];

/// Fails the call of the host of this number.
fn failing_at(call: u64) -> [Fault; 1] {
    [Fault {
        call,
        effect: Effect::Nothing,
    }]
}

/// The calls answer as they should, where this call of the host fails.
fn fails_at(alloc: Global, failing: &Failing, call: u64) -> Result<(), Fail> {
    let mut fixture = Fixture::open(alloc, &WORKED, &failing_at(call), Mode::Write, CAP)?;
    answer_all(alloc, &mut fixture, failing.title, failing.turns)
}

/// They do so at each call of the host that the first of them makes.
fn fails_with_the_disk(alloc: Global, failing: &Failing) -> Result<(), Fail> {
    for call in 0..failing.calls {
        fails_at(alloc, failing, CALLS.saturating_add(call))?;
    }
    Ok(())
}

#[test]
fn calls_fail_with_the_disk(rt: HostRuntime) -> Result<(), Fail> {
    hold(rt.alloc(), &CALLS_MADE)?;
    for failing in &FAILING {
        fails_with_the_disk(rt.alloc(), failing)?;
    }
    Ok(())
}

/// What a look at the worked file finds, where this call of the host fails.
fn checked(alloc: Global, call: u64) -> Result<Result<Report, OpenError>, Memory> {
    let mut host = MemHost::new(alloc, &WORKED, b"", &failing_at(call), 0, 0)?;
    Ok(check(alloc, &mut host))
}

#[test]
fn a_look_fails_with_the_disk(rt: HostRuntime) -> Result<(), Fail> {
    for call in 0..CALLS {
        let found = checked(rt.alloc(), call)?;
        assert_eq!(rt; found.err(), Some(OpenError::Failed), "call {call}");
    }
    assert!(rt; checked(rt.alloc(), CALLS)?.is_ok());
    Ok(())
}
