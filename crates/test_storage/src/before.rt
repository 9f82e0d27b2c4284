//! The commit before, and its views brought back. The first seven calls of a host open the worked file.
use crate::call::{CAP, Call, Case, DONE, EMPTY_FILE, File, WORKED_FILE, hold};
use host_io::{Effect, Fault};
use std::test::Fail;
use storage::Mode;

const ANN: &str = r#"people[name:S,age:I]{("Ann",31)}"#;

static CASES: [Case; 8] = [
    Case {
        title: "there and back",
        file: WORKED_FILE,
        faults: &[],
        mode: Mode::Write,
        cap: CAP,
        turns: &[
            (Call::Revert, "Ok(0)"),
            (Call::Views, ""),
            (Call::Commit(""), "Ok(2)"),
            (Call::Space, "2 352 16"),
            (Call::Before, "Some(1)"),
            (Call::Revert, "Ok(1)"),
            (Call::Views, ANN),
            (Call::Commit(""), "Ok(3)"),
            (Call::Space, "3 352 144"),
            (Call::Reopen, "Ok(3)"),
            (Call::Views, ANN),
        ],
    },
    Case {
        title: "nothing is before the first commit",
        file: EMPTY_FILE,
        faults: &[],
        mode: Mode::Write,
        cap: CAP,
        turns: &[(Call::Before, "None"), (Call::Revert, "Err(NoBefore)")],
    },
    Case {
        title: "the gate of the other slot is closed",
        file: File {
            len: 352,
            changes: &[(64, 0)],
        },
        faults: &[],
        mode: Mode::Write,
        cap: CAP,
        turns: &[
            (Call::Before, "None"),
            (Call::Revert, "Err(NoBefore)"),
            (Call::Views, ANN),
        ],
    },
    Case {
        title: "the commit before is damaged",
        file: File {
            len: 352,
            changes: &[(192, 1)],
        },
        faults: &[],
        mode: Mode::Write,
        cap: CAP,
        turns: &[
            (Call::Before, "Some(0)"),
            (Call::Revert, "Err(Damaged(196))"),
            (Call::Views, ANN),
        ],
    },
    Case {
        title: "a commit fails as it closes the other gate, which stays open",
        file: WORKED_FILE,
        faults: &[Fault {
            call: 7,
            effect: Effect::Nothing,
        }],
        mode: Mode::Write,
        cap: CAP,
        turns: &[
            (Call::Set("people", 0, "age", "32"), DONE),
            (Call::Commit(""), "Err(Failed)"),
            (Call::IsShut, "true"),
            (Call::Reopen, "Ok(1)"),
            (Call::IsShut, "false"),
            (Call::Views, ANN),
            (Call::Before, "None"),
            (Call::Revert, "Err(NoBefore)"),
            (Call::Commit(""), "Ok(2)"),
            (Call::Before, "Some(1)"),
            (Call::Revert, "Ok(1)"),
        ],
    },
    Case {
        title: "a commit fails as it opens its gate, which stays closed",
        file: WORKED_FILE,
        faults: &[Fault {
            call: 13,
            effect: Effect::Nothing,
        }],
        mode: Mode::Write,
        cap: CAP,
        turns: &[
            (Call::Set("people", 0, "age", "32"), DONE),
            (Call::Commit(""), "Err(Failed)"),
            (Call::IsShut, "true"),
            (Call::Reopen, "Ok(1)"),
            (Call::IsShut, "false"),
            (Call::Space, "1 352 144"),
            (Call::Views, ANN),
            (Call::Before, "None"),
            (Call::Revert, "Err(NoBefore)"),
        ],
    },
    Case {
        title: "a commit fails as it opens its gate, which is open",
        file: WORKED_FILE,
        faults: &[Fault {
            call: 13,
            effect: Effect::Whole,
        }],
        mode: Mode::Write,
        cap: CAP,
        turns: &[
            (Call::Set("people", 0, "age", "32"), DONE),
            (Call::Commit(""), "Err(Failed)"),
            (Call::IsShut, "true"),
            (Call::Reopen, "Ok(2)"),
            (Call::IsShut, "false"),
            (Call::Space, "2 448 144"),
            (Call::Before, "Some(1)"),
            (Call::Revert, "Ok(1)"),
            (Call::Views, ANN),
        ],
    },
    Case {
        title: "the commit before stays over a file that is opened again",
        file: WORKED_FILE,
        faults: &[],
        mode: Mode::Read,
        cap: 0,
        turns: &[
            (Call::Reopen, "Ok(1)"),
            (Call::Before, "Some(0)"),
            (Call::Revert, "Ok(0)"),
            (Call::Views, ""),
            (Call::Rollback, DONE),
            (Call::Views, ANN),
        ],
    },
];

#[test]
fn the_commit_before_is_brought_back(rt: HostRuntime) -> Result<(), Fail> {
    hold(rt.alloc(), &CASES)
}
