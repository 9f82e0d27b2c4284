//! Notes of commits.
use crate::call::{CAP, Call, Case, DONE, EMPTY_FILE, WORKED_FILE, hold};
use std::test::Fail;
use storage::Mode;

static CASES: [Case; 2] = [
    Case {
        title: "a note stays with the commits after it",
        file: WORKED_FILE,
        faults: &[],
        mode: Mode::Write,
        cap: CAP,
        turns: &[
            (Call::Commit("first"), "Ok(2)"),
            (Call::Notes, "2 first;"),
            (Call::Space, "2 464 160"),
            // Its directory is at 352, with the count of notes at 438.
            (Call::Check(&[]), "2 464 160 1 4"),
            (Call::Check(&[(438, 0)]), "Damaged(438)"),
            (Call::Check(&[(65, 1)]), "Damaged(438)"),
            (Call::Check(&[(65, 3)]), "Damaged(64)"),
            (Call::Commit(""), "Ok(3)"),
            (Call::Notes, "2 first;"),
            (Call::Space, "3 576 160"),
            (Call::Commit("x"), "Ok(4)"),
            (Call::Notes, "2 first;4 x;"),
            (Call::Space, "4 576 176"),
            (Call::Reopen, "Ok(4)"),
            (Call::Notes, "2 first;4 x;"),
        ],
    },
    Case {
        title: "the last 64 notes stay",
        file: EMPTY_FILE,
        faults: &[],
        mode: Mode::Write,
        cap: CAP,
        turns: &[
            (Call::NumberedCommits(3), DONE),
            (Call::Notes, "1 1;2 2;3 3;"),
            (Call::NumberedCommits(62), DONE),
            (Call::Reopen, "Ok(65)"),
            (Call::Notes, LAST_64),
        ],
    },
];

/// Without the note of the first of 65 commits.
const LAST_64: &str = "2 2;3 3;4 4;5 5;6 6;7 7;8 8;9 9;10 10;11 11;12 12;13 13;14 14;15 15;16 16;\
    17 17;18 18;19 19;20 20;21 21;22 22;23 23;24 24;25 25;26 26;27 27;28 28;29 29;30 30;31 31;32 32;\
    33 33;34 34;35 35;36 36;37 37;38 38;39 39;40 40;41 41;42 42;43 43;44 44;45 45;46 46;47 47;48 48;\
    49 49;50 50;51 51;52 52;53 53;54 54;55 55;56 56;57 57;58 58;59 59;60 60;61 61;62 62;63 63;64 64;\
    65 65;";

#[test]
fn notes_are_kept(rt: HostRuntime) -> Result<(), Fail> {
    hold(rt.alloc(), &CASES)
}
