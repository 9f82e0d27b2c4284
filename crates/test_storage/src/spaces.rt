//! Where blocks go, as the space that commits take up. Ends and sums were worked out by hand.
use crate::call::{CAP, Call, Case, DONE, EMPTY_FILE, WORKED_FILE, hold};
use std::test::Fail;
use storage::Mode;

static CASES: [Case; 4] = [
    Case {
        title: "a column goes from 0 bits to 1, 4 and 32 and back, and past the cap",
        file: EMPTY_FILE,
        faults: &[],
        mode: Mode::Write,
        cap: 608,
        turns: &[
            (Call::Make("c[v:I]"), DONE),
            (Call::Insert("c", 0, "{(0)}", 64), DONE),
            (Call::Commit(""), "Ok(1)"),
            (Call::Space, "1 256 48"),
            (Call::Set("c", 0, "v", "1"), DONE),
            (Call::Commit(""), "Ok(2)"),
            (Call::Space, "2 304 64"),
            (Call::Set("c", 0, "v", "15"), DONE),
            (Call::Commit(""), "Ok(3)"),
            (Call::Space, "3 352 80"),
            (Call::Set("c", 0, "v", "32768"), DONE),
            (Call::Commit(""), "Ok(4)"),
            (Call::Space, "4 608 304"),
            (Call::Set("c", 0, "v", "0"), DONE),
            (Call::Commit(""), "Ok(5)"),
            (Call::Space, "5 608 48"),
            (Call::Insert("c", 64, "{(1)}", 4000), DONE),
            (Call::Commit(""), "Err(Unplanned(Full(800, 608)))"),
            (Call::Space, "5 608 48"),
            (Call::Remove("c", 0, 4064), DONE),
            (Call::Commit(""), "Ok(6)"),
        ],
    },
    Case {
        title: "a text of 512 bytes is short, and one of 513 is a memo",
        file: EMPTY_FILE,
        faults: &[],
        mode: Mode::Write,
        cap: CAP,
        turns: &[
            (Call::Make("t[s:S]"), DONE),
            (Call::Insert("t", 0, r#"{("~")}"#, 1), DONE),
            (Call::Insert("t", 1, r#"{("a~")}"#, 1), DONE),
            (Call::Commit(""), "Ok(1)"),
            (Call::Space, "1 1344 1136"),
            (Call::Reopen, "Ok(1)"),
            (Call::Views, r#"t[s:S]{("~"),("a~")}"#),
        ],
    },
    Case {
        title: "a column goes to the place of the commit before",
        file: WORKED_FILE,
        faults: &[],
        mode: Mode::Write,
        cap: CAP,
        turns: &[
            (Call::Set("people", 0, "age", "32"), DONE),
            (Call::Commit(""), "Ok(2)"),
            (Call::Space, "2 448 144"),
            (Call::Reopen, "Ok(2)"),
            (Call::Views, r#"people[name:S,age:I]{("Ann",32)}"#),
        ],
    },
    Case {
        title: "a column goes behind all that the file has",
        file: WORKED_FILE,
        faults: &[],
        mode: Mode::Extend,
        cap: CAP,
        turns: &[
            (Call::Set("people", 0, "age", "32"), DONE),
            (Call::Commit(""), "Ok(2)"),
            (Call::Space, "2 464 144"),
            (Call::Reopen, "Ok(2)"),
            (Call::Views, r#"people[name:S,age:I]{("Ann",32)}"#),
        ],
    },
];

#[test]
fn blocks_go_to_the_least_places(rt: HostRuntime) -> Result<(), Fail> {
    hold(rt.alloc(), &CASES)
}
