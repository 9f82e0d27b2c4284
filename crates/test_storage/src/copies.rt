//! Edits are given up: the views that were committed are there again, with the places of their blocks.
use crate::call::{CAP, Call, Case, DONE, EMPTY_FILE, WORKED_FILE, hold};
use std::test::Fail;
use storage::Mode;

const ANN: &str = r#"people[name:S,age:I]{("Ann",31)}"#;

const BOOK: &str =
    r#"book[name:S,phones[kind:S,number:S],born:I]{("Ann",{("home","555-0100"),("work","555-0101")},1970),("Bob",{},1971)}"#;

static CASES: [Case; 2] = [
    Case {
        title: "edits of a view of the worked file",
        file: WORKED_FILE,
        faults: &[],
        mode: Mode::Write,
        cap: CAP,
        turns: &[
            (Call::Insert("people", 1, r#"{("Bob",30)}"#, 2), DONE),
            (Call::Set("people", 0, "name", r#""Anna""#), DONE),
            (Call::Remove("people", 1, 1), DONE),
            (Call::Make("more[x:L]"), DONE),
            (
                Call::Views,
                r#"people[name:S,age:I]{("Anna",31),("Bob",30)}more[x:L]{}"#,
            ),
            (Call::Rollback, DONE),
            (Call::Views, ANN),
            (Call::RemoveInCopy("people", 0, 1), DONE),
            (Call::Views, "people[name:S,age:I]{}"),
            (Call::Rollback, DONE),
            (Call::Views, ANN),
            (Call::Drop("people"), DONE),
            (Call::Drop("people"), "Err(NoView)"),
            (Call::Views, ""),
            (Call::Rollback, DONE),
            (Call::Views, ANN),
            // The directory alone is written.
            (Call::Commit(""), "Ok(2)"),
            (Call::Space, "2 448 144"),
            (Call::Rollback, DONE),
            (Call::Views, ANN),
        ],
    },
    Case {
        title: "edits of views inside others",
        file: EMPTY_FILE,
        faults: &[],
        mode: Mode::Write,
        cap: CAP,
        turns: &[
            (
                Call::Make("book[name:S,phones[kind:S,number:S],born:I]"),
                DONE,
            ),
            (
                Call::Insert(
                    "book",
                    0,
                    r#"{("Ann",{("home","555-0100"),("work","555-0101")},1970)}"#,
                    1,
                ),
                DONE,
            ),
            (Call::Insert("book", 1, r#"{("Bob",{},1971)}"#, 1), DONE),
            (Call::Views, BOOK),
            (Call::Rollback, DONE),
            (Call::Views, ""),
            (
                Call::Make("book[name:S,phones[kind:S,number:S],born:I]"),
                DONE,
            ),
            (
                Call::Insert(
                    "book",
                    0,
                    r#"{("Ann",{("home","555-0100"),("work","555-0101")},1970)}"#,
                    1,
                ),
                DONE,
            ),
            (Call::Insert("book", 1, r#"{("Bob",{},1971)}"#, 1), DONE),
            (Call::Commit(""), "Ok(1)"),
            (Call::Set("book/0/phones", 1, "number", r#""7""#), DONE),
            (
                Call::Insert("book/1/phones", 0, r#"{("cell","9")}"#, 1),
                DONE,
            ),
            (Call::Remove("book/0/phones", 0, 1), DONE),
            (
                Call::Views,
                r#"book[name:S,phones[kind:S,number:S],born:I]{("Ann",{("work","7")},1970),("Bob",{("cell","9")},1971)}"#,
            ),
            (Call::Rollback, DONE),
            (Call::Views, BOOK),
            (Call::RemoveInCopy("book/0/phones", 0, 2), DONE),
            (Call::Rollback, DONE),
            (Call::Views, BOOK),
            (Call::Reopen, "Ok(1)"),
            (Call::Views, BOOK),
        ],
    },
];

#[test]
fn edits_are_given_up(rt: HostRuntime) -> Result<(), Fail> {
    hold(rt.alloc(), &CASES)
}
