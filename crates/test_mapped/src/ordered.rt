//! Rows in the order of their keys: where a key is, and where a row of it is put.
ghost use Rattle.std.specs.Prelude.{◌≡◌, ◌<◌, ◌≤◌, length};
ghost use Rattle.mapped.specs.Keys.{AscendByKey, IsKeyFor};

use crate::sources::{Source, is_key_for, key, table};
use mapped::{Ordered, OverKeys, Put};
use mk_value::{HeldRows, Row, Steps, TableRead};
use std::alloc::Global;
use std::marker::Brand;
use std::sync::ledger::{Blank, Ledger};
use std::test::Fail;

/// A table in order, how many values its keys have, a key, and what is said of it: the first row that is not less, and with all values of
/// a key also where a row of it is put.
struct Case {
    rows: Source,
    keys: usize,
    key: Source,
    said: &'static str,
}

const ONE: &str = "o[k:I]";

const TWO: &str = "t[a:S,b:L,c:I]";

const PAIRS: &str = r#"{("a",1,0),("a",3,0),("c",-5,0),("c",7,0)}"#;

/// The steps of a view that is kept in order, and keys of several values. Worked by hand.
static CASES: [Case; 15] = [
    Case {
        rows: (ONE, "{}"),
        keys: 1,
        key: (ONE, "{(5)}"),
        said: "0 insert 0",
    },
    Case {
        rows: (ONE, "{(5)}"),
        keys: 1,
        key: (ONE, "{(3)}"),
        said: "0 insert 0",
    },
    Case {
        rows: (ONE, "{(3),(5)}"),
        keys: 1,
        key: (ONE, "{(4)}"),
        said: "1 insert 1",
    },
    Case {
        rows: (ONE, "{(3),(4),(5)}"),
        keys: 1,
        key: (ONE, "{(9)}"),
        said: "3 insert 3",
    },
    Case {
        rows: (ONE, "{(4),(5),(9)}"),
        keys: 1,
        key: (ONE, "{(5)}"),
        said: "1 replace 1",
    },
    Case {
        rows: (ONE, "{(4),(5),(9)}"),
        keys: 1,
        key: (ONE, "{(4)}"),
        said: "0 replace 0",
    },
    Case {
        rows: (ONE, "{(4),(5),(9)}"),
        keys: 1,
        key: (ONE, "{(9)}"),
        said: "2 replace 2",
    },
    Case {
        rows: (ONE, "{(-4),(5),(9)}"),
        keys: 1,
        key: (ONE, "{(-5)}"),
        said: "0 insert 0",
    },
    Case {
        rows: (TWO, PAIRS),
        keys: 2,
        key: ("k[a:S]", r#"{("a")}"#),
        said: "0",
    },
    Case {
        rows: (TWO, PAIRS),
        keys: 2,
        key: ("k[a:S]", r#"{("b")}"#),
        said: "2",
    },
    Case {
        rows: (TWO, PAIRS),
        keys: 2,
        key: ("k[a:S]", r#"{("c")}"#),
        said: "2",
    },
    Case {
        rows: (TWO, PAIRS),
        keys: 2,
        key: ("k[a:S]", r#"{("d")}"#),
        said: "4",
    },
    Case {
        rows: (TWO, PAIRS),
        keys: 2,
        key: ("k[a:S,b:L]", r#"{("a",3)}"#),
        said: "1 replace 1",
    },
    Case {
        rows: (TWO, PAIRS),
        keys: 2,
        key: ("k[a:S,b:L]", r#"{("a",4)}"#),
        said: "2 insert 2",
    },
    Case {
        rows: (TWO, PAIRS),
        keys: 2,
        key: ("k[a:S,b:L]", r#"{("c",0)}"#),
        said: "3 insert 3",
    },
];

/// The first row that is not less.
fn lower<L: Ledger>(ordered: &Ordered, rows: &HeldRows, key: &Row, blank: Blank) -> usize
    requires ascend { AscendByKey ordered.now rows.now.rows }
    requires key { IsKeyFor rows.now.schema key.now }
    requires some { 0 < length key.now }
    requires few { length key.now ≤ ordered.now }
    requires name { blank.name ≡ L.name }
    requires parts { blank.parts ≡ L.parts }
    requires share { 0 < blank.parts }
{
    let mut steps = Steps::<L>::new(blank);
    ordered.lower(&OverKeys { rows }, key, &mut steps)
}

/// What is said of a key.
fn said(alloc: Global, case: &Case) -> Result<String, Fail> {
    let rows = table(alloc, &case.rows)?;
    let ordered = Ordered::make(&rows, case.keys)?;
    let key = key(alloc, &case.key)?;
    if !is_key_for(rows.schema(), &key) || key.is_empty() || key.len() > case.keys {
        return Err(Fail::new("no key"));
    }
    let at = lower::<Brand>(&ordered, &rows, &key, Blank::new(1));
    if key.len() < case.keys {
        return Ok(format!(in alloc; "{at}")?);
    }
    match ordered.where_to_put(&rows, &key) {
        Put::Replace(row) => Ok(format!(in alloc; "{at} replace {row}")?),
        Put::Insert(row) => Ok(format!(in alloc; "{at} insert {row}")?),
    }
}

#[test]
fn a_key_has_its_place(rt: HostRuntime) -> Result<(), Fail> {
    for case in &CASES {
        let said = said(rt.alloc(), case)?;
        assert_eq!(rt;
            said.as_str(),
            case.said,
            "{} in {}",
            case.key.1,
            case.rows.1
        );
    }
    Ok(())
}
