//! Which views cannot be mapped, and the worked steps of an index.
use crate::following::{change, insert, remove};
use crate::sources::{Source, key, table};
use mapped::{HashIndex, MapError, Ordered};
use mk_value::{HeldRows, Row};
use std::alloc::Global;
use std::process::Abort;
use std::test::Fail;

const PAIRS: &str = "h[k:I,v:S]";

const NESTED: &str = "n[k:I,v[x:I],w:I]";

/// What a mapping is answered.
#[derive(Clone, Copy, Debug, PartialEq, Eq)]
enum Told {
    Mapped,
    NoKeys,
    KeyIsView,
    KeysBroken(u64),
    Memory,
}

/// A table, a number of keys, and what an index and an ordered view of it are answered.
struct Case {
    rows: Source,
    keys: usize,
    hashed: Told,
    ordered: Told,
}

/// Worked by hand.
static CASES: [Case; 12] = [
    Case {
        rows: (PAIRS, "{}"),
        keys: 0,
        hashed: Told::NoKeys,
        ordered: Told::NoKeys,
    },
    Case {
        rows: (PAIRS, "{}"),
        keys: 3,
        hashed: Told::NoKeys,
        ordered: Told::NoKeys,
    },
    Case {
        rows: (PAIRS, "{}"),
        keys: 2,
        hashed: Told::Mapped,
        ordered: Told::Mapped,
    },
    Case {
        rows: (PAIRS, r#"{(2,"a"),(1,"b")}"#),
        keys: 1,
        hashed: Told::Mapped,
        ordered: Told::KeysBroken(1),
    },
    Case {
        rows: (PAIRS, r#"{(1,"b"),(2,"a")}"#),
        keys: 1,
        hashed: Told::Mapped,
        ordered: Told::Mapped,
    },
    Case {
        rows: (PAIRS, r#"{(2,"c"),(2,"d")}"#),
        keys: 1,
        hashed: Told::KeysBroken(1),
        ordered: Told::KeysBroken(1),
    },
    Case {
        rows: (PAIRS, r#"{(2,"c"),(2,"d")}"#),
        keys: 2,
        hashed: Told::Mapped,
        ordered: Told::Mapped,
    },
    Case {
        rows: (PAIRS, r#"{(3,""),(2,""),(3,""),(2,"")}"#),
        keys: 1,
        hashed: Told::KeysBroken(2),
        ordered: Told::KeysBroken(1),
    },
    Case {
        rows: (PAIRS, r#"{(9,""),(7,""),(7,""),(9,""),(7,"")}"#),
        keys: 1,
        hashed: Told::KeysBroken(2),
        ordered: Told::KeysBroken(1),
    },
    Case {
        rows: (NESTED, "{(1,{},1),(1,{},1)}"),
        keys: 2,
        hashed: Told::KeyIsView,
        ordered: Told::KeyIsView,
    },
    Case {
        rows: (NESTED, "{(1,{},1),(1,{},1)}"),
        keys: 3,
        hashed: Told::KeyIsView,
        ordered: Told::KeyIsView,
    },
    Case {
        rows: (NESTED, "{(1,{},1),(2,{},1)}"),
        keys: 1,
        hashed: Told::Mapped,
        ordered: Told::Mapped,
    },
];

/// What an error says.
fn reason(error: &MapError) -> Told {
    match error {
        MapError::NoKeys => Told::NoKeys,
        MapError::KeyIsView => Told::KeyIsView,
        MapError::KeysBroken(row) => Told::KeysBroken(*row),
        MapError::Memory => Told::Memory,
    }
}

/// What an index of a table by so many keys is answered.
fn hashed(alloc: Global, rows: &HeldRows, keys: usize) -> Told {
    match HashIndex::make(alloc, rows, keys) {
        Ok(_index) => Told::Mapped,
        Err(error) => reason(&error),
    }
}

/// What an ordered view of a table by so many keys is answered.
fn ordered(rows: &HeldRows, keys: usize) -> Told {
    match Ordered::make(rows, keys) {
        Ok(_ordered) => Told::Mapped,
        Err(error) => reason(&error),
    }
}

#[test]
fn a_view_is_mapped_by_distinct_keys(rt: HostRuntime) -> Result<(), Fail> {
    for case in &CASES {
        let rows = table(rt.alloc(), &case.rows)?;
        let (hashed, ordered) = (
            hashed(rt.alloc(), &rows, case.keys),
            ordered(&rows, case.keys),
        );
        assert_eq!(rt; hashed, case.hashed, "an index of {}", case.rows.1);
        assert_eq!(rt; ordered, case.ordered, "in order {}", case.rows.1);
    }
    Ok(())
}

/// The row of a key.
fn place_of(index: &HashIndex, key: &Row) -> Option<usize> {
    index.find(key)
}

/// The key of one number.
fn number_key(alloc: Global, number: &'static str) -> Result<Row, Fail> {
    key(alloc, &("k[k:I]", number))
}

/// A step of an index: the row of a key is looked for, or a row goes, comes or gets another key.
enum Step {
    Find(&'static str, Option<usize>),
    Remove(usize),
    Insert(usize, &'static str),
    Change(usize, &'static str),
}

/// A row of 1 is replaced, and then gets the key 2 of another, which goes.
static STEPS: [Step; 9] = [
    Step::Find("{(1)}", Some(0)),
    Step::Remove(0),
    Step::Insert(0, "{(1)}"),
    Step::Find("{(1)}", Some(0)),
    Step::Find("{(2)}", Some(1)),
    Step::Remove(1),
    Step::Change(0, "{(2)}"),
    Step::Find("{(1)}", None),
    Step::Find("{(2)}", Some(0)),
];

fn take(rt: &impl Abort, alloc: Global, index: &mut HashIndex, step: &Step) -> Result<(), Fail> {
    match step {
        Step::Find(number, row) => {
            assert_eq!(rt; place_of(index, &number_key(alloc, number)?), *row);
            Ok(())
        }
        Step::Remove(at) => remove(index, *at),
        Step::Insert(at, number) => insert(index, *at, number_key(alloc, number)?),
        Step::Change(at, number) => change(index, *at, number_key(alloc, number)?),
    }
}

/// An index by its first property of rows.
fn index_of(alloc: Global, rows: &Source) -> Result<HashIndex, Fail> {
    Ok(HashIndex::make(alloc, &table(alloc, rows)?, 1)?)
}

#[test]
fn a_replaced_row_is_found_no_more(rt: HostRuntime) -> Result<(), Fail> {
    let mut index = index_of(rt.alloc(), &(PAIRS, r#"{(1,"a"),(2,"b")}"#))?;
    for step in &STEPS {
        take(&rt, rt.alloc(), &mut index, step)?;
    }
    Ok(())
}
