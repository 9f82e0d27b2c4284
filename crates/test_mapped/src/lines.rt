//! What a line does to rows that are kept by key: rows of the sessions of the documents, and each way in which a row may move. Worked by
//! hand.
ghost use Rattle.std.specs.Prelude.{◌≡◌, ◌<◌, length};

use crate::sources::{Source, is_key_for, key, table};
use keyed_views::{KeyedEdit, put_ordered, set_ordered};
use mapped::{HashIndex, Ordered};
use mk_value::TableRead;
use std::alloc::Global;
use std::test::Fail;

/// Rows, a key that comes, and what the line does: with a row of the key put at a place, or given to the row there.
struct Case {
    rows: Source,
    key: Source,
    at: usize,
    put: &'static str,
    set: &'static str,
}

const ROWS: &str = "o[k:I]";

/// Rows by their first value, in its order.
static ORDERED: [Case; 6] = [
    Case {
        rows: (ROWS, "{(3),(4),(5)}"),
        key: (ROWS, "{(9)}"),
        at: 0,
        put: "Put { at: 3 }",
        set: "Move { at: 0, other: None, to: 2 }",
    },
    Case {
        rows: (ROWS, "{(3),(4),(5)}"),
        key: (ROWS, "{(4)}"),
        at: 1,
        put: "Replace { at: 1 }",
        set: "Change { at: 1, other: None }",
    },
    Case {
        rows: (ROWS, "{(3),(4),(5)}"),
        key: (ROWS, "{(4)}"),
        at: 2,
        put: "Replace { at: 1 }",
        set: "Change { at: 2, other: Some(1) }",
    },
    Case {
        rows: (ROWS, "{(3),(4),(5)}"),
        key: (ROWS, "{(5)}"),
        at: 0,
        put: "Replace { at: 2 }",
        set: "Move { at: 0, other: Some(2), to: 1 }",
    },
    Case {
        rows: (ROWS, "{(3),(5),(7)}"),
        key: (ROWS, "{(3)}"),
        at: 2,
        put: "Replace { at: 0 }",
        set: "Move { at: 2, other: Some(0), to: 0 }",
    },
    Case {
        rows: (ROWS, "{(3),(5),(7)}"),
        key: (ROWS, "{(6)}"),
        at: 1,
        put: "Put { at: 2 }",
        set: "Change { at: 1, other: None }",
    },
];

/// Rows by their first value, in any order; a row that is put comes last where none has its key.
static HASHED: [Case; 3] = [
    Case {
        rows: (ROWS, "{(1),(2)}"),
        key: (ROWS, "{(1)}"),
        at: 1,
        put: "Replace { at: 0 }",
        set: "Change { at: 1, other: Some(0) }",
    },
    Case {
        rows: (ROWS, "{(1),(2)}"),
        key: (ROWS, "{(2)}"),
        at: 0,
        put: "Replace { at: 1 }",
        set: "Change { at: 0, other: Some(1) }",
    },
    Case {
        rows: (ROWS, "{(1),(2)}"),
        key: (ROWS, "{(3)}"),
        at: 1,
        put: "Put { at: 1 }",
        set: "Change { at: 1, other: None }",
    },
];

/// What a line does, as it is shown.
fn shown(alloc: Global, edit: KeyedEdit) -> Result<String, Fail> {
    Ok(format!(in alloc; "{edit:?}")?)
}

/// What puts and sets do to rows in the order of their keys.
fn in_order(alloc: Global, case: &Case) -> Result<(String, String), Fail> {
    let rows = table(alloc, &case.rows)?;
    let ordered = Ordered::make(&rows, 1)?;
    let key = key(alloc, &case.key)?;
    if !is_key_for(rows.schema(), &key) || key.len() != 1 || case.at >= rows.size() {
        return Err(Fail::new("no key of the rows, or no row"));
    }
    let put = shown(alloc, put_ordered(&ordered, &rows, &key))?;
    let set = shown(alloc, set_ordered(&ordered, &rows, &key, case.at))?;
    Ok((put, set))
}

/// What puts and sets do to rows that an index keeps.
fn by_index(alloc: Global, case: &Case) -> Result<(String, String), Fail> {
    let rows = table(alloc, &case.rows)?;
    let index = HashIndex::make(alloc, &rows, 1)?;
    let key = key(alloc, &case.key)?;
    let put = shown(alloc, KeyedEdit::put_hashed(&index, &key, case.at))?;
    let set = shown(alloc, KeyedEdit::set_hashed(&index, &key, case.at))?;
    Ok((put, set))
}

#[test]
fn rows_keep_their_order(rt: HostRuntime) -> Result<(), Fail> {
    for case in &ORDERED {
        let (put, set) = in_order(rt.alloc(), case)?;
        assert_eq!(rt; put.as_str(), case.put);
        assert_eq!(rt; set.as_str(), case.set);
    }
    Ok(())
}

#[test]
fn keys_stay_distinct(rt: HostRuntime) -> Result<(), Fail> {
    for case in &HASHED {
        let (put, set) = by_index(rt.alloc(), case)?;
        assert_eq!(rt; put.as_str(), case.put);
        assert_eq!(rt; set.as_str(), case.set);
    }
    Ok(())
}
