//! A store is made, and its file is opened.
use crate::call::{CAP, Call, Case, DONE, EMPTY_FILE, WORKED_FILE, hold};
use crate::worked::{NEW, WORKED};
use host_io::{Effect, Fault, MemHost};
use mk_value::Memory;
use std::alloc::Global;
use std::test::Fail;
use storage::{Mode, Store};

static CASES: [Case; 2] = [
    Case {
        title: "the worked file is made",
        file: EMPTY_FILE,
        faults: &[],
        mode: Mode::Write,
        cap: CAP,
        turns: &[
            (Call::FileIs(&NEW), "true"),
            (Call::Mode, "Write"),
            (Call::Make("people[name:S,age:I]"), DONE),
            (Call::Insert("people", 0, r#"{("Ann",31)}"#, 1), DONE),
            (Call::FileIs(&NEW), "true"),
            (Call::Commit(""), "Ok(1)"),
            (Call::FileIs(&WORKED), "true"),
            (Call::Before, "Some(0)"),
        ],
    },
    Case {
        title: "the worked file is opened",
        file: WORKED_FILE,
        faults: &[],
        mode: Mode::Extend,
        cap: CAP,
        turns: &[
            (Call::Mode, "Extend"),
            (Call::Views, r#"people[name:S,age:I]{("Ann",31)}"#),
            (Call::Space, "1 352 144"),
            (Call::Before, "Some(0)"),
            (Call::Notes, ""),
            (Call::Check(&[]), "1 352 144 1 4"),
            (Call::FileIs(&WORKED), "true"),
        ],
    },
];

#[test]
fn the_worked_file_is_made_and_opened(rt: HostRuntime) -> Result<(), Fail> {
    hold(rt.alloc(), &CASES)
}

/// A new file takes a write and a sync.
const CALLS: u64 = 2;

/// Whether a store is made where this call of the host fails.
fn is_made(alloc: Global, call: u64) -> Result<bool, Memory> {
    let script = [Fault {
        call,
        effect: Effect::Nothing,
    }];
    let mut host = MemHost::new(alloc, b"", b"", &script, 0, 999)?;
    Ok(Store::create(alloc, &mut host, Mode::Write, 208).is_ok())
}

#[test]
fn no_store_is_made_where_the_disk_fails(rt: HostRuntime) -> Result<(), Fail> {
    for call in 0..=CALLS {
        assert_eq!(rt; is_made(rt.alloc(), call)?, call == CALLS, "call {call}");
    }
    Ok(())
}
