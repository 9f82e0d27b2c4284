//! Lines of the greatest length, and of one byte more.
use crate::echo::run;
use lines::{End, MAX_BUDGET, MAX_LINE};
use mk_value::{Bytes, Memory};
use std::alloc::Global;
use std::process::Abort;
use std::test::Fail;

const REFUSED: &[u8] = b"err 8 limit\n";

/// The letters of a line, what comes after them, and what is said; nothing: the line itself.
static CASES: [(usize, &[u8], Option<&[u8]>); 5] = [
    (MAX_LINE, b"\n", None),
    (MAX_LINE + 1, b"", Some(REFUSED)),
    (MAX_LINE + 1, b"\n", Some(REFUSED)),
    (MAX_LINE + 1, b"aa\n", Some(REFUSED)),
    (MAX_LINE + 1, b"\nb\n", Some(b"err 8 limit\nb\n")),
];

/// A line of so many letters, with the bytes after them.
fn line_of(alloc: Global, count: usize, after: &[u8]) -> Result<Bytes, Memory> {
    let mut line = Bytes::with_room(alloc, count)?;
    for _ in 0..count {
        line.push(b'a')?;
    }
    line.push_slice(after)?;
    Ok(line)
}

/// A run over a line says what is wanted, or the line itself.
fn says(
    rt: &impl Abort,
    alloc: Global,
    line: &[u8],
    want: Option<&[u8]>,
    after: &[u8],
) -> Result<(), Fail> {
    let (end, said) = run(alloc, line, None, 0, MAX_BUDGET)?;
    assert_eq!(rt; end, End::Done, "before {after:?}");
    assert!(rt; said.as_slice() == want.unwrap_or(line), "before {after:?}");
    Ok(())
}

#[test]
fn a_line_too_long_is_answered_once(rt: HostRuntime) -> Result<(), Fail> {
    for (count, after, want) in &CASES {
        let line = line_of(rt.alloc(), *count, after)?;
        says(&rt, rt.alloc(), line.as_slice(), *want, after)?;
    }
    Ok(())
}
