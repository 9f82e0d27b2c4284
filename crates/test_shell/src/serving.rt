//! How a run over lines ends, and what it has said by then.
use crate::echo::run;
use lines::End;
use std::alloc::Global;
use std::process::Abort;
use std::test::Fail;

/// The input, the call that fails, the most bytes of a piece, the budget; how it ends, and what was said.
type Case = (&'static [u8], Option<u64>, usize, u64, End, &'static [u8]);

const CUT: &[u8] = b"one\n\ntwo three\n four\nlast";

const SAID: &[u8] = b"one\ntwo three\n four\nlast\n";

static CASES: [Case; 18] = [
    (b"", None, 0, 9, End::Done, b""),
    (b"a\n", None, 0, 9, End::Done, b"a\n"),
    (b"a\n\nb", None, 0, 9, End::Done, b"a\nb\n"),
    (b"\xff\n", None, 0, 9, End::Done, b"?\n"),
    (b"quit\nb\n", None, 0, 9, End::Done, b"quit\n"),
    (b"a\nquit", None, 0, 9, End::Done, b"a\nquit\n"),
    // The second take fails.
    (b"a\nb", Some(2), 2, 9, End::TakeFault, b"a\n"),
    // The second byte of the answer is not said.
    (b"ab\n", Some(4), 1, 9, End::SayFault, b"a"),
    // The budget ends at the end of a line, and one more byte comes or doesn't.
    (b"size\nquit\n", None, 0, 5, End::TooMuch, b"size\n"),
    (b"size\n", None, 0, 5, End::Done, b"size\n"),
    // It ends within a line.
    (b"size\n", None, 3, 4, End::TooMuch, b""),
    (b"size", None, 3, 4, End::Done, b"size\n"),
    (b"a", None, 0, 0, End::TooMuch, b""),
    (b"quit\n", None, 0, 5, End::Done, b"quit\n"),
    // The same lines, however they are cut.
    (CUT, None, 1, 99, End::Done, SAID),
    (CUT, None, 2, 99, End::Done, SAID),
    (CUT, None, 3, 99, End::Done, SAID),
    (CUT, None, 7, 99, End::Done, SAID),
];

/// A run ends so, and has said just this.
fn holds(rt: &impl Abort, alloc: Global, case: &Case) -> Result<(), Fail> {
    let (input, fails, most, budget, end, said) = *case;
    let (ended, spoke) = run(alloc, input, fails, most, budget)?;
    assert_eq!(rt; ended, end);
    assert_eq!(rt; spoke.as_slice(), said);
    Ok(())
}

#[test]
fn runs_end_as_their_rows_say(rt: HostRuntime) -> Result<(), Fail> {
    for case in &CASES {
        holds(&rt, rt.alloc(), case)?;
    }
    Ok(())
}
