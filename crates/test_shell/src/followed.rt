//! How many events watches have followed behind the lines of a session, and what they were told by the last. The numbers and places were worked
//! out by hand.
ghost use Rattle.host_io.specs.Disk.{IsSettled};
ghost use Rattle.host_io.specs.Memory.{outside_of};

use crate::unviewed::{host, serve};
use host_io::MemHost;
use lines::MAX_BUDGET;
use live::Answer;
use mk_value::Name;
use session::{Session, start};
use shell::Status;
use std::alloc::Global;
use std::process::Abort;
use std::test::Fail;
use storage::Mode;

const CAP: u64 = 4096;

/// A range of a view, and a sorting over it; then a row comes into the range, and takes another place in the sorting.
const LINES: &[u8] =
    b"getas people[name:S,age:I]\nadd people \"Ann\" 31\nadd people \"Bob\" 31\nadd people \"Cy\" 20\nwatch a range(people,age=30:50)\nwatch b sort(a,-name)\nset people 2 age 35\nset people 2 name \"Al\"\n";

const SAID: &[u8] = b"ok people[name:S,age:I]\nok 0\nok 1\nok 2\nok 2\nok 2\nok\nok\n";

/// How many events the watch of a name has followed, where it keeps positions.
fn followed(session: &Session, name: &[u8]) -> Option<u64> {
    let name = Name::from_bytes(name)?;
    let watched = session.watched(&name)?;
    Some(watched.watches.followed(watched.number))
}

/// What the watch of a name answered to the last edit, where it keeps positions.
fn told(session: &Session, name: &[u8]) -> Option<Answer> {
    let name = Name::from_bytes(name)?;
    let watched = session.watched(&name)?;
    Some(watched.watches.answer(watched.number))
}

/// Each of two watches over one another has followed the two edits behind it, and a view is no watch.
fn are_followed(rt: &impl Abort, session: &Session) {
    assert_eq!(rt; followed(session, b"a"), Some(2));
    assert_eq!(rt; followed(session, b"b"), Some(2));
    assert_eq!(rt; followed(session, b"people"), None);
}

/// Serves the lines of a host in a session over its file.
fn serve_lines(alloc: Global, host: &mut MemHost) -> Result<(Session, Status), Fail>
    requires { IsSettled (outside_of host.old).now.disk }
{
    let mut session = start(alloc, host, Mode::Write, CAP)?;
    let status = serve(alloc, &mut session, host, MAX_BUDGET)?;
    Ok((session, status))
}

#[test]
fn watches_follow_each_line_once(rt: HostRuntime) -> Result<(), Fail> {
    let mut host = host(rt.alloc(), b"", LINES, &[])?;
    let (session, status) = serve_lines(rt.alloc(), &mut host)?;
    assert_eq!(rt; status, Status::Done);
    assert_eq!(rt; host.said(), SAID);
    are_followed(&rt, &session);
    Ok(())
}

/// A line over a view that is watched by a sorting named `w`: what is said, how many events are followed, and what the watch answers to the last.
struct Line {
    title: &'static str,
    said: &'static [u8],
    input: &'static [u8],
    followed: u64,
    told: Answer,
}

/// The keys 2 and 1, in a view whose rows have rows inside.
const PLAIN: &[u8] = b"ok v[k:I,x[a:I]]\nok 0\nok 1\nok 2\n";

static OVER_A_VIEW: [Line; 10] = [
    Line {
        title: "no copy comes",
        said: b"ok 2\n",
        input: b"getas v[k:I,x[a:I]]\nadd v 2\nadd v 1\nwatch w sort(v,k)\ninsert v 0 0 5\n",
        followed: 0,
        told: Answer::Nothing,
    },
    Line {
        title: "three copies come",
        said: b"ok 5\n",
        input: b"getas v[k:I,x[a:I]]\nadd v 2\nadd v 1\nwatch w sort(v,k)\ninsert v 0 3 2\n",
        followed: 3,
        told: Answer::Insert { at: 1, count: 3 },
    },
    Line {
        title: "no row goes",
        said: b"ok 2\n",
        input: b"getas v[k:I,x[a:I]]\nadd v 2\nadd v 1\nwatch w sort(v,k)\nremove v 0 0\n",
        followed: 0,
        told: Answer::Nothing,
    },
    Line {
        title: "two rows go",
        said: b"ok 0\n",
        input: b"getas v[k:I,x[a:I]]\nadd v 2\nadd v 1\nwatch w sort(v,k)\nremove v 0 2\n",
        followed: 2,
        told: Answer::Remove { at: 0, count: 2 },
    },
    Line {
        title: "the first row goes, which is shown last",
        said: b"ok 1\n",
        input: b"getas v[k:I,x[a:I]]\nadd v 2\nadd v 1\nwatch w sort(v,k)\nremove v 0 1\n",
        followed: 1,
        told: Answer::Remove { at: 1, count: 1 },
    },
    Line {
        title: "a row changes its key",
        said: b"ok\n",
        input: b"getas v[k:I,x[a:I]]\nadd v 2\nadd v 1\nwatch w sort(v,k)\nset v 0 k 0\n",
        followed: 1,
        told: Answer::Move { from: 1, to: 0 },
    },
    Line {
        title: "a row comes inside a row",
        said: b"ok 0\n",
        input: b"getas v[k:I,x[a:I]]\nadd v 2\nadd v 1\nwatch w sort(v,k)\nadd v/1/x 4\n",
        followed: 1,
        told: Answer::Move { from: 0, to: 0 },
    },
    Line {
        title: "copies come inside a row",
        said: b"ok 3\n",
        input: b"getas v[k:I,x[a:I]]\nadd v 2\nadd v 1\nwatch w sort(v,k)\ninsert v/0/x 0 3 4\n",
        followed: 1,
        told: Answer::Move { from: 1, to: 1 },
    },
    Line {
        title: "no copy comes inside a row",
        said: b"ok 0\n",
        input: b"getas v[k:I,x[a:I]]\nadd v 2\nadd v 1\nwatch w sort(v,k)\ninsert v/0/x 0 0 4\n",
        followed: 1,
        told: Answer::Move { from: 1, to: 1 },
    },
    Line {
        title: "a line is refused",
        said: b"err 5 range 2\n",
        input: b"getas v[k:I,x[a:I]]\nadd v 2\nadd v 1\nwatch w sort(v,k)\nset v 2 k 9\n",
        followed: 0,
        told: Answer::Nothing,
    },
];

/// The keys 1, 2 and 3, each beside ten times as much; a view whose rows have a key each, watched by a sorting from the greatest value on.
const HASHED: &[u8] = b"ok h[k:I,v:I]\nok 0\nok 1\nok 2\nok\nok 3\n";

static OVER_A_HASHED_VIEW: [Line; 6] = [
    Line {
        title: "a row comes in the place of the one that has its key",
        said: b"ok 1\n",
        input: b"getas h[k:I,v:I]\nadd h 1 10\nadd h 2 20\nadd h 3 30\nhash h 1\nwatch w sort(h,-v)\nadd h 2 5\n",
        followed: 2,
        told: Answer::Insert { at: 2, count: 1 },
    },
    Line {
        title: "a row of a new key comes",
        said: b"ok 3\n",
        input: b"getas h[k:I,v:I]\nadd h 1 10\nadd h 2 20\nadd h 3 30\nhash h 1\nwatch w sort(h,-v)\nadd h 4 25\n",
        followed: 1,
        told: Answer::Insert { at: 1, count: 1 },
    },
    Line {
        title: "one row comes for seven copies",
        said: b"ok 4\n",
        input: b"getas h[k:I,v:I]\nadd h 1 10\nadd h 2 20\nadd h 3 30\nhash h 1\nwatch w sort(h,-v)\ninsert h 0 7 4 25\n",
        followed: 1,
        told: Answer::Insert { at: 1, count: 1 },
    },
    Line {
        title: "a row gets the key of another, which goes",
        said: b"ok\n",
        input: b"getas h[k:I,v:I]\nadd h 1 10\nadd h 2 20\nadd h 3 30\nhash h 1\nwatch w sort(h,-v)\nset h 0 k 2\n",
        followed: 2,
        told: Answer::Remove { at: 1, count: 1 },
    },
    Line {
        title: "a row keeps its key",
        said: b"ok\n",
        input: b"getas h[k:I,v:I]\nadd h 1 10\nadd h 2 20\nadd h 3 30\nhash h 1\nwatch w sort(h,-v)\nset h 0 v 40\n",
        followed: 1,
        told: Answer::Move { from: 2, to: 0 },
    },
    Line {
        title: "two rows go",
        said: b"ok 1\n",
        input: b"getas h[k:I,v:I]\nadd h 1 10\nadd h 2 20\nadd h 3 30\nhash h 1\nwatch w sort(h,-v)\nremove h 0 2\n",
        followed: 2,
        told: Answer::Remove { at: 1, count: 2 },
    },
];

/// The same rows, in a view whose rows stand in the order of their keys.
const ORDERED: &[u8] = b"ok o[k:I,v:I]\nok 0\nok 1\nok 2\nok\nok 3\n";

static OVER_AN_ORDERED_VIEW: [Line; 5] = [
    Line {
        title: "a row moves: it is set, goes and comes",
        said: b"ok\n",
        input: b"getas o[k:I,v:I]\nadd o 1 10\nadd o 2 20\nadd o 3 30\nordered o 1\nwatch w sort(o,-v)\nset o 0 k 9\n",
        followed: 3,
        told: Answer::Insert { at: 2, count: 1 },
    },
    Line {
        title: "a row moves, and the one that has its key goes",
        said: b"ok\n",
        input: b"getas o[k:I,v:I]\nadd o 1 10\nadd o 2 20\nadd o 3 30\nordered o 1\nwatch w sort(o,-v)\nset o 0 k 3\n",
        followed: 4,
        told: Answer::Insert { at: 1, count: 1 },
    },
    Line {
        title: "a row stays, and the one that has its key goes",
        said: b"ok\n",
        input: b"getas o[k:I,v:I]\nadd o 1 10\nadd o 2 20\nadd o 3 30\nordered o 1\nwatch w sort(o,-v)\nset o 1 k 3\n",
        followed: 2,
        told: Answer::Remove { at: 0, count: 1 },
    },
    Line {
        title: "a row comes in the place of the one that has its key",
        said: b"ok 1\n",
        input: b"getas o[k:I,v:I]\nadd o 1 10\nadd o 2 20\nadd o 3 30\nordered o 1\nwatch w sort(o,-v)\nadd o 2 35\n",
        followed: 2,
        told: Answer::Insert { at: 0, count: 1 },
    },
    Line {
        title: "a row changes and keeps its key",
        said: b"ok\n",
        input: b"getas o[k:I,v:I]\nadd o 1 10\nadd o 2 20\nadd o 3 30\nordered o 1\nwatch w sort(o,-v)\nset o 1 v 5\n",
        followed: 1,
        told: Answer::Move { from: 1, to: 2 },
    },
];

/// Whether two answers are the same.
fn is_same(answer: Answer, other: Answer) -> bool {
    match (answer, other) {
        (Answer::Nothing, Answer::Nothing) => true,
        (Answer::Insert { at, count }, Answer::Insert { at: to, count: of }) => {
            at == to && count == of
        }
        (Answer::Remove { at, count }, Answer::Remove { at: to, count: of }) => {
            at == to && count == of
        }
        (
            Answer::Move { from, to },
            Answer::Move {
                from: one,
                to: other,
            },
        ) => { from == one && to == other }
        _ => false,
    }
}

/// One line is followed as it is to be, behind what was said before it.
fn is_followed(rt: &impl Abort, alloc: Global, before: &[u8], line: &Line) -> Result<(), Fail> {
    let mut host = host(alloc, b"", line.input, &[])?;
    let (session, status) = serve_lines(alloc, &mut host)?;
    assert_eq!(rt; status, Status::Done, "{}", line.title);
    assert_eq!(rt;
        host.said().get(..before.len()),
        Some(before),
        "{}",
        line.title
    );
    assert_eq!(rt;
        host.said().get(before.len()..),
        Some(line.said),
        "{}",
        line.title
    );
    assert_eq!(rt;
        followed(&session, b"w"),
        Some(line.followed),
        "{}",
        line.title
    );
    let answer = told(&session, b"w");
    assert!(rt;
        matches!(answer, Some(answer) if is_same(answer, line.told)),
        "{}: {answer:?}",
        line.title
    );
    Ok(())
}

#[test]
fn lines_of_a_view_are_followed(rt: HostRuntime) -> Result<(), Fail> {
    for line in &OVER_A_VIEW {
        is_followed(&rt, rt.alloc(), PLAIN, line)?;
    }
    Ok(())
}

#[test]
fn lines_of_a_hashed_view_are_followed(rt: HostRuntime) -> Result<(), Fail> {
    for line in &OVER_A_HASHED_VIEW {
        is_followed(&rt, rt.alloc(), HASHED, line)?;
    }
    Ok(())
}

#[test]
fn lines_of_an_ordered_view_are_followed(rt: HostRuntime) -> Result<(), Fail> {
    for line in &OVER_AN_ORDERED_VIEW {
        is_followed(&rt, rt.alloc(), ORDERED, line)?;
    }
    Ok(())
}
