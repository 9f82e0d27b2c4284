//! The texts of replies, and notes. How lines are read is seen through the built program: `tests/cases`.
use cmd_text::{Note, Refusal, Reply, Space, lines_of, reply_text};
use mk_value::{Text, Texts};
use std::alloc::Global;
use std::process::Abort;
use std::test::Fail;

/// The lines of a reply.
fn text_of(alloc: Global, reply: &Reply) -> Result<Text, Fail> {
    let mut out = Text::new(alloc);
    reply_text(reply, &mut out)?;
    Ok(out)
}

/// The reply has these lines.
fn says(rt: &impl Abort, alloc: Global, reply: Reply, want: &str) -> Result<(), Fail> {
    assert_eq!(rt; text_of(alloc, &reply)?.as_str(), want);
    Ok(())
}

#[test]
fn replies_have_their_texts(rt: HostRuntime) -> Result<(), Fail> {
    let alloc = rt.alloc();
    says(&rt, alloc, Reply::Silent, "")?;
    says(&rt, alloc, Reply::Plain, "ok\n")?;
    let most = Reply::Count(18446744073709551615);
    says(&rt, alloc, most, "ok 18446744073709551615\n")?;
    says(&rt, alloc, Reply::Pair(1, 2), "ok 1 2\n")?;
    says(&rt, alloc, Reply::NotFound, "ok none\n")?;
    says(&rt, alloc, Reply::Quit, "ok quit\n")
}

#[test]
fn replies_of_the_store_have_their_texts(rt: HostRuntime) -> Result<(), Fail> {
    let alloc = rt.alloc();
    says(&rt, alloc, Reply::Commit(1), "ok commit 1\n")?;
    says(&rt, alloc, Reply::Rollback(1), "ok rollback 1\n")?;
    says(&rt, alloc, Reply::Reopen(2), "ok reopen 2\n")?;
    says(&rt, alloc, Reply::Revert(3), "ok revert 3\n")?;
    let space = Space {
        number: 4,
        end: 608,
        used: 304,
    };
    says(&rt, alloc, Reply::Space(space), "ok space 4 608 304\n")
}

/// The reply that gives a text.
fn one(alloc: Global, text: &str) -> Result<Reply, Fail> {
    Ok(Reply::One(Text::from_str(alloc, text)?))
}

/// The reply that gives these lines.
fn joined(alloc: Global, lines: &Texts) -> Result<Reply, Fail> {
    let bytes = lines_of(alloc, lines.as_slice())?;
    Ok(Reply::Lines(lines.len() as u64, bytes))
}

/// The reply that gives the texts.
fn lines(alloc: Global, texts: &[&str]) -> Result<Reply, Fail> {
    let mut lines = Texts::new(alloc);
    for text in texts {
        lines.push(Text::from_str(alloc, text)?)?;
    }
    joined(alloc, &lines)
}

/// The reply that gives a text has these lines.
fn says_one(rt: &impl Abort, alloc: Global, text: &str, want: &str) -> Result<(), Fail> {
    says(rt, alloc, one(alloc, text)?, want)
}

/// The reply that gives the texts has these lines.
fn says_lines(rt: &impl Abort, alloc: Global, texts: &[&str], want: &str) -> Result<(), Fail> {
    says(rt, alloc, lines(alloc, texts)?, want)
}

/// Two rows.
static ROWS: [&str; 2] = ["(\"Ann\",31)", "(\"Bob\",31)"];

#[test]
fn texts_stand_on_lines_of_their_own(rt: HostRuntime) -> Result<(), Fail> {
    let alloc = rt.alloc();
    says_one(
        &rt,
        alloc,
        "people[name:S,age:I]",
        "ok people[name:S,age:I]\n",
    )?;
    says_lines(&rt, alloc, &[], "ok 0\n")?;
    says_lines(&rt, alloc, &ROWS, "ok 2\n(\"Ann\",31)\n(\"Bob\",31)\n")
}

static REFUSALS: [(Refusal, &str); 18] = [
    (Refusal::Memory, "err 1 memory\n"),
    (Refusal::Syntax(8), "err 2 syntax 8\n"),
    (Refusal::NoName, "err 3 noname\n"),
    (Refusal::Exists, "err 4 exists\n"),
    (Refusal::Range(3), "err 5 range 3\n"),
    (Refusal::NoProp, "err 6 noprop\n"),
    (Refusal::Kind, "err 7 kind\n"),
    (Refusal::Limit, "err 8 limit\n"),
    (Refusal::Disk, "err 9 disk\n"),
    (Refusal::Full(800, 608), "err 10 full 800 608\n"),
    (Refusal::Shut, "err 11 shut\n"),
    (Refusal::LastNumber, "err 12 lastnumber\n"),
    (Refusal::Floating(10), "err 13 floating 10\n"),
    (Refusal::ReadOnly, "err 14 readonly\n"),
    (Refusal::Damaged(224), "err 15 damaged 224\n"),
    (Refusal::InUse, "err 16 inuse\n"),
    (Refusal::Keys(1), "err 17 keys 1\n"),
    (Refusal::Unsorted, "err 18 unsorted\n"),
];

#[test]
fn refusals_have_their_numbers(rt: HostRuntime) -> Result<(), Fail> {
    for (refusal, want) in &REFUSALS {
        says(&rt, rt.alloc(), Reply::Refused(*refusal), want)?;
    }
    Ok(())
}

#[test]
fn notes_are_made_of_texts(rt: HostRuntime) -> Result<(), Fail> {
    let text = Text::from_str(rt.alloc(), "first")?;
    assert!(rt; !Note::is_note("a\0b"));
    assert!(rt; Note::is_note(text.as_str()));
    assert_eq!(rt; Note::of(text).as_text().as_str(), "first");
    assert_eq!(rt; Note::none(rt.alloc()).as_text().as_str(), "");
    Ok(())
}
