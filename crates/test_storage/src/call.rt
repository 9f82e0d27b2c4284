//! Calls of a store as data, and what each answers.
ghost use Rattle.std.specs.Prelude.{IfOk};
ghost use Rattle.commit_plan.specs.Following.{IsNote};

use crate::fixture::Fixture;
use crate::texts::{name, path, row_for, shown, spelled, value_for};
use crate::worked::WORKED;
use host_io::{Fault, MemHost};
use mk_value::{Text, is_text};
use recovery::OpenError;
use std::alloc::{AllocError, Global};
use std::test::Fail;
use storage::{Mode, Report, check};
use struct_text::parse;
use view_store::EditError;

/// A call of a store. A place is a path to a view; in a literal `~` stands for 512 letters.
pub enum Call {
    /// A view of this structure without rows is put in.
    Make(&'static str),
    Drop(&'static str),
    /// A place, a position there, a view literal whose first row is put in, and how many copies of it.
    Insert(&'static str, usize, &'static str, u16),
    /// A place, a row there, a property, and the literal of its new value.
    Set(&'static str, usize, &'static str, &'static str),
    /// A place, a position there, and how many rows go.
    Remove(&'static str, usize, usize),
    /// The same in a copy of the views, which is then put back.
    RemoveInCopy(&'static str, usize, usize),
    Rollback,
    /// The next commit with this note.
    Commit(&'static str),
    /// So many commits, the note of each of which is its number.
    NumberedCommits(u64),
    Revert,
    Reopen,
    /// The number, the end and the bytes used.
    Space,
    Notes,
    Before,
    Mode,
    IsShut,
    /// How many calls of the host were made.
    HostCalls,
    /// The views that are edited.
    Views,
    /// Whether the file has these bytes.
    FileIs(&'static [u8]),
    /// A look at the file with these bytes changed: the space, the views and the blocks, or why none is found.
    Check(&'static [(usize, u8)]),
}

/// A call, and its answer as a text.
pub type Turn = (Call, &'static str);

/// What an edit that is made answers.
pub const DONE: &str = "Ok(())";

/// A cap that no test reaches.
pub const CAP: u32 = 2_147_483_632;

/// A file: the worked one cut to so many bytes, with these bytes changed. In an empty one a store is made.
pub struct File {
    pub len: usize,
    pub changes: &'static [(usize, u8)],
}

pub const EMPTY_FILE: File = File {
    len: 0,
    changes: &[],
};

pub const WORKED_FILE: File = File {
    len: 352,
    changes: &[],
};

/// Calls of the store of a file, one after another.
pub struct Case {
    pub title: &'static str,
    pub file: File,
    pub faults: &'static [Fault],
    pub mode: Mode,
    pub cap: u32,
    pub turns: &'static [Turn],
}

impl Call {
    /// What the call answers.
    pub fn answer(&self, alloc: Global, fixture: &mut Fixture) -> Result<String, Fail> {
        match self {
            Call::Make(structure) => make(alloc, fixture, structure),
            Call::Drop(view) => drop_view(alloc, fixture, view),
            Call::Insert(place, pos, row, copies) => {
                insert(alloc, fixture, place, *pos, row, *copies)
            }
            Call::Set(place, row, prop, value) => set(alloc, fixture, place, *row, prop, value),
            Call::Remove(place, pos, count) => remove(alloc, fixture, place, *pos, *count),
            Call::RemoveInCopy(place, pos, count) => {
                remove_in_copy(alloc, fixture, place, *pos, *count)
            }
            Call::Rollback => rollback(alloc, fixture),
            Call::Commit(text) => commit(alloc, fixture, text),
            Call::NumberedCommits(count) => numbered_commits(alloc, fixture, *count),
            Call::Revert => revert(alloc, fixture),
            Call::Reopen => reopen(alloc, fixture),
            Call::Check(changes) => check_changed(alloc, fixture.file(), changes),
            Call::Space => space(alloc, fixture),
            Call::Notes => notes(alloc, fixture),
            Call::Before => before(alloc, fixture),
            Call::Mode => mode(alloc, fixture),
            Call::IsShut => is_shut(alloc, fixture),
            Call::HostCalls => host_calls(alloc, fixture),
            Call::Views => views(alloc, fixture),
            Call::FileIs(bytes) => file_is(alloc, fixture, bytes),
        }
    }
}

fn make(alloc: Global, fixture: &mut Fixture, structure: &str) -> Result<String, Fail> {
    let (name, schema) = parse(alloc, structure)?;
    fixture.make(alloc, &name, &schema)?;
    Ok(String::from_str(alloc, DONE)?)
}

/// What an edit answers.
fn edited(alloc: Global, answer: Result<(), EditError>) -> Result<String, Fail> {
    Ok(format!(in alloc; "{answer:?}")?)
}

fn drop_view(alloc: Global, fixture: &mut Fixture, view: &str) -> Result<String, Fail> {
    edited(alloc, fixture.drop_view(&name(view)?))
}

fn insert(
    alloc: Global,
    fixture: &mut Fixture,
    place: &str,
    pos: usize,
    row: &str,
    copies: u16,
) -> Result<String, Fail> {
    let path = path(alloc, place)?;
    let row = row_for(alloc, fixture.store().views(), &path, row)?;
    edited(alloc, fixture.insert(&path, pos, &row, copies))
}

fn set(
    alloc: Global,
    fixture: &mut Fixture,
    place: &str,
    row: usize,
    prop: &str,
    value: &str,
) -> Result<String, Fail> {
    let path = path(alloc, place)?;
    let prop = name(prop)?;
    let value = value_for(alloc, fixture.store().views(), &path, &prop, value)?;
    edited(alloc, fixture.set(&path, row, &prop, &value))
}

fn remove(
    alloc: Global,
    fixture: &mut Fixture,
    place: &str,
    pos: usize,
    count: usize,
) -> Result<String, Fail> {
    edited(alloc, fixture.remove(&path(alloc, place)?, pos, count))
}

fn remove_in_copy(
    alloc: Global,
    fixture: &mut Fixture,
    place: &str,
    pos: usize,
    count: usize,
) -> Result<String, Fail> {
    edited(
        alloc,
        fixture.remove_in_copy(&path(alloc, place)?, pos, count),
    )
}

fn rollback(alloc: Global, fixture: &mut Fixture) -> Result<String, Fail> {
    fixture.rollback();
    Ok(String::from_str(alloc, DONE)?)
}

fn commit(alloc: Global, fixture: &mut Fixture, text: &str) -> Result<String, Fail> {
    let note = note(alloc, text)?;
    if fixture.is_shut() {
        return Err(Fail::new("the store is shut"));
    }
    let answer = fixture.commit(alloc, &note);
    Ok(format!(in alloc; "{answer:?}")?)
}

fn numbered_commits(alloc: Global, fixture: &mut Fixture, count: u64) -> Result<String, Fail> {
    for _commit in 0..count {
        let mut text = Text::new(alloc);
        text.push_integer(fixture.store().number().saturating_add(1))?;
        let _answer = commit(alloc, fixture, text.as_str())?;
    }
    Ok(String::from_str(alloc, DONE)?)
}

/// The note of a text.
pub fn note(alloc: Global, text: &str) -> Result<Text, Fail>
    ensures { IfOk result (λ note. IsNote note.bytes) }
{
    if !is_text(text) || text.len() > 255 {
        return Err(Fail::new("no note"));
    }
    Ok(Text::from_str(alloc, text)?)
}

fn revert(alloc: Global, fixture: &mut Fixture) -> Result<String, Fail> {
    if fixture.is_shut() {
        return Err(Fail::new("the store is shut"));
    }
    let answer = fixture.revert(alloc);
    Ok(format!(in alloc; "{answer:?}")?)
}

fn reopen(alloc: Global, fixture: &mut Fixture) -> Result<String, Fail> {
    let answer = fixture.reopen(alloc);
    Ok(format!(in alloc; "{answer:?}")?)
}

fn space(alloc: Global, fixture: &Fixture) -> Result<String, Fail> {
    let space = fixture.store().space();
    Ok(format!(in alloc; "{} {} {}", space.number, space.end, space.used)?)
}

/// The notes oldest first, each behind its number.
fn notes(alloc: Global, fixture: &Fixture) -> Result<String, Fail> {
    let mut out = Text::new(alloc);
    for note in fixture.store().notes().as_slice() {
        out.push_integer(note.number)?;
        out.push(' ')?;
        out.push_str(note.text.as_str())?;
        out.push(';')?;
    }
    Ok(out.into_string())
}

fn before(alloc: Global, fixture: &Fixture) -> Result<String, Fail> {
    let before = fixture.store().before();
    Ok(format!(in alloc; "{before:?}")?)
}

fn mode(alloc: Global, fixture: &Fixture) -> Result<String, Fail> {
    let mode = fixture.store().mode();
    Ok(format!(in alloc; "{mode:?}")?)
}

fn is_shut(alloc: Global, fixture: &Fixture) -> Result<String, Fail> {
    let shut = fixture.is_shut();
    Ok(format!(in alloc; "{shut}")?)
}

fn host_calls(alloc: Global, fixture: &Fixture) -> Result<String, Fail> {
    let calls = fixture.calls();
    Ok(format!(in alloc; "{calls}")?)
}

fn views(alloc: Global, fixture: &Fixture) -> Result<String, Fail> {
    Ok(shown(alloc, fixture.store().views())?.into_string())
}

fn file_is(alloc: Global, fixture: &Fixture, bytes: &[u8]) -> Result<String, Fail> {
    let same = fixture.file() == bytes;
    Ok(format!(in alloc; "{same}")?)
}

/// What a look at a file with these bytes changed finds.
fn check_changed(alloc: Global, file: &[u8], changes: &[(usize, u8)]) -> Result<String, Fail> {
    let file = changed(alloc, file, changes)?;
    let mut host = MemHost::new(alloc, &file, b"", &[], 0, 0)?;
    Ok(found(alloc, check(alloc, &mut host))?)
}

fn found(alloc: Global, answer: Result<Report, OpenError>) -> Result<String, AllocError> {
    match answer {
        Ok(report) => {
            let space = report.space;
            format!(in alloc;
                "{} {} {} {} {}",
                space.number, space.end, space.used, report.views, report.blocks
            )
        }
        Err(error) => format!(in alloc; "{error:?}"),
    }
}

/// A file with these bytes changed.
fn changed(alloc: Global, file: &[u8], changes: &[(usize, u8)]) -> Result<Vec<u8>, AllocError> {
    let mut file = Vec::from_slice(alloc, file)?;
    for (place, byte) in changes {
        if *place < file.len() {
            file[*place] = *byte;
        }
    }
    Ok(file)
}

/// The store of a case.
fn opened(alloc: Global, case: &Case) -> Result<Fixture, Fail> {
    if case.file.len == 0 {
        return Fixture::create(alloc, case.faults, case.mode, case.cap);
    }
    let mut file = changed(alloc, &WORKED, case.file.changes)?;
    file.truncate(case.file.len);
    Ok(Fixture::open(alloc, &file, case.faults, case.mode, case.cap)?)
}

/// Fails where another text was found than is wanted.
pub fn same(title: &str, found: &str, wanted: &str) -> Result<(), Fail> {
    if found == wanted {
        return Ok(());
    }
    Err(Fail::new(format_args!("{title}: {found}, not {wanted}")))
}

/// Fails where another number was found than is wanted.
pub fn same_number(title: &str, found: u64, wanted: u64) -> Result<(), Fail> {
    if found == wanted {
        return Ok(());
    }
    Err(Fail::new(format_args!("{title}: {found}, not {wanted}")))
}

/// The call answers as it should.
fn answers(alloc: Global, fixture: &mut Fixture, title: &str, turn: &Turn) -> Result<(), Fail> {
    let (call, wanted) = turn;
    let answer = call.answer(alloc, fixture)?;
    let wanted = spelled(alloc, wanted)?;
    same(title, answer.as_str(), wanted.as_str())
}

/// Each call answers as it should.
pub fn answer_all(
    alloc: Global,
    fixture: &mut Fixture,
    title: &str,
    turns: &[Turn],
) -> Result<(), Fail> {
    for turn in turns {
        answers(alloc, fixture, title, turn)?;
    }
    Ok(())
}

/// Each call of the case answers as it should.
fn holds(alloc: Global, case: &Case) -> Result<(), Fail> {
    let mut fixture = opened(alloc, case)?;
    answer_all(alloc, &mut fixture, case.title, case.turns)
}

/// Each call of each case answers as it should.
pub fn hold(alloc: Global, cases: &[Case]) -> Result<(), Fail> {
    for case in cases {
        holds(alloc, case)?;
    }
    Ok(())
}
