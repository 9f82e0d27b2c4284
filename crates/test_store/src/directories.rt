// Directories field by field, and what each field must be. The bytes and the places were worked out by hand from the
// table of the format.
use crate::worked::WORKED;
use bit_pack::Width;
use dir_codec::{
    Dir, DirBodies, DirBody, DirCol, DirCols, DirError, DirView, DirViews, Memo, Memos, Note,
    Notes, decode, encode,
};
use mk_value::{Bytes, Span, Text};
use std::alloc::Global;
use std::process::Abort;
use std::test::Fail;
use struct_text::parse;

/// What the mark of the commit says: its version, its number and its end.
#[derive(Clone, Copy)]
struct Mark {
    version: u8,
    number: u64,
    end: u64,
}

/// The fields from the first number up to the second have these bytes instead, and that is refused at this place.
type Case = (usize, usize, &'static [u8], Option<u64>);

// `people[name:S,age:I]` with one row, at 0, 4, 8, 28, 32, 33, 49, 65, 69 and 70.
static PEOPLE: [&[u8]; 10] = [
    b"\x01\0\0\0",
    b"\x14\0\0\0",
    b"people[name:S,age:I]",
    b"\x01\0\0\0",
    b"\x02",
    b"\xd0\0\0\0\0\0\0\0\x01\0\0\0\0\0\0\0",
    b"\xe0\0\0\0\0\0\0\0\x03\0\0\0\0\0\0\0",
    b"\0\0\0\0",
    b"\x08",
    b"\xf0\0\0\0\0\0\0\0\x01\0\0\0\0\0\0\0",
];

const PEOPLE_MARK: Mark = Mark {
    version: 1,
    number: 1,
    end: 352,
};

static PEOPLE_CASES: [Case; 35] = [
    (0, 0, b"", None),
    (0, 1, b"\x01\x04\0\0", Some(0)),
    (0, 1, b"\0\x04\0\0", Some(86)),
    (1, 2, b"\x01\0\x10\0", Some(4)),
    (1, 2, b"\0\0\x10\0", Some(8)),
    (1, 2, b"\x13\0\0\0", Some(8)),
    (2, 3, b"people(name:S,age:I]", Some(8)),
    (2, 3, b"people[name:S,age:F]", Some(8)),
    (2, 3, b"people[name:S,age:\xff]", Some(8)),
    (2, 3, b"people[same:S,same:I", Some(8)),
    (3, 4, b"\x01\0\0\x01", Some(28)),
    (4, 5, b"\x03", Some(32)),
    (4, 5, b"\x40", Some(32)),
    (4, 5, b"\x04", None),
    (4, 5, b"\x10", Some(33)),
    (4, 6, b"\0\0\0\0\0\0\0\0\0\0\0\0\0\0\0\0\0", None),
    (4, 6, b"\0\xd0\0\0\0\0\0\0\0\0\0\0\0\0\0\0\0", Some(33)),
    (5, 6, b"\0\0\0\0\0\0\0\0\0\0\0\0\0\0\0\0", Some(33)),
    (5, 6, b"\xd8\0\0\0\0\0\0\0\x01\0\0\0\0\0\0\0", Some(33)),
    (5, 6, b"\xb0\0\0\0\0\0\0\0\x01\0\0\0\0\0\0\0", Some(33)),
    (5, 6, b"\xc0\0\0\0\0\0\0\0\x01\0\0\0\0\0\0\0", None),
    (5, 6, b"\x50\x01\0\0\0\0\0\0\x01\0\0\0\0\0\0\0", None),
    (5, 6, b"\x60\x01\0\0\0\0\0\0\x01\0\0\0\0\0\0\0", Some(33)),
    (5, 6, b"\xd0\0\0\0\0\0\0\0\x02\0\0\0\0\0\0\0", Some(33)),
    (6, 7, b"\xe1\0\0\0\0\0\0\0\x03\0\0\0\0\0\0\0", Some(49)),
    (6, 7, b"\xe0\0\0\0\0\0\0\0\0\0\0\0\0\0\0\0", Some(49)),
    (6, 7, b"\0\0\0\0\0\0\0\0\0\0\0\0\0\0\0\0", None),
    (6, 7, b"\xe0\0\0\0\0\0\0\0\x80\0\0\0\0\0\0\0", None),
    (6, 7, b"\xe0\0\0\0\0\0\0\0\x81\0\0\0\0\0\0\0", Some(49)),
    (
        6,
        7,
        b"\xf0\xff\xff\xff\xff\xff\xff\xff\xff\xff\xff\xff\xff\xff\xff\xff",
        Some(49),
    ),
    (7, 8, b"\x02\0\0\0", Some(65)),
    (8, 9, b"\x40", Some(69)),
    (8, 9, b"\x20", Some(70)),
    (9, 10, b"\xf0\0\0\0\0\0\0\0\x02\0\0\0\0\0\0\0", Some(70)),
    (10, 10, b"\0", Some(86)),
];

// `a[x:I]` with no rows and `b[y:L]` with one, at 0, 4, 8, 14, 18, 19, 35, 39, 45, 49 and 50.
static TWO: [&[u8]; 11] = [
    b"\x02\0\0\0",
    b"\x06\0\0\0",
    b"a[x:I]",
    b"\0\0\0\0",
    b"\0",
    b"\0\0\0\0\0\0\0\0\0\0\0\0\0\0\0\0",
    b"\x06\0\0\0",
    b"b[y:L]",
    b"\x01\0\0\0",
    b"\x40",
    b"\xc0\0\0\0\0\0\0\0\x08\0\0\0\0\0\0\0",
];

const TWO_MARK: Mark = Mark {
    version: 1,
    number: 1,
    end: 208,
};

static TWO_CASES: [Case; 12] = [
    (0, 0, b"", None),
    (0, 1, b"\x01\0\0\0", Some(35)),
    (0, 1, b"\x03\0\0\0", Some(66)),
    (3, 4, b"\0\0\0\x01", None),
    (4, 5, b"\x40", Some(18)),
    (7, 8, b"a[y:L]", Some(39)),
    (7, 8, b"A[y:L]", None),
    (7, 8, b"b[y:I]", Some(49)),
    (7, 8, b"b[y:S]", Some(49)),
    (9, 10, b"\x03", Some(49)),
    (9, 10, b"\x80", Some(49)),
    (9, 10, b"\x20", Some(50)),
];

// `a[b[c:I]]` with a table of one row and one of none, at 0, 4, 8, 17, 21, 25, 26, 42, 46 and 47.
static NESTED: [&[u8]; 10] = [
    b"\x01\0\0\0",
    b"\x09\0\0\0",
    b"a[b[c:I]]",
    b"\x02\0\0\0",
    b"\x01\0\0\0",
    b"\x08",
    b"\xd0\0\0\0\0\0\0\0\x01\0\0\0\0\0\0\0",
    b"\0\0\0\0",
    b"\0",
    b"\0\0\0\0\0\0\0\0\0\0\0\0\0\0\0\0",
];

static NESTED_CASES: [Case; 11] = [
    (0, 0, b"", None),
    (3, 10, b"\0\0\0\0", None),
    (3, 4, b"\x01\0\0\0", Some(42)),
    (3, 4, b"\x03\0\0\0", Some(63)),
    (3, 4, b"\0\0\0\x01", Some(63)),
    (4, 5, b"\x01\0\0\x01", Some(21)),
    (5, 6, b"\x40", Some(25)),
    (6, 7, b"\xd0\0\0\0\0\0\0\0\x02\0\0\0\0\0\0\0", Some(26)),
    (7, 8, b"\0\0\0\x01", None),
    (7, 8, b"\x01\0\0\x01", Some(42)),
    (8, 9, b"\x01", None),
];

// `t[b:B]` with three rows, of which the first and the third are long, at 0, 4, 8, 14, 18, 19, 35, 51, 55, 59, 75 and 79.
static LONG: [&[u8]; 12] = [
    b"\x01\0\0\0",
    b"\x06\0\0\0",
    b"t[b:B]",
    b"\x03\0\0\0",
    b"\x20",
    b"\xd0\0\0\0\0\0\0\0\x0c\0\0\0\0\0\0\0",
    b"\xe0\0\0\0\0\0\0\0\x05\0\0\0\0\0\0\0",
    b"\x02\0\0\0",
    b"\0\0\0\0",
    b"\xf0\0\0\0\0\0\0\0\x01\x02\0\0\0\0\0\0",
    b"\x02\0\0\0",
    b"\0\x03\0\0\0\0\0\0\0\0\x04\0\0\0\0\0",
];

const LONG_MARK: Mark = Mark {
    version: 1,
    number: 1,
    end: 262_912,
};

static LONG_CASES: [Case; 13] = [
    (0, 0, b"", None),
    (7, 12, b"\0\0\0\0", None),
    (7, 8, b"\x03\0\0\0", Some(95)),
    (7, 8, b"\x04\0\0\0", Some(51)),
    (8, 9, b"\x02\0\0\0", Some(75)),
    (8, 9, b"\x03\0\0\0", Some(55)),
    (9, 10, b"\0\0\0\0\0\0\0\0\0\0\0\0\0\0\0\0", Some(59)),
    (9, 10, b"\xf0\0\0\0\0\0\0\0\0\x02\0\0\0\0\0\0", Some(59)),
    (9, 10, b"\xf8\0\0\0\0\0\0\0\x01\x02\0\0\0\0\0\0", Some(59)),
    (10, 11, b"\0\0\0\0", Some(75)),
    (10, 11, b"\x03\0\0\0", Some(75)),
    (11, 12, b"\0\x03\0\0\0\0\0\0\x01\0\x04\0\0\0\0\0", Some(79)),
    (11, 12, b"\x10\x03\0\0\0\0\0\0\0\0\x04\0\0\0\0\0", Some(79)),
];

// No views and two notes, of the commits 3 and 9, at 0, 4, 8, 16, 20, 22, 30 and 34.
static NOTED: [&[u8]; 8] = [
    b"\0\0\0\0",
    b"\x02\0\0\0",
    b"\x03\0\0\0\0\0\0\0",
    b"\x02\0\0\0",
    b"hi",
    b"\x09\0\0\0\0\0\0\0",
    b"\x03\0\0\0",
    b"ok!",
];

const NOTED_MARK: Mark = Mark {
    version: 2,
    number: 9,
    end: 208,
};

static NOTED_CASES: [Case; 16] = [
    (0, 0, b"", None),
    (1, 8, b"", Some(4)),
    (1, 2, b"\0\0\0\0", Some(4)),
    (1, 2, b"\x41\0\0\0", Some(4)),
    (1, 2, b"\x40\0\0\0", Some(37)),
    (1, 2, b"\x01\0\0\0", Some(22)),
    (2, 3, b"\0\0\0\0\0\0\0\0", Some(8)),
    (2, 3, b"\x09\0\0\0\0\0\0\0", Some(22)),
    (3, 4, b"\0\0\0\0", Some(16)),
    (3, 4, b"\0\x01\0\0", Some(16)),
    (3, 4, b"\xff\0\0\0", Some(20)),
    (4, 5, b"h\0", Some(20)),
    (4, 5, b"h\xff", Some(20)),
    (5, 6, b"\x03\0\0\0\0\0\0\0", Some(22)),
    (5, 6, b"\x0a\0\0\0\0\0\0\0", Some(22)),
    (8, 8, b"!", Some(37)),
];

/// The bytes of the fields, with those of a case.
fn changed(alloc: Global, fields: &[&[u8]], case: &Case) -> Result<Vec<u8>, Fail> {
    let (from, to, piece, _) = *case;
    let mut bytes = Vec::new(alloc);
    for (number, field) in fields.iter().enumerate() {
        if number == from {
            bytes.extend_from_slice(piece)?;
        }
        if number < from || to <= number {
            bytes.extend_from_slice(field)?;
        }
    }
    if from == fields.len() {
        bytes.extend_from_slice(piece)?;
    }
    Ok(bytes)
}

fn read(rt: &impl Abort, alloc: Global, bytes: &[u8], mark: Mark) -> Result<Dir, DirError> {
    assert!(rt; mark.version == 1 || mark.version == 2);
    decode(alloc, bytes, mark.version, mark.number, mark.end)
}

/// Why the bytes are no directory.
fn refusal(rt: &impl Abort, alloc: Global, bytes: &[u8], mark: Mark) -> Option<DirError> {
    read(rt, alloc, bytes, mark).err()
}

/// What the directory is written as that the bytes are.
fn written_again(rt: &impl Abort, alloc: Global, bytes: &[u8], mark: Mark) -> Result<Bytes, Fail> {
    Ok(encode(alloc, &read(rt, alloc, bytes, mark)?)?)
}

/// Reads the bytes, writes what was read again, and says where they are refused.
fn check(
    rt: &impl Abort,
    alloc: Global,
    bytes: &[u8],
    mark: Mark,
    refused: Option<u64>,
) -> Result<(), Fail> {
    assert_eq!(rt;
        refusal(rt, alloc, bytes, mark),
        refused.map(DirError::At),
        "{bytes:?}"
    );
    if refused.is_none() {
        let written = written_again(rt, alloc, bytes, mark)?;
        assert_eq!(rt; written.as_slice(), bytes);
    }
    Ok(())
}

fn check_cases(
    rt: &impl Abort,
    alloc: Global,
    fields: &[&[u8]],
    mark: Mark,
    cases: &[Case],
) -> Result<(), Fail> {
    for case in cases {
        let bytes = changed(alloc, fields, case)?;
        check(rt, alloc, &bytes, mark, case.3)?;
    }
    Ok(())
}

/// Cut off anywhere, the bytes are refused at the start of the field that is not whole.
fn check_cuts(rt: &impl Abort, alloc: Global, fields: &[&[u8]], mark: Mark) -> Result<(), Fail> {
    let mut bytes = Vec::new(alloc);
    for field in fields {
        let start = bytes.len() as u64;
        for byte in *field {
            check(rt, alloc, &bytes, mark, Some(start))?;
            bytes.push(*byte)?;
        }
    }
    Ok(())
}

#[test]
fn reads_columns(rt: HostRuntime) -> Result<(), Fail> {
    check_cases(&rt, rt.alloc(), &PEOPLE, PEOPLE_MARK, &PEOPLE_CASES)?;
    check_cuts(&rt, rt.alloc(), &PEOPLE, PEOPLE_MARK)
}

#[test]
fn reads_views(rt: HostRuntime) -> Result<(), Fail> {
    check_cases(&rt, rt.alloc(), &TWO, TWO_MARK, &TWO_CASES)?;
    check_cuts(&rt, rt.alloc(), &TWO, TWO_MARK)
}

#[test]
fn reads_nested_tables(rt: HostRuntime) -> Result<(), Fail> {
    check_cases(&rt, rt.alloc(), &NESTED, PEOPLE_MARK, &NESTED_CASES)?;
    check_cuts(&rt, rt.alloc(), &NESTED, PEOPLE_MARK)
}

#[test]
fn reads_long_values(rt: HostRuntime) -> Result<(), Fail> {
    check_cases(&rt, rt.alloc(), &LONG, LONG_MARK, &LONG_CASES)?;
    check_cuts(&rt, rt.alloc(), &LONG, LONG_MARK)
}

#[test]
fn reads_notes(rt: HostRuntime) -> Result<(), Fail> {
    check_cases(&rt, rt.alloc(), &NOTED, NOTED_MARK, &NOTED_CASES)?;
    check_cuts(&rt, rt.alloc(), &NOTED, NOTED_MARK)
}

const PEOPLE_WITH_NOTES: Mark = Mark {
    version: 2,
    ..PEOPLE_MARK
};

const NOTED_WITHOUT: Mark = Mark {
    version: 1,
    ..NOTED_MARK
};

// An empty directory has four bytes.
static EMPTY: [&[u8]; 1] = [b"\0\0\0\0"];

/// Reads the fields as they are, and says where they are refused.
fn check_whole(
    rt: &impl Abort,
    alloc: Global,
    fields: &[&[u8]],
    mark: Mark,
    refused: Option<u64>,
) -> Result<(), Fail> {
    check(rt, alloc, &joined(alloc, fields)?, mark, refused)
}

// A version 2 asks for notes behind the views, and a version 1 has none.
#[test]
fn versions_decide_of_notes(rt: HostRuntime) -> Result<(), Fail> {
    check_whole(&rt, rt.alloc(), &EMPTY, PEOPLE_MARK, None)?;
    check_whole(&rt, rt.alloc(), &EMPTY, NOTED_MARK, Some(4))?;
    check_whole(&rt, rt.alloc(), &PEOPLE, PEOPLE_WITH_NOTES, Some(86))?;
    check_whole(&rt, rt.alloc(), &NOTED, NOTED_WITHOUT, Some(4))
}

// The directory that stands in the worked file.
#[test]
fn the_worked_file_has_a_directory(rt: HostRuntime) -> Result<(), Fail> {
    check(&rt, rt.alloc(), &WORKED[256..342], PEOPLE_MARK, None)
}

fn span(place: u64, len: u64) -> Span {
    Span { place, len }
}

fn one_view(
    alloc: Global,
    structure: &str,
    rows: u32,
    columns: DirCols,
    notes: Notes,
) -> Result<Dir, Fail> {
    let (name, schema) = parse(alloc, structure)?;
    let mut views = DirViews::new(alloc);
    let body = DirBody {
        rows,
        cols: columns,
    };
    views.push(DirView { name, schema, body })?;
    Ok(Dir { views, notes })
}

fn people(alloc: Global) -> Result<Dir, Fail> {
    let mut columns = DirCols::new(alloc);
    columns.push(DirCol::Blobs {
        width: Width::W2,
        sizes: span(208, 1),
        short: span(224, 3),
        memos: Memos::new(alloc),
    })?;
    columns.push(DirCol::Ints {
        width: Width::W8,
        span: span(240, 1),
    })?;
    one_view(alloc, "people[name:S,age:I]", 1, columns, Notes::new(alloc))
}

fn table(alloc: Global, rows: u32, width: Width, span: Span) -> Result<DirBody, Fail> {
    let mut columns = DirCols::new(alloc);
    columns.push(DirCol::Ints { width, span })?;
    Ok(DirBody {
        rows,
        cols: columns,
    })
}

fn nested(alloc: Global) -> Result<Dir, Fail> {
    let mut tables = DirBodies::new(alloc);
    tables.push(table(alloc, 1, Width::W8, span(208, 1))?)?;
    tables.push(table(alloc, 0, Width::W0, span(0, 0))?)?;
    let mut columns = DirCols::new(alloc);
    columns.push(DirCol::Views(tables))?;
    one_view(alloc, "a[b[c:I]]", 2, columns, Notes::new(alloc))
}

fn long(alloc: Global) -> Result<Dir, Fail> {
    let mut memos = Memos::new(alloc);
    memos.push(Memo {
        row: 0,
        span: span(240, 513),
    })?;
    memos.push(Memo {
        row: 2,
        span: span(768, 262_144),
    })?;
    let mut columns = DirCols::new(alloc);
    columns.push(DirCol::Blobs {
        width: Width::W32,
        sizes: span(208, 12),
        short: span(224, 5),
        memos,
    })?;
    one_view(alloc, "t[b:B]", 3, columns, Notes::new(alloc))
}

fn noted(alloc: Global) -> Result<Dir, Fail> {
    let mut notes = Notes::new(alloc);
    for (number, text) in [(3, "hi"), (9, "ok!")] {
        notes.push(Note {
            number,
            text: Text::from_str(alloc, text)?,
        })?;
    }
    let views = DirViews::new(alloc);
    Ok(Dir { views, notes })
}

/// What a directory holds.
fn shown(alloc: Global, dir: &Dir) -> Result<String, Fail> {
    Ok(format!(in alloc; "{dir:?}")?)
}

/// What the directory holds that these bytes are.
fn shown_again(rt: &impl Abort, alloc: Global, bytes: &[u8], mark: Mark) -> Result<String, Fail> {
    shown(alloc, &read(rt, alloc, bytes, mark)?)
}

/// The bytes of all fields.
fn joined(alloc: Global, fields: &[&[u8]]) -> Result<Vec<u8>, Fail> {
    changed(alloc, fields, &(0, 0, b"", None))
}

/// The directory is written so.
fn is_written(rt: &impl Abort, alloc: Global, dir: &Dir, bytes: &[u8]) -> Result<(), Fail> {
    assert_eq!(rt; encode(alloc, dir)?.as_slice(), bytes);
    Ok(())
}

/// The bytes are read as the directory.
fn is_read(
    rt: &impl Abort,
    alloc: Global,
    dir: &Dir,
    bytes: &[u8],
    mark: Mark,
) -> Result<(), Fail> {
    let found = shown_again(rt, alloc, bytes, mark)?;
    assert_eq!(rt; found, shown(alloc, dir)?);
    Ok(())
}

/// The directory has the bytes of these fields, and they are read as it.
fn spells(
    rt: &impl Abort,
    alloc: Global,
    dir: &Dir,
    fields: &[&[u8]],
    mark: Mark,
) -> Result<(), Fail> {
    let bytes = joined(alloc, fields)?;
    is_written(rt, alloc, dir, &bytes)?;
    is_read(rt, alloc, dir, &bytes, mark)
}

#[test]
fn columns_are_written_as_they_are_read(rt: HostRuntime) -> Result<(), Fail> {
    spells(&rt, rt.alloc(), &people(rt.alloc())?, &PEOPLE, PEOPLE_MARK)
}

#[test]
fn nested_tables_are_written_as_they_are_read(rt: HostRuntime) -> Result<(), Fail> {
    spells(&rt, rt.alloc(), &nested(rt.alloc())?, &NESTED, PEOPLE_MARK)
}

#[test]
fn long_values_are_written_as_they_are_read(rt: HostRuntime) -> Result<(), Fail> {
    spells(&rt, rt.alloc(), &long(rt.alloc())?, &LONG, LONG_MARK)
}

#[test]
fn notes_are_written_as_they_are_read(rt: HostRuntime) -> Result<(), Fail> {
    spells(&rt, rt.alloc(), &noted(rt.alloc())?, &NOTED, NOTED_MARK)
}
