//! Streams are taken in two pieces, cut at each place, and given back; and each wrong field is refused at its place.
use mk_value::Bytes;
use std::alloc::Global;
use std::process::Abort;
use std::test::Fail;
use stream_codec::{LoadError, Loader, save};
use view_store::Root;

/// The stream of `people[name:S,age:I]` with the row `("Ann",31)`.
const WORKED: &[u8] =
    b"MKST\x01\0\0\0\x01\0\0\0\x14\0\0\0people[name:S,age:I]\x01\0\0\0\x03\0\0\0Ann\x1f\0\0\0";

/// Two views: one with a row of each kind, an inner row among them, and one without rows.
const KINDS: &[u8] =
    b"MKST\x01\0\0\0\x02\0\0\0\x15\0\0\0k[a:I,l:L,b:B,v[s:S]]\x01\0\0\0\xfe\xff\xff\xff\0\0\0\0\0\0\0\x80\x02\0\0\0\0\xff\x02\0\0\0\0\0\0\0\x02\0\0\0\xc3\xa4\x06\0\0\0e[a:I]\0\0\0\0";

/// No view.
const NONE: &[u8] = b"MKST\x01\0\0\0\0\0\0\0";

/// Bytes, and the place of their first wrong field, or of the field that they end within.
static REFUSED: [(&[u8], u64); 14] = [
    (b"", 0),
    (b"MKST\x01\0\0", 0),
    (b"MKST\x02\0\0\0\0\0\0\0", 0),
    (b"MKST\x01\0\0\0", 8),
    (b"MKST\x01\0\0\0\x01\x04\0\0", 8),
    (b"MKST\x01\0\0\0\0\0\0\0\0", 12),
    (b"MKST\x01\0\0\0\x01\0\0\0\x01\0\x10\0", 12),
    (b"MKST\x01\0\0\0\x01\0\0\0\0\0\0\0", 16),
    (b"MKST\x01\0\0\0\x01\0\0\0\x06\0\0\0e[a:F]", 16),
    // A name that stands twice.
    (
        b"MKST\x01\0\0\0\x02\0\0\0\x06\0\0\0e[a:I]\0\0\0\0\x06\0\0\0e[b:S]",
        30,
    ),
    // More rows than a view has, and rows that do not come.
    (b"MKST\x01\0\0\0\x01\0\0\0\x06\0\0\0e[a:I]\x01\0\0\x01", 22),
    (b"MKST\x01\0\0\0\x01\0\0\0\x06\0\0\0e[a:I]\0\0\0\x01", 26),
    // A text that is too long, and one with a zero byte.
    (
        b"MKST\x01\0\0\0\x01\0\0\0\x06\0\0\0e[a:S]\x01\0\0\0\x01\0\x04\0",
        26,
    ),
    (
        b"MKST\x01\0\0\0\x01\0\0\0\x06\0\0\0e[a:S]\x01\0\0\0\x01\0\0\0\0",
        30,
    ),
];

/// What comes of bytes that are taken in two pieces.
fn taken(alloc: Global, bytes: &[u8], cut: usize) -> Result<Root, LoadError> {
    let (front, back) = bytes.split_at(cut.min(bytes.len()));
    Loader::new(alloc).feed(front)?.feed(back)?.finish()
}

/// What is taken is given back, wherever it is cut.
fn comes_back(rt: &impl Abort, alloc: Global, stream: &[u8]) -> Result<(), Fail> {
    for cut in 0..=stream.len() {
        let root = taken(alloc, stream, cut)?;
        let saved: Bytes = save(alloc, &root)?;
        assert_eq!(rt; saved.as_slice(), stream, "cut at {cut}");
    }
    Ok(())
}

#[test]
fn streams_come_back(rt: HostRuntime) -> Result<(), Fail> {
    for stream in [WORKED, KINDS, NONE] {
        comes_back(&rt, rt.alloc(), stream)?;
    }
    Ok(())
}

/// Bytes are refused at this place, wherever they are cut.
fn is_refused(rt: &impl Abort, alloc: Global, bytes: &[u8], place: u64) {
    for cut in 0..=bytes.len() {
        let answer = taken(alloc, bytes, cut);
        assert!(rt;
            matches!(answer, Err(LoadError::At(at)) if at == place),
            "{place}, cut at {cut}"
        );
    }
}

#[test]
fn wrong_fields_are_refused(rt: HostRuntime) -> Result<(), Fail> {
    for (bytes, place) in &REFUSED {
        is_refused(&rt, rt.alloc(), bytes, *place);
    }
    Ok(())
}
