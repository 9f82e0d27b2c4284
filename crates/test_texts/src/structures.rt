//! Structure texts, read, refused and printed.
use mk_value::{Kind, Name, Schema, Text};
use std::alloc::Global;
use std::process::Abort;
use std::test::Fail;
use struct_text::{StructError, parse, print};

/// The 65th property's name begins at byte 376: two bytes, ten properties of five bytes, and 54 of six.
const MANY: &str =
    "x[a0:I,a1:I,a2:I,a3:I,a4:I,a5:I,a6:I,a7:I,a8:I,a9:I,a10:I,a11:I,a12:I,a13:I,a14:I,a15:I,a16:I,a17:I,a18:I,a19:I,a20:I,a21:I,a22:I,a23:I,a24:I,a25:I,a26:I,a27:I,a28:I,a29:I,a30:I,a31:I,a32:I,a33:I,a34:I,a35:I,a36:I,a37:I,a38:I,a39:I,a40:I,a41:I,a42:I,a43:I,a44:I,a45:I,a46:I,a47:I,a48:I,a49:I,a50:I,a51:I,a52:I,a53:I,a54:I,a55:I,a56:I,a57:I,a58:I,a59:I,a60:I,a61:I,a62:I,a63:I,a64:I]";

/// The same without its last property.
const FULL: &str =
    "x[a0:I,a1:I,a2:I,a3:I,a4:I,a5:I,a6:I,a7:I,a8:I,a9:I,a10:I,a11:I,a12:I,a13:I,a14:I,a15:I,a16:I,a17:I,a18:I,a19:I,a20:I,a21:I,a22:I,a23:I,a24:I,a25:I,a26:I,a27:I,a28:I,a29:I,a30:I,a31:I,a32:I,a33:I,a34:I,a35:I,a36:I,a37:I,a38:I,a39:I,a40:I,a41:I,a42:I,a43:I,a44:I,a45:I,a46:I,a47:I,a48:I,a49:I,a50:I,a51:I,a52:I,a53:I,a54:I,a55:I,a56:I,a57:I,a58:I,a59:I,a60:I,a61:I,a62:I,a63:I]";

/// The ninth bracket stands at byte 17.
const DEEP: &str = "d[a[b[c[e[f[g[h[j[i:I]]]]]]]]]";

static REFUSALS: [(&str, StructError); 34] = [
    ("", StructError::Syntax(0)),
    ("x", StructError::Syntax(1)),
    ("x[", StructError::Syntax(2)),
    ("x[]", StructError::Syntax(2)),
    ("x[a", StructError::Syntax(3)),
    ("x[a:", StructError::Syntax(4)),
    ("x[a:I", StructError::Syntax(5)),
    ("x[a:I,", StructError::Syntax(6)),
    ("x[a:I,]", StructError::Syntax(6)),
    ("x[a:I]]", StructError::Syntax(6)),
    ("x[a:I],y[b:I]", StructError::Syntax(6)),
    ("9x[a:I]", StructError::Syntax(0)),
    (" x[a:I]", StructError::Syntax(0)),
    ("x [a:I]", StructError::Syntax(1)),
    ("x:I", StructError::Syntax(1)),
    ("x[9a:I]", StructError::Syntax(2)),
    ("x[a b:I]", StructError::Syntax(3)),
    ("x[a,b:I]", StructError::Syntax(3)),
    ("x[a:i]", StructError::Syntax(4)),
    ("x[a:I;b:I]", StructError::Syntax(5)),
    ("x[a:I[b:I]]", StructError::Syntax(5)),
    ("x[\u{e9}:I]", StructError::Syntax(2)),
    ("x\u{e9}[a:I]", StructError::Syntax(1)),
    ("x[a:M]", StructError::Syntax(4)),
    ("x[a:F]", StructError::Floating(4)),
    ("x[a:D]", StructError::Floating(4)),
    ("x[a:F,a:I]", StructError::Floating(4)),
    ("x[a:I,b:D", StructError::Floating(8)),
    ("x[a:I,a:S]", StructError::Repeated(6)),
    ("x[a:I,a", StructError::Repeated(6)),
    ("x[a:I,a!", StructError::Repeated(6)),
    ("x[a:I,ab:S,a[b:I]]", StructError::Repeated(11)),
    ("x[a[b:I],a:I]", StructError::Repeated(9)),
    ("x[a[b:I,b:I],a:F]", StructError::Repeated(8)),
];

static REFUSALS_AT_LIMITS: [(&str, StructError); 6] = [
    (
        "aaaaaaaaaaaaaaaaaaaaaaaaaaaaaaaa[b:I]",
        StructError::TooLong(0),
    ),
    (
        "x[aaaaaaaaaaaaaaaaaaaaaaaaaaaaaaaa:I]",
        StructError::TooLong(2),
    ),
    (
        "x[a:I,aaaaaaaaaaaaaaaaaaaaaaaaaaaaaaaa",
        StructError::TooLong(6),
    ),
    (
        "x[a:F,aaaaaaaaaaaaaaaaaaaaaaaaaaaaaaaa:I]",
        StructError::Floating(4),
    ),
    (MANY, StructError::TooMany(376)),
    (DEEP, StructError::TooDeep(17)),
];

/// Why a text is no structure.
fn refusal(alloc: Global, text: &str) -> Option<StructError> {
    parse(alloc, text).err()
}

#[test]
fn each_offence_has_its_place(rt: HostRuntime) {
    for (text, wanted) in &REFUSALS {
        assert_eq!(rt; refusal(rt.alloc(), text), Some(*wanted), "at {text}");
    }
}

#[test]
fn refusals_at_limits(rt: HostRuntime) {
    for (text, wanted) in &REFUSALS_AT_LIMITS {
        assert_eq!(rt; refusal(rt.alloc(), text), Some(*wanted), "at {text}");
    }
}

/// What a structure prints.
fn print_of(alloc: Global, name: &Name, schema: &Schema) -> Result<Text, Fail> {
    let mut out = Text::new(alloc);
    print(name, schema, &mut out)?;
    Ok(out)
}

/// What a text is read as, printed.
fn printed(alloc: Global, text: &str) -> Result<Text, Fail> {
    let (name, schema) = parse(alloc, text)?;
    print_of(alloc, &name, &schema)
}

static STRUCTURES: [&str; 6] = [
    "people[name:S,age:I]",
    "x[a:I,b:L,c:S,d:B,e[f:I,a[a:I]]]",
    "_9[a[a:I],b[a:I]]",
    "aaaaaaaaaaaaaaaaaaaaaaaaaaaaaaa[aaaaaaaaaaaaaaaaaaaaaaaaaaaaaaa:B]",
    "d[a[b[c[e[f[g[h[i:I]]]]]]]]",
    FULL,
];

#[test]
fn what_is_read_is_printed(rt: HostRuntime) -> Result<(), Fail> {
    for text in STRUCTURES {
        assert_eq!(rt; printed(rt.alloc(), text)?.as_str(), text);
    }
    Ok(())
}

/// Asserts the properties of a book.
fn is_of_books(rt: &impl Abort, schema: &Schema) {
    assert_eq!(rt; schema.len(), 3);
    assert_eq!(rt; schema.depth(), 2);
    assert_eq!(rt; schema.find("phones"), Some(1));
    assert!(rt; matches!(schema.as_slice(), [_, _, born] if matches!(born.kind, Kind::L)));
}

#[test]
fn what_is_read(rt: HostRuntime) -> Result<(), Fail> {
    let (name, schema) = parse(rt.alloc(), "book[name:S,phones[kind:S],born:L]")?;
    assert_eq!(rt; name.as_str(), "book");
    is_of_books(&rt, &schema);
    Ok(())
}
