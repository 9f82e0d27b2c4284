//! Values: how literals become them, what they print, which kind they fit, and how they are ordered.
use mk_value::{
    FitError, HeldRows, KeyPart, KeyParts, KeyRow, Kind, Literal, Name, Path, Positions, Rows,
    Same, Schema, Step, TableRead, Text, Value, cmp_value, default_of, fits, print_value, rows_fit,
    to_value,
};
use std::alloc::Global;
use std::cmp::Ordering;
use std::process::Abort;
use std::test::Fail;
use struct_text::parse;
use tokens::read_literal;

/// The schema of a structure text.
fn schema_in(alloc: Global, text: &str) -> Result<Schema, Fail> {
    Ok(parse(alloc, text)?.1)
}

/// The schema of one property `x` of a kind as a structure text has it after the name: `:I`, or properties in brackets.
fn schema_of(alloc: Global, kind: &str) -> Result<Schema, Fail> {
    schema_in(alloc, format!(in alloc; "t[x{kind}]")?.as_str())
}

/// The kind of a schema's first property.
fn first(schema: &Schema) -> Result<&Kind, Fail> {
    match schema.as_slice().first() {
        Some(prop) => Ok(&prop.kind),
        None => Err(Fail::new("no property")),
    }
}

/// The value of this kind that a literal spells.
fn value_under(alloc: Global, kind: &Kind, literal: &str) -> Result<Value, Fail> {
    let literal = read_literal(alloc, literal)?;
    Ok(to_value(alloc, &literal, kind)?)
}

/// The value of this kind that a literal spells.
fn value(alloc: Global, kind: &str, literal: &str) -> Result<Value, Fail> {
    let schema = schema_of(alloc, kind)?;
    value_under(alloc, first(&schema)?, literal)
}

/// What a value prints.
fn printed(alloc: Global, value: &Value) -> Result<Text, Fail> {
    let mut out = Text::new(alloc);
    print_value(value, &mut out)?;
    Ok(out)
}

/// Why a literal becomes nothing.
fn refused(alloc: Global, error: &FitError) -> Result<Text, Fail> {
    match error {
        FitError::WrongKind => Ok(Text::from_str(alloc, "wrong kind")?),
        FitError::TooLong => Ok(Text::from_str(alloc, "too long")?),
        FitError::Memory => Err(Fail::new("out of memory")),
    }
}

/// What a literal becomes under a kind.
fn converted(alloc: Global, literal: &Literal, kind: &Kind) -> Result<Value, FitError> {
    to_value(alloc, literal, kind)
}

/// What a literal becomes under a kind, printed, or why it becomes nothing.
fn becoming(alloc: Global, kind: &Kind, literal: &Literal) -> Result<Text, Fail> {
    match converted(alloc, literal, kind) {
        Ok(value) => printed(alloc, &value),
        Err(error) => refused(alloc, &error),
    }
}

/// A kind, the text of its default, a literal, and what that becomes.
static VALUES: [(&str, &str, &str, &str); 15] = [
    (":I", "0", "2147483647", "2147483647"),
    // One above the greatest number of 32 bits.
    (":I", "0", "2147483648", "wrong kind"),
    (":I", "0", "\"7\"", "wrong kind"),
    (":L", "0", "2147483648", "2147483648"),
    (":L", "0", "-9223372036854775808", "-9223372036854775808"),
    // A quote, a backslash and a newline are escaped.
    (":S", "\"\"", "\"é\\\"\\\\\\n\"", "\"é\\\"\\\\\\n\""),
    (":S", "\"\"", "x\"37\"", "wrong kind"),
    // Two digits a byte.
    (":B", "x\"\"", "x\"780f\"", "x\"780f\""),
    (":B", "x\"\"", "\"7\"", "wrong kind"),
    ("[age:I]", "{}", "{}", "{}"),
    ("[age:I]", "{}", "{(-2147483648)}", "{(-2147483648)}"),
    ("[age:I]", "{}", "{(1),(-2147483649)}", "wrong kind"),
    ("[age:I]", "{}", "{(1,2)}", "wrong kind"),
    // What is missing at a row's end is the default.
    ("[age:I,name:S]", "{}", "{(1)}", "{(1,\"\")}"),
    (
        "[age:I,p[q:B]]",
        "{}",
        "{(1,{(x\"00\")})}",
        "{(1,{(x\"00\")})}",
    ),
];

/// The default of a kind prints so.
fn has_default(rt: &impl Abort, alloc: Global, kind: &Kind, want: &str) -> Result<(), Fail> {
    let text = printed(alloc, &default_of(alloc, kind))?;
    assert_eq!(rt; text.as_str(), want);
    Ok(())
}

/// The literal becomes that.
fn becomes(
    rt: &impl Abort,
    alloc: Global,
    kind: &Kind,
    literal: &str,
    want: &str,
) -> Result<(), Fail> {
    let literal = read_literal(alloc, literal)?;
    let text = becoming(alloc, kind, &literal)?;
    assert_eq!(rt; text.as_str(), want);
    Ok(())
}

/// The default of a kind prints so, and a literal becomes that.
fn has_value(rt: &impl Abort, alloc: Global, case: &(&str, &str, &str, &str)) -> Result<(), Fail> {
    let (kind, default, literal, want) = *case;
    let schema = schema_of(alloc, kind)?;
    let kind = first(&schema)?;
    has_default(rt, alloc, kind, default)?;
    becomes(rt, alloc, kind, literal, want)
}

#[test]
fn a_literal_becomes_a_value_or_does_not_fit(rt: HostRuntime) -> Result<(), Fail> {
    for case in &VALUES {
        has_value(&rt, rt.alloc(), case)?;
    }
    Ok(())
}

/// A value by its kind and literal, another kind, and whether it fits that.
static FITTING: [(&str, &str, &str, bool); 8] = [
    (":I", "7", ":I", true),
    (":I", "7", ":L", false),
    (":L", "7", ":I", false),
    (":S", "\"7\"", ":B", false),
    (":S", "\"é\"", ":S", true),
    ("[age:I]", "{(31)}", "[age:I]", true),
    ("[age:I]", "{(31)}", "[age:L]", false),
    ("[age:I]", "{(31)}", "[age:I,name:S]", false),
];

/// Whether a value fits a kind.
fn fits_kind(alloc: Global, value: &Value, kind: &str) -> Result<bool, Fail> {
    let schema = schema_of(alloc, kind)?;
    Ok(fits(value, first(&schema)?))
}

/// Whether a value of a kind fits another.
fn does_fit(alloc: Global, own: &str, literal: &str, kind: &str) -> Result<bool, Fail> {
    let given = value(alloc, own, literal)?;
    fits_kind(alloc, &given, kind)
}

#[test]
fn a_value_fits_its_own_kind_alone(rt: HostRuntime) -> Result<(), Fail> {
    for (own, literal, kind, want) in &FITTING {
        assert_eq!(rt; does_fit(rt.alloc(), own, literal, kind)?, *want);
    }
    Ok(())
}

/// No literal spells a text with a zero byte.
#[test]
fn a_text_with_a_zero_byte_fits_no_kind(rt: HostRuntime) -> Result<(), Fail> {
    let zero = Value::S(Text::from_str(rt.alloc(), "a\0")?);
    assert!(rt; !fits(&zero, &Kind::S));
    Ok(())
}

/// A kind, and two values of it in ascending order or equal.
static ORDERS: [(&str, &str, &str, Ordering); 7] = [
    (":L", "-5", "3", Ordering::Less),
    (":I", "3", "3", Ordering::Equal),
    (":S", "\"ab\"", "\"abc\"", Ordering::Less),
    (":S", "\"b\"", "\"abc\"", Ordering::Greater),
    // Bytes above 127 are no negative numbers.
    (":B", "x\"7f\"", "x\"80\"", Ordering::Less),
    (":B", "x\"\"", "x\"00\"", Ordering::Less),
    (":B", "x\"00\"", "x\"00\"", Ordering::Equal),
];

/// A key of one number, and of a zero after it where it is longer.
fn key(alloc: Global, number: i32, down: bool, at: u64, longer: bool) -> Result<KeyRow, Fail> {
    let mut parts = KeyParts::new(alloc);
    let value = Value::I(number);
    parts.push(KeyPart { value, down })?;
    if longer {
        let value = Value::I(0);
        parts.push(KeyPart { value, down: false })?;
    }
    Ok(KeyRow { parts, at })
}

/// The number, the position and the length of two keys, whether they go downwards, and their order.
static KEYS: [((i32, u64, bool), (i32, u64, bool), bool, Ordering); 6] = [
    ((1, 9, false), (2, 0, false), false, Ordering::Less),
    ((1, 9, false), (1, 10, false), false, Ordering::Less),
    ((1, 9, false), (1, 9, false), false, Ordering::Equal),
    // Downwards turns the number round, and not the position.
    ((1, 0, false), (2, 9, false), true, Ordering::Greater),
    ((1, 0, false), (1, 10, false), true, Ordering::Less),
    // The front of another key is less, wherever they stand.
    ((1, 9, false), (1, 0, true), false, Ordering::Less),
];

/// The order of two values of a kind.
fn value_order(alloc: Global, kind: &str, one: &str, two: &str) -> Result<Ordering, Fail> {
    let first = value(alloc, kind, one)?;
    let second = value(alloc, kind, two)?;
    Ok(cmp_value(&first, &second))
}

#[test]
fn values_are_ordered(rt: HostRuntime) -> Result<(), Fail> {
    for (kind, one, two, want) in &ORDERS {
        assert_eq!(rt; value_order(rt.alloc(), kind, one, two)?, *want);
    }
    Ok(())
}

/// The order of two keys, and whether they are equal.
fn order_of(first: &KeyRow, second: &KeyRow) -> (Ordering, bool) {
    (first.cmp(second), first == second)
}

/// The order of the keys of two rows of the table, and whether they are equal.
fn key_order(
    alloc: Global,
    one: (i32, u64, bool),
    two: (i32, u64, bool),
    down: bool,
) -> Result<(Ordering, bool), Fail> {
    let first = key(alloc, one.0, down, one.1, one.2)?;
    let second = key(alloc, two.0, down, two.1, two.2)?;
    Ok(order_of(&first, &second))
}

#[test]
fn keys_are_ordered(rt: HostRuntime) -> Result<(), Fail> {
    for (one, two, down, want) in &KEYS {
        let (order, equal) = key_order(rt.alloc(), *one, *two, *down)?;
        assert_eq!(rt; order, *want);
        assert_eq!(rt; equal, want.is_eq());
    }
    Ok(())
}

/// The rows of a table that a literal spells.
fn rows_in(alloc: Global, literal: &str) -> Result<Rows, Fail> {
    match value(alloc, "[x:I]", literal)? {
        Value::V(rows) => Ok(rows),
        _ => Err(Fail::new("no rows")),
    }
}

/// Puts two copies of each of the given rows at the front, and takes one out.
fn put_in(rows: &mut Rows, given: &Rows) -> Result<(), Fail> {
    for row in given.as_slice() {
        rows.insert(0, row, 2)?;
    }
    if rows.len() == 0 {
        return Err(Fail::new("no rows"));
    }
    rows.remove(0, 1);
    Ok(())
}

/// The rows 5 and 1 of a table of numbers: two copies of 5 put before 1, and one taken out.
fn five_and_one(alloc: Global) -> Result<Rows, Fail> {
    let mut rows = rows_in(alloc, "{(1)}")?;
    put_in(&mut rows, &rows_in(alloc, "{(5)}")?)?;
    Ok(rows)
}

/// The table of the rows.
fn table_of(schema: Schema, rows: Rows) -> Result<HeldRows, Fail> {
    if !rows_fit(&rows, &schema) {
        return Err(Fail::new("no rows of the schema"));
    }
    Ok(HeldRows::of(schema, rows).same()?)
}

/// Whether the table has this number in a row of its only column.
fn has_number(table: &HeldRows, row: usize, number: i32) -> Result<bool, Fail> {
    if row >= table.size() || table.schema().len() != 1 {
        return Err(Fail::new("another table"));
    }
    let value = table.get(row, 0)?;
    Ok(matches!(value, Value::I(found) if found == number))
}

#[test]
fn a_table_of_plain_rows_is_read_by_row_and_column(rt: HostRuntime) -> Result<(), Fail> {
    let schema = schema_of(rt.alloc(), ":I")?;
    let table = table_of(schema, five_and_one(rt.alloc())?)?;
    has_five_and_one(&rt, &table)
}

/// Asserts that the table has the rows 5 and 1.
fn has_five_and_one(rt: &impl Abort, table: &HeldRows) -> Result<(), Fail> {
    assert_eq!(rt; table.size(), 2);
    assert!(rt; has_number(table, 0, 5)?);
    assert!(rt; has_number(table, 1, 1)?);
    Ok(())
}

/// Texts that are names or none.
static NAMES: [(&str, bool); 7] = [
    ("_9Z", true),
    ("abcdefghijklmnopqrstuvwxyz_0123", true),
    ("abcdefghijklmnopqrstuvwxyz_01234", false),
    ("", false),
    ("9a", false),
    ("a-b", false),
    ("é", false),
];

#[test]
fn names_have_1_to_31_letters_digits_and_underscores(rt: HostRuntime) {
    for (text, want) in &NAMES {
        assert_eq!(rt; Name::is_name(text), *want);
    }
}

/// A schema is the same as its copy.
fn is_its_copy(rt: &impl Abort, schema: &Schema) -> Result<(), Fail> {
    let copy = schema.copy()?;
    assert!(rt; schema.is_same(&copy));
    Ok(())
}

/// The schema has `x`, and not the `y` of the table in it, and is three tables deep.
fn has_x_alone(rt: &impl Abort, schema: &Schema) {
    assert_eq!(rt; schema.find("x"), Some(0));
    assert_eq!(rt; schema.find("y"), None);
    assert_eq!(rt; schema.depth(), 3);
}

#[test]
fn a_schema_finds_its_property(rt: HostRuntime) -> Result<(), Fail> {
    let schema = schema_of(rt.alloc(), "[y[z:I]]")?;
    has_x_alone(&rt, &schema);
    is_its_copy(&rt, &schema)
}

/// Adds a step to a row of the view of a name.
fn add_step(path: &mut Path, row: u64, name: &Name) -> Result<(), Fail> {
    let prop = name.copy()?;
    Ok(path.push(Step { row, prop })?)
}

/// The path of a name and six steps.
fn six_steps(alloc: Global, name: &Name) -> Result<Path, Fail> {
    let mut path = Path::new(alloc, name.copy()?);
    for row in 0..6 {
        add_step(&mut path, row, name)?;
    }
    Ok(path)
}

/// Asserts the path of book and six steps.
fn has_six_steps(rt: &impl Abort, path: &Path) {
    assert_eq!(rt; path.name().as_str(), "book");
    let steps = path.steps();
    assert!(rt; steps.len() == 6);
    assert!(rt; steps[5].row == 5);
}

/// More steps than stand in the path itself.
#[test]
fn a_path_keeps_its_name_and_its_steps(rt: HostRuntime) -> Result<(), Fail> {
    let Some(name) = Name::from_bytes(b"book") else {
        return Err(Fail::new("no name"));
    };
    let path = six_steps(rt.alloc(), &name)?;
    has_six_steps(&rt, &path);
    Ok(())
}

#[test]
fn a_list_gives_what_was_put_into_it(rt: HostRuntime) -> Result<(), Fail> {
    let mut positions = Positions::new(rt.alloc());
    assert!(rt; positions.is_empty());
    positions.push(4)?;
    positions.push(7)?;
    assert_eq!(rt; positions.as_slice(), [4, 7].as_slice());
    assert_eq!(rt; positions.len(), 2);
    let vector = positions.into_vec();
    assert_eq!(rt; vector.as_slice(), [4, 7].as_slice());
    Ok(())
}
