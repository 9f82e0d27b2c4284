//! Tokens, and the literals and paths that stand at the front of them.
use crate::shown;
use mk_value::{Literal, Memory};
use std::alloc::Global;
use std::process::Abort;
use std::test::Fail;
use tokens::{Cutting, PartError, Piece, ReadError, Token, cut, literal_at, path_at, read_literal};

/// The tokens of a text with their places, as they are written, and the place of the first piece that is none.
fn cutting(alloc: Global, text: &str) -> Result<String, Fail> {
    let cutting = cut_up(alloc, text)?;
    described(alloc, &cutting)
}

/// The pieces of a text.
fn cut_up<'a>(alloc: Global, text: &'a str) -> Result<Cutting<'a>, Memory> {
    cut(alloc, text)
}

/// The tokens with their places, and the place of the first piece that is none.
fn described(alloc: Global, cutting: &Cutting<'_>) -> Result<String, Fail> {
    let mut out = String::new(alloc);
    for piece in cutting.pieces.as_slice() {
        describe(alloc, piece, &mut out)?;
    }
    if let Some(place) = cutting.flaw {
        describe_flaw(alloc, place, &mut out)?;
    }
    Ok(out)
}

/// Adds the place of a piece that is no token.
fn describe_flaw(alloc: Global, place: usize, out: &mut String) -> Result<(), Fail> {
    let text = format!(in alloc; "none at {place}")?;
    Ok(out.push_str(text.as_str())?)
}

/// Adds a token with its place.
fn describe(alloc: Global, piece: &Piece<'_>, out: &mut String) -> Result<(), Fail> {
    let token = described_token(alloc, &piece.token)?;
    let place = piece.place;
    let text = format!(in alloc; "{place}:{token} ")?;
    Ok(out.push_str(text.as_str())?)
}

fn described_token(alloc: Global, token: &Token<'_>) -> Result<String, Fail> {
    match token {
        Token::Word(name) => Ok(String::from_str(alloc, name)?),
        Token::Number(number) => Ok(format!(in alloc; "{number}")?),
        Token::Text(written) => Ok(format!(in alloc; "'{written}'")?),
        Token::Bytes(digits) => Ok(format!(in alloc; "x'{digits}'")?),
        Token::Symbol(sign) => Ok(format!(in alloc; "{sign:?}")?),
    }
}

/// The literal that a text spells.
fn literal_in(alloc: Global, text: &str) -> Result<Literal, ReadError> {
    read_literal(alloc, text)
}

/// Where a text is refused.
fn refused(alloc: Global, error: &ReadError) -> Result<String, Fail> {
    match error {
        ReadError::NotAValue(place) => Ok(format!(in alloc; "none at {place}")?),
        ReadError::Memory => Err(Fail::new("out of memory")),
    }
}

/// What reading a literal gives, or the place of its first offence.
fn reading(alloc: Global, text: &str) -> Result<String, Fail> {
    match literal_in(alloc, text) {
        Ok(value) => shown::literal(alloc, &value),
        Err(error) => refused(alloc, &error),
    }
}

/// How many pieces were read at the front, or behind how many reading stops.
fn counted(read: Result<usize, PartError>) -> Result<(bool, usize), Fail> {
    match read {
        Ok(len) => Ok((true, len)),
        Err(PartError::Stuck(count)) => Ok((false, count)),
        Err(PartError::Memory) => Err(Fail::new("out of memory")),
    }
}

/// How many pieces the path at the front has.
fn path_len(alloc: Global, pieces: &[Piece<'_>]) -> Result<usize, PartError> {
    Ok(path_at(alloc, pieces)?.1)
}

/// How many pieces of the text a path takes at its front, or behind how many reading it stops.
fn path_of(alloc: Global, text: &str) -> Result<(bool, usize), Fail> {
    let cutting = cut_up(alloc, text)?;
    counted(path_len(alloc, cutting.pieces.as_slice()))
}

/// How many pieces the literal at the front has.
fn literal_len(alloc: Global, pieces: &[Piece<'_>]) -> Result<usize, PartError> {
    Ok(literal_at(alloc, pieces)?.1)
}

/// The same of a literal.
fn literal_of(alloc: Global, text: &str) -> Result<(bool, usize), Fail> {
    let cutting = cut_up(alloc, text)?;
    counted(literal_len(alloc, cutting.pieces.as_slice()))
}

/// The text is cut so.
fn is_cut(rt: &impl Abort, alloc: Global, text: &str, want: &str) -> Result<(), Fail> {
    let found = cutting(alloc, text)?;
    assert_eq!(rt; found.as_str(), want, "{text}");
    Ok(())
}

/// Each text is cut as is said beside it.
fn all_cut(rt: &impl Abort, alloc: Global, table: &[(&str, &str)]) -> Result<(), Fail> {
    for (text, want) in table {
        is_cut(rt, alloc, text, want)?;
    }
    Ok(())
}

static WORDS: [(&str, &str); 6] = [
    ("_9Z", "0:_9Z "),
    (
        "abcdefghijklmnopqrstuvwxyz_0123",
        "0:abcdefghijklmnopqrstuvwxyz_0123 ",
    ),
    ("abcdefghijklmnopqrstuvwxyz_01234", "none at 0"),
    ("x", "0:x "),
    ("5a", "none at 0"),
    ("a é", "0:a none at 2"),
];

#[test]
fn words_are_names(rt: HostRuntime) -> Result<(), Fail> {
    all_cut(&rt, rt.alloc(), &WORDS)
}

static NUMBERS: [(&str, &str); 8] = [
    ("0", "0:0 "),
    ("00", "none at 0"),
    ("9223372036854775807", "0:9223372036854775807 "),
    ("9223372036854775808", "none at 0"),
    ("-9223372036854775808", "0:-9223372036854775808 "),
    ("-9223372036854775809", "none at 0"),
    ("-0", "none at 0"),
    ("-5a", "none at 0"),
];

#[test]
fn numbers_have_64_bits_and_one_spelling(rt: HostRuntime) -> Result<(), Fail> {
    all_cut(&rt, rt.alloc(), &NUMBERS)
}

static MINUSES: [(&str, &str); 5] = [
    ("1-2", "0:1 1:-2 "),
    ("- 5", "0:Minus 2:5 "),
    ("--5", "0:Minus 1:-5 "),
    ("-age", "0:Minus 1:age "),
    ("a-1", "0:a 1:-1 "),
];

#[test]
fn a_minus_before_a_digit_begins_a_number(rt: HostRuntime) -> Result<(), Fail> {
    all_cut(&rt, rt.alloc(), &MINUSES)
}

static BYTE_STRINGS: [(&str, &str); 7] = [
    ("x\"00ff\"", "0:x'00ff' "),
    ("x\"\"", "0:x'' "),
    ("x\"0\"", "none at 0"),
    ("x\"0F\"", "none at 0"),
    ("x\"00", "none at 0"),
    ("x \"00\"", "0:x 2:'00' "),
    ("ax\"00\"", "0:ax 2:'00' "),
];

#[test]
fn byte_strings_are_pairs_of_digits(rt: HostRuntime) -> Result<(), Fail> {
    all_cut(&rt, rt.alloc(), &BYTE_STRINGS)
}

static TEXTS: [(&str, &str); 9] = [
    ("\"a\\\"b\\\\c\\nd\"", "0:'a\\\"b\\\\c\\nd' "),
    ("\"\"", "0:'' "),
    ("\"é\"", "0:'é' "),
    ("\"\t\"", "0:'\t' "),
    ("\"\\t\"", "none at 0"),
    ("\"a\nb\"", "none at 0"),
    ("\"a\0b\"", "none at 0"),
    ("\"abc", "none at 0"),
    ("\"abc\\\"", "none at 0"),
];

#[test]
fn texts_have_three_escapes(rt: HostRuntime) -> Result<(), Fail> {
    all_cut(&rt, rt.alloc(), &TEXTS)
}

static SPACES: [(&str, &str); 8] = [
    ("", ""),
    ("   ", ""),
    ("  a  b ", "2:a 5:b "),
    ("\t", "none at 0"),
    ("a\r", "0:a none at 1"),
    ("add t 1\"x\"", "0:add 4:t 6:1 7:'x' "),
    ("foo %", "0:foo none at 4"),
    (
        "(){},:/=",
        "0:OpenParenthesis 1:CloseParenthesis 2:OpenBrace 3:CloseBrace 4:Comma 5:Colon 6:Slash 7:Equals ",
    ),
];

#[test]
fn only_spaces_part_tokens(rt: HostRuntime) -> Result<(), Fail> {
    all_cut(&rt, rt.alloc(), &SPACES)
}

/// The text reads as a literal, or is refused, so.
fn reads(rt: &impl Abort, alloc: Global, text: &str, want: &str) -> Result<(), Fail> {
    let found = reading(alloc, text)?;
    assert_eq!(rt; found.as_str(), want, "{text}");
    Ok(())
}

/// Each text reads as a literal, or is refused, as is said beside it.
fn all_read(rt: &impl Abort, alloc: Global, table: &[(&str, &str)]) -> Result<(), Fail> {
    for (text, want) in table {
        reads(rt, alloc, text, want)?;
    }
    Ok(())
}

static LITERALS: [(&str, &str); 11] = [
    ("2147483647", "2147483647"),
    (" -9223372036854775808 ", "-9223372036854775808"),
    ("\"a\\\"b\\\\c\\nd\"", "'a\"b\\c\nd'"),
    ("\"é\"", "'é'"),
    ("x\"01\"", "[1]"),
    ("x\"00ff\"", "[0, 255]"),
    ("{}", "rows 0"),
    ("{(1)}", "rows 1"),
    ("{ (1 , \"a\"), ({}) }", "rows 2"),
    // Seven braces, as deep as a value may be.
    ("{({({({({({({(7)})})})})})})}", "rows 1"),
    // Eight, as deep as braces may stand.
    ("{({({({({({({({})})})})})})})}", "rows 1"),
];

#[test]
fn literals_are_read(rt: HostRuntime) -> Result<(), Fail> {
    all_read(&rt, rt.alloc(), &LITERALS)
}

static OFFENCES: [(&str, &str); 13] = [
    ("9223372036854775808", "none at 0"),
    ("  ", "none at 2"),
    ("x", "none at 0"),
    ("1 2", "none at 2"),
    ("{1}", "none at 1"),
    ("{()}", "none at 2"),
    ("{(1,)}", "none at 4"),
    ("{(1),}", "none at 5"),
    ("{(1)(2)}", "none at 4"),
    ("{(1 ", "none at 4"),
    // The ninth brace.
    ("{({({({({({({({({})})})})})})})})}", "none at 16"),
    // A piece that is no token wins.
    ("{} %", "none at 3"),
    ("foo 1a", "none at 4"),
];

#[test]
fn the_first_offence_is_told(rt: HostRuntime) -> Result<(), Fail> {
    all_read(&rt, rt.alloc(), &OFFENCES)
}

static PATHS: [(&str, (bool, usize)); 10] = [
    ("d", (true, 1)),
    ("d 5", (true, 1)),
    ("d/0/a/9223372036854775807/b,", (true, 9)),
    ("", (false, 0)),
    ("5", (false, 0)),
    ("d/", (false, 2)),
    ("d/-1/a", (false, 2)),
    ("d/0", (false, 3)),
    ("d/0/", (false, 4)),
    ("d/0/a/0/5", (false, 8)),
];

#[test]
fn paths_stop_where_no_slash_goes_on(rt: HostRuntime) -> Result<(), Fail> {
    for (text, want) in &PATHS {
        assert_eq!(rt; path_of(rt.alloc(), text)?, *want, "{text}");
    }
    Ok(())
}

static FRONTS: [(&str, (bool, usize)); 7] = [
    ("1 2", (true, 1)),
    ("{(1)} a", (true, 5)),
    ("{({(1),(2,3)})},", (true, 15)),
    ("", (false, 0)),
    ("a", (false, 0)),
    ("{(", (false, 2)),
    ("{(1 2", (false, 3)),
];

#[test]
fn a_literal_is_read_from_the_front(rt: HostRuntime) -> Result<(), Fail> {
    for (text, want) in &FRONTS {
        assert_eq!(rt; literal_of(rt.alloc(), text)?, *want, "{text}");
    }
    Ok(())
}
