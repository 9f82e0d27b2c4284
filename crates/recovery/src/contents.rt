// What is asked of the values of a column of texts or of byte strings, and of its memos.
ghost use Rattle.std.specs.Prelude.{◌≡◌, ◌≢◌, ◌↔◌, ℕ, ◌<◌, length, map, All, IsTrue};
ghost use Rattle.std.specs.Bool.{OnTrue, OnFalse};
ghost use Rattle.mk_value.specs.Data.{IsText};
ghost use Rattle.bytes_col.specs.Strings.{long_values, memo_rows, short_bytes};
ghost use Rattle.recovery.specs.Contents.{FitWhereverCut, FitsContent, IsPlainByte};

use bytes_col::BytesCol;
use dir_codec::Memo;
use mk_value::{MAX_BYTES, is_text};

/// What the values of a column are.
#[derive(Clone, Copy)]
pub(crate) enum Content {
    /// Texts: UTF-8 without a zero byte.
    Texts,
    /// Any bytes.
    Strings,
}

/// Whether each value of a column is one of its kind, whose short values are joined in these bytes, and whose long ones stand in these
/// rows. Where the short bytes tell at once that they fit, only the long values are looked at one by one.
pub(crate) fn all_fit(column: &BytesCol, short: &[u8], rows: &[u32], content: Content) -> bool
    requires short { short.now ≡ short_bytes column.now.values }
    requires rows { rows.now ≡ memo_rows column.now.values }
    ensures fit { OnTrue result (All (FitsContent content) column.now.values) }
    ensures unfit { OnFalse result (¬ All (FitsContent content) column.now.values) }
{
    if fit_at_once(short, content) {
        return long_values_fit(column, rows, content);
    }
    each_fits(column, content)
}

/// Whether values joined in these bytes are of the kind wherever they are cut, if none has more than 512 bytes.
fn fit_at_once(short: &[u8], content: Content) -> bool
    ensures { OnTrue result (FitWhereverCut content short.now) }
{
    match content {
        Content::Texts => are_plain(short),
        Content::Strings => true,
    }
}

/// Whether each of these bytes is a character by itself, and none is zero. It looks at all of them, many at once.
fn are_plain(bytes: &[u8]) -> bool
    ensures { OnTrue result (All IsPlainByte bytes.now) }
{
    let mut plain = true;
    for byte in bytes {
        plain &= (0 < *byte) & (*byte < 128);
    }
    plain
}

/// Whether the values of these rows, which are the long ones of a column, are of its kind.
fn long_values_fit(column: &BytesCol, rows: &[u32], content: Content) -> bool
    requires { rows.now ≡ memo_rows column.now.values }
    ensures fit { OnTrue result (All (FitsContent content) (long_values column.now.values)) }
    ensures unfit { OnFalse result (¬ All (FitsContent content) (long_values column.now.values)) }
{
    for row in rows {
        if !fits(content, column.value(*row as usize)) {
            return false;
        }
    }
    true
}

/// Whether each value of a column is one of its kind. The values are looked at where they lie.
fn each_fits(column: &BytesCol, content: Content) -> bool
    ensures fit { OnTrue result (All (FitsContent content) column.now.values) }
    ensures unfit { OnFalse result (¬ All (FitsContent content) column.now.values) }
{
    for row in 0..column.len() {
        if !fits(content, column.value(row)) {
            return false;
        }
    }
    true
}

fn fits(content: Content, value: &[u8]) -> bool
    ensures { IsTrue result ↔ FitsContent content value.now }
{
    if value.len() > MAX_BYTES {
        return false;
    }
    match content {
        Content::Texts => are_text(value),
        Content::Strings => true,
    }
}

/// Whether these bytes are a text.
fn are_text(bytes: &[u8]) -> bool
    ensures { IsTrue result ↔ IsText bytes.now }
{
    match str::from_utf8(bytes) {
        Ok(text) => is_text(text),
        Err(_) => false,
    }
}

/// Whether these are the rows of the memos, in order.
pub(crate) fn are_rows_of(rows: &[u32], memos: &[Memo]) -> bool
    ensures same { OnTrue result (map (λ m. m.row) memos.now ≡ rows.now) }
    ensures other { OnFalse result (map (λ m. m.row) memos.now ≢ rows.now) }
{
    if rows.len() != memos.len() {
        return false;
    }
    for at in 0..rows.len() {
        if rows[at] != memos[at].row {
            return false;
        }
    }
    true
}
