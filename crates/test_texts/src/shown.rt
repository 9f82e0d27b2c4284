//! Literals as tests show them.
use mk_value::Literal;
use std::alloc::Global;
use std::test::Fail;

/// A number, a text between single quotes, the list of the bytes, or how many rows there are.
pub fn literal(alloc: Global, value: &Literal) -> Result<String, Fail> {
    match value {
        Literal::Number(number) => Ok(format!(in alloc; "{number}")?),
        Literal::Text(text) => {
            let content = text.as_str();
            Ok(format!(in alloc; "'{content}'")?)
        }
        Literal::Bytes(bytes) => {
            let content = bytes.as_slice();
            Ok(format!(in alloc; "{content:?}")?)
        }
        Literal::View(rows) => {
            let count = rows.len();
            Ok(format!(in alloc; "rows {count}")?)
        }
    }
}
