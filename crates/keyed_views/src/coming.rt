use crate::keyed::KeyedEdit;
use mk_value::Row;

/// What comes to a mapped view with a line: its edit, and the key of the row that comes with it, which has no values where none comes.
#[derive(Debug, Drop)]
pub struct Coming {
    pub edit: KeyedEdit,
    pub key: Row,
}
