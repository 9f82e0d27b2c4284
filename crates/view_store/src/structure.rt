//! The lengths of structure texts.
ghost use Rattle.std.specs.Prelude.{◌≡◌, ◌↔◌, ◌+◌, ◌<◌, ◌≤◌, IsTrue, MatchOption};
ghost use Rattle.mk_value.specs.Heading.{heading_of};
ghost use Rattle.mk_value.specs.Kinds.{domain_of};
ghost use Rattle.mk_value.specs.Limits.{max_structure};
ghost use Rattle.struct_text.specs.Lengths.{domain_length, properties_length, structure_length};

use mk_value::{Kind, MAX_STRUCTURE, Name, Schema};

/// Whether the structure text of a view has at most 1,048,576 bytes: its name, and in brackets its properties with commas between
/// them, a plain one as a name, a colon and a letter, a view as a name and its own properties in brackets.
pub fn structure_fits(name: &Name, schema: &Schema) -> bool
    ensures { IsTrue result ↔ (structure_length name.now schema.now ≤ max_structure) }
{
    let name = name.as_bytes();
    room_after(schema, MAX_STRUCTURE - name.len()).is_some()
}

/// What is left of a room of bytes behind the properties of a schema in brackets, if they stand in it.
#[cycle(room)]
fn room_after(schema: &Schema, room: usize) -> Option<usize>
    ensures { MatchOption result (room < properties_length (heading_of schema.now)) (λ left. left + properties_length (heading_of schema.now) ≡ room) }
{
    let mut left = room.checked_sub(1)?;
    for prop in schema.as_slice() {
        let name = prop.name.as_bytes();
        left = left.checked_sub(name.len() + 1)?;
        left = room_after_kind(&prop.kind, left)?;
    }
    Some(left)
}

/// What is left of a room of bytes behind the text of a kind.
#[cycle(room)]
fn room_after_kind(kind: &Kind, room: usize) -> Option<usize>
    ensures { MatchOption result (room < domain_length (domain_of kind.now)) (λ left. left + domain_length (domain_of kind.now) ≡ room) }
{
    match kind {
        Kind::V(inner) => room_after(inner, room),
        _ => room.checked_sub(2),
    }
}
