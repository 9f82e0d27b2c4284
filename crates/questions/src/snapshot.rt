//! Snapshots: tables that are kept under a name.
ghost use Rattle.std.specs.Prelude.{◌≡◌, position};
ghost use Rattle.mk_value.specs.Names.{same_bytes};
ghost use Rattle.questions.specs.Kept.{Kept, is_kept, without_kept};

use mk_value::{Name, Sequence};
use std::marker::Model;
use tables::Shared;

/// A name, and the table that it keeps whatever becomes of the views.
#[derive(Drop)]
pub struct Snapshot {
    pub name: Name,
    pub table: Shared,
}

impl Model for Snapshot {
    ghost use Rattle.questions.specs.Kept.{Kept, kept_code};

    ghost Value = { Kept };

    ghost coded = { kept_code };

    ghost view = { λ s. record { name = s.name; table = record { schema = s.table.schema; rows = s.table.rows } } };
}

/// Snapshots, in the order in which they were made.
pub type Snapshots = Sequence<Snapshot>;

/// The most snapshots of a session.
pub const MAX_SNAPSHOTS: usize = 64;

/// Whether a snapshot has the name.
pub fn is_snapshot(snapshots: &[Snapshot], name: &Name) -> bool
    ensures { result ≡ is_kept snapshots.now name.now }
{
    snapshots.iter().any(|snapshot| snapshot.name == *name)
}

/// Takes the first snapshot of a name out, and answers whether there was one.
pub fn take_out_snapshot(snapshots: &mut Snapshots, name: &Name) -> bool
    ensures there { result ≡ is_kept snapshots.old name.now }
    ensures rest { snapshots.new ≡ without_kept snapshots.old name.now }
{
    match place_of(snapshots.as_slice(), name) {
        Some(at) => {
            drop(snapshots.remove(at));
            true
        }
        None => false,
    }
}

/// The place of the first snapshot of a name.
fn place_of(snapshots: &[Snapshot], name: &Name) -> Option<usize>
    ensures { result ≡ position (λ (s : Kept). same_bytes s.name name.now) snapshots.now }
{
    snapshots.iter().position(|snapshot| snapshot.name == *name)
}
