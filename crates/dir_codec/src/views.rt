// The views of a directory.
ghost use Rattle.std.specs.Prelude.{◌≡◌, ◌↔◌, ◌+◌, ◌<◌, ◌≤◌, ◌⊎◌, ◌++◌, ℕ, List, [], ◌∷◌, length, drop, map, All, AllPairs, Contains, IsTrue, MatchResult};
ghost use Rattle.std.specs.List.{list_any};
ghost use Rattle.byteorder.specs.Endian.{little_bytes};
ghost use Rattle.mk_value.specs.Heading.{Attribute, heading_of};
ghost use Rattle.mk_value.specs.Names.{same_bytes};
ghost use Rattle.struct_text.specs.Spelling.{Spells};
ghost use Rattle.dir_codec.specs.declared.error.DirError.TheVariants as dir_error;
ghost use Rattle.dir_codec.specs.Dir.{IsViewEntry, spelled_view};
ghost use Rattle.dir_codec.specs.Fields.{Due, row_count, text_length, view_count, views_due};
ghost use Rattle.dir_codec.specs.Parts.{AreViews, IsNewStructure, names_before, spelled_structure, spelled_views};
ghost use Rattle.dir_codec.specs.Reads.{Flaws, GivesPart, Leads, bytes_at};
ghost use Rattle.dir_codec.specs.Values.{view_of};

use crate::dir::{DirView, DirViews};
use crate::error::DirError;
use crate::fields::{field, read_between};
use crate::tables::read_body;
use mk_value::{MAX_STRUCTURE, MAX_VIEWS, Name, Schema};
use std::alloc::Global;
use struct_text::{StructError, parse};

/// A structure text of so many bytes.
fn read_structure_text(
    alloc: Global,
    bytes: &[u8],
    at: usize,
    len: usize,
) -> Result<(Name, Schema), DirError>
    requires { at ≤ length bytes.now }
    ensures { MatchResult result
        (λ r. (at + len ≤ length bytes.now) × Spells (bytes_at at len bytes.now) r.0 r.1)
        (λ e. (e ≡ dir_error.Memory) ⊎ ((e ≡ dir_error.At at) × ((length (drop at bytes.now) < len)
        ⊎ ((name : List ℕ) (schema : List Attribute) → Spells (bytes_at at len bytes.now) name schema → ⊥)))) }
{
    let Ok(text) = str::from_utf8(field(bytes, at, len)?) else {
        return Err(DirError::At(at as u64));
    };
    match parse(alloc, text) {
        Ok(read) => Ok(read),
        Err(StructError::Memory) => Err(DirError::Memory),
        Err(_) => Err(DirError::At(at as u64)),
    }
}

/// Whether one of the views has this name.
fn has_name(views: &[DirView], name: &Name) -> bool
    ensures { result ≡ list_any (λ v. same_bytes v.name name.now) views.now }
{
    views.iter().any(|view| view.name == *name)
}

/// The name and the schema of a view that stands behind these, and has another name than each of them.
fn read_structure(
    alloc: Global,
    bytes: &[u8],
    at: usize,
    views: &[DirView],
) -> Result<((Name, Schema), usize), DirError>
    requires { at ≤ length bytes.now }
    ensures { (number end more : ℕ) → MatchResult result
        (λ r. IsNewStructure views.now r.0.0 r.0.1 × Leads number end (text_length more (names_before views.now) ∷ []) bytes.now at
        (row_count (heading_of r.0.1) ∷ views_due more (r.0.0 ∷ names_before views.now)) r.1 (spelled_structure r.0.0 r.0.1))
        (Flaws number end (text_length more (names_before views.now) ∷ []) bytes.now at) }
{
    let len = read_between(bytes, at, 0, MAX_STRUCTURE as u32)? as usize;
    let (name, schema) = read_structure_text(alloc, bytes, at + 4, len)?;
    if has_name(views, &name) {
        return Err(DirError::At(at as u64 + 4));
    }
    Ok(((name, schema), at + 4 + len))
}

/// The view that stands behind these.
fn read_view(
    alloc: Global,
    bytes: &[u8],
    at: usize,
    end: u64,
    views: &[DirView],
) -> Result<(DirView, usize), DirError>
    requires { at ≤ length bytes.now }
    ensures { (number more : ℕ) → MatchResult result
        (λ r. IsViewEntry end (view_of r.0) × (¬ Contains (names_before views.now) r.0.name)
        × Leads number end (text_length more (names_before views.now) ∷ []) bytes.now at
        (views_due more (r.0.name ∷ names_before views.now)) r.1 (spelled_view (view_of r.0)))
        (Flaws number end (text_length more (names_before views.now) ∷ []) bytes.now at) }
{
    let ((name, schema), behind) = read_structure(alloc, bytes, at, views)?;
    let (body, next) = read_body(alloc, bytes, behind, end, &schema)?;
    Ok((DirView { name, schema, body }, next))
}

/// The views of a directory. The time is linear in the bytes, but for the comparison of each name with those before it.
pub(crate) fn read_views(
    alloc: Global,
    bytes: &[u8],
    end: u64,
) -> Result<(DirViews, usize), DirError>
    ensures { (number : ℕ) → GivesPart number end (view_count ∷ []) bytes.now 0
        (λ views. AreViews end views) spelled_views result }
{
    let count = read_between(bytes, 0, 0, MAX_VIEWS as u32)?;
    let mut views = DirViews::new(alloc);
    let mut place = 4;
    for done in 0..count {
        let (view, next) = read_view(alloc, bytes, place, end, views.as_slice())?;
        place = next;
        views.push(view)?;
    }
    Ok((views, place))
}
