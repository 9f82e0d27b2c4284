//! Refusals, found before anything is made and without memory.
ghost use Rattle.std.specs.Prelude.{◌≡◌, [], length, map, None, true};
ghost use Rattle.std.specs.Result.{result_err};
ghost use Rattle.mk_value.specs.Kinds.{domain_of};
ghost use Rattle.derived.specs.Viewing.{calc_due, keep_due, not_taken, of_other_kind};
ghost use Rattle.relations.specs.Equality.{same_domain};
ghost use Rattle.relations.specs.Refusals.{absent};
ghost use Rattle.relations.specs.Rows.{domain_of as domain_of_name, has as has_property};

use mk_value::{Kind, MAX_PROPERTIES, Name, Schema};
use relations::lookup::{has, kind};
use relations::{DerivedError, check_named};
use viewers::Viewer;

/// Answers the first refusal that a property of answers is due, which the rows have no part in.
pub(crate) fn check_calc<V: Viewer>(
    schema: &Schema,
    viewer: &V,
    args: &[Name],
    new: &Name,
) -> Result<(), DerivedError>
    ensures { result_err result ≡ calc_due (V.meaning viewer.now).name (V.meaning viewer.now).takes args.now new.now (record { schema = schema.now; rows = [] }) }
{
    if has(schema, new) {
        return Err(DerivedError::NameTaken(new.copy()?));
    }
    check_keep(schema, viewer, args)?;
    if schema.len() >= MAX_PROPERTIES {
        return Err(DerivedError::TooWide);
    }
    Ok(())
}

/// Answers the first refusal that asking a viewer is due.
pub(crate) fn check_keep<V: Viewer>(
    schema: &Schema,
    viewer: &V,
    args: &[Name],
) -> Result<(), DerivedError>
    ensures { result_err result ≡ keep_due (V.meaning viewer.now).name (V.meaning viewer.now).takes args.now schema.now }
{
    check_args(schema, args)?;
    check_taken(schema, viewer, args)
}

/// Refuses the first name that the schema has not.
fn check_args(schema: &Schema, args: &[Name]) -> Result<(), DerivedError>
    ensures { result_err result ≡ absent schema.now args.now }
{
    check_named(schema, args)
}

/// Refuses another number of arguments than the viewer takes, by the viewer's name, and else the first that is of another kind.
fn check_taken<V: Viewer>(schema: &Schema, viewer: &V, args: &[Name]) -> Result<(), DerivedError>
    requires { absent schema.now args.now ≡ None }
    ensures { result_err result ≡ not_taken (V.meaning viewer.now).name (V.meaning viewer.now).takes schema.now args.now }
{
    let takes = viewer.takes();
    if args.len() != takes.len() {
        return Err(DerivedError::WrongKind(viewer.name().copy()?));
    }
    check_kinds(schema, takes, args)
}

/// Refuses the first argument that is not of the kind in its place.
fn check_kinds(schema: &Schema, takes: &[Kind], args: &[Name]) -> Result<(), DerivedError>
    requires named { absent schema.now args.now ≡ None }
    requires as_many { length args.now ≡ length takes.now }
    ensures { result_err result ≡ of_other_kind (map domain_of takes.now) schema.now args.now }
{
    for at in 0..args.len() {
        let arg = &args[at];
        if !is_of_kind(schema, arg, &takes[at]) {
            return Err(DerivedError::WrongKind(arg.copy()?));
        }
    }
    Ok(())
}

/// Whether the property of a name is of the kind.
fn is_of_kind(schema: &Schema, name: &Name, taken: &Kind) -> bool
    requires { has_property schema.now name.now ≡ true }
    ensures { result ≡ same_domain (domain_of_name schema.now name.now) (domain_of taken.now) }
{
    kind(schema, name).is_same(taken)
}
