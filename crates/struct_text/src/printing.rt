ghost use Rattle.std.specs.Prelude.{◌≡◌, ◌≤◌, ◌+◌, ◌++◌, ◌∷◌, [], length, IsOk, OnErr, OnOk};
ghost use Rattle.mk_value.specs.Heading.{heading_of, relation};
ghost use Rattle.mk_value.specs.Kinds.{domain_of};
ghost use Rattle.mk_value.specs.Names.{IsName};
ghost use Rattle.struct_text.specs.Printing.{Appends, spelled_property};
ghost use Rattle.struct_text.specs.Spelling.{spelled_domain, spelled_properties, spelling};

use mk_value::{Kind, Memory, Name, Prop, Schema, Text};

/// Appends the structure's one spelling to a text.
///
/// It asks for memory only where the text has less room than the spelling's length. After an error the text holds
/// the bytes that it held before.
pub fn print(name: &Name, schema: &Schema, out: &mut Text) -> Result<(), Memory>
    ensures ok { OnOk result (out.new.bytes ≡ out.old.bytes ++ spelling name.now schema.now) }
    ensures err { OnErr result (out.new.bytes ≡ out.old.bytes) }

    // With room for the spelling it doesn't fail, and it takes no more room than that.
    ensures roomy { length (spelling name.now schema.now) ≤ out.old.spare → IsOk result }
    ensures spare { out.old.spare ≤ out.new.spare + length (spelling name.now schema.now) }
{
    let before = out.len();
    match print_structure(name, schema, out) {
        Ok(()) => Ok(()),
        Err(error) => {
            out.truncate(before);
            Err(error)
        }
    }
}

/// Appends the spelling, or a front of it.
fn print_structure(name: &Name, schema: &Schema, out: &mut Text) -> Result<(), Memory>
    ensures appended { Appends out.old out.new (spelling name.now schema.now) result }
    ensures named { IsName name.now }
{
    append(out, name.as_str())?;
    print_brackets(schema, out)
}

/// Appends what stands behind a property's name.
#[cycle(print)]
fn print_kind(kind: &Kind, out: &mut Text) -> Result<(), Memory>
    ensures { Appends out.old out.new (spelled_domain (domain_of kind.now)) result }
{
    match kind {
        Kind::I => append(out, ":I"),
        Kind::L => append(out, ":L"),
        Kind::S => append(out, ":S"),
        Kind::B => append(out, ":B"),
        Kind::V(schema) => print_brackets(schema, out),
    }
}

/// Appends the properties in brackets.
#[cycle(print)]
fn print_brackets(schema: &Schema, out: &mut Text) -> Result<(), Memory>
    ensures { Appends out.old out.new (spelled_domain (relation (heading_of schema.now))) result }
{
    append(out, "[")?;
    print_properties(schema, out)?;
    append(out, "]")
}

/// Appends the properties, joined by commas.
#[cycle(print)]
fn print_properties(schema: &Schema, out: &mut Text) -> Result<(), Memory>
    ensures { Appends out.old out.new (spelled_properties (heading_of schema.now)) result }
{
    let props = schema.as_slice();
    print_property(&props[0], out)?;
    for prop in &props[1..] {
        append(out, ",")?;
        print_property(prop, out)?;
    }
    Ok(())
}

/// Appends one property.
#[cycle(print)]
fn print_property(prop: &Prop, out: &mut Text) -> Result<(), Memory>
    ensures { Appends out.old out.new (spelled_property prop.now) result }
{
    append(out, prop.name.as_str())?;
    print_kind(&prop.kind, out)
}

/// Appends a text.
fn append(out: &mut Text, text: &str) -> Result<(), Memory>
    ensures { Appends out.old out.new text.now result }
{
    out.push_str(text)
}
