ghost use Rattle.std.specs.Prelude.{◌≡◌, ◌↔◌, ◌++◌, ◌∷◌, [], length, All, IsTrue, IfOk, OnOk, OnErr};
ghost use Rattle.std.specs.List.{list_any};
ghost use Rattle.mk_value.specs.Names.{same_bytes};
ghost use Rattle.mk_value.specs.Heading.{HaveDistinctNames, IsAttribute, IsHeading, IsWithinLimits, depth_of, find, heading_depth, heading_of};

use crate::Memory;
use crate::limits::{MAX_DEPTH, MAX_PROPERTIES};
use crate::name::Name;
use std::alloc::Global;
use std::marker::Model;

/// What values a property may have.
#[cycle(schema)]
#[derive(Debug, Drop)]
pub enum Kind {
    /// Numbers of 32 bits.
    I,
    /// Numbers of 64 bits.
    L,
    /// Texts.
    S,
    /// Byte strings.
    B,
    /// Views of a schema of their own.
    V(Schema),
}

/// A property: its name and the kind of its values.
#[cycle(schema)]
#[derive(Debug, Drop)]
pub struct Prop {
    pub name: Name,
    pub kind: Kind,
}

/// A list of properties, of which no limit is known.
#[cycle(schema)]
#[derive(Debug, Drop)]
pub struct Props {
    items: Vec<Prop>,
}

/// A whole schema: 1 to 64 properties with distinct names, nested at most 8 deep.
#[cycle(schema)]
#[derive(Debug, Drop)]
pub struct Schema {
    props: Props,
}

impl Model for Prop {
    ghost use Rattle.mk_value.specs.Heading.{Attribute, attribute_code, IsAttribute, domain_weight};

    ghost Value = { Attribute };

    ghost coded = { attribute_code };

    ghost use Rattle.mk_value.specs.Kinds.{domain_of};

    ghost view = { λ p. record { name = p.name; domain = domain_of p.kind } };

    ghost invariant = { λ p. IsAttribute (record { name = p.name; domain = domain_of p.kind }) };

    ghost size = { λ a. domain_weight a.domain };

    ghost use Rattle.mk_value.specs.Falls.{prop_falls};

    ghost size_decreases = { λ p _. prop_falls p };
}

impl Model for Props {
    ghost use Rattle.std.specs.Prelude.{List, All};
    ghost use Rattle.mk_value.specs.Heading.{Attribute, attributes_code, IsAttribute, attributes_weight};

    ghost Value = { List Attribute };

    ghost coded = { attributes_code };

    ghost view = { λ p. p.items.items };

    ghost invariant = { λ p. All IsAttribute p.items.items };

    ghost size = { attributes_weight };

    ghost use Rattle.mk_value.specs.Falls.{props_fall};

    ghost size_decreases = { λ p _. props_fall p };
}

impl Model for Schema {
    ghost use Rattle.std.specs.Prelude.{List, ◌+◌};
    ghost use Rattle.mk_value.specs.Heading.{Attribute, attributes_code, IsHeading, attributes_weight};

    ghost Value = { List Attribute };

    ghost coded = { attributes_code };

    ghost view = { λ s. s.props };

    ghost invariant = { λ s. IsHeading s.props };

    ghost size = { λ s. attributes_weight s + 1 };

    ghost use Rattle.mk_value.specs.Falls.{schema_falls};

    ghost size_decreases = { λ s _. schema_falls s };
}

impl Kind {
    ghost use Rattle.mk_value.specs.Kinds.{domain_of};
    ghost use Rattle.mk_value.specs.Heading.{domain_depth};

    /// A kind of the same values, which has memory of its own.
    #[cycle(copy)]
    pub fn copy(&self) -> Result<Kind, Memory>
        ensures { IfOk result (λ kind. domain_of kind ≡ domain_of self.now) }
    {
        match self {
            Kind::I => Ok(Kind::I),
            Kind::L => Ok(Kind::L),
            Kind::S => Ok(Kind::S),
            Kind::B => Ok(Kind::B),
            Kind::V(schema) => Ok(Kind::V(schema.copy()?)),
        }
    }

    /// Whether two kinds have the same values.
    #[cycle(is_same)]
    pub fn is_same(&self, other: &Kind) -> bool
        ensures { IsTrue result ↔ (domain_of self.now ≡ domain_of other.now) }
    {
        match (self, other) {
            (Kind::I, Kind::I) => true,
            (Kind::L, Kind::L) => true,
            (Kind::S, Kind::S) => true,
            (Kind::B, Kind::B) => true,
            (Kind::V(one), Kind::V(two)) => one.is_same(two),
            _ => false,
        }
    }

    /// How deep a kind nests: 0 for one that is no view.
    #[cycle(depth)]
    pub fn depth(&self) -> usize
        ensures { result ≡ domain_depth (domain_of self.now) }
    {
        match self {
            Kind::V(schema) => schema.depth(),
            _ => 0,
        }
    }
}

impl Prop {
    /// An equal property, which has memory of its own.
    #[cycle(copy)]
    pub fn copy(&self) -> Result<Prop, Memory>
        ensures { IfOk result (λ prop. prop ≡ self.now) }
    {
        Ok(Prop {
            name: self.name.copy()?,
            kind: self.kind.copy()?,
        })
    }

    /// Whether two properties have the same name and kind.
    #[cycle(is_same)]
    pub fn is_same(&self, other: &Prop) -> bool
        ensures { IsTrue result ↔ (self.now ≡ other.now) }
    {
        self.name.as_bytes() == other.name.as_bytes() && self.kind.is_same(&other.kind)
    }
}

impl Props {
    /// The empty list.
    pub fn new(alloc: Global) -> Props
        ensures { result ≡ [] }
    {
        Props {
            items: Vec::new(alloc),
        }
    }

    /// Appends a property.
    pub fn push(&mut self, prop: Prop) -> Result<(), Memory>
        ensures ok { OnOk result (self.new ≡ self.old ++ prop ∷ []) }
        ensures err { OnErr result (self.new ≡ self.old) }
    {
        let _ = &prop.name;
        self.items.push(prop)?;
        Ok(())
    }

    pub fn as_slice(&self) -> &[Prop]
        ensures value { result.now ≡ self.now }
        ensures whole { All IsAttribute self.now }
    {
        self.items.as_slice()
    }

    /// Whether these are the properties of a schema: 1 to 64, their names distinct, nested at most 8 deep.
    pub fn are_within_limits(&self) -> bool
        ensures { IsTrue result ↔ IsWithinLimits self.now }
    {
        let props = self.as_slice();
        !props.is_empty()
            && props.len() <= MAX_PROPERTIES
            && are_distinct(props)
            && depth_inside(props) < MAX_DEPTH
    }

    /// An equal list, which has memory of its own.
    #[cycle(copy)]
    pub fn copy(&self) -> Result<Props, Memory>
        ensures { IfOk result (λ props. props ≡ self.now) }
    {
        let mut copy = Props::new(*self.items.allocator());
        for prop in self.items.iter() {
            copy.push(prop.copy()?)?;
        }
        Ok(copy)
    }
}

impl Schema {
    /// The schema of these properties.
    pub fn of(props: Props) -> Schema
        requires { IsWithinLimits props }
        ensures value { result ≡ props }
        ensures whole { IsHeading result }
    {
        let _ = &props.items;
        Schema { props }
    }

    /// The properties, in order.
    pub fn as_slice(&self) -> &[Prop]
        ensures value { result.now ≡ self.now }
        ensures whole { IsHeading self.now }
    {
        self.props.as_slice()
    }

    /// The number of properties.
    pub fn len(&self) -> usize
        ensures value { result ≡ length self.now }
        ensures whole { IsHeading self.now }
    {
        self.as_slice().len()
    }

    /// The position of the property of this name.
    pub fn find(&self, name: &str) -> Option<usize>
        ensures { result ≡ find self.now name.now }
    {
        self.as_slice()
            .iter()
            .position(|prop| prop.name.as_bytes() == name.as_bytes())
    }

    /// How deep the schema nests, itself counted: 1 to 8.
    #[cycle(depth)]
    pub fn depth(&self) -> usize
        ensures value { result ≡ depth_of self.now }
        ensures whole { IsHeading self.now }
    {
        depth_inside(self.as_slice()) + 1
    }

    /// Whether two schemas have the same names and kinds, in order.
    #[cycle(is_same)]
    pub fn is_same(&self, other: &Schema) -> bool
        ensures { IsTrue result ↔ (self.now ≡ other.now) }
    {
        let ones = self.as_slice();
        let twos = other.as_slice();
        if ones.len() != twos.len() {
            return false;
        }
        for at in 0..ones.len() {
            if !ones[at].is_same(&twos[at]) {
                return false;
            }
        }
        true
    }

    /// An equal schema, which has memory of its own.
    #[cycle(copy)]
    pub fn copy(&self) -> Result<Schema, Memory>
        ensures { IfOk result (λ schema. schema ≡ self.now) }
    {
        Ok(Schema {
            props: self.props.copy()?,
        })
    }
}

/// The greatest depth of the kinds of these properties.
#[cycle(depth)]
fn depth_inside(props: &[Prop]) -> usize
    ensures { result ≡ heading_depth (heading_of props.now) }
{
    let mut inside = 0;
    for prop in props {
        inside = inside.max(prop.kind.depth());
    }
    inside
}

/// Whether no two properties have one name.
fn are_distinct(props: &[Prop]) -> bool
    ensures { IsTrue result ↔ HaveDistinctNames props.now }
{
    for at in 0..props.len() {
        let prop = &props[at];
        if has_name(&props[..at], &prop.name) {
            return false;
        }
    }
    true
}

/// Whether a property has this name.
fn has_name(props: &[Prop], name: &Name) -> bool
    ensures { result ≡ list_any (λ a. same_bytes a.name name.now) props.now }
{
    props
        .iter()
        .any(|prop| prop.name.as_bytes() == name.as_bytes())
}
