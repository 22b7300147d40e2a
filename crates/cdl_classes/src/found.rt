// What is found, as callers see it.
ghost use Rattle.std.specs.Prelude.{◌≡◌, ◌≤◌, ◌<◌, ◌++◌, ◌∷◌, [], List, ℕ, Option, IfSome, IfNone, length, map, true, false, ◌+◌};
ghost use Rattle.cdl_scopes.specs.Classes.{text_of};
ghost use Rattle.cdl_classes.specs.Found as spec;
ghost use Rattle.cdl_kinds.specs.Names.{kinds, found as kind_found};

use arrayvec::ArrayVec;
use cdl_kinds::{Kind, find};
use cdl_tree::Ident;
use cdl_values::ValueType;

/// The number of a declared class: a block, a package or an enumeration. They are numbered from 0, by file, then in the order of the
/// text.
#[derive(Clone, Copy, Debug, PartialEq, Eq)]
pub struct ClassId {
    pub index: u32,
}

/// What a class name stands for.
#[derive(Clone, Copy, Debug, PartialEq, Eq)]
pub enum Found {
    /// A declared block, package or enumeration.
    Class(ClassId),
    /// A kind of the library.
    Kind(Kind),
    /// A connector of the library.
    Connector { value_type: ValueType, input: bool },
    /// Real, Integer, Boolean or String, or `Modelica.Units.SI.X` or `Modelica.SIunits.X`, which are Real.
    Scalar(ValueType),
    /// A package that exists and is not declared.
    Package,
    /// Any other name of the library.
    Unsupported,
}

/// What a value name stands for.
#[derive(Clone, Copy, Debug, PartialEq, Eq)]
pub enum ValueFound {
    /// A constant of a declared package, counted from 0.
    Constant { package: ClassId, item: u32 },
    /// A literal of a declared enumeration, counted from 1.
    Literal { class: ClassId, ordinal: u32 },
}

// The longest name of a kind has fewer bytes.
const LONGEST: usize = 64;

// The connector of this name.
fn connector_named(name: &[u8]) -> Option<Found>
    ensures { result ≡ spec.connector_named name.now }
{
    let (value_type, input) = if name == b"BooleanInput".as_slice() {
        (ValueType::Boolean, true)
    } else if name == b"BooleanOutput".as_slice() {
        (ValueType::Boolean, false)
    } else if name == b"IntegerInput".as_slice() {
        (ValueType::Integer, true)
    } else if name == b"IntegerOutput".as_slice() {
        (ValueType::Integer, false)
    } else if name == b"RealInput".as_slice() {
        (ValueType::Real, true)
    } else if name == b"RealOutput".as_slice() {
        (ValueType::Real, false)
    } else {
        return None;
    };
    Some(Found::Connector { value_type, input })
}

// The connector of this name below the library's package.
fn connector_at(below: &[Ident]) -> Option<Found>
    ensures { result ≡ spec.connector_at (map text_of below.now) }
{
    match below {
        [package, name] => {
            if package.text.bytes() == b"Interfaces".as_slice() {
                connector_named(name.text.bytes())
            } else {
                None
            }
        }
        _ => None,
    }
}

// What a name below `Modelica` stands for.
pub fn modelica_found(below: &[Ident]) -> Found
    ensures { result ≡ spec.modelica_found (map text_of below.now) }
{
    match below {
        [a, _] => {
            if a.text.bytes() == b"SIunits".as_slice() {
                Found::Scalar(ValueType::Real)
            } else {
                Found::Unsupported
            }
        }
        [a, b, _] => {
            if a.text.bytes() == b"Units".as_slice() && b.text.bytes() == b"SI".as_slice() {
                Found::Scalar(ValueType::Real)
            } else {
                Found::Unsupported
            }
        }
        _ => Found::Unsupported,
    }
}

// Adds an identifier, with a point before it, where there is room.
fn point(text: &mut ArrayVec<u8, LONGEST>, part: &[u8]) -> bool
    ensures fits { result ≡ true → text.new.items ≡ text.old.items ++ (46 ∷ part.now) }
    ensures full { result ≡ false → 64 < length text.old.items + (1 + length part.now) }
{
    if text.try_push(b'.').is_err() {
        return false;
    }
    text.try_extend_from_slice(part).is_ok()
}

// The name of identifiers with points between them, where it is no longer than the longest name of a kind.
fn joined(below: &[Ident]) -> Option<ArrayVec<u8, LONGEST>>
    ensures some { IfSome result (λ t. t.items ≡ spec.joined (map text_of below.now)) }
    ensures none { IfNone result (64 < length (spec.joined (map text_of below.now))) }
{
    let mut text = ArrayVec::new();
    let [first, rest @ ..] = below else {
        return Some(text);
    };
    if text.try_extend_from_slice(first.text.bytes()).is_err() {
        return None;
    }
    for part in rest {
        if !point(&mut text, part.text.bytes()) {
            return None;
        }
    }
    Some(text)
}

// The kind of this name.
fn kind_at(below: &[Ident]) -> Option<Kind>
    ensures { result ≡ kind_found (spec.joined (map text_of below.now)) kinds }
{
    let Some(text) = joined(below) else {
        return None;
    };
    match str::from_utf8(text.as_slice()) {
        Ok(name) => find(name),
        Err(_) => None,
    }
}

// What a name below `Buildings.Controls.OBC.CDL` stands for.
pub fn cdl_found(below: &[Ident]) -> Found
    ensures { result ≡ spec.cdl_found (map text_of below.now) }
{
    match connector_at(below) {
        Some(connector) => connector,
        None => match kind_at(below) {
            Some(kind) => Found::Kind(kind),
            None => Found::Unsupported,
        },
    }
}
