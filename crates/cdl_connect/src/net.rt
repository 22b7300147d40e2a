// A net: lists in which a name is a place.
use cdl_kinds::{Kind, Params};
use cdl_source::{List, Text};
use cdl_values::ValueType;

/// What an instance is.
#[derive(Debug, Drop)]
pub enum Body {
    Composite,
    /// A block of a kind, with the values of its parameters.
    Elementary { kind: Kind, params: Params },
}

/// An instance. Its number is its place in the net.
#[derive(Debug, Drop)]
pub struct NetInstance {
    /// The text of its path: `#` at the root, else its steps with points between them.
    pub path: Text,
    /// The number of the instance that it is a part of; None at the root.
    pub parent: Option<u32>,
    pub body: Body,
    /// The number of its first element.
    pub first: u32,
    /// How many elements it has.
    pub count: u32,
}

/// A connector element. Its number is its place in the net.
#[derive(Debug, Drop)]
pub struct NetElement {
    /// The number of the instance that has it.
    pub instance: u32,
    /// The text of its step with the indices, such as `u[2]`.
    pub name: Text,
    pub value_type: ValueType,
    /// The text of its unit; empty where it has none.
    pub unit: Text,
    pub input: bool,
}

/// A wire between two elements, by their numbers.
#[derive(Clone, Copy, Debug, PartialEq, Eq, Drop)]
pub struct RawWire {
    /// The number of the instance in which it stands.
    pub scope: u32,
    pub left: u32,
    pub right: u32,
}

/// The one picture of a sequence: its instances in preorder with the root first, their elements by instance, and its wires by
/// scope.
#[derive(Debug, Drop)]
pub struct Net {
    pub instances: List<NetInstance>,
    pub elements: List<NetElement>,
    pub wires: List<RawWire>,
}
