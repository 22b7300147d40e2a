// What the walk finds.
use cdl_classes::ClassId;
use cdl_kinds::{Kind, Params};
use cdl_paths::Path;
use cdl_source::{List, Text};
use cdl_values::ValueType;

/// What an instance is.
#[derive(Drop)]
pub enum Content {
    /// One of a declared block.
    Block(ClassId),
    /// One of a kind, with the values of its parameters.
    Elementary { kind: Kind, params: Params },
}

/// An instance. Its number is its place in the list.
#[derive(Drop)]
pub struct Instance {
    pub path: Path,
    /// The number of the instance that it is a part of; None at the root.
    pub parent: Option<u32>,
    pub content: Content,
}

/// A connector element by itself.
#[derive(Drop)]
pub struct Point {
    /// The name of its connector.
    pub name: Text,
    /// Its indices in the connector, counted from 1: none, one or two.
    pub indices: List<u32>,
    pub value_type: ValueType,
    pub input: bool,
    /// The text of its unit; empty where it has none.
    pub unit: Text,
}

/// A connector element of the instance of this number.
#[derive(Drop)]
pub struct Element {
    pub instance: u32,
    pub point: Point,
}

/// What an instance of a kind is: the values of its parameters, and its ports.
#[derive(Drop)]
pub struct KindInstance {
    pub params: Params,
    pub points: List<Point>,
}

/// The instances in preorder, and the elements in the order of the walk.
#[derive(Drop)]
pub struct Walked {
    pub instances: List<Instance>,
    pub elements: List<Element>,
}

/// Why there are no instances.
#[derive(Drop)]
pub enum WalkFault {
    /// This rule is broken first, at this path: that of an instance, or of an item in one.
    Rule { rule: u32, path: Path },
    OutOfMemory,
}
