// Paths.
use cdl_source::{List, Text};

/// A step of a path: the name of a component, and an index for each of its dimensions, counted from 1.
#[derive(Debug, Drop)]
pub struct Step {
    pub name: Text,
    pub indices: List<u32>,
}

/// The path of an instance: its steps from the root, which has none.
#[derive(Debug, Drop)]
pub struct Path {
    pub steps: List<Step>,
}

/// The index of a loop, and what it is worth.
#[derive(Debug, Drop)]
pub struct Local {
    pub name: Text,
    pub value: i32,
}
