//! The graph of a CXF document, how a net becomes one, and its text.
#![tactic(auto)]

mod given;
mod graph;
mod groups;
mod ids;
mod json;
mod law;
mod members;
mod writer;

pub use graph::{Given, GivenItem, GivenValue, Graph, GraphNode, NodeBody, Pair};
pub use json::{text, to_json};
pub use law::{net_is_writable, written_is_read};
pub use writer::write;
