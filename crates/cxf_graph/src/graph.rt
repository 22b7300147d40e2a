// The nodes of a document.
use cdl_source::{List, Text};
use cdl_values::ValueType;

/// The nodes of a document, in its order.
#[derive(Debug, Drop)]
pub struct Graph {
    pub nodes: List<GraphNode>,
}

/// A node: its `@id`, and what it is.
#[derive(Debug, Drop)]
pub struct GraphNode {
    pub id: Text,
    pub body: NodeBody,
}

/// What a node is. Lists of texts hold the `@id`s of other nodes.
#[derive(Debug, Drop)]
pub enum NodeBody {
    Composite {
        connectors: List<Text>,
        instances: List<Text>,
        connections: List<Pair>,
    },
    /// A block of the kind of that name.
    Elementary {
        kind: Text,
        given: List<Given>,
        connectors: List<Text>,
    },
    /// A connector element. Its unit is empty where it has none.
    Connector {
        kind: ValueType,
        input: bool,
        unit: Text,
    },
    /// A node that the profile passes over.
    Other,
}

/// A connection: the `@id`s of its two ends.
#[derive(Debug, Drop)]
pub struct Pair {
    pub left: Text,
    pub right: Text,
}

/// A parameter and its value.
#[derive(Debug, Drop)]
pub struct Given {
    pub name: Text,
    pub value: GivenValue,
}

/// The value of a parameter: one item, or a list of them.
#[derive(Debug, Drop)]
pub enum GivenValue {
    Item(GivenItem),
    List(List<GivenItem>),
}

/// One item of a value. A Real is the text of it, or an integer.
#[derive(Debug, Drop)]
pub enum GivenItem {
    Boolean(bool),
    Integer(i64),
    Str(Text),
    /// What is no item of a value: null, an object, a number that is no integer, or a list within a list.
    Bad,
}
