// What a check of a net can refuse.
use crate::net::Net;

/// The first broken rule of a net, with the number of its wire or element.
#[derive(Clone, Copy, Debug, PartialEq, Eq, Drop)]
pub enum NetFault {
    /// C43: the wire joins no source to a sink of its scope.
    SameSide { wire: u32 },
    /// C44: the types of its ends differ.
    TypesDiffer { wire: u32 },
    /// C48: both ends are Reals with a unit, and the units differ.
    UnitsDiffer { wire: u32 },
    /// C45: two or more wires end at the element.
    ManySources { element: u32 },
    /// C46: no wire ends at the element.
    NoSource { element: u32 },
    OutOfMemory,
}

/// A net that was refused, as it was given, and why.
#[derive(Debug, Drop)]
pub struct NetRefusal {
    pub net: Net,
    pub fault: NetFault,
}

// What is wrong with a wire.
#[derive(Clone, Copy, Debug, PartialEq, Eq, Drop)]
pub enum WireFault {
    SameSide,
    TypesDiffer,
    UnitsDiffer,
}

// What is wrong with a sink.
#[derive(Clone, Copy, Debug, PartialEq, Eq, Drop)]
pub enum SinkFault {
    ManySources,
    NoSource,
}
