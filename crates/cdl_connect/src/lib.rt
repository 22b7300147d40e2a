//! Nets: numbered instances, elements and wires, and the rules of their wires.
#![tactic(auto)]

mod check;
mod faults;
mod laws;
mod net;

pub use check::{CheckedNet, sink_end, source_end};
pub use faults::{NetFault, NetRefusal};
pub use laws::{checked_has_one, first_by_place, net_is_a_network, only_direct_inputs_count};
pub use net::{Body, Net, NetElement, NetInstance, RawWire};
