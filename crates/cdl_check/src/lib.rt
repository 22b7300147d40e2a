//! From a net to the order of its ticks, or the first broken rule of wires, elements and loops with the texts of its place.
#![tactic(auto)]

mod fault;
mod laws;
mod plans;
mod spots;

pub use fault::{CheckFault, NetSpot};
pub use laws::{one_rule_is_first, same_rule_is_first};
pub use plans::check;
