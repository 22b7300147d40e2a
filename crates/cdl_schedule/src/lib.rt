//! The order of a tick: each elementary instance of a checked net once, behind all on which its direct inputs depend; or the
//! first instance on a loop.
#![tactic(auto)]

mod plans;
mod rows;
mod steps;

pub use plans::{OrderFault, OrderRefusal, Plan, order};
pub use rows::is_direct_kind;
pub use steps::Step;
