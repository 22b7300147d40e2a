//! An order in which each vertex stands behind all that determines it, or the least vertex on a loop.
#![tactic(auto)]

mod order;
mod search;

pub use order::{SearchFault, order_of};
