//! A tick of many blocks over one run of words: each block is emitted once, in an order that is given, and then absorbs the tick.
#![tactic(auto)]

mod absorb;
mod net;
mod one;
mod pass;
mod start;
mod stateful;
mod tick;

pub use net::{Action, Node};
pub use start::{first_unsound, reset_all};
pub use stateful::stateful_in;
pub use tick::{BlockFault, tick_all};
