//! The runner of a net: one region of words, and one pass over it at each tick.
#![tactic(auto)]

mod layout;
mod resume;
mod runner;

pub use resume::ResumeFault;
pub use runner::{RangeFault, Runner};
