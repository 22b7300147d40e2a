//! The blocks of the kinds that remember their inputs without looking at the time, and a block of any kind.
#![tactic(auto)]

mod any_block;
mod counter;
mod edges;
mod hysteresis;
mod integer_change;
mod memory;
mod seen;

pub use any_block::AnyBlock;
