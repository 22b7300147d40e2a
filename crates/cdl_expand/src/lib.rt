//! From a model to its net.
#![tactic(auto)]

mod expanding;
mod fault;
mod laws;
mod parts;

pub use expanding::expand;
pub use fault::ExpandFault;
pub use laws::{one_expansion, one_refusal};
