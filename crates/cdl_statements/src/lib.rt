//! Connect statements and their loops: from the instances and elements of a model to its wires, or the first broken rule.
#![tactic(auto)]

mod directory;
mod fault;
mod net;
mod running;

pub use fault::StatementFault;
pub use running::statements;
