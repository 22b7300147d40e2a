//! The values of expressions at every path, by what the names in them lead to.
#![tactic(auto)]

mod eval;
mod kept;
mod place;
mod shared;
mod sizes;

pub use cdl_array::EvalFault;
pub use eval::Evaluator;
pub use kept::{Entry, Store};
pub use place::{Place, behind, behind_next, copy_steps};
pub use shared::Shared;
pub use sizes::{push_all, wanted};
