//! Parameters: what each is worth at every path.
#![tactic(auto)]

mod calls;
mod elaborator;
mod kinds;
mod units;
mod value;

pub use cdl_array::EvalFault;
pub use cdl_paths::{Local, Path, Step};
pub use elaborator::Elaborator;
