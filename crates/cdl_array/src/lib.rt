//! What expressions without names are worth: operators, array literals, subscripts, functions, sizes and conversions over
//! arrays. Each call answers the array, or the rule that is broken first.
#![tactic(auto)]

mod arithmetic;
mod comparison;
mod fault;
mod functions;
mod laws;
mod literals;
mod numbers;
mod operators;
mod parts;
mod scalars;
mod sizes;
mod types;

pub use fault::EvalFault;
pub use functions::{Function, call};
pub use laws::arrays_make_arrays;
pub use literals::literal;
pub use operators::{binary, condition, decided, unary};
pub use parts::{part, subscript};
pub use scalars::{scalar, scalar_of};
pub use sizes::{count_of, size_of};
pub use types::converted;
