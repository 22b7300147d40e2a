//! Values and arrays of them; and words, ticks and histories, as blocks of all kinds read and write them.
#![tactic(auto)]

mod value;
pub mod words;

pub use value::{Array, Value, ValueType};
pub use words::NoValue;
