//! Decimals of six places, exact to the last unit: each operation is one rounded fraction.
#![tactic(auto)]

mod canonical;
mod numeral;
mod parser;
mod real;
mod rounding;
mod scale;

pub use canonical::text;
pub use numeral::DecimalError;
pub use parser::parse;
pub use real::{Real, line, mean, mean_of_sum, weighted_sum};
