//! Names, expressions and arguments: what declarations and connect statements are made of.
#![tactic(auto)]

mod argument;
mod expression;
mod law;

pub use argument::{optional, optional_args, text};
pub use expression::{expr, name};
pub use law::{few_names, formed_expressions};
