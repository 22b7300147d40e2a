//! Declarations, statements and notes: what blocks and packages are made of.
#![tactic(auto)]

mod connection;
mod declaration;
mod statement;

pub use declaration::{clause, constant, note_clause, tail};
pub use statement::equation_part;
