//! A place among the tokens of a file, from which the rules of a grammar read on.
#![tactic(auto)]

mod cursor;
mod law;
mod lists;

pub use cursor::{Cursor, Fault};
pub use law::{spelled_words, strings_mean};
pub use lists::{list, list_behind};
