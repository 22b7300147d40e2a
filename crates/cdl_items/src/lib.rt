//! The items of blocks: what each is, and what the arguments of a declaration may modify.
#![tactic(auto)]

mod arguments;
mod finals;
mod role;

pub use arguments::{Modified, Target, broken_arguments};
pub use finals::{Own, modifies_final, unit_is_final, value_is_final};
pub use role::{Part, Role, items_of, role_of};
