//! The declared classes of several files with their names and scopes, and what a name leads to in them.
#![tactic(auto)]

mod count;
mod full_name;
mod gather;
mod in_scope;
mod law;
mod lookup;
mod members;
mod names;
mod scopes;
mod table;

pub use in_scope::Scope;
pub use law::first_scope_counts;
pub use lookup::{ClassSort, Sought, scalar_named, sort_of};
pub use members::index_name;
pub use table::{DeclaredClasses, Meaning};
