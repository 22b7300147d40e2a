//! Packages, enumerations and blocks: which classes are declared, and what a name means in them.
#![tactic(auto)]

mod declarations;
mod duplicates;
mod found;
mod free_names;
mod item_classes;
mod law;
mod places;
mod table;

pub use cdl_scopes::{ClassSort, Sought, first_scope_counts};
pub use found::{ClassId, Found, ValueFound};
pub use law::declared_classes_are_formed;
pub use table::{ClassFault, ClassTable};
