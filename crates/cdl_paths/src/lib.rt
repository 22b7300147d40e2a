//! Paths of instances: what stands at a path, what binds a parameter there, what a name refers to, and how a value is handed out
//! over arrays of components.
#![tactic(auto)]

mod binding;
mod handing;
mod member;
mod modifier;
mod path;
mod reference;

pub use binding::{Binding, Giver, binding_of, row_named};
pub use handing::{hand_out, indices_left, units};
pub use member::{Member, is_parameter, member_of, site};
pub use modifier::eaches;
pub use path::{Local, Path, Step};
pub use reference::{Reference, refer};
