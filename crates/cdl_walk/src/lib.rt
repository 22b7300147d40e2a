//! The walk: the instances and elements of a model in preorder, or the first broken rule.
#![tactic(auto)]

mod blocks;
mod elements;
mod events;
mod order;
mod paths;
mod place;
mod rows;
mod stations;
mod texts;
mod walked;
mod walking;

pub use cdl_items::{Part, Role, items_of, role_of};
pub use order::by_instance;
pub use texts::{path_text, step_text};
pub use walked::{Content, Element, Instance, KindInstance, Point, WalkFault, Walked};
pub use walking::walk;
