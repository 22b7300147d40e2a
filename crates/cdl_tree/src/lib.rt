//! The trees of texts, and the grammar: which list of tokens has which tree.
#![tactic(auto)]

mod class;
mod copy;
mod expr;
mod law;
mod literal;
mod name;
mod terminal;

pub use class::{
    ClassTree, Closing, Connect, Dim, FileTree, Item, Loop, Modifier, Part, Prefix, Ref, Statement,
    Sub,
};
pub use expr::{Expr, Node, Op};
pub use law::{formed_is_proper, one_value};
pub use literal::{integer, string};
pub use name::{Ident, Name};
pub use terminal::{Terminal, terminal_of};
