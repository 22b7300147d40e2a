//! The tests of cxf_graph, by public calls alone.
#![tactic(auto)]

mod writable;

pub use writable::is_writable;

#[cfg(test)]
mod builder;
#[cfg(test)]
mod documents;
#[cfg(test)]
mod values;
