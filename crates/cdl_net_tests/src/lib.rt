//! Tests of nets by public calls, with nets that are written as short texts.
#![tactic(auto)]

mod builder;
mod delays;
mod numbers;

pub use builder::net_of;
pub use numbers::indexed;

#[cfg(test)]
mod order;
#[cfg(test)]
mod tests;
