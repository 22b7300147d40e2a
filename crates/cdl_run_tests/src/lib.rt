//! Tests of the runner by public calls, with nets that are written as short texts.
#![tactic(auto)]

mod builder;
mod kinds;
mod roots;
mod trial;
mod values;

pub use trial::Trial;

#[cfg(test)]
mod large;
#[cfg(test)]
mod resumed;
#[cfg(test)]
mod runs;
