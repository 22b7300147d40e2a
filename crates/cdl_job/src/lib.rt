//! The words of a job, how it ends, and what is told of that.
#![tactic(auto)]

mod job;
mod outcome;
mod tell;

pub use job::{Job, words};
pub use outcome::{Outcome, Spot};
pub use tell::{report, usage};
