//! The top call of `cdl`: all that the program does, over any files and any two sinks.
#![tactic(auto)]

mod document;
mod laws;
mod plan;
mod stop;
mod table;
mod texts;
mod top;
mod work;

pub use cdl_job::{Job, Outcome, Spot, words};
pub use laws::{each_table_has_a_trace, one_answer};
pub use top::command;
