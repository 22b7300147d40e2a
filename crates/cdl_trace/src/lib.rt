//! A checked net runs over the rows of a table, and its trace is written record by record.
#![tactic(auto)]

mod columns;
mod laws;
mod stop;
mod writing;

pub use columns::{input_columns, output_columns};
pub use laws::{each_table_has_one_trace, one_trace, same_trace, times_rise};
pub use stop::TraceStop;
pub use writing::write_trace;
