//! Tables of inputs and traces of outputs: records of comma-separated fields, by the rules of RFC 4180.
#![tactic(auto)]

mod cells;
mod column;
mod header;
mod record;
mod rows;
mod scan;
mod table;
mod trace;

pub use column::Column;
pub use table::{Table, TableFault};
pub use trace::{TraceError, TraceWriter};
