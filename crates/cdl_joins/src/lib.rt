//! An occurrence of a connect statement, or the head of a loop: what it joins, drops or breaks.
#![tactic(auto)]

mod ends;
mod integers;
mod paths;
mod picks;
mod sides;
mod verdicts;

pub use paths::path_of;
pub use picks::{Pick, Site};
pub use sides::{Owners, Piece, Side};
pub use verdicts::{Verdict, bounds, enter, judge, leave, turns, value_in};
