//! Tests of tables and traces and of the top call, by their public calls alone.
#![tactic(auto)]

#[cfg(test)]
mod command;
#[cfg(test)]
mod marks;
#[cfg(test)]
mod table;
