//! The tests of cdl_array, by public calls alone.
#![tactic(auto)]

#[cfg(test)]
mod arrays;
#[cfg(test)]
mod table;
#[cfg(test)]
mod tests;
