//! Tests of the walk through public calls.
#![tactic(auto)]

#[cfg(test)]
mod cases;
#[cfg(test)]
mod shown;
#[cfg(test)]
mod tests;
