//! Tests of connect statements and loops through public calls.
#![tactic(auto)]

#[cfg(test)]
mod cases;
#[cfg(test)]
mod models;
#[cfg(test)]
mod shown;
#[cfg(test)]
mod tests;
