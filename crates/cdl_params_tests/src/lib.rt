//! Tests of parameters through public calls.
#![tactic(auto)]

#[cfg(test)]
mod cases;
#[cfg(test)]
mod shown;
#[cfg(test)]
mod tests;
