//! Tests of tokens, trees and classes through public calls.
#![tactic(auto)]

#[cfg(test)]
mod classes;
#[cfg(test)]
mod literals;
#[cfg(test)]
mod sentences;
#[cfg(test)]
mod tokens;
