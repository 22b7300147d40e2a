//! Nets that are well formed, and nets that are not. Each function is a law: it computes nothing, its contract is all.
#![tactic(auto)]

mod examples;

pub use examples::{
    negation_has_one_solution, negation_is_well_formed, pair_is_well_formed, spoiled_are_not,
};
