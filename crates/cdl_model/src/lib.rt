//! A model as a network of names, and the net of numbers that is the same network. It has no code that runs: each function is a law,
//! and its contract is all.
#![tactic(auto)]

mod laws;

pub use laws::{
    declared_names_are_apart, model_is_a_network, net_is_model, parts_are_one, rules_are_the_nets,
    solutions_are_the_nets,
};
