//! What holds of the documents of well-formed nets. Each function is a law: it computes nothing, its contract is all.
#![tactic(auto)]

mod documents;

pub use documents::{net_is_read_back, parameters_in_order, values_read_back};
