//! Stations in their order: what comes at each, the state behind them, and the first at which a rule is broken. There is nothing to
//! call: the crates whose code passes such stations cite the definitions, and the laws in their proofs.
#![tactic(auto)]

mod law;

pub use law::keys_are_ordered;
