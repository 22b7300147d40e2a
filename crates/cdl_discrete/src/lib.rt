//! The blocks that look at their input at some ticks only: samplers, and what a trigger picks.
#![tactic(auto)]

mod intervals;
mod moving_mean;
mod sampler;
mod triggered;
mod unit_delay;

pub use moving_mean::TriggeredMovingMean;
pub use sampler::Sampler;
pub use triggered::{TriggeredMax, TriggeredSampler};
pub use unit_delay::UnitDelay;
