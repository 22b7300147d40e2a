//! The blocks that look at the time: timers, delays, holds and pulses.
#![tactic(auto)]

mod accumulating;
pub mod checks;
mod delay;
mod hold;
mod pulse;
mod timer;
mod times;

pub use accumulating::TimerAccumulating;
pub use delay::TrueDelay;
pub use hold::TrueFalseHold;
pub use pulse::Pulse;
pub use timer::Timer;
