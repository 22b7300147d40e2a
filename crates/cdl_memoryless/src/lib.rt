//! The blocks of the kinds that have no memory.
#![tactic(auto)]

mod extremes;
mod gates;
mod integers;
mod make;
mod memoryless;
mod memoryless_block;
mod reals;
mod scalar;
mod sources;
mod sums;
mod whole;

pub use make::is_memoryless;
pub use memoryless::Memoryless;
pub use memoryless_block::MemorylessBlock;
pub use whole::Whole;
