//! One run of words, handed out in windows that lie apart.
#![tactic(auto)]

mod laws;
mod region;
mod window;

pub use laws::writes_stay_inside;
pub use region::Region;
pub use window::Window;
