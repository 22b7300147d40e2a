//! The kinds of elementary blocks: their table, what each of them means, and the trait that a block of any kind meets.
#![tactic(auto)]

mod conditions;
mod elementary;
mod groups;
mod kind;
mod parameter;
mod params;
mod port_list;
mod ports;
mod state_size;
mod steps;
mod table;

pub use conditions::check;
pub use elementary::Elementary;
pub use groups::{input_groups, output_groups};
pub use kind::{Kind, find, kind_name};
pub use parameter::{Parameter, Preset, parameters};
pub use params::{KindFault, Params};
pub use port_list::{port, port_count};
pub use ports::{Group, Port};
pub use state_size::state_words;
pub use steps::Steps;
