//! What holds of the meanings of the kinds and of their states. Each function is a law: it computes nothing, its contract is all.
#![tactic(auto)]

mod examples;
mod meanings;
mod running;
mod states;

pub use examples::{
    comparisons, counts_and_rounding, edges_and_memories, samples, timers_and_holds,
};
pub use meanings::{direct_inputs_alone, no_history_without_state, outputs_have_their_types};
pub use running::{
    comparisons_stay, counter_counts_rises, hold_follows_its_outputs, hysteresis_stays,
    latch_remembers_a_start, timer_adds_up_times, toggle_counts_starts,
};
pub use states::{
    sound_for_later_times, standing_is_sound, stateless_stands, states_have_their_words,
};
