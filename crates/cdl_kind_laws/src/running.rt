// The meanings that carry a state through a history, said without it.
ghost use Rattle.std.specs.Prelude.{◌≡◌, ◌+ℤ◌, ◌-ℤ◌, ◌≤ℤ◌, ◌<ℤ◌, ℤ, pos, Bool, List, count_by, map};
ghost use Rattle.std.specs.List.{list_any};
ghost use Rattle.std.specs.Int.RustNames.{int_le, int_lt};
ghost use Rattle.cdl_decimal.specs.Counts.{total};
ghost use Rattle.cdl_values.specs.History.{History, flag, is_on, word};
ghost use Rattle.cdl_kinds.specs.Meaning.Edges.{latched, toggled};
ghost use Rattle.cdl_kinds.specs.Meaning.Integers.{counted};
ghost use Rattle.cdl_kinds.specs.Meaning.Reals.{above, above_threshold, below, below_threshold, between, remembered};
ghost use Rattle.cdl_kinds.specs.Meaning.Timers.{accumulated, true_false_hold};
ghost use Rattle.cdl_kind_laws.specs.Holds.{hold_rule, outputs};
ghost use Rattle.cdl_kind_laws.specs.Moments.{is_odd, is_on_at, last_decision, moments, rises_at, since_last, starts_at, time_on};

/// A law: y of a latch is true where u started at some tick since the last one with clr.
#[tactic(auto, using(crate::proofs::RunningLaws::latched_is))]
pub fn latch_remembers_a_start()
    ensures { (h : History) → latched h ≡ list_any (starts_at 0) (since_last (is_on_at 1) (moments h)) }
{}

/// A law: y of a toggle is true where u started at an odd number of ticks since the last one with clr.
#[tactic(auto, using(crate::proofs::RunningLaws::toggled_is))]
pub fn toggle_counts_starts()
    ensures { (h : History) → toggled h ≡ is_odd (count_by (starts_at 0) (since_last (is_on_at 1) (moments h))) }
{}

/// A law: a counter is its start, and the rises of trigger since the last rise of reset.
#[tactic(auto, using(crate::proofs::RunningLaws::counted_is))]
pub fn counter_counts_rises()
    ensures { (start : ℤ) (h : History) → counted start h ≡ start +ℤ pos (count_by (rises_at 0) (since_last (rises_at 1) (moments h))) }
{}

/// A law: an accumulating timer is the sum of the times between ticks that begin with u true, since the last rise of reset.
#[tactic(auto, using(crate::proofs::RunningLaws::accumulated_is))]
pub fn timer_adds_up_times()
    ensures { (h : History) → accumulated h ≡ total (map time_on (since_last (rises_at 1) (moments h))) }
{}

/// Laws: y of a comparison with a hysteresis is as the last tick says at which the comparison holds, or fails by at least the
/// hysteresis; before any it is as it starts.
#[tactic(auto, using(crate::proofs::RunningLaws::above_is, crate::proofs::RunningLaws::below_is, crate::proofs::RunningLaws::above_threshold_is, crate::proofs::RunningLaws::below_threshold_is))]
pub fn comparisons_stay()
    ensures greater { (d : ℤ) (start : Bool) (h : History) → pos 0 ≤ℤ d → remembered (above d) start h ≡ last_decision (λ x. int_lt (word x 1) (word x 0)) (λ x. int_le (word x 0) (word x 1 -ℤ d)) start h }
    ensures less { (d : ℤ) (start : Bool) (h : History) → pos 0 ≤ℤ d → remembered (below d) start h ≡ last_decision (λ x. int_lt (word x 0) (word x 1)) (λ x. int_le (word x 1 +ℤ d) (word x 0)) start h }
    ensures greater_threshold { (t d : ℤ) (start : Bool) (h : History) → pos 0 ≤ℤ d → remembered (above_threshold t d) start h ≡ last_decision (λ x. int_lt t (word x 0)) (λ x. int_le (word x 0) (t -ℤ d)) start h }
    ensures less_threshold { (t d : ℤ) (start : Bool) (h : History) → pos 0 ≤ℤ d → remembered (below_threshold t d) start h ≡ last_decision (λ x. int_lt (word x 0) t) (λ x. int_le (t +ℤ d) (word x 0)) start h }
{}

/// A law: y of a hysteresis is as the last tick says at which u is above the high or below the low one; before any it is as it starts.
#[tactic(auto, using(crate::proofs::RunningLaws::between_is))]
pub fn hysteresis_stays()
    ensures { (low high : ℤ) (start : Bool) (h : History) → low <ℤ high → remembered (between low high) start h ≡ last_decision (λ x. int_lt high (word x 0)) (λ x. int_lt (word x 0) low) start h }
{}

/// A law: a hold gives u where its output has been as it is for its duration, by the outputs that it gave before, and else that output.
#[tactic(auto, using(crate::proofs::HoldLaws::hold_is))]
pub fn hold_follows_its_outputs()
    ensures { (a b now : ℤ) (h : History) (x : List ℤ) → true_false_hold a b h now x ≡ flag (hold_rule a b (outputs a b h) now (is_on (word x 0))) }
{}
