// The mean of what a trigger picked last.
ghost use Rattle.std.specs.Prelude.{◌≡◌, ◌&&◌, ◌||◌, ◌+◌, ◌-◌, ◌*◌, ◌+ℤ◌, ◌≤ℤ◌, ◌<◌, ◌≤◌, ◌↔◌, IsTrue, ℕ, Some, [], ◌∷◌, cond, drop, length, min, not, pos, refl, take, unsigned_abs};
ghost use Rattle.std.proofs.Common.{arith};
ghost use Rattle.cdl_source.specs.declared.limits.TheConstants.{LARGEST_REAL};
ghost use Rattle.cdl_decimal.specs.Counts.{real_mean, total};
ghost use Rattle.cdl_decimal.specs.Near.{InRange};
ghost use Rattle.cdl_values.specs.declared.value.ValueType.TheVariants.{Boolean, Real as RealType};
ghost use Rattle.cdl_values.specs.History.{AreValues, IsValue, is_on, reals, typed, word};
ghost use Rattle.cdl_values.proofs.Laws.{by_all};
ghost use Rattle.cdl_kinds.specs.Meaning.Discrete.{triggered_moving_mean};
ghost use Rattle.cdl_kinds.specs.States.{IsMeanState, mean_words, padded};
ghost use Rattle.cdl_discrete.specs.Windows.{HasCount, has_ticks, picks_now, window, window_next};

use cdl_decimal::{Real, mean_of_sum};
use cdl_kinds::{Elementary, Steps};
use cdl_timed::checks::{is_boolean, is_real};
use cdl_values::NoValue;
use cdl_values::words::{is_on, put_one, put_three, read, read_real};
use std::sync::ledger::Ledger;

// The sum with the count in that place.
fn next_sum(sum: i128, counts: &[i64], i: usize) -> i128
    requires within { i < length counts.now }
    requires range { InRange (word counts.now i) }
    requires small { unsigned_abs sum ≤ LARGEST_REAL * 1024 }
    ensures value { result ≡ sum +ℤ word counts.now i }
    ensures small { unsigned_abs result ≤ unsigned_abs sum + LARGEST_REAL }
{
    sum + read_real(counts, i).count() as i128
}

// The sum of counts, in full.
#[tactic(auto, using(crate::proofs::WindowLaws::total_step))]
fn sum_of(counts: &[i64]) -> i128
    requires few { length counts.now ≤ 1024 }
    requires range { (i : ℕ) → i < length counts.now → InRange (word counts.now i) }
    ensures value { result ≡ total counts.now }
    ensures small { unsigned_abs result ≤ LARGEST_REAL * length counts.now }
{
    let mut sum: i128 = 0;
    for i in 0..counts.len() {
        sum = next_sum(sum, counts, i);
    }
    sum
}

// The sum with one count more.
fn sum_with(first: Real, sum: i128) -> i128
    requires { unsigned_abs sum ≤ LARGEST_REAL * 1024 }
    ensures value { result ≡ first +ℤ sum }
    ensures small { unsigned_abs result ≤ LARGEST_REAL + unsigned_abs sum }
{
    first.count() as i128 + sum
}

// The mean of counts.
#[tactic(auto, using(crate::proofs::WindowLaws::mean_is))]
fn mean_of(counts: &[i64]) -> Real
    requires some { 0 < length counts.now }
    requires few { length counts.now ≤ 1024 }
    requires range { (i : ℕ) → i < length counts.now → InRange (word counts.now i) }
    ensures { real_mean counts.now ≡ Some result }
{
    mean_of_sum(sum_of(counts), counts.len())
}

// The mean of one count and others.
#[tactic(auto, using(crate::proofs::WindowLaws::mean_with_is))]
fn mean_with(first: Real, others: &[i64]) -> Real
    requires few { length others.now < 1024 }
    requires range { (i : ℕ) → i < length others.now → InRange (word others.now i) }
    ensures { real_mean (first ∷ others.now) ≡ Some result }
{
    mean_of_sum(sum_with(first, sum_of(others)), others.len() + 1)
}

// The word comes in front, and the last goes.
#[tactic(auto, using(crate::proofs::WindowLaws::pushed))]
fn push(words: &mut [i64], w: i64)
    requires { 0 < length words.old }
    ensures { words.new ≡ take (length words.old) (w ∷ words.old) }
{
    words.rotate_right(1);
    words[0] = w;
}

// The word comes in front where it is picked.
fn push_if(words: &mut [i64], picked: bool, w: i64)
    requires { 0 < length words.old }
    ensures { words.new ≡ cond picked (take (length words.old) (w ∷ words.old)) words.old }
{
    if picked {
        push(words, w);
    }
}

// The trigger at the last tick, whether there was one, and how many samples are kept behind: the latest first.
#[derive(Clone, Copy, Drop)]
struct Window {
    begun: bool,
    trigger: bool,
    count: usize,
}

impl Window {
    fn read(state: &[i64]) -> Window
        requires { 3 ≤ length state.now }
        ensures begun { result.begun ≡ has_ticks (word state.now 0) }
        ensures trigger { result.trigger ≡ is_on (word state.now 0) }
        ensures count { result.count ≡ unsigned_abs (word state.now 1) }
    {
        Window {
            begun: read(state, 0) != -1,
            trigger: is_on(state, 0),
            count: read(state, 1).unsigned_abs() as usize,
        }
    }

    // Whether the input is picked.
    fn picks(&self, ins: &[i64]) -> bool
        requires { length ins.now ≡ 2 }
        ensures { result ≡ (not self.now.begun || (is_on (word ins.now 1) && not self.now.trigger)) }
    {
        !self.begun || (is_on(ins, 1) && !self.trigger)
    }

    // How many samples there are, where one more is picked or not.
    fn next_count(&self, size: usize, picked: bool) -> usize
        requires size { size ≤ 1024 }
        requires count { self.now.count ≤ size }
        ensures { result ≡ cond picked (min (self.now.count + 1) size) self.now.count }
    {
        if picked && self.count < size {
            self.count + 1
        } else {
            self.count
        }
    }
}

// No sample in any place.
#[tactic(auto, using(crate::proofs::WindowLaws::no_samples))]
fn clear(words: &mut [i64])
    ensures { words.new ≡ padded (length words.old) [] }
{
    words.fill(0);
}

// The samples that are kept: so many, behind the first three words.
fn held(state: &[i64], count: usize) -> &[i64]
    requires { 3 + count ≤ length state.now }
    ensures { result.now ≡ take count (drop 3 state.now) }
{
    let (_head, samples) = state.split_at(3);
    &samples[..count]
}

// Keeps the trigger, the count, and the input in front where it is picked.
fn keep(state: &mut [i64], ins: &[i64], picked: bool, count: usize)
    requires state { 3 < length state.old }
    requires ins { length ins.now ≡ 2 }
    requires count { count ≤ 1024 }
    ensures { state.new ≡ word ins.now 1 ∷ pos count ∷ pos 0 ∷ cond picked (take (length state.old - 3) (word ins.now 0 ∷ drop 3 state.old)) (drop 3 state.old) }
{
    let (head, samples) = state.split_at_mut(3);
    push_if(samples, picked, read(ins, 0));
    put_three(head, read(ins, 1), count as i64, 0);
}

/// The mean of the last of its first input at the first tick and at those at which its second rose: of as many as its size
/// says, or of all where there are fewer.
#[derive(Clone, Copy, Drop)]
pub struct TriggeredMovingMean {
    pub size: usize,
    pub ghost some: { 0 < size },
    pub ghost few: { size ≤ 1024 },
}

impl TriggeredMovingMean {
    // The mean with one sample more.
    #[tactic(auto, using(crate::proofs::WindowLaws::front_kept))]
    fn mean_picked(&self, u: Real, samples: &[i64]) -> Real
        requires few { length samples.now ≤ self.now.size }
        requires range { (i : ℕ) → i < length samples.now → InRange (word samples.now i) }
        ensures { real_mean (take self.now.size (u ∷ samples.now)) ≡ Some result }
    {
        if samples.len() < self.size {
            mean_with(u, samples)
        } else {
            mean_with(u, &samples[..self.size - 1])
        }
    }

    // The mean at this tick.
    fn mean(&self, state: &[i64], ins: &[i64]) -> Real
        requires sound { IsMeanState self.now.size state.now }
        requires ins { length ins.now ≡ 2 }
        requires input { InRange (word ins.now 0) }
        ensures { real_mean (window_next self.now.size (picks_now (word state.now 0) ins.now) (word ins.now 0) (window state.now)) ≡ Some result }
    {
        let window = Window::read(state);
        let samples = held(state, window.count);
        if window.picks(ins) {
            self.mean_picked(read_real(ins, 0), samples)
        } else {
            mean_of(samples)
        }
    }

    // Whether words are a trigger and a count of samples.
    fn has_count(&self, state: &[i64]) -> bool
        requires { 3 ≤ length state.now }
        ensures { IsTrue result ↔ HasCount self.now.size state.now }
    {
        let trigger = read(state, 0);
        let count = read(state, 1);
        if trigger == -1 {
            count == 0
        } else {
            is_boolean(trigger) && 1 <= count && count <= self.size as i64
        }
    }
}

// Whether each word is a Real.
fn are_reals(words: &[i64]) -> bool
    ensures { IsTrue result ↔ ((i : ℕ) → i < length words.now → InRange (word words.now i)) }
{
    words.iter().all(|w| is_real(*w))
}

impl Elementary for TriggeredMovingMean {
    ghost inputs = { λ _. typed (RealType ∷ Boolean ∷ []) };

    ghost width = { λ b. b.size + 3 };

    ghost results = { λ _. reals 1 };

    ghost meaning = { λ b. triggered_moving_mean b.size };

    ghost may_lack = { λ _ _ _. ⊥ };

    ghost stands = { λ b state h. state ≡ mean_words b.size h };

    ghost is_sound = { λ b state _. IsMeanState b.size state };

    fn words(&self) -> usize {
        self.size + 3
    }

    fn reset(&self, state: &mut [i64]) {
        let (head, samples) = state.split_at_mut(3);
        put_three(head, -1, 0, 0);
        clear(samples);
    }

    fn sound(&self, state: &[i64], _last: i64) -> bool {
        let (_head, samples) = state.split_at(3);
        self.has_count(state) && read(state, 2) == 0 && are_reals(samples)
    }

    fn emit<L: Ledger>(
        &self,
        state: &[i64],
        _now: i64,
        ins: &[i64],
        outs: &mut [i64],
        steps: &mut Steps<L>,
    ) -> Result<(), NoValue> {
        steps.tick();
        put_one(outs, self.mean(state, ins).count());
        Ok(())
    }

    fn absorb(&self, state: &mut [i64], _now: i64, ins: &[i64]) {
        let window = Window::read(state);
        let picked = window.picks(ins);
        let count = window.next_count(self.size, picked);
        keep(state, ins, picked, count);
    }

    ghost idle = { λ b (w : b.size + 3 ≡ 0). absurd (omega (arith, w)) };

    ghost direct_only = { by_all (λ b. triggered_moving_mean b.size) (typed (RealType ∷ Boolean ∷ [])) (λ _. refl) };
}
