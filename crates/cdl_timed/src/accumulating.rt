// How long the input has been true in all.
ghost use Rattle.std.specs.Prelude.{◌≡◌, ◌↔◌, IsTrue, ◌≤ℤ◌, ◌<ℤ◌, ◌+ℤ◌, ◌*ℤ◌, [], ◌∷◌, cond, length, negsuc, pos, refl, true};
ghost use Rattle.std.proofs.Common.{arith};
ghost use Rattle.cdl_values.specs.declared.value.ValueType.TheVariants.{Boolean, Real};
ghost use Rattle.cdl_values.specs.History.{IsTime, IsValue, before, bit, is_on, last_time, typed, word};
ghost use Rattle.cdl_values.proofs.Laws.{by_all};
ghost use Rattle.cdl_kinds.specs.Meaning.Timers.{accumulated, elapsed, timer_accumulating};
ghost use Rattle.cdl_kinds.specs.States.{IsAccumulatingState};
ghost use Rattle.cdl_timed.specs.Sums.{HasSum, IsSum, sum_next};

use crate::checks::{is_boolean_at, is_time};
use crate::times::{elapsed, put_four, put_timed};
use cdl_decimal::Real;
use cdl_kinds::{Elementary, Steps};
use cdl_values::NoValue;
use cdl_values::words::{bit, is_on, read};
use std::sync::ledger::Ledger;

// The time that was added up, the time of the last tick or -1 before any, and both inputs there.
#[derive(Clone, Copy, Drop)]
struct Accumulated {
    sum: i64,
    last: i64,
    on: bool,
    reset: bool,
}

impl Accumulated {
    fn read(state: &[i64]) -> Accumulated
        requires { length state.now ≡ 4 }
        ensures sum { result.sum ≡ word state.now 0 }
        ensures last { result.last ≡ word state.now 1 }
        ensures on { result.on ≡ is_on (word state.now 2) }
        ensures reset { result.reset ≡ is_on (word state.now 3) }
    {
        Accumulated {
            sum: read(state, 0),
            last: read(state, 1),
            on: is_on(state, 2),
            reset: is_on(state, 3),
        }
    }

    fn write(&self, state: &mut [i64])
        requires { length state.old ≡ 4 }
        ensures { state.new ≡ self.now.sum ∷ self.now.last ∷ bit self.now.on ∷ bit self.now.reset ∷ [] }
    {
        put_four(state, self.sum, self.last, bit(self.on), bit(self.reset));
    }

    // The time since the last tick, where the input was true there.
    #[tactic(auto, using(crate::proofs::SumStates::time_known))]
    fn since(&self, now: i64) -> i64
        requires sum { IsSum self.now.sum self.now.last self.now.on }
        requires later { self.now.last <ℤ now }
        requires now { IsTime now }
        ensures value { result ≡ cond self.now.on (elapsed self.now.last now) (pos 0) }
        ensures low { pos 0 ≤ℤ result }
        ensures high { self.now.on ≡ true → result ≡ elapsed self.now.last now }
    {
        if self.on { elapsed(self.last, now) } else { 0 }
    }

    // The sum at this tick, where it does not begin anew.
    fn grown(&self, now: i64) -> i64
        requires sum { IsSum self.now.sum self.now.last self.now.on }
        requires later { self.now.last <ℤ now }
        requires now { IsTime now }
        ensures value { result ≡ self.now.sum +ℤ cond self.now.on (elapsed self.now.last now) (pos 0) }
    {
        self.sum + self.since(now)
    }

    // The sum at this tick.
    #[tactic(auto, using(crate::proofs::SumStates::sum_known))]
    fn next_sum(&self, now: i64, ins: &[i64]) -> i64
        requires sum { IsSum self.now.sum self.now.last self.now.on }
        requires later { self.now.last <ℤ now }
        requires now { IsTime now }
        requires ins { length ins.now ≡ 2 }
        ensures value { result ≡ sum_next self.now.sum self.now.last self.now.on self.now.reset now ins.now }
        ensures low { pos 0 ≤ℤ result }
        ensures high { result ≤ℤ (now *ℤ pos 1000) }
    {
        if is_on(ins, 1) && !self.reset {
            0
        } else {
            self.grown(now)
        }
    }
}

// Whether this was added up to a last tick that had the input.
fn is_sum(sum: i64, last: i64, on: i64) -> bool
    ensures { IsTrue result ↔ (last ≡ negsuc 0 → (sum ≡ pos 0) × (on ≡ pos 0)) × (pos 0 ≤ℤ last → (pos 0 ≤ℤ sum) × (sum ≤ℤ (last *ℤ pos 1000))) }
{
    if last == -1 {
        sum == 0 && on == 0
    } else {
        last < 0 || (0 <= sum && sum as i128 <= last as i128 * 1000)
    }
}

// Whether both inputs are kept.
fn has_inputs(state: &[i64]) -> bool
    requires { length state.now ≡ 4 }
    ensures { IsTrue result ↔ (IsValue Boolean (word state.now 2) × IsValue Boolean (word state.now 3)) }
{
    is_boolean_at(state, 2) && is_boolean_at(state, 3)
}

// Whether a sum is kept.
fn has_sum(state: &[i64]) -> bool
    requires { length state.now ≡ 4 }
    ensures { IsTrue result ↔ HasSum state.now }
{
    is_sum(read(state, 0), read(state, 1), read(state, 2))
}

/// How long its first input has been true in all since its second rose, and whether that is at least its time.
#[derive(Clone, Copy, Drop)]
pub struct TimerAccumulating {
    pub time: Real,
}

impl Elementary for TimerAccumulating {
    ghost inputs = { λ _. typed (Boolean ∷ Boolean ∷ []) };

    ghost width = { λ _. 4 };

    ghost results = { λ _. typed (Real ∷ Boolean ∷ []) };

    ghost meaning = { λ b. timer_accumulating b.time };

    ghost may_lack = { λ _ _ _. ⊥ };

    ghost stands = { λ _ state h. state ≡ accumulated h ∷ last_time h ∷ before (pos 0) 0 h ∷ before (pos 1) 1 h ∷ [] };

    ghost is_sound = { λ _ state last. IsAccumulatingState state last };

    fn words(&self) -> usize {
        4
    }

    fn reset(&self, state: &mut [i64]) {
        let nothing = Accumulated {
            sum: 0,
            last: -1,
            on: false,
            reset: true,
        };
        nothing.write(state);
    }

    fn sound(&self, state: &[i64], last: i64) -> bool {
        is_time(read(state, 1), last) && has_inputs(state) && has_sum(state)
    }

    fn emit<L: Ledger>(
        &self,
        state: &[i64],
        now: i64,
        ins: &[i64],
        outs: &mut [i64],
        steps: &mut Steps<L>,
    ) -> Result<(), NoValue> {
        steps.tick();
        let sum = Accumulated::read(state).next_sum(now, ins);
        put_timed(outs, sum, self.time, true);
        Ok(())
    }

    fn absorb(&self, state: &mut [i64], now: i64, ins: &[i64]) {
        let accumulated = Accumulated {
            sum: Accumulated::read(state).next_sum(now, ins),
            last: now,
            on: is_on(ins, 0),
            reset: is_on(ins, 1),
        };
        accumulated.write(state);
    }

    ghost idle = { λ _ (w : 4 ≡ 0). absurd (omega (arith, w)) };

    ghost direct_only = { by_all (λ b. timer_accumulating b.time) (typed (Boolean ∷ Boolean ∷ [])) (λ _. refl) };
}
