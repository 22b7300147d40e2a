// A hold of what was true or false.
ghost use Rattle.std.specs.Prelude.{◌≡◌, ◌≤ℤ◌, [], ◌∷◌, Some, cond, length, pos, refl};
ghost use Rattle.std.proofs.Common.{arith};
ghost use Rattle.std.specs.Int.RustNames.{int_le};
ghost use Rattle.cdl_values.specs.History.{IsTime, bit, booleans, is_on, word};
ghost use Rattle.cdl_values.proofs.Laws.{by_all};
ghost use Rattle.cdl_kinds.specs.Meaning.Timers.{elapsed, held, held_from, held_next, true_false_hold};
ghost use Rattle.cdl_kinds.specs.States.{IsHoldState, hold_words, time_word};
ghost use Rattle.cdl_timed.specs.Holding.{held_as, held_with};
ghost use Rattle.cdl_timed.specs.Runs.{IsRun, time_of};

use crate::checks::{is_boolean, is_time};
use crate::times::{elapsed, put_flag, read_time, time_word};
use cdl_decimal::Real;
use cdl_kinds::{Elementary, Steps};
use cdl_values::NoValue;
use cdl_values::words::{bit, is_on, put_two, read};
use std::sync::ledger::Ledger;

// The output at the last tick, and when it changed last; no time before any tick.
#[derive(Clone, Copy, Drop)]
struct Output {
    on: bool,
    changed: Option<i64>,
}

// The output from one that changed at a time, where it may change now or not.
fn changed_to(on: bool, changed: i64, may: bool, now: i64, u: bool) -> Output
    ensures on { result.on ≡ (held_as may (record { on = on; changed = changed }) now u).on }
    ensures changed { result.changed ≡ Some ((held_as may (record { on = on; changed = changed }) now u).changed) }
{
    if may && on != u {
        Output {
            on: u,
            changed: Some(now),
        }
    } else {
        Output {
            on,
            changed: Some(changed),
        }
    }
}

impl Output {
    fn read(state: &[i64]) -> Output
        requires { length state.now ≡ 2 }
        ensures on { result.on ≡ is_on (word state.now 0) }
        ensures changed { result.changed ≡ time_of (word state.now 1) }
    {
        Output {
            on: is_on(state, 0),
            changed: read_time(read(state, 1)),
        }
    }

    fn write(self, state: &mut [i64])
        requires { length state.old ≡ 2 }
        ensures { state.new ≡ bit self.on ∷ time_word self.changed ∷ [] }
    {
        put_two(state, bit(self.on), time_word(self.changed));
    }

    // The output at this tick.
    fn next(self, block: &TrueFalseHold, now: i64, u: bool) -> Output
        requires now { IsTime now }
        requires changed { IsRun now self.changed }
        ensures on { result.on ≡ (held_from block.now.true_hold block.now.false_hold (held_with self.on self.changed) now u).on }
        ensures changed { result.changed ≡ Some ((held_from block.now.true_hold block.now.false_hold (held_with self.on self.changed) now u).changed) }
        ensures run { IsRun now result.changed }
    {
        match self.changed {
            Some(changed) => {
                let may = block.may_change(self.on, changed, now);
                changed_to(self.on, changed, may, now, u)
            }
            None => Output {
                on: u,
                changed: Some(now),
            },
        }
    }
}

/// Its input, but that what it gives is held for its duration: one for true, one for false.
#[derive(Clone, Copy, Drop)]
pub struct TrueFalseHold {
    pub true_hold: Real,
    pub false_hold: Real,
}

impl TrueFalseHold {
    // Whether an output that changed at a time has been held for its duration.
    fn may_change(&self, on: bool, changed: i64, now: i64) -> bool
        requires begin { pos 0 ≤ℤ changed }
        requires order { changed ≤ℤ now }
        requires now { IsTime now }
        ensures { result ≡ int_le (cond on self.now.true_hold self.now.false_hold) (elapsed changed now) }
    {
        let hold = if on { self.true_hold } else { self.false_hold };
        hold.count() <= elapsed(changed, now)
    }
}

impl Elementary for TrueFalseHold {
    ghost inputs = { λ _. booleans 1 };

    ghost width = { λ _. 2 };

    ghost results = { λ _. booleans 1 };

    ghost meaning = { λ b. true_false_hold b.true_hold b.false_hold };

    ghost may_lack = { λ _ _ _. ⊥ };

    ghost stands = { λ b state h. state ≡ hold_words (held b.true_hold b.false_hold h) };

    ghost is_sound = { λ _ state last. IsHoldState state last };

    fn words(&self) -> usize {
        2
    }

    fn reset(&self, state: &mut [i64]) {
        let nothing = Output {
            on: false,
            changed: None,
        };
        nothing.write(state);
    }

    fn sound(&self, state: &[i64], last: i64) -> bool {
        is_boolean(read(state, 0)) && is_time(read(state, 1), last)
    }

    fn emit<L: Ledger>(
        &self,
        state: &[i64],
        now: i64,
        ins: &[i64],
        outs: &mut [i64],
        steps: &mut Steps<L>,
    ) -> Result<(), NoValue> {
        steps.tick();
        let output = Output::read(state).next(self, now, is_on(ins, 0));
        put_flag(outs, output.on);
        Ok(())
    }

    fn absorb(&self, state: &mut [i64], now: i64, ins: &[i64]) {
        let output = Output::read(state).next(self, now, is_on(ins, 0));
        output.write(state);
    }

    ghost idle = { λ _ (w : 2 ≡ 0). absurd (omega (arith, w)) };

    ghost direct_only = { by_all (λ b. true_false_hold b.true_hold b.false_hold) (booleans 1) (λ _. refl) };
}
