// How long the input has been true.
ghost use Rattle.std.specs.Prelude.{◌≡◌, [], ◌∷◌, length, pos, refl};
ghost use Rattle.std.proofs.Common.{arith};
ghost use Rattle.cdl_values.specs.declared.value.ValueType.TheVariants.{Boolean, Real};
ghost use Rattle.cdl_values.specs.History.{IsTime, booleans, is_on, typed, word};
ghost use Rattle.cdl_values.proofs.Laws.{by_all};
ghost use Rattle.cdl_kinds.specs.Meaning.Timers.{began, timer};
ghost use Rattle.cdl_kinds.specs.States.{IsTimerState, time_word};
ghost use Rattle.cdl_timed.specs.Runs.{IsRun, run_next, time_of};

use crate::checks::is_time;
use crate::times::{put_timed, read_time, run_length, run_next, time_word};
use cdl_decimal::Real;
use cdl_kinds::{Elementary, Steps};
use cdl_values::NoValue;
use cdl_values::words::{is_on, put_two, read};
use std::sync::ledger::Ledger;

// When the run of true inputs began that the last tick ended.
#[derive(Clone, Copy, Drop)]
struct Run {
    since: Option<i64>,
}

impl Run {
    fn read(state: &[i64]) -> Run
        requires { length state.now ≡ 2 }
        ensures { result.since ≡ time_of (word state.now 0) }
    {
        Run {
            since: read_time(read(state, 0)),
        }
    }

    fn write(self, state: &mut [i64])
        requires { length state.old ≡ 2 }
        ensures { state.new ≡ time_word self.since ∷ pos 0 ∷ [] }
    {
        put_two(state, time_word(self.since), 0);
    }

    fn next(self, now: i64, ins: &[i64]) -> Run
        requires now { IsTime now }
        requires run { IsRun now self.since }
        requires ins { length ins.now ≡ 1 }
        ensures value { result.since ≡ run_next self.since now (is_on (word ins.now 0)) }
        ensures run { IsRun now result.since }
    {
        Run {
            since: run_next(self.since, now, is_on(ins, 0)),
        }
    }
}

/// How long its input has been true, and whether that is at least its time.
#[derive(Clone, Copy, Drop)]
pub struct Timer {
    pub time: Real,
}

impl Elementary for Timer {
    ghost inputs = { λ _. booleans 1 };

    ghost width = { λ _. 2 };

    ghost results = { λ _. typed (Real ∷ Boolean ∷ []) };

    ghost meaning = { λ b. timer b.time };

    ghost may_lack = { λ _ _ _. ⊥ };

    ghost stands = { λ _ state h. state ≡ time_word (began h) ∷ pos 0 ∷ [] };

    ghost is_sound = { λ _ state last. IsTimerState state last };

    fn words(&self) -> usize {
        2
    }

    fn reset(&self, state: &mut [i64]) {
        Run { since: None }.write(state);
    }

    fn sound(&self, state: &[i64], last: i64) -> bool {
        is_time(read(state, 0), last) && read(state, 1) == 0
    }

    fn emit<L: Ledger>(
        &self,
        state: &[i64],
        now: i64,
        ins: &[i64],
        outs: &mut [i64],
        steps: &mut Steps<L>,
    ) -> Result<(), NoValue> {
        steps.tick();
        let run = Run::read(state).next(now, ins);
        let length = run_length(run.since, now);
        put_timed(outs, length, self.time, is_on(ins, 0));
        Ok(())
    }

    fn absorb(&self, state: &mut [i64], now: i64, ins: &[i64]) {
        let run = Run::read(state).next(now, ins);
        run.write(state);
    }

    ghost idle = { λ _ (w : 2 ≡ 0). absurd (omega (arith, w)) };

    ghost direct_only = { by_all (λ b. timer b.time) (booleans 1) (λ _. refl) };
}
