// A delay of what becomes true.
ghost use Rattle.std.specs.Prelude.{◌≡◌, ◌&&◌, ◌||◌, not, [], ◌∷◌, length, refl};
ghost use Rattle.std.proofs.Common.{arith};
ghost use Rattle.cdl_values.specs.History.{IsTime, bit, booleans, is_on, word};
ghost use Rattle.cdl_values.proofs.Laws.{by_all};
ghost use Rattle.cdl_kinds.specs.Meaning.Timers.{always_on, began, has_lasted, true_delay};
ghost use Rattle.cdl_kinds.specs.States.{IsDelayState, time_word};
ghost use Rattle.cdl_timed.specs.Runs.{IsRun, run_next, time_of};

use crate::checks::{is_boolean, is_time};
use crate::times::{elapsed, put_flag, read_time, run_next, time_word};
use cdl_decimal::Real;
use cdl_kinds::{Elementary, Steps};
use cdl_values::NoValue;
use cdl_values::words::{bit, is_on, put_two, read};
use std::sync::ledger::Ledger;

// When the run of true inputs began that the last tick ended, and whether the input was true at every tick.
#[derive(Clone, Copy, Drop)]
struct Run {
    since: Option<i64>,
    always: bool,
}

impl Run {
    fn read(state: &[i64]) -> Run
        requires { length state.now ≡ 2 }
        ensures since { result.since ≡ time_of (word state.now 0) }
        ensures always { result.always ≡ is_on (word state.now 1) }
    {
        Run {
            since: read_time(read(state, 0)),
            always: is_on(state, 1),
        }
    }

    fn write(self, state: &mut [i64])
        requires { length state.old ≡ 2 }
        ensures { state.new ≡ time_word self.since ∷ bit self.always ∷ [] }
    {
        put_two(state, time_word(self.since), bit(self.always));
    }

    fn next(self, now: i64, ins: &[i64]) -> Run
        requires now { IsTime now }
        requires run { IsRun now self.since }
        requires ins { length ins.now ≡ 1 }
        ensures since { result.since ≡ run_next self.since now (is_on (word ins.now 0)) }
        ensures run { IsRun now result.since }
        ensures always { result.always ≡ (is_on (word ins.now 0) && self.always) }
    {
        let on = is_on(ins, 0);
        Run {
            since: run_next(self.since, now, on),
            always: on && self.always,
        }
    }

    // Whether the run that ends now began at least the delay ago.
    fn is_long(self, delay: Real, now: i64) -> bool
        requires now { IsTime now }
        requires run { IsRun now self.since }
        ensures { result ≡ has_lasted delay now self.since }
    {
        match self.since {
            Some(begin) => delay.count() <= elapsed(begin, now),
            None => false,
        }
    }

    // The output, where the input is true or false.
    fn output(self, on: bool, block: &TrueDelay, now: i64) -> bool
        requires now { IsTime now }
        requires run { IsRun now self.since }
        ensures { result ≡ (on && (has_lasted block.now.delay now self.since || (self.always && not block.now.on_init))) }
    {
        on && (self.is_long(block.delay, now) || (self.always && !block.on_init))
    }
}

/// True where its input is true, and has been for the delay. A run that began at the first tick is delayed only with a delay on init.
#[derive(Clone, Copy, Drop)]
pub struct TrueDelay {
    pub delay: Real,
    pub on_init: bool,
}

impl Elementary for TrueDelay {
    ghost inputs = { λ _. booleans 1 };

    ghost width = { λ _. 2 };

    ghost results = { λ _. booleans 1 };

    ghost meaning = { λ b. true_delay b.delay b.on_init };

    ghost may_lack = { λ _ _ _. ⊥ };

    ghost stands = { λ _ state h. state ≡ time_word (began h) ∷ bit (always_on h) ∷ [] };

    ghost is_sound = { λ _ state last. IsDelayState state last };

    fn words(&self) -> usize {
        2
    }

    fn reset(&self, state: &mut [i64]) {
        let run = Run {
            since: None,
            always: true,
        };
        run.write(state);
    }

    fn sound(&self, state: &[i64], last: i64) -> bool {
        is_time(read(state, 0), last) && is_boolean(read(state, 1))
    }

    fn emit<L: Ledger>(
        &self,
        state: &[i64],
        now: i64,
        ins: &[i64],
        outs: &mut [i64],
        steps: &mut Steps<L>,
    ) -> Result<(), NoValue> {
        steps.tick();
        let run = Run::read(state).next(now, ins);
        put_flag(outs, run.output(is_on(ins, 0), self, now));
        Ok(())
    }

    fn absorb(&self, state: &mut [i64], now: i64, ins: &[i64]) {
        let run = Run::read(state).next(now, ins);
        run.write(state);
    }

    ghost idle = { λ _ (w : 2 ≡ 0). absurd (omega (arith, w)) };

    ghost direct_only = { by_all (λ b. true_delay b.delay b.on_init) (booleans 1) (λ _. refl) };
}
