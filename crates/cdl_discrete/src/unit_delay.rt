// A delay by one sample.
ghost use Rattle.std.specs.Prelude.{◌≡◌, ◌↔◌, IsTrue, ◌<ℤ◌, [], ◌∷◌, length, pos};
ghost use Rattle.std.proofs.Common.{arith};
ghost use Rattle.cdl_values.specs.declared.value.ValueType.TheVariants.{Real as RealType};
ghost use Rattle.cdl_decimal.specs.Near.{InRange};
ghost use Rattle.cdl_values.specs.History.{IsTime, IsValue, later, reals, word};
ghost use Rattle.cdl_kinds.specs.Meaning.Discrete.{first_or, interval, sampled, samples, second_or, unit_delay};
ghost use Rattle.cdl_kinds.specs.States.{IsIntervalUpTo, IsUnitDelayState, last_interval};
ghost use Rattle.cdl_discrete.specs.Samples.{at_sample, second_sample};

use crate::intervals::{interval, is_interval};
use cdl_decimal::Real;
use cdl_kinds::{Elementary, Steps};
use cdl_timed::checks::is_real_at;
use cdl_values::NoValue;
use cdl_values::words::{put_one, put_three, read};
use std::sync::ledger::Ledger;

// The sample interval of the last tick, -1 before any, and the last two samples.
#[derive(Clone, Copy, Drop)]
struct Samples {
    interval: i64,
    older: i64,
    newer: i64,
}

impl Samples {
    fn read(state: &[i64]) -> Samples
        requires { length state.now ≡ 3 }
        ensures interval { result.interval ≡ word state.now 0 }
        ensures older { result.older ≡ word state.now 1 }
        ensures newer { result.newer ≡ word state.now 2 }
    {
        Samples {
            interval: read(state, 0),
            older: read(state, 1),
            newer: read(state, 2),
        }
    }

    fn write(&self, state: &mut [i64])
        requires { length state.old ≡ 3 }
        ensures { state.new ≡ self.now.interval ∷ self.now.older ∷ self.now.newer ∷ [] }
    {
        put_three(state, self.interval, self.older, self.newer);
    }

    // The sample before the last sample tick, this one included.
    fn output(&self, block: &UnitDelay, now: i64) -> i64
        requires { IsTime now }
        ensures value { result ≡ at_sample block.now.period self.now.interval now self.now.newer self.now.older }
        ensures range { InRange self.now.newer → InRange self.now.older → InRange result }
    {
        if self.interval < interval(block.period, now) {
            self.newer
        } else {
            self.older
        }
    }

    // What is kept after a tick.
    fn next(&self, block: &UnitDelay, now: i64, ins: &[i64]) -> Samples
        requires now { IsTime now }
        requires ins { length ins.now ≡ 1 }
        ensures interval { result.interval ≡ interval block.now.period now }
        ensures known { IsIntervalUpTo block.now.period now result.interval }
        ensures older { result.older ≡ at_sample block.now.period self.now.interval now self.now.newer self.now.older }
        ensures newer { result.newer ≡ at_sample block.now.period self.now.interval now (word ins.now 0) self.now.newer }
        ensures older_range { InRange self.now.newer → InRange self.now.older → InRange result.older }
        ensures newer_range { InRange self.now.newer → InRange (word ins.now 0) → InRange result.newer }
    {
        let interval = interval(block.period, now);
        if self.interval < interval {
            Samples {
                interval,
                older: self.newer,
                newer: read(ins, 0),
            }
        } else {
            Samples {
                interval,
                older: self.older,
                newer: self.newer,
            }
        }
    }
}

// Whether the last two words are Reals.
fn are_reals(state: &[i64]) -> bool
    requires { length state.now ≡ 3 }
    ensures { IsTrue result ↔ (IsValue RealType (word state.now 1) × IsValue RealType (word state.now 2)) }
{
    is_real_at(state, 1) && is_real_at(state, 2)
}

/// Its input at the sample tick before the last sample tick, and the start where there is only one.
#[derive(Clone, Copy, Drop)]
pub struct UnitDelay {
    pub period: Real,
    pub start: Real,
    pub ghost positive: { pos 0 <ℤ period },
}

impl Elementary for UnitDelay {
    ghost inputs = { λ _. later RealType };

    ghost width = { λ _. 3 };

    ghost results = { λ _. reals 1 };

    ghost meaning = { λ b. unit_delay b.period b.start };

    ghost may_lack = { λ _ _ _. ⊥ };

    ghost stands = { λ b state h. state ≡ last_interval b.period h ∷ second_or b.start (sampled b.period h) ∷ first_or b.start (sampled b.period h) ∷ [] };

    ghost is_sound = { λ b state last. IsUnitDelayState b.period state last };

    fn words(&self) -> usize {
        3
    }

    fn reset(&self, state: &mut [i64]) {
        let samples = Samples {
            interval: -1,
            older: self.start.count(),
            newer: self.start.count(),
        };
        samples.write(state);
    }

    fn sound(&self, state: &[i64], last: i64) -> bool {
        let _range = self.start.count();
        is_interval(self.period, read(state, 0), last) && are_reals(state)
    }

    fn emit<L: Ledger>(
        &self,
        state: &[i64],
        now: i64,
        _ins: &[i64],
        outs: &mut [i64],
        steps: &mut Steps<L>,
    ) -> Result<(), NoValue> {
        steps.tick();
        put_one(outs, Samples::read(state).output(self, now));
        Ok(())
    }

    fn absorb(&self, state: &mut [i64], now: i64, ins: &[i64]) {
        let samples = Samples::read(state).next(self, now, ins);
        samples.write(state);
    }

    ghost idle = { λ _ (w : 3 ≡ 0). absurd (omega (arith, w)) };

    ghost direct_only = { λ b h now x y _. second_sample b.start (samples b.period h now) (word x 0) (word y 0) (sampled b.period h) };
}
