// Samplers.
ghost use Rattle.std.specs.Prelude.{◌≡◌, ◌<ℤ◌, [], ◌∷◌, length, pos, refl};
ghost use Rattle.std.proofs.Common.{arith};
ghost use Rattle.cdl_decimal.specs.Near.{InRange};
ghost use Rattle.cdl_values.specs.History.{IsTime, reals, word};
ghost use Rattle.cdl_values.proofs.Laws.{by_all};
ghost use Rattle.cdl_kinds.specs.Meaning.Discrete.{first_or, interval, sampled, sampler};
ghost use Rattle.cdl_kinds.specs.States.{IsIntervalUpTo, IsSamplerState, last_interval};
ghost use Rattle.cdl_discrete.specs.Samples.{at_sample};

use crate::intervals::{interval, is_interval};
use cdl_decimal::Real;
use cdl_kinds::{Elementary, Steps};
use cdl_timed::checks::is_real;
use cdl_values::NoValue;
use cdl_values::words::{put_one, put_two, read};
use std::sync::ledger::Ledger;

// The sample interval of the last tick, -1 before any, and the last sample.
#[derive(Clone, Copy, Drop)]
struct Sampled {
    interval: i64,
    sample: i64,
}

impl Sampled {
    fn read(state: &[i64]) -> Sampled
        requires { length state.now ≡ 2 }
        ensures interval { result.interval ≡ word state.now 0 }
        ensures sample { result.sample ≡ word state.now 1 }
    {
        Sampled {
            interval: read(state, 0),
            sample: read(state, 1),
        }
    }

    fn write(&self, state: &mut [i64])
        requires { length state.old ≡ 2 }
        ensures { state.new ≡ self.now.interval ∷ self.now.sample ∷ [] }
    {
        put_two(state, self.interval, self.sample);
    }

    // What is kept after a tick.
    fn next(&self, block: &Sampler, now: i64, ins: &[i64]) -> Sampled
        requires now { IsTime now }
        requires ins { length ins.now ≡ 1 }
        ensures interval { result.interval ≡ interval block.now.period now }
        ensures known { IsIntervalUpTo block.now.period now result.interval }
        ensures sample { result.sample ≡ at_sample block.now.period self.now.interval now (word ins.now 0) self.now.sample }
        ensures range { InRange self.now.sample → InRange (word ins.now 0) → InRange result.sample }
    {
        let interval = interval(block.period, now);
        let sample = if self.interval < interval {
            read(ins, 0)
        } else {
            self.sample
        };
        Sampled { interval, sample }
    }
}

/// Its input at the last sample tick.
#[derive(Clone, Copy, Drop)]
pub struct Sampler {
    pub period: Real,
    pub ghost positive: { pos 0 <ℤ period },
}

impl Elementary for Sampler {
    ghost inputs = { λ _. reals 1 };

    ghost width = { λ _. 2 };

    ghost results = { λ _. reals 1 };

    ghost meaning = { λ b. sampler b.period };

    ghost may_lack = { λ _ _ _. ⊥ };

    ghost stands = { λ b state h. state ≡ last_interval b.period h ∷ first_or (pos 0) (sampled b.period h) ∷ [] };

    ghost is_sound = { λ b state last. IsSamplerState b.period state last };

    fn words(&self) -> usize {
        2
    }

    fn reset(&self, state: &mut [i64]) {
        let nothing = Sampled {
            interval: -1,
            sample: 0,
        };
        nothing.write(state);
    }

    fn sound(&self, state: &[i64], last: i64) -> bool {
        is_interval(self.period, read(state, 0), last) && is_real(read(state, 1))
    }

    fn emit<L: Ledger>(
        &self,
        state: &[i64],
        now: i64,
        ins: &[i64],
        outs: &mut [i64],
        steps: &mut Steps<L>,
    ) -> Result<(), NoValue> {
        steps.tick();
        let sampled = Sampled::read(state).next(self, now, ins);
        put_one(outs, sampled.sample);
        Ok(())
    }

    fn absorb(&self, state: &mut [i64], now: i64, ins: &[i64]) {
        let sampled = Sampled::read(state).next(self, now, ins);
        sampled.write(state);
    }

    ghost idle = { λ _ (w : 2 ≡ 0). absurd (omega (arith, w)) };

    ghost direct_only = { by_all (λ b. sampler b.period) (reals 1) (λ _. refl) };
}
