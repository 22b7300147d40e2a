// What a trigger picks.
ghost use Rattle.std.specs.Prelude.{◌≡◌, [], ◌∷◌, length, pos, refl, true};
ghost use Rattle.std.proofs.Common.{arith};
ghost use Rattle.cdl_values.specs.declared.value.ValueType.TheVariants.{Boolean, Real as RealType};
ghost use Rattle.cdl_decimal.specs.Near.{InRange};
ghost use Rattle.cdl_values.specs.History.{AreValues, before, bit, is_on, reals, typed, word};
ghost use Rattle.cdl_values.proofs.Laws.{by_all};
ghost use Rattle.cdl_kinds.specs.Meaning.Discrete.{caught, picked, triggered_max, triggered_sampler};
ghost use Rattle.cdl_values.specs.Extremes.{greater_of, greatest};
ghost use Rattle.cdl_kinds.specs.States.{has_begun};
ghost use Rattle.cdl_discrete.specs.Samples.{catch_next, greatest_next};

use cdl_decimal::Real;
use cdl_kinds::{Elementary, Steps};
use cdl_timed::checks::{holds_begun_sample, holds_sample};
use cdl_values::NoValue;
use cdl_values::words::{bit, is_on, put_one, put_three, put_two, read};
use std::sync::ledger::Ledger;

// The trigger at the last tick, and what was caught.
#[derive(Clone, Copy, Drop)]
struct Caught {
    trigger: bool,
    sample: i64,
}

impl Caught {
    fn read(state: &[i64]) -> Caught
        requires { length state.now ≡ 2 }
        ensures trigger { result.trigger ≡ is_on (word state.now 0) }
        ensures sample { result.sample ≡ word state.now 1 }
    {
        Caught {
            trigger: is_on(state, 0),
            sample: read(state, 1),
        }
    }

    fn write(&self, state: &mut [i64])
        requires { length state.old ≡ 2 }
        ensures { state.new ≡ bit self.now.trigger ∷ self.now.sample ∷ [] }
    {
        put_two(state, bit(self.trigger), self.sample);
    }

    // What is kept after a tick.
    fn next(&self, ins: &[i64]) -> Caught
        requires { length ins.now ≡ 2 }
        ensures trigger { result.trigger ≡ is_on (word ins.now 1) }
        ensures sample { result.sample ≡ catch_next self.now.trigger self.now.sample ins.now }
    {
        let trigger = is_on(ins, 1);
        let sample = if trigger && !self.trigger {
            read(ins, 0)
        } else {
            self.sample
        };
        Caught { trigger, sample }
    }
}

/// Its first input at the last tick at which its second rose, and the start before any.
#[derive(Clone, Copy, Drop)]
pub struct TriggeredSampler {
    pub start: Real,
}

impl Elementary for TriggeredSampler {
    ghost inputs = { λ _. typed (RealType ∷ Boolean ∷ []) };

    ghost width = { λ _. 2 };

    ghost results = { λ _. reals 1 };

    ghost meaning = { λ b. triggered_sampler b.start };

    ghost may_lack = { λ _ _ _. ⊥ };

    ghost stands = { λ b state h. state ≡ before (pos 1) 1 h ∷ caught b.start h ∷ [] };

    ghost is_sound = { λ _ state _. AreValues (typed (Boolean ∷ RealType ∷ [])) state };

    fn words(&self) -> usize {
        2
    }

    fn reset(&self, state: &mut [i64]) {
        let caught = Caught {
            trigger: true,
            sample: self.start.count(),
        };
        caught.write(state);
    }

    fn sound(&self, state: &[i64], _last: i64) -> bool {
        let _range = self.start.count();
        holds_sample(state)
    }

    fn emit<L: Ledger>(
        &self,
        state: &[i64],
        _now: i64,
        ins: &[i64],
        outs: &mut [i64],
        steps: &mut Steps<L>,
    ) -> Result<(), NoValue> {
        steps.tick();
        let caught = Caught::read(state).next(ins);
        put_one(outs, caught.sample);
        Ok(())
    }

    fn absorb(&self, state: &mut [i64], _now: i64, ins: &[i64]) {
        let caught = Caught::read(state).next(ins);
        caught.write(state);
    }

    ghost idle = { λ _ (w : 2 ≡ 0). absurd (omega (arith, w)) };

    ghost direct_only = { by_all (λ b. triggered_sampler b.start) (typed (RealType ∷ Boolean ∷ [])) (λ _. refl) };
}

// Whether there was a tick, the trigger at the last, and the greatest input that was picked.
#[derive(Clone, Copy, Drop)]
struct Greatest {
    begun: bool,
    trigger: bool,
    greatest: i64,
}

fn greater(a: i64, b: i64) -> i64
    ensures { result ≡ greater_of a b }
{
    if a <= b { b } else { a }
}

impl Greatest {
    fn read(state: &[i64]) -> Greatest
        requires { length state.now ≡ 3 }
        ensures begun { result.begun ≡ is_on (word state.now 0) }
        ensures trigger { result.trigger ≡ is_on (word state.now 1) }
        ensures greatest { result.greatest ≡ word state.now 2 }
    {
        Greatest {
            begun: is_on(state, 0),
            trigger: is_on(state, 1),
            greatest: read(state, 2),
        }
    }

    fn write(&self, state: &mut [i64])
        requires { length state.old ≡ 3 }
        ensures { state.new ≡ bit self.now.begun ∷ bit self.now.trigger ∷ self.now.greatest ∷ [] }
    {
        put_three(state, bit(self.begun), bit(self.trigger), self.greatest);
    }

    // The greatest input that was picked, at this tick.
    fn next_greatest(&self, ins: &[i64]) -> i64
        requires { length ins.now ≡ 2 }
        ensures value { result ≡ greatest_next self.now.begun self.now.trigger self.now.greatest ins.now }
        ensures range { InRange self.now.greatest → InRange (word ins.now 0) → InRange result }
    {
        if !self.begun {
            read(ins, 0)
        } else if is_on(ins, 1) && !self.trigger {
            greater(read(ins, 0), self.greatest)
        } else {
            self.greatest
        }
    }

    // What is kept after a tick.
    fn next(&self, ins: &[i64]) -> Greatest
        requires { length ins.now ≡ 2 }
        ensures begun { result.begun ≡ true }
        ensures trigger { result.trigger ≡ is_on (word ins.now 1) }
        ensures greatest { result.greatest ≡ greatest_next self.now.begun self.now.trigger self.now.greatest ins.now }
        ensures range { InRange self.now.greatest → InRange (word ins.now 0) → InRange result.greatest }
    {
        Greatest {
            begun: true,
            trigger: is_on(ins, 1),
            greatest: self.next_greatest(ins),
        }
    }
}

/// The greatest of its first input at the first tick and at those at which its second rose.
#[derive(Clone, Copy, Drop)]
pub struct TriggeredMax;

impl Elementary for TriggeredMax {
    ghost inputs = { λ _. typed (RealType ∷ Boolean ∷ []) };

    ghost width = { λ _. 3 };

    ghost results = { λ _. reals 1 };

    ghost meaning = { λ _. triggered_max };

    ghost may_lack = { λ _ _ _. ⊥ };

    ghost stands = { λ _ state h. state ≡ bit (has_begun h) ∷ before (pos 1) 1 h ∷ greatest (picked h) ∷ [] };

    ghost is_sound = { λ _ state _. AreValues (typed (Boolean ∷ Boolean ∷ RealType ∷ [])) state };

    fn words(&self) -> usize {
        3
    }

    fn reset(&self, state: &mut [i64]) {
        let nothing = Greatest {
            begun: false,
            trigger: true,
            greatest: 0,
        };
        nothing.write(state);
    }

    fn sound(&self, state: &[i64], _last: i64) -> bool {
        holds_begun_sample(state)
    }

    fn emit<L: Ledger>(
        &self,
        state: &[i64],
        _now: i64,
        ins: &[i64],
        outs: &mut [i64],
        steps: &mut Steps<L>,
    ) -> Result<(), NoValue> {
        steps.tick();
        let greatest = Greatest::read(state).next(ins);
        put_one(outs, greatest.greatest);
        Ok(())
    }

    fn absorb(&self, state: &mut [i64], _now: i64, ins: &[i64]) {
        let greatest = Greatest::read(state).next(ins);
        greatest.write(state);
    }

    ghost idle = { λ _ (w : 3 ≡ 0). absurd (omega (arith, w)) };

    ghost direct_only = { by_all (λ _. triggered_max) (typed (RealType ∷ Boolean ∷ [])) (λ _. refl) };
}
