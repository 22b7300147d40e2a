// A block that looks at an Integer and at the one before.
ghost use Rattle.std.specs.Prelude.{◌≡◌, [], ◌∷◌, length, refl};
ghost use Rattle.std.proofs.Common.{arith};
ghost use Rattle.cdl_values.specs.declared.value.ValueType.TheVariants.{Boolean};
ghost use Rattle.cdl_values.specs.History.{AreValues, before, integers, typed, word};
ghost use Rattle.cdl_values.proofs.Laws.{by_all};
ghost use Rattle.cdl_kinds.specs.Meaning.Integers.{changes, integer_change};

use cdl_kinds::{Elementary, Steps};
use cdl_memoryless::Whole;
use cdl_timed::checks::holds_integer;
use cdl_values::NoValue;
use cdl_values::words::{bit, put_one, put_three, read};
use std::sync::ledger::Ledger;

// The input at the last tick.
#[derive(Clone, Copy, Drop)]
struct Seen {
    last: i64,
}

impl Seen {
    fn read(state: &[i64]) -> Seen
        requires { length state.now ≡ 1 }
        ensures { result.last ≡ word state.now 0 }
    {
        Seen {
            last: read(state, 0),
        }
    }

    fn write(self, state: &mut [i64])
        requires { length state.old ≡ 1 }
        ensures { state.new ≡ self.last ∷ [] }
    {
        put_one(state, self.last);
    }
}

// The three words become those of a change.
fn put_changes(words: &mut [i64], u: i64, last: i64)
    requires { length words.old ≡ 3 }
    ensures { words.new ≡ changes u last }
{
    put_three(words, bit(u != last), bit(last < u), bit(u < last));
}

/// Whether its input differs from the one before, is above it, and is below it. At the first tick the input before is the start.
#[derive(Clone, Copy, Drop)]
pub struct IntegerChange {
    pub start: Whole,
}

impl Elementary for IntegerChange {
    ghost inputs = { λ _. integers 1 };

    ghost width = { λ _. 1 };

    ghost results = { λ _. typed (Boolean ∷ Boolean ∷ Boolean ∷ []) };

    ghost meaning = { λ b. integer_change b.start };

    ghost may_lack = { λ _ _ _. ⊥ };

    ghost stands = { λ b state h. state ≡ before b.start 0 h ∷ [] };

    ghost is_sound = { λ _ state _. AreValues (integers 1) state };

    fn words(&self) -> usize {
        1
    }

    fn reset(&self, state: &mut [i64]) {
        let seen = Seen {
            last: self.start.value() as i64,
        };
        seen.write(state);
    }

    fn sound(&self, state: &[i64], _last: i64) -> bool {
        let _range = self.start.value();
        holds_integer(state)
    }

    #[tactic(auto, using(crate::proofs::Counting::changes_typed))]
    fn emit<L: Ledger>(
        &self,
        state: &[i64],
        _now: i64,
        ins: &[i64],
        outs: &mut [i64],
        steps: &mut Steps<L>,
    ) -> Result<(), NoValue> {
        steps.tick();
        put_changes(outs, read(ins, 0), Seen::read(state).last);
        Ok(())
    }

    fn absorb(&self, state: &mut [i64], _now: i64, ins: &[i64]) {
        let seen = Seen { last: read(ins, 0) };
        seen.write(state);
    }

    ghost idle = { λ _ (w : 1 ≡ 0). absurd (omega (arith, w)) };

    ghost direct_only = { by_all (λ b. integer_change b.start) (integers 1) (λ _. refl) };
}
