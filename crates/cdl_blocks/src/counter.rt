// A counter of rising inputs.
ghost use Rattle.std.specs.Prelude.{◌≡◌, ◌≤◌, [], ◌∷◌, cond, length, pos, refl, true, unsigned_abs};
ghost use Rattle.std.proofs.Common.{arith};
ghost use Rattle.cdl_source.specs.declared.limits.TheConstants.{LARGEST_INTEGER};
ghost use Rattle.cdl_values.specs.declared.value.ValueType.TheVariants.{Boolean, Integer};
ghost use Rattle.cdl_values.specs.History.{AreValues, before, bit, integers, is_on, typed, word};
ghost use Rattle.cdl_values.proofs.Laws.{by_all};
ghost use Rattle.cdl_kinds.specs.Meaning.Integers.{counted, on_counter};
ghost use Rattle.cdl_blocks.specs.Counter.{count_next};

use cdl_kinds::{Elementary, Steps};
use cdl_memoryless::Whole;
use cdl_source::LARGEST_INTEGER;
use cdl_timed::checks::holds_count;
use cdl_values::NoValue;
use cdl_values::words::{bit, is_on, put_integer, put_three, read};
use std::sync::ledger::Ledger;

// The count, and both inputs at the last tick.
#[derive(Clone, Copy, Drop)]
struct Counted {
    count: i64,
    trigger: bool,
    reset: bool,
}

// The greatest magnitude of an Integer.
const INTEGER_LIMIT: i64 = LARGEST_INTEGER as i64;

// The count, or the one before where it is out of the range of Integers.
fn kept(count: i64, last: i64) -> i64
    requires { unsigned_abs last ≤ LARGEST_INTEGER }
    ensures small { unsigned_abs result ≤ LARGEST_INTEGER }
    ensures same { unsigned_abs count ≤ LARGEST_INTEGER → result ≡ count }
{
    if -INTEGER_LIMIT <= count && count <= INTEGER_LIMIT {
        count
    } else {
        last
    }
}

impl Counted {
    fn read(state: &[i64]) -> Counted
        requires { length state.now ≡ 3 }
        ensures count { result.count ≡ word state.now 0 }
        ensures trigger { result.trigger ≡ is_on (word state.now 1) }
        ensures reset { result.reset ≡ is_on (word state.now 2) }
    {
        Counted {
            count: read(state, 0),
            trigger: is_on(state, 1),
            reset: is_on(state, 2),
        }
    }

    fn write(self, state: &mut [i64])
        requires { length state.old ≡ 3 }
        ensures { state.new ≡ self.count ∷ bit self.trigger ∷ bit self.reset ∷ [] }
    {
        put_three(state, self.count, bit(self.trigger), bit(self.reset));
    }

    // The count at a tick, which may be out of range.
    fn next_count(self, start: Whole, ins: &[i64]) -> i64
        requires small { unsigned_abs self.count ≤ LARGEST_INTEGER }
        requires ins { length ins.now ≡ 2 }
        ensures value { result ≡ count_next start self.count self.trigger self.reset ins.now }
        ensures start { unsigned_abs start ≤ LARGEST_INTEGER }
    {
        let start = start.value() as i64;
        if is_on(ins, 1) && !self.reset {
            start
        } else if is_on(ins, 0) && !self.trigger {
            self.count + 1
        } else {
            self.count
        }
    }
}

/// Counts how often its first input rose since its second rose, from the start on.
/// NoValue: the count passes the greatest Integer.
#[derive(Clone, Copy, Drop)]
pub struct OnCounter {
    pub start: Whole,
}

impl Elementary for OnCounter {
    ghost inputs = { λ _. typed (Boolean ∷ Boolean ∷ []) };

    ghost width = { λ _. 3 };

    ghost results = { λ _. integers 1 };

    ghost meaning = { λ b. on_counter b.start };

    ghost may_lack = { λ _ _ x. is_on (word x 0) ≡ true };

    ghost stands = { λ b state h. state ≡ counted b.start h ∷ before (pos 1) 0 h ∷ before (pos 1) 1 h ∷ [] };

    ghost is_sound = { λ _ state _. AreValues (typed (Integer ∷ Boolean ∷ Boolean ∷ [])) state };

    fn words(&self) -> usize {
        3
    }

    fn reset(&self, state: &mut [i64]) {
        let counted = Counted {
            count: self.start.value() as i64,
            trigger: true,
            reset: true,
        };
        counted.write(state);
    }

    fn sound(&self, state: &[i64], _last: i64) -> bool {
        let _range = self.start.value();
        holds_count(state)
    }

    fn emit<L: Ledger>(
        &self,
        state: &[i64],
        _now: i64,
        ins: &[i64],
        outs: &mut [i64],
        steps: &mut Steps<L>,
    ) -> Result<(), NoValue> {
        steps.tick();
        put_integer(outs, Counted::read(state).next_count(self.start, ins))
    }

    fn absorb(&self, state: &mut [i64], _now: i64, ins: &[i64]) {
        let last = Counted::read(state);
        let counted = Counted {
            count: kept(last.next_count(self.start, ins), last.count),
            trigger: is_on(ins, 0),
            reset: is_on(ins, 1),
        };
        counted.write(state);
    }

    ghost idle = { λ _ (w : 3 ≡ 0). absurd (omega (arith, w)) };

    ghost direct_only = { by_all (λ b. on_counter b.start) (typed (Boolean ∷ Boolean ∷ [])) (λ _. refl) };
}
