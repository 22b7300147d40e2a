// Blocks that remember that their input started.
ghost use Rattle.std.specs.Prelude.{◌≡◌, [], ◌∷◌, length, pos, refl};
ghost use Rattle.std.proofs.Common.{arith};
ghost use Rattle.cdl_values.specs.declared.value.ValueType.TheVariants.{Boolean};
ghost use Rattle.cdl_values.specs.History.{AreValues, before, bit, booleans, is_on, typed, word};
ghost use Rattle.cdl_values.proofs.Laws.{by_all};
ghost use Rattle.cdl_blocks.specs.Memory.{memory, memory_meaning, memory_next, memory_started};

use cdl_kinds::{Elementary, Steps};
use cdl_timed::checks::holds_booleans;
use cdl_values::NoValue;
use cdl_values::words::{bit, is_on, put_one, put_two};
use std::sync::ledger::Ledger;

/// What becomes of the output where the first input starts.
#[derive(Clone, Copy, Drop)]
pub enum MemoryOp {
    /// It is true.
    Latch,
    /// It takes the other value.
    Toggle,
}

// The output where the input starts, from the output before.
fn started(op: MemoryOp, on: bool) -> bool
    ensures { result ≡ memory_started op on }
{
    match op {
        MemoryOp::Latch => true,
        MemoryOp::Toggle => !on,
    }
}

// The output and the first input at the last tick.
#[derive(Clone, Copy, Drop)]
struct Remembered {
    on: bool,
    last: bool,
}

impl Remembered {
    fn read(state: &[i64]) -> Remembered
        requires { length state.now ≡ 2 }
        ensures on { result.on ≡ is_on (word state.now 0) }
        ensures last { result.last ≡ is_on (word state.now 1) }
    {
        Remembered {
            on: is_on(state, 0),
            last: is_on(state, 1),
        }
    }

    fn write(self, state: &mut [i64])
        requires { length state.old ≡ 2 }
        ensures { state.new ≡ bit self.on ∷ bit self.last ∷ [] }
    {
        put_two(state, bit(self.on), bit(self.last));
    }

    // What is kept after a tick.
    fn next(self, op: MemoryOp, ins: &[i64]) -> Remembered
        requires { length ins.now ≡ 2 }
        ensures on { result.on ≡ memory_next op self.on self.last ins.now }
        ensures last { result.last ≡ is_on (word ins.now 0) }
    {
        let u = is_on(ins, 0);
        let on = if is_on(ins, 1) {
            false
        } else if u && !self.last {
            started(op, self.on)
        } else {
            self.on
        };
        Remembered { on, last: u }
    }
}

/// A Boolean that its first input sets where it starts, and that its second input clears.
#[derive(Clone, Copy, Drop)]
pub struct Memory {
    pub op: MemoryOp,
}

impl Elementary for Memory {
    ghost inputs = { λ _. typed (Boolean ∷ Boolean ∷ []) };

    ghost width = { λ _. 2 };

    ghost results = { λ _. booleans 1 };

    ghost meaning = { λ b. memory_meaning b.op };

    ghost may_lack = { λ _ _ _. ⊥ };

    ghost stands = { λ b state h. state ≡ bit (memory b.op h) ∷ before (pos 0) 0 h ∷ [] };

    ghost is_sound = { λ _ state _. AreValues (booleans 2) state };

    fn words(&self) -> usize {
        2
    }

    fn reset(&self, state: &mut [i64]) {
        let nothing = Remembered {
            on: false,
            last: false,
        };
        nothing.write(state);
    }

    fn sound(&self, state: &[i64], _last: i64) -> bool {
        holds_booleans(state)
    }

    fn emit<L: Ledger>(
        &self,
        state: &[i64],
        _now: i64,
        ins: &[i64],
        outs: &mut [i64],
        steps: &mut Steps<L>,
    ) -> Result<(), NoValue> {
        steps.tick();
        let next = Remembered::read(state).next(self.op, ins);
        put_one(outs, bit(next.on));
        Ok(())
    }

    fn absorb(&self, state: &mut [i64], _now: i64, ins: &[i64]) {
        let next = Remembered::read(state).next(self.op, ins);
        next.write(state);
    }

    ghost idle = { λ _ (w : 2 ≡ 0). absurd (omega (arith, w)) };

    ghost direct_only = { by_all (λ b. memory_meaning b.op) (typed (Boolean ∷ Boolean ∷ [])) (λ _. refl) };
}
