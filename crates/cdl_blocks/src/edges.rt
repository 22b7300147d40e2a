// Blocks that look at a Boolean and at the one before.
ghost use Rattle.std.specs.Prelude.{◌≡◌, [], ◌∷◌, refl};
ghost use Rattle.std.proofs.Common.{arith};
ghost use Rattle.cdl_values.specs.declared.value.ValueType.TheVariants.{Boolean};
ghost use Rattle.cdl_values.specs.History.{AreValues, before, bit, booleans, later};
ghost use Rattle.cdl_values.proofs.Laws.{by_all};
ghost use Rattle.cdl_kinds.specs.Meaning.Edges.{edge, pre};
ghost use Rattle.cdl_blocks.specs.Edges.{edge_function};

use crate::seen::Seen;
use cdl_kinds::{Elementary, Steps};
use cdl_timed::checks::holds_boolean;
use cdl_values::NoValue;
use cdl_values::words::{bit, is_on, put_one};
use std::sync::ledger::Ledger;

/// What an edge looks for.
#[derive(Clone, Copy, Drop)]
pub enum EdgeOp {
    Rising,
    Falling,
    Change,
}

// Whether it is there, from the input and the one before.
fn is_edge(op: EdgeOp, u: bool, last: bool) -> bool
    ensures { result ≡ edge_function op u last }
{
    match op {
        EdgeOp::Rising => u && !last,
        EdgeOp::Falling => last && !u,
        EdgeOp::Change => u != last,
    }
}

/// An edge or a change of its input. At the first tick the input before is the start.
#[derive(Clone, Copy, Drop)]
pub struct Edge {
    pub op: EdgeOp,
    pub start: bool,
}

impl Elementary for Edge {
    ghost inputs = { λ _. booleans 1 };

    ghost width = { λ _. 1 };

    ghost results = { λ _. booleans 1 };

    ghost meaning = { λ b. edge (edge_function b.op) b.start };

    ghost may_lack = { λ _ _ _. ⊥ };

    ghost stands = { λ b state h. state ≡ before (bit b.start) 0 h ∷ [] };

    ghost is_sound = { λ _ state _. AreValues (booleans 1) state };

    fn words(&self) -> usize {
        1
    }

    fn reset(&self, state: &mut [i64]) {
        Seen { last: self.start }.write(state);
    }

    fn sound(&self, state: &[i64], _last: i64) -> bool {
        holds_boolean(state)
    }

    fn emit<L: Ledger>(
        &self,
        state: &[i64],
        _now: i64,
        ins: &[i64],
        outs: &mut [i64],
        steps: &mut Steps<L>,
    ) -> Result<(), NoValue> {
        steps.tick();
        let seen = Seen::read(state);
        put_one(outs, bit(is_edge(self.op, is_on(ins, 0), seen.last)));
        Ok(())
    }

    fn absorb(&self, state: &mut [i64], _now: i64, ins: &[i64]) {
        let seen = Seen {
            last: is_on(ins, 0),
        };
        seen.write(state);
    }

    ghost idle = { λ _ (w : 1 ≡ 0). absurd (omega (arith, w)) };

    ghost direct_only = { by_all (λ b. edge (edge_function b.op) b.start) (booleans 1) (λ _. refl) };
}

/// Its input at the tick before, and at the first tick the start.
#[derive(Clone, Copy, Drop)]
pub struct Pre {
    pub start: bool,
}

impl Elementary for Pre {
    ghost inputs = { λ _. later Boolean };

    ghost width = { λ _. 1 };

    ghost results = { λ _. booleans 1 };

    ghost meaning = { λ b. pre b.start };

    ghost may_lack = { λ _ _ _. ⊥ };

    ghost stands = { λ b state h. state ≡ before (bit b.start) 0 h ∷ [] };

    ghost is_sound = { λ _ state _. AreValues (booleans 1) state };

    fn words(&self) -> usize {
        1
    }

    fn reset(&self, state: &mut [i64]) {
        Seen { last: self.start }.write(state);
    }

    fn sound(&self, state: &[i64], _last: i64) -> bool {
        holds_boolean(state)
    }

    fn emit<L: Ledger>(
        &self,
        state: &[i64],
        _now: i64,
        _ins: &[i64],
        outs: &mut [i64],
        steps: &mut Steps<L>,
    ) -> Result<(), NoValue> {
        steps.tick();
        let seen = Seen::read(state);
        put_one(outs, bit(seen.last));
        Ok(())
    }

    fn absorb(&self, state: &mut [i64], _now: i64, ins: &[i64]) {
        let seen = Seen {
            last: is_on(ins, 0),
        };
        seen.write(state);
    }

    ghost idle = { λ _ (w : 1 ≡ 0). absurd (omega (arith, w)) };

    ghost direct_only = { λ _ _ _ _ _ _. refl };
}
