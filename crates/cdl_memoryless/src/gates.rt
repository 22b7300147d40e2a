// Gates and switches.
ghost use Rattle.std.specs.Prelude.{◌≡◌, [], ◌∷◌};
ghost use Rattle.cdl_values.specs.declared.value.ValueType.TheVariants.{Boolean};
ghost use Rattle.cdl_values.specs.History.{booleans, typed};
ghost use Rattle.cdl_kinds.specs.Meaning.Gates.{gate, negation, switch};
ghost use Rattle.cdl_memoryless.specs.AtOnce.{at_once};
ghost use Rattle.cdl_memoryless.specs.Gates.{gate_function, multi_gate};

use crate::memoryless::Memoryless;
use cdl_values::words::{all_on, any_on, bit, is_on, put_one, read};
use cdl_values::{NoValue, ValueType};

/// What a gate of two Booleans computes.
#[derive(Clone, Copy, Drop)]
pub enum GateOp {
    And,
    Or,
    Nand,
    Nor,
    Xor,
}

// The output of a gate.
fn combined(op: GateOp, a: bool, b: bool) -> bool
    ensures { result ≡ gate_function op a b }
{
    match op {
        GateOp::And => a && b,
        GateOp::Or => a || b,
        GateOp::Nand => !(a && b),
        GateOp::Nor => !(a || b),
        GateOp::Xor => a != b,
    }
}

/// A gate of two Booleans.
#[derive(Clone, Copy, Drop)]
pub struct Gate {
    pub op: GateOp,
}

impl Memoryless for Gate {
    ghost inputs = { λ _. typed (Boolean ∷ Boolean ∷ []) };

    ghost results = { λ _. booleans 1 };

    ghost gives = { λ b. at_once (gate (gate_function b.op)) };

    fn give(&self, ins: &[i64], outs: &mut [i64]) -> Result<(), NoValue> {
        put_one(outs, bit(combined(self.op, is_on(ins, 0), is_on(ins, 1))));
        Ok(())
    }
}

/// The negation of a Boolean.
#[derive(Clone, Copy, Drop)]
pub struct Not;

impl Memoryless for Not {
    ghost inputs = { λ _. booleans 1 };

    ghost results = { λ _. booleans 1 };

    ghost gives = { λ _. at_once negation };

    fn give(&self, ins: &[i64], outs: &mut [i64]) -> Result<(), NoValue> {
        put_one(outs, bit(!is_on(ins, 0)));
        Ok(())
    }
}

/// What a gate of many Booleans tells: whether all of them are true, or at least one.
#[derive(Clone, Copy, Drop)]
pub enum MultiGateOp {
    All,
    Any,
}

/// A gate of `nin` Booleans.
#[derive(Clone, Copy, Drop)]
pub struct MultiGate {
    pub op: MultiGateOp,
    pub nin: usize,
}

impl Memoryless for MultiGate {
    ghost inputs = { λ b. booleans b.nin };

    ghost results = { λ _. booleans 1 };

    ghost gives = { λ b. at_once (multi_gate b.op) };

    fn give(&self, ins: &[i64], outs: &mut [i64]) -> Result<(), NoValue> {
        let on = match self.op {
            MultiGateOp::All => all_on(ins),
            MultiGateOp::Any => any_on(ins),
        };
        put_one(outs, bit(on));
        Ok(())
    }
}

/// A switch between two inputs of one type: the first where the second, a Boolean, is true, else the third.
#[derive(Clone, Copy, Drop)]
pub struct Switch {
    pub value_type: ValueType,
}

impl Memoryless for Switch {
    ghost inputs = { λ b. typed (b.value_type ∷ Boolean ∷ b.value_type ∷ []) };

    ghost results = { λ b. typed (b.value_type ∷ []) };

    ghost gives = { λ _. at_once switch };

    fn give(&self, ins: &[i64], outs: &mut [i64]) -> Result<(), NoValue> {
        let chosen = if is_on(ins, 1) {
            read(ins, 0)
        } else {
            read(ins, 2)
        };
        put_one(outs, chosen);
        Ok(())
    }
}
