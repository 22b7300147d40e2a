// Constants, and blocks that hand a value on.
ghost use Rattle.std.specs.Prelude.{◌≡◌, [], ◌∷◌, length, replicate};
ghost use Rattle.cdl_values.specs.declared.value.ValueType.TheVariants.{Integer, Real};
ghost use Rattle.cdl_values.specs.History.{booleans, integers, reals, typed, IsValue};
ghost use Rattle.cdl_kinds.specs.Meaning.Conversions.{constant, integer_to_real, replicator, to_nearest_integer};
ghost use Rattle.cdl_decimal.specs.Counts.{real_to_integer};
ghost use Rattle.cdl_memoryless.specs.AtOnce.{at_once};
ghost use Rattle.cdl_memoryless.specs.Scalars.{choice_meaning, choice_sort, choice_word, scalar_sort, scalar_word, copies};

use crate::memoryless::Memoryless;
use crate::scalar::Scalar;
use crate::whole::Whole;
use cdl_decimal::Real;
use cdl_values::words::{is_on, put_one, read, read_real};
use cdl_values::{NoValue, ValueType};

/// A constant.
#[derive(Clone, Copy, Drop)]
pub struct Constant {
    pub value: Scalar,
}

impl Memoryless for Constant {
    ghost inputs = { λ _. typed [] };

    ghost results = { λ b. typed (scalar_sort b.value ∷ []) };

    ghost gives = { λ b. at_once (constant (scalar_word b.value)) };

    fn give(&self, _ins: &[i64], outs: &mut [i64]) -> Result<(), NoValue> {
        put_one(outs, self.value.word());
        Ok(())
    }
}

/// One of two values: the first where the input, a Boolean, is true.
#[derive(Clone, Copy, Drop)]
pub enum Choice {
    Integer { on: Whole, off: Whole },
    Real { on: Real, off: Real },
}

impl Choice {
    // The word of the value.
    fn word(self, input: bool) -> i64
        ensures word { result ≡ choice_word self input }
        ensures typed { IsValue (choice_sort self) result }
    {
        match self {
            Choice::Integer { on, off } => {
                if input {
                    on.value() as i64
                } else {
                    off.value() as i64
                }
            }
            Choice::Real { on, off } => { if input { on.count() } else { off.count() } }
        }
    }
}

impl Memoryless for Choice {
    ghost inputs = { λ _. booleans 1 };

    ghost results = { λ b. typed (choice_sort b ∷ []) };

    ghost gives = { λ b. at_once (choice_meaning b) };

    fn give(&self, ins: &[i64], outs: &mut [i64]) -> Result<(), NoValue> {
        put_one(outs, self.word(is_on(ins, 0)));
        Ok(())
    }
}

/// The Real of an Integer.
#[derive(Clone, Copy, Drop)]
pub struct IntegerToReal;

impl Memoryless for IntegerToReal {
    ghost inputs = { λ _. integers 1 };

    ghost results = { λ _. reals 1 };

    ghost gives = { λ _. at_once integer_to_real };

    fn give(&self, ins: &[i64], outs: &mut [i64]) -> Result<(), NoValue> {
        put_one(outs, read(ins, 0) * 1_000_000);
        Ok(())
    }
}

/// The whole number nearest to a Real. NoValue: it is out of the range of Integers.
#[derive(Clone, Copy, Drop)]
pub struct RealToInteger;

// The nearest whole number. None: it is out of range.
#[tactic(auto, using(crate::proofs::Ranges::integer_small))]
fn nearest(x: Real) -> Option<Whole>
    ensures { result ≡ real_to_integer x }
{
    match x.to_integer() {
        Some(z) => Some(Whole::new(z)),
        None => None,
    }
}

impl Memoryless for RealToInteger {
    ghost inputs = { λ _. reals 1 };

    ghost results = { λ _. integers 1 };

    ghost gives = { λ _. at_once to_nearest_integer };

    fn give(&self, ins: &[i64], outs: &mut [i64]) -> Result<(), NoValue> {
        let whole = nearest(read_real(ins, 0)).ok_or(NoValue)?;
        put_one(outs, whole.value() as i64);
        Ok(())
    }
}

/// Its input, `nout` times.
#[derive(Clone, Copy, Drop)]
pub struct Replicator {
    pub value_type: ValueType,
    pub nout: usize,
}

// Each word becomes this.
#[tactic(auto, using(crate::proofs::Copies::all_same))]
fn fill(words: &mut [i64], w: i64)
    ensures { words.new ≡ replicate (length words.old) w }
{
    for word in words.iter_mut() {
        *word = w;
    }
}

impl Memoryless for Replicator {
    ghost inputs = { λ b. typed (b.value_type ∷ []) };

    ghost results = { λ b. copies b.value_type b.nout };

    ghost gives = { λ b. at_once (replicator b.nout) };

    #[tactic(auto, using(crate::proofs::Copies::copies_typed))]
    fn give(&self, ins: &[i64], outs: &mut [i64]) -> Result<(), NoValue> {
        fill(outs, read(ins, 0));
        Ok(())
    }
}
