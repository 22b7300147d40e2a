// Blocks of Integers, and comparisons of them.
ghost use Rattle.std.specs.Prelude.{◌≡◌, ◌≤◌, ◌*ℤ◌, [], ◌∷◌, unsigned_abs, ◌^◌, ◌<◌};
ghost use Rattle.cdl_source.specs.declared.limits.TheConstants.{LARGEST_INTEGER};
ghost use Rattle.cdl_values.specs.declared.value.ValueType.TheVariants.{Integer};
ghost use Rattle.cdl_values.specs.History.{booleans, integers, typed};
ghost use Rattle.cdl_kinds.specs.Meaning.Integers.{compare, compare_threshold, integer_of_two};
ghost use Rattle.cdl_values.specs.Extremes.{greater_of, lesser_of};
ghost use Rattle.cdl_memoryless.specs.AtOnce.{at_once};
ghost use Rattle.cdl_memoryless.specs.Integers.{comparison_function, integer_function, integer_with};

use crate::memoryless::Memoryless;
use crate::whole::Whole;
use cdl_values::NoValue;
use cdl_values::words::{bit, put_integer, put_one, read};

/// What a block of two Integers computes.
#[derive(Clone, Copy, Drop)]
pub enum IntegerOp {
    Add,
    Subtract,
    Multiply,
    Max,
    Min,
}

// The greater one.
pub(crate) fn greater(a: i64, b: i64) -> i64
    ensures { result ≡ greater_of a b }
{
    if a <= b { b } else { a }
}

// The lesser one.
pub(crate) fn lesser(a: i64, b: i64) -> i64
    ensures { result ≡ lesser_of a b }
{
    if a <= b { a } else { b }
}

fn product(a: i64, b: i64) -> i64
    requires left { unsigned_abs a ≤ LARGEST_INTEGER }
    requires right { unsigned_abs b ≤ LARGEST_INTEGER }
    ensures { result ≡ a *ℤ b }
{
    a * b
}

// The result, which may be out of the range of Integers.
fn computed(op: IntegerOp, a: i64, b: i64) -> i64
    requires left { unsigned_abs a ≤ LARGEST_INTEGER }
    requires right { unsigned_abs b ≤ LARGEST_INTEGER }
    ensures { result ≡ integer_function op a b }
{
    match op {
        IntegerOp::Add => a + b,
        IntegerOp::Subtract => a - b,
        IntegerOp::Multiply => product(a, b),
        IntegerOp::Max => greater(a, b),
        IntegerOp::Min => lesser(a, b),
    }
}

/// Arithmetic on two Integers. NoValue: the result is out of their range.
#[derive(Clone, Copy, Drop)]
pub struct IntegerArithmetic {
    pub op: IntegerOp,
}

impl Memoryless for IntegerArithmetic {
    ghost inputs = { λ _. typed (Integer ∷ Integer ∷ []) };

    ghost results = { λ _. integers 1 };

    ghost gives = { λ b. at_once (integer_of_two (integer_function b.op)) };

    fn give(&self, ins: &[i64], outs: &mut [i64]) -> Result<(), NoValue> {
        put_integer(outs, computed(self.op, read(ins, 0), read(ins, 1)))
    }
}

/// Arithmetic on an Integer and a parameter, the second operand. NoValue: the result is out of their range.
#[derive(Clone, Copy, Drop)]
pub struct IntegerWithParameter {
    pub op: IntegerOp,
    pub parameter: Whole,
}

impl Memoryless for IntegerWithParameter {
    ghost inputs = { λ _. integers 1 };

    ghost results = { λ _. integers 1 };

    ghost gives = { λ b. at_once (integer_with (integer_function b.op) b.parameter) };

    fn give(&self, ins: &[i64], outs: &mut [i64]) -> Result<(), NoValue> {
        let parameter = self.parameter.value() as i64;
        put_integer(outs, computed(self.op, read(ins, 0), parameter))
    }
}

/// How two Integers are compared.
#[derive(Clone, Copy, Drop)]
pub enum ComparisonOp {
    Equal,
    Greater,
    GreaterEqual,
    Less,
    LessEqual,
}

fn compared(op: ComparisonOp, a: i64, b: i64) -> bool
    ensures { result ≡ comparison_function op a b }
{
    match op {
        ComparisonOp::Equal => a == b,
        ComparisonOp::Greater => a > b,
        ComparisonOp::GreaterEqual => a >= b,
        ComparisonOp::Less => a < b,
        ComparisonOp::LessEqual => a <= b,
    }
}

/// A comparison of two Integers.
#[derive(Clone, Copy, Drop)]
pub struct Comparison {
    pub op: ComparisonOp,
}

impl Memoryless for Comparison {
    ghost inputs = { λ _. typed (Integer ∷ Integer ∷ []) };

    ghost results = { λ _. booleans 1 };

    ghost gives = { λ b. at_once (compare (comparison_function b.op)) };

    fn give(&self, ins: &[i64], outs: &mut [i64]) -> Result<(), NoValue> {
        put_one(outs, bit(compared(self.op, read(ins, 0), read(ins, 1))));
        Ok(())
    }
}

/// A comparison of an Integer with a threshold.
#[derive(Clone, Copy, Drop)]
pub struct Threshold {
    pub op: ComparisonOp,
    pub threshold: i32,
}

impl Memoryless for Threshold {
    ghost inputs = { λ _. integers 1 };

    ghost results = { λ _. booleans 1 };

    ghost gives = { λ b. at_once (compare_threshold (comparison_function b.op) b.threshold) };

    fn give(&self, ins: &[i64], outs: &mut [i64]) -> Result<(), NoValue> {
        let on = compared(self.op, read(ins, 0), self.threshold as i64);
        put_one(outs, bit(on));
        Ok(())
    }
}
