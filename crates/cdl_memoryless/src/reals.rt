// Blocks of Reals.
ghost use Rattle.std.specs.Prelude.{◌≡◌, [], ◌∷◌};
ghost use Rattle.cdl_decimal.specs.Counts.{real_div, real_mean, real_modulo, real_mul};
ghost use Rattle.cdl_values.specs.declared.value.ValueType.TheVariants.{Real};
ghost use Rattle.cdl_values.specs.History.{reals, typed};
ghost use Rattle.cdl_values.specs.Extremes.{greater_of, lesser_of};
ghost use Rattle.cdl_kinds.specs.Meaning.Reals.{limited, limiter, line_through, real_of_two};
ghost use Rattle.cdl_memoryless.specs.AtOnce.{at_once};
ghost use Rattle.cdl_memoryless.specs.Reals.{magnitude_meaning, magnitude_sort, real_function, real_with};

use crate::integers::{greater, lesser};
use crate::memoryless::Memoryless;
use cdl_decimal::{Real, line, mean};
use cdl_values::words::{put_integer, put_one, put_real, read, read_real};
use cdl_values::{NoValue, ValueType};

/// What a block of two Reals computes. A modulo is what is left of the first after whole steps of the second.
#[derive(Clone, Copy, Drop)]
pub enum RealOp {
    Add,
    Subtract,
    Multiply,
    Divide,
    Modulo,
    Average,
    Max,
    Min,
}

// The greater one.
fn greater_real(a: Real, b: Real) -> Real
    ensures { result ≡ greater_of a b }
{
    if a.count() <= b.count() { b } else { a }
}

// The lesser one.
fn lesser_real(a: Real, b: Real) -> Real
    ensures { result ≡ lesser_of a b }
{
    if a.count() <= b.count() { a } else { b }
}

// These are long, and stand apart: what computes a sum then keeps no registers for them.

#[inline(never)]
fn product(a: Real, b: Real) -> Option<Real>
    ensures { result ≡ real_mul a b }
{
    a.mul(b)
}

#[inline(never)]
fn quotient(a: Real, b: Real) -> Option<Real>
    ensures { result ≡ real_div a b }
{
    a.div(b)
}

#[inline(never)]
fn remainder(a: Real, b: Real) -> Option<Real>
    ensures { result ≡ real_modulo a b }
{
    a.modulo(b)
}

#[inline(never)]
fn average(a: Real, b: Real) -> Option<Real>
    ensures { result ≡ real_mean (a ∷ b ∷ []) }
{
    mean(&[a, b])
}

// The result, each rounded once. None: it is out of the range of Reals, or not defined.
fn computed(op: RealOp, a: Real, b: Real) -> Option<Real>
    ensures { result ≡ real_function op a b }
{
    match op {
        RealOp::Add => a.add(b),
        RealOp::Subtract => a.sub(b),
        RealOp::Multiply => product(a, b),
        RealOp::Divide => quotient(a, b),
        RealOp::Modulo => remainder(a, b),
        RealOp::Average => average(a, b),
        RealOp::Max => Some(greater_real(a, b)),
        RealOp::Min => Some(lesser_real(a, b)),
    }
}

/// Arithmetic on two Reals. NoValue: the result is out of their range, or a divisor is 0.
#[derive(Clone, Copy, Drop)]
pub struct RealArithmetic {
    pub op: RealOp,
}

impl Memoryless for RealArithmetic {
    ghost inputs = { λ _. typed (Real ∷ Real ∷ []) };

    ghost results = { λ _. reals 1 };

    ghost gives = { λ b. at_once (real_of_two (real_function b.op)) };

    fn give(&self, ins: &[i64], outs: &mut [i64]) -> Result<(), NoValue> {
        put_real(
            outs,
            computed(self.op, read_real(ins, 0), read_real(ins, 1)),
        )
    }
}

/// Arithmetic on a Real and a parameter, the second operand. NoValue: the result is out of their range, or a divisor is 0.
#[derive(Clone, Copy, Drop)]
pub struct RealWithParameter {
    pub op: RealOp,
    pub parameter: Real,
}

impl Memoryless for RealWithParameter {
    ghost inputs = { λ _. reals 1 };

    ghost results = { λ _. reals 1 };

    ghost gives = { λ b. at_once (real_with (real_function b.op) b.parameter) };

    fn give(&self, ins: &[i64], outs: &mut [i64]) -> Result<(), NoValue> {
        put_real(outs, computed(self.op, read_real(ins, 0), self.parameter))
    }
}

/// The magnitude of an Integer or of a Real.
#[derive(Clone, Copy, Drop)]
pub enum Magnitude {
    Integer,
    Real,
}

impl Memoryless for Magnitude {
    ghost inputs = { λ b. typed (magnitude_sort b ∷ []) };

    ghost results = { λ b. typed (magnitude_sort b ∷ []) };

    ghost gives = { λ b. at_once (magnitude_meaning b) };

    fn give(&self, ins: &[i64], outs: &mut [i64]) -> Result<(), NoValue> {
        match self {
            Magnitude::Integer => put_integer(outs, read(ins, 0).abs()),
            Magnitude::Real => {
                put_one(outs, read(ins, 0).abs());
                Ok(())
            }
        }
    }
}

/// A Real, at most `most` and at least `least`.
#[derive(Clone, Copy, Drop)]
pub struct Limiter {
    pub most: Real,
    pub least: Real,
}

impl Memoryless for Limiter {
    ghost inputs = { λ _. reals 1 };

    ghost results = { λ _. reals 1 };

    ghost gives = { λ b. at_once (limiter b.most b.least) };

    fn give(&self, ins: &[i64], outs: &mut [i64]) -> Result<(), NoValue> {
        let limited = greater_real(self.least, lesser_real(self.most, read_real(ins, 0)));
        put_one(outs, limited.count());
        Ok(())
    }
}

/// The height of the line through two points, at an input that may be kept from passing them.
/// The inputs are x1, f1, x2, f2 and where. NoValue: the height is out of the range of Reals, or x1 is not below x2.
#[derive(Clone, Copy, Drop)]
pub struct Line {
    pub limit_below: bool,
    pub limit_above: bool,
}

impl Line {
    // Where on the line.
    fn place(self, x1: Real, x2: Real, u: Real) -> Real
        ensures { result ≡ limited self.limit_below self.limit_above x1 x2 u }
    {
        let raised = if self.limit_below {
            greater_real(x1, u)
        } else {
            u
        };
        if self.limit_above {
            lesser_real(x2, raised)
        } else {
            raised
        }
    }
}

impl Memoryless for Line {
    ghost inputs = { λ _. typed (Real ∷ Real ∷ Real ∷ Real ∷ Real ∷ []) };

    ghost results = { λ _. reals 1 };

    ghost gives = { λ b. at_once (line_through b.limit_below b.limit_above) };

    fn give(&self, ins: &[i64], outs: &mut [i64]) -> Result<(), NoValue> {
        let x1 = read_real(ins, 0);
        let x2 = read_real(ins, 2);
        let x = self.place(x1, x2, read_real(ins, 4));
        put_real(outs, line(x1, read_real(ins, 1), x2, read_real(ins, 3), x))
    }
}
