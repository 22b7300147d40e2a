// The type of counts of millionths, and its operations.
ghost use Rattle.std.specs.Prelude.{◌≡◌, ◌*◌, ◌^◌, ◌<◌, ◌≤◌, length, ℤ, pos, ◌+ℤ◌, ◌-ℤ◌, ◌*ℤ◌, ◌≤ℤ◌, ◌<ℤ◌, neg_ℤ, unsigned_abs, None, IsSome, IsSomeAnd};
ghost use Rattle.cdl_source.specs.declared.limits.TheConstants.{LARGEST_REAL};
ghost use Rattle.cdl_decimal.specs.Near.{near, InRange, in_range, in_integer_range, IsFloor, IsModulo, IsNear, RoundsTo};
ghost use Rattle.cdl_decimal.specs.Counts.{real_add, real_sub, real_mul, real_div, real_modulo, real_line, real_weighted_sum, real_mean, real_to_integer, real_floor_integer, line_upper, dot, total, nearest_whole, floor_whole, IsNearestWhole};

use crate::rounding::{nearest, signed_left, signed_nearest};
use cdl_source::{LARGEST_INTEGER, LARGEST_REAL};
use std::marker::Model;

// The greatest magnitude of a count.
pub(crate) const LIMIT: i64 = LARGEST_REAL as i64;

// The greatest magnitude of a whole number of 32 bits.
const WHOLE_LIMIT: i64 = LARGEST_INTEGER as i64;

/// A decimal of six places: a count of millionths of magnitude at most 10^16. Contracts see the count.
#[derive(Clone, Copy, Debug, PartialEq, Eq, Drop)]
pub struct Real {
    count: i64,
}

impl Model for Real {
    ghost Value = { ℤ };

    ghost view = { λ r. r.count };

    ghost invariant = { λ r. InRange r.count };

    ghost inverse = { λ z. record { count = z } };
}

// The product of two counts, in full.
fn wide_product(a: Real, b: Real) -> i128
    ensures value { result ≡ a *ℤ b }
    ensures small { unsigned_abs result ≤ LARGEST_REAL * LARGEST_REAL }
{
    a.count as i128 * b.count as i128
}

// The sum of the products, in full.
fn sum_of_products(k: &[Real], u: &[Real]) -> i128
    requires same { length k.now ≡ length u.now }
    requires few { length k.now ≤ 256 }
    ensures value { result ≡ dot k.now u.now }
    ensures small { unsigned_abs result ≤ 25600000000000000000000000000000000 }
{
    let mut sum: i128 = 0;
    for i in 0..k.len() {
        sum += wide_product(k[i], u[i]);
    }
    sum
}

// The sum of the counts, in full.
fn sum_of_counts(u: &[Real]) -> i128
    requires few { length u.now ≤ 1024 }
    ensures value { result ≡ total u.now }
    ensures small { unsigned_abs result ≤ LARGEST_REAL * length u.now }
{
    let mut sum: i128 = 0;
    for i in 0..u.len() {
        sum += u[i].count() as i128;
    }
    sum
}

// How far b lies above a.
fn step(a: Real, b: Real) -> i64
    ensures value { result ≡ b -ℤ a }
    ensures small { unsigned_abs result ≤ 20000000000000000 }
{
    b.count - a.count
}

// The product of two counts or steps, in full.
fn wide_term(a: i64, b: i64) -> i128
    requires small_left { unsigned_abs a ≤ 20000000000000000 }
    requires small_right { unsigned_abs b ≤ 20000000000000000 }
    ensures value { result ≡ a *ℤ b }
    ensures small { unsigned_abs result ≤ 400000000000000000000000000000000 }
{
    a as i128 * b as i128
}

// The sum of two such products.
fn wide_sum(a: i128, b: i128) -> i128
    requires small_left { unsigned_abs a ≤ 400000000000000000000000000000000 }
    requires small_right { unsigned_abs b ≤ 400000000000000000000000000000000 }
    ensures value { result ≡ a +ℤ b }
    ensures small { unsigned_abs result < 2 ^ 126 }
{
    a + b
}

// The upper part of the height of a line.
fn wide_line_upper(x1: Real, f1: Real, x2: Real, f2: Real, x: Real) -> i128
    ensures value { result ≡ line_upper x1 f1 x2 f2 x }
    ensures small { unsigned_abs result < 2 ^ 126 }
{
    wide_sum(
        wide_term(f1.count(), step(x1, x2)),
        wide_term(step(x1, x), step(f1, f2)),
    )
}

// A million times the count, in full.
fn wide_millionths(a: Real) -> i128
    ensures value { result ≡ a *ℤ pos 1000000 }
    ensures small { unsigned_abs result ≤ LARGEST_REAL * 1000000 }
{
    a.count as i128 * 1_000_000
}

// The Real of this count, where it is in range.
pub(crate) fn narrow(count: i128) -> Option<Real>
    ensures { result ≡ in_range count }
{
    if -(LIMIT as i128) <= count && count <= LIMIT as i128 {
        Real::from_count(count as i64)
    } else {
        None
    }
}

// The Real whose count is nearest to n / d.
pub(crate) fn rounded(n: i128, d: i128) -> Option<Real>
    requires positive { pos 0 <ℤ d }
    requires divisor_small { unsigned_abs d < 2 ^ 126 }
    requires small { unsigned_abs n < 2 ^ 126 }
    ensures count { result ≡ in_range (near n (unsigned_abs d)) }
    ensures rounded { RoundsTo n (unsigned_abs d) result }
{
    narrow(nearest(n, d))
}

// The whole number of 32 bits, where its magnitude passes no more than those of both signs.
fn narrow_integer(whole: i64) -> Option<i32>
    ensures { result ≡ in_integer_range whole }
{
    if -WHOLE_LIMIT <= whole && whole <= WHOLE_LIMIT {
        Some(whole as i32)
    } else {
        None
    }
}

// The whole number nearest to a count of millionths, of two the one further from zero.
fn nearest_whole(count: i64) -> i64
    requires { InRange count }
    ensures { result ≡ nearest_whole count }
{
    if count < 0 {
        -((500_000 - count) / 1_000_000)
    } else {
        (count + 500_000) / 1_000_000
    }
}

impl Real {
    /// The Real of this count of millionths. None: the magnitude passes 10^16.
    pub fn from_count(count: i64) -> Option<Real>
        ensures { result ≡ in_range count }
    {
        if -LIMIT <= count && count <= LIMIT {
            Some(Real { count })
        } else {
            None
        }
    }

    /// The count of millionths.
    pub fn count(self) -> i64
        ensures value { result ≡ self }
        ensures range { InRange result }
    {
        self.count
    }

    /// The sum. None: out of range.
    pub fn add(self, b: Real) -> Option<Real>
        ensures { result ≡ real_add self b }
    {
        Real::from_count(self.count + b.count)
    }

    /// The difference. None: out of range.
    pub fn sub(self, b: Real) -> Option<Real>
        ensures { result ≡ real_sub self b }
    {
        Real::from_count(self.count - b.count)
    }

    /// The product, rounded to the nearest millionth, and to the even one where two are nearest. None: out of range.
    pub fn mul(self, b: Real) -> Option<Real>
        ensures count { result ≡ real_mul self b }
        ensures rounded { RoundsTo (self *ℤ b) 1000000 result }
    {
        rounded(wide_product(self, b), 1_000_000)
    }

    /// The quotient, rounded to the nearest millionth, and to the even one where two are nearest.
    /// None: out of range, or a divisor of 0.
    pub fn div(self, b: Real) -> Option<Real>
        ensures count { result ≡ real_div self b }
        ensures undefined { b ≡ pos 0 → result ≡ None }
        ensures rounded { pos 0 <ℤ b → RoundsTo (self *ℤ pos 1000000) (unsigned_abs b) result }
        ensures rounded_below { b <ℤ pos 0 → RoundsTo (neg_ℤ (self *ℤ pos 1000000)) (unsigned_abs b) result }
    {
        if b.count == 0 {
            None
        } else {
            narrow(signed_nearest(wide_millionths(self), b.count as i128))
        }
    }

    /// What is left after the greatest whole number of steps of `b`: from 0 to `b`, `b` not included, so of its sign.
    /// None: `b` is 0.
    pub fn modulo(self, b: Real) -> Option<Real>
        ensures count { result ≡ real_modulo self b }
        ensures undefined { b ≡ pos 0 → result ≡ None }
        ensures left { ¬ (b ≡ pos 0) → IsSomeAnd result (λ r. IsModulo self b r) }
    {
        if b.count == 0 {
            None
        } else {
            Real::from_count(signed_left(self.count, b.count))
        }
    }

    /// The nearest whole number, of two the one further from zero. None: its magnitude passes 2,147,483,647.
    pub fn to_integer(self) -> Option<i32>
        ensures count { result ≡ real_to_integer self }
        ensures nearest { (w : ℤ) × IsNearestWhole self w × (result ≡ in_integer_range w) }
    {
        narrow_integer(nearest_whole(self.count))
    }

    /// The greatest whole number not above the value. None: its magnitude passes 2,147,483,647.
    pub fn floor_integer(self) -> Option<i32>
        ensures count { result ≡ real_floor_integer self }
        ensures floor { (w : ℤ) × IsFloor self 1000000 w × (result ≡ in_integer_range w) }
    {
        narrow_integer(self.count.div_euclid(1_000_000))
    }
}

/// The sum of the products of the items of `k` and `u` of the same place, rounded once to the nearest millionth, and to
/// the even one where two are nearest. None: out of range.
pub fn weighted_sum(k: &[Real], u: &[Real]) -> Option<Real>
    requires same { length k.now ≡ length u.now }
    requires few { length k.now ≤ 256 }
    ensures count { result ≡ real_weighted_sum k.now u.now }
    ensures rounded { RoundsTo (dot k.now u.now) 1000000 result }
{
    rounded(sum_of_products(k, u), 1_000_000)
}

/// The mean of so many Reals, whose counts have this sum, rounded to the nearest millionth, and to the even one where two
/// are nearest.
pub fn mean_of_sum(sum: i128, count: usize) -> Real
    requires some { 0 < count }
    requires few { count ≤ 1024 }
    requires small { unsigned_abs sum ≤ LARGEST_REAL * count }
    ensures value { result ≡ near sum count }
    ensures nearest { IsNear sum count result }
{
    match rounded(sum, count as i128) {
        Some(x) => x,
        None => unreachable!(),
    }
}

/// The mean, rounded to the nearest millionth, and to the even one where two are nearest. It is never out of range.
pub fn mean(u: &[Real]) -> Option<Real>
    requires some { 0 < length u.now }
    requires few { length u.now ≤ 1024 }
    ensures count { result ≡ real_mean u.now }
    ensures always { IsSome result }
    ensures rounded { RoundsTo (total u.now) (length u.now) result }
{
    rounded(sum_of_counts(u), u.len() as i128)
}

/// The height at `x` of the line through `(x1, f1)` and `(x2, f2)`, also beyond these points, rounded to the nearest
/// millionth, and to the even one where two are nearest. None: out of range, or `x1` is not below `x2`.
pub fn line(x1: Real, f1: Real, x2: Real, f2: Real, x: Real) -> Option<Real>
    ensures count { result ≡ real_line x1 f1 x2 f2 x }
    ensures rounded { x1 <ℤ x2 → RoundsTo (line_upper x1 f1 x2 f2 x) (unsigned_abs (x2 -ℤ x1)) result }
    ensures undefined { x2 ≤ℤ x1 → result ≡ None }
{
    if x1.count < x2.count {
        rounded(wide_line_upper(x1, f1, x2, f2, x), step(x1, x2) as i128)
    } else {
        None
    }
}
