// Sums of many inputs, each times a factor.
ghost use Rattle.std.specs.Prelude.{◌≡◌, ◌+◌, pos, ◌<◌, ◌≤◌, ◌+ℤ◌, ◌*ℤ◌, ℕ, ℤ, [], length, map, take, unsigned_abs, MatchResult, Some, None};
ghost use Rattle.cdl_source.specs.declared.limits.TheConstants.{LARGEST_INTEGER};
ghost use Rattle.cdl_decimal.specs.Counts.{dot};
ghost use Rattle.cdl_decimal.specs.Near.{InRange};
ghost use Rattle.cdl_values.specs.History.{integer, integers, reals, word};
ghost use Rattle.cdl_kinds.specs.Meaning.Integers.{integer_multi_sum};
ghost use Rattle.cdl_kinds.specs.Meaning.Reals.{real_multi_sum};
ghost use Rattle.cdl_values.specs.Values.{integer_of, real_of};
ghost use Rattle.cdl_memoryless.specs.AtOnce.{at_once};

use crate::memoryless::Memoryless;
use cdl_decimal::{Real, weighted_sum};
use cdl_source::{LARGEST_INTEGER, List};
use cdl_values::words::{put_one, put_real, read_real};
use cdl_values::{NoValue, Value};

// The Integer of a value; 0 where it is none.
fn integer_of(value: &Value) -> i64
    ensures value { result ≡ integer_of value.now }
    ensures small { unsigned_abs result ≤ 2147483648 }
{
    match value {
        Value::Integer(z) => *z as i64,
        _ => 0,
    }
}

// The product of two Integers, in full.
fn full_product(a: i64, b: i64) -> i128
    requires left { unsigned_abs a ≤ 2147483648 }
    requires right { unsigned_abs b ≤ 2147483648 }
    ensures value { result ≡ a *ℤ b }
    ensures small { unsigned_abs result ≤ 4611686018427387904 }
{
    a as i128 * b as i128
}

// The sum, and one product more.
fn next_sum(sum: i128, factor: &Value, word: i64) -> i128
    requires sum { unsigned_abs sum ≤ 1180591620717411303424 }
    requires word { unsigned_abs word ≤ LARGEST_INTEGER }
    ensures value { result ≡ sum +ℤ integer_of factor.now *ℤ word }
    ensures small { unsigned_abs result ≤ unsigned_abs sum + 4611686018427387904 }
{
    sum + full_product(integer_of(factor), word)
}

// The sum of the products, in full.
fn sum_of_products(factors: &[Value], words: &[i64]) -> i128
    requires same { length factors.now ≡ length words.now }
    requires few { length words.now ≤ 256 }
    requires range { (i : ℕ) → i < length words.now → unsigned_abs (word words.now i) ≤ LARGEST_INTEGER }
    ensures { result ≡ dot (map integer_of factors.now) words.now }
{
    let mut sum: i128 = 0;
    for i in 0..words.len() {
        sum = next_sum(sum, &factors[i], words[i]);
    }
    sum
}

// The greatest magnitude of an Integer.
const INTEGER_LIMIT: i128 = LARGEST_INTEGER as i128;

// The one word becomes this Integer. NoValue: it is out of range.
fn put_wide(words: &mut [i64], z: i128) -> Result<(), NoValue>
    requires { length words.old ≡ 1 }
    ensures { MatchResult result (λ _. integer z ≡ Some words.new) (λ _. integer z ≡ None) }
{
    if -INTEGER_LIMIT <= z && z <= INTEGER_LIMIT {
        put_one(words, z as i64);
        Ok(())
    } else {
        Err(NoValue)
    }
}

/// The sum of Integers, each times its factor. NoValue: the sum is out of their range.
#[derive(Drop)]
pub struct IntegerSum {
    /// The factors, each of type Integer.
    pub factors: List<Value>,
    pub ghost few: { length factors ≤ 256 },
}

impl Memoryless for IntegerSum {
    ghost inputs = { λ b. integers (length b.factors) };

    ghost results = { λ _. integers 1 };

    ghost gives = { λ b. at_once (integer_multi_sum (map integer_of b.factors)) };

    fn give(&self, ins: &[i64], outs: &mut [i64]) -> Result<(), NoValue> {
        put_wide(outs, sum_of_products(self.factors.items(), ins))
    }
}

fn zero_real() -> Real
    ensures { result ≡ pos 0 }
{
    match Real::from_count(0) {
        Some(x) => x,
        None => unreachable!(),
    }
}

// The Real of a value; 0 where it is none.
fn real_of(value: &Value) -> Real
    ensures { result ≡ real_of value.now }
{
    match value {
        Value::Real(x) => *x,
        _ => zero_real(),
    }
}

// The Reals of the words, in the first of as many places as a sum may have.
fn reals_of(words: &[i64]) -> [Real; 256]
    requires few { length words.now ≤ 256 }
    requires range { (i : ℕ) → i < length words.now → InRange (word words.now i) }
    ensures { take (length words.now) result ≡ words.now }
{
    let mut reals = [zero_real(); 256];
    for i in 0..words.len() {
        reals[i] = read_real(words, i);
    }
    reals
}

// The Reals of the factors, in the first of as many places as a sum may have.
fn real_factors(factors: &[Value]) -> [Real; 256]
    requires { length factors.now ≤ 256 }
    ensures { take (length factors.now) result ≡ map real_of factors.now }
{
    let mut reals = [zero_real(); 256];
    for i in 0..factors.len() {
        reals[i] = real_of(&factors[i]);
    }
    reals
}

/// The sum of Reals, each times its factor, rounded once. NoValue: the sum is out of their range.
#[derive(Drop)]
pub struct RealSum {
    /// The factors, each of type Real.
    pub factors: List<Value>,
    pub ghost few: { length factors ≤ 256 },
}

impl Memoryless for RealSum {
    ghost inputs = { λ b. reals (length b.factors) };

    ghost results = { λ _. reals 1 };

    ghost gives = { λ b. at_once (real_multi_sum (map real_of b.factors)) };

    fn give(&self, ins: &[i64], outs: &mut [i64]) -> Result<(), NoValue> {
        let factors = real_factors(self.factors.items());
        let terms = reals_of(ins);
        let n = ins.len();
        put_real(outs, weighted_sum(&factors[..n], &terms[..n]))
    }
}
