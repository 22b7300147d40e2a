// The values of a kind's parameters, and its conditions on them.
ghost use Rattle.std.specs.Prelude.{◌≡◌, ◌≤◌, ◌^◌, IfOk, pos, unsigned_abs};
ghost use Rattle.cdl_source.specs.declared.limits.TheConstants.{LARGEST_INTEGER};
ghost use Rattle.cdl_kinds.specs.Ports.{nin_or_nout};
ghost use Rattle.cdl_values.specs.Values.{HaveIntegers, boolean_at, integer_at, items_at, real_at};

use cdl_decimal::Real;
use cdl_source::{List, OutOfMemory};
use cdl_values::{Array, Value};
use std::alloc::Global;
use std::marker::Model;

/// The values of the parameters of a kind, in the order of the table.
#[derive(Debug, Drop)]
pub struct Params {
    values: List<Array>,
}

impl Model for Params {
    ghost use Rattle.std.specs.Prelude.{List};
    ghost use Rattle.cdl_values.specs.declared.value.Array.{Array};

    ghost Value = { List Array };

    ghost use Rattle.cdl_values.specs.Values.{HaveIntegers};

    ghost view = { λ p. p.values };

    ghost invariant = { λ p. HaveIntegers p.values };
}

/// The values break a condition of the kind: the first that they break, counted from 1. The values are handed back.
#[derive(Debug, Drop)]
pub struct KindFault {
    pub condition: u32,
    pub values: List<Array>,
}

fn zero() -> Real
    ensures { result ≡ pos 0 }
{
    match Real::from_count(0) {
        Some(x) => x,
        None => unreachable!(),
    }
}

// The items of the array of that number.
fn items_at(values: &[Array], i: usize) -> &[Value]
    ensures { result.now ≡ items_at values.now i }
{
    match values.get(i) {
        Some(array) => array.items.items(),
        None => &[],
    }
}

// The Integer that is the value of that number; 0 where it is none.
pub fn integer_at(values: &[Array], i: usize) -> i32
    ensures { result ≡ integer_at values.now i }
{
    match items_at(values, i) {
        [Value::Integer(z), ..] => *z,
        _ => 0,
    }
}

// The count of the Real that is the value of that number; 0 where it is none.
pub fn real_at(values: &[Array], i: usize) -> i64
    ensures { result ≡ real_at values.now i }
{
    match items_at(values, i) {
        [Value::Real(x), ..] => x.count(),
        _ => 0,
    }
}

// Equal arrays.
fn copy_all(alloc: Global, arrays: &[Array]) -> Result<List<Array>, OutOfMemory>
    ensures { IfOk result (λ v. v ≡ arrays.now) }
{
    let mut copy = List::new(alloc);
    for array in arrays {
        copy.push(array.copy(alloc)?)?;
    }
    Ok(copy)
}

impl Params {
    // These values.
    pub(crate) fn keep(values: List<Array>) -> Params
        requires { HaveIntegers values }
        ensures { result ≡ values }
    {
        Params { values }
    }

    /// The values, lent.
    pub fn values(&self) -> &[Array]
        ensures { result.now ≡ self.now }
    {
        self.values.items()
    }

    /// The values, given up. It takes no memory.
    pub fn into_values(self) -> List<Array>
        ensures { result ≡ self }
    {
        self.values
    }

    /// The value of `nin` or `nout` where the kind has one of them, the first of its parameters.
    pub fn size(&self) -> usize
        ensures size { result ≡ nin_or_nout self.now }
        ensures small { result ≤ 2 ^ 31 }
    {
        integer_at(self.values.items(), 0).unsigned_abs() as usize
    }

    /// The Boolean that is the value of that number; false where it is none.
    pub fn boolean(&self, i: usize) -> bool
        ensures { result ≡ boolean_at self.now i }
    {
        match items_at(self.values.items(), i) {
            [Value::Boolean(b), ..] => *b,
            _ => false,
        }
    }

    /// The Integer that is the value of that number; 0 where it is none.
    pub fn integer(&self, i: usize) -> i32
        ensures value { result ≡ integer_at self.now i }
        ensures range { unsigned_abs result ≤ LARGEST_INTEGER }
    {
        integer_at(self.values.items(), i)
    }

    /// The Real that is the value of that number; 0 where it is none.
    pub fn real(&self, i: usize) -> Real
        ensures { result ≡ real_at self.now i }
    {
        match items_at(self.values.items(), i) {
            [Value::Real(x), ..] => *x,
            _ => zero(),
        }
    }

    /// Equal parameters.
    pub fn copy(&self, alloc: Global) -> Result<Params, OutOfMemory>
        ensures { IfOk result (λ p. p ≡ self.now) }
    {
        Ok(Params::keep(copy_all(alloc, self.values.items())?))
    }
}
