// The parameters of the kinds that break loops.
ghost use Rattle.std.specs.Prelude.{◌≡◌, ◌⊎◌, ◌∷◌, [], IfOk, pos};
ghost use Rattle.cdl_kinds.specs.Conditions.{Fits};

use cdl_decimal::Real;
use cdl_kinds::Kind;
use cdl_source::{List, OutOfMemory};
use cdl_values::{Array, Value, ValueType};
use std::alloc::Global;

fn scalar(alloc: Global, kind: ValueType, value: Value) -> Result<Array, OutOfMemory>
    ensures { IfOk result (λ a. a ≡ record { value_type = kind; shape = []; items = value ∷ [] }) }
{
    let mut items = List::new(alloc);
    items.push(value)?;
    Ok(Array {
        value_type: kind,
        shape: List::new(alloc),
        items,
    })
}

fn real(count: i64) -> Real
    requires { (count ≡ pos 0) ⊎ (count ≡ pos 1) }
    ensures { result ≡ count }
{
    match Real::from_count(count) {
        Some(x) => x,
        None => unreachable!(),
    }
}

// A Pre that starts with false.
#[tactic(auto, using(crate::proofs::Parameters::pre_fits))]
pub(crate) fn pre(alloc: Global) -> Result<List<Array>, OutOfMemory>
    ensures { IfOk result (λ v. Fits Kind.LogicalPre v) }
{
    let mut values = List::new(alloc);
    values.push(scalar(alloc, ValueType::Boolean, Value::Boolean(false))?)?;
    Ok(values)
}

// A UnitDelay with the shortest period, that starts with 0.
#[tactic(auto, using(crate::proofs::Parameters::unit_delay_fits))]
pub(crate) fn unit_delay(alloc: Global) -> Result<List<Array>, OutOfMemory>
    ensures { IfOk result (λ v. Fits Kind.DiscreteUnitDelay v) }
{
    let mut values = List::new(alloc);
    values.push(scalar(alloc, ValueType::Real, Value::Real(real(1)))?)?;
    values.push(scalar(alloc, ValueType::Real, Value::Real(real(0)))?)?;
    Ok(values)
}
