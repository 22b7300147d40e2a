// Integers that expressions are worth.
ghost use Rattle.std.specs.Prelude.{◌≡◌, IfOk, Ok};
ghost use Rattle.cdl_joins.specs.Integers as spec;

use cdl_array::{EvalFault, scalar_of};
use cdl_params::Elaborator;
use cdl_paths::{Local, Step};
use cdl_source::OutOfMemory;
use cdl_tree::Expr;
use cdl_values::{Array, Value};

// The Integer of a scalar.
fn integer_in(array: &Array) -> Option<i32>
    ensures { result ≡ spec.integer_in (Ok array.now) }
{
    match scalar_of(array) {
        Some(Value::Integer(integer)) => Some(*integer),
        _ => None,
    }
}

/// The Integer that an expression is worth in the instance at a path, with these indices of loops. None: it has a fault, or is no
/// scalar Integer.
pub fn integer(
    e: &mut Elaborator<'_>,
    path: &[Step],
    locals: &[Local],
    expr: &Expr,
) -> Result<Option<i32>, OutOfMemory>
    ensures kept { e.new ≡ e.old }
    ensures value { IfOk result (λ z. z ≡ spec.integer e.old path.now locals.now expr.now) }
{
    match e.evaluate(path, locals, expr) {
        Ok(array) => Ok(integer_in(&array)),
        Err(EvalFault::Rule(_)) => Ok(None),
        Err(EvalFault::OutOfMemory) => Err(OutOfMemory),
    }
}
