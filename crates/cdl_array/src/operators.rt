// The operators of one and of two operands.
ghost use Rattle.std.specs.Prelude.{◌≡◌};
ghost use Rattle.cdl_array.specs.Outcomes.{Answers};
ghost use Rattle.cdl_array.specs.Operators as spec;

use crate::arithmetic::{
    difference_of, integer_value, product_of, quotient_of, real_value, sum_of,
};
use crate::comparison::{are_equal, is_greater, is_greater_or_equal, is_less, is_less_or_equal};
use crate::fault::EvalFault;
use crate::numbers::{numbers_of, real_of};
use crate::scalars::{scalar_if, scalar_of};
use cdl_source::rules::{WRONG_SHAPE, WRONG_TYPE};
use cdl_tree::Op;
use cdl_values::{Array, Value};
use std::alloc::Global;

// The value of an operator of two operands; `not` is none.
#[tactic(auto, unfolding(crate::specs::Operators::binary_value))]
fn binary_value(op: Op, left: &Value, right: &Value) -> Result<Value, u32>
    ensures { result ≡ spec.binary_value op left.now right.now }
{
    match op {
        Op::Plus => sum_of(numbers_of(left, right)?),
        Op::Minus => difference_of(numbers_of(left, right)?),
        Op::Times => product_of(numbers_of(left, right)?),
        Op::Divide => quotient_of(numbers_of(left, right)?),
        Op::Less => Ok(Value::Boolean(is_less(numbers_of(left, right)?))),
        Op::LessEqual => Ok(Value::Boolean(is_less_or_equal(numbers_of(left, right)?))),
        Op::Greater => Ok(Value::Boolean(is_greater(numbers_of(left, right)?))),
        Op::GreaterEqual => Ok(Value::Boolean(is_greater_or_equal(numbers_of(left, right)?))),
        Op::Equal => Ok(Value::Boolean(are_equal(left, right)?)),
        Op::NotEqual => Ok(Value::Boolean(!are_equal(left, right)?)),
        Op::And => conjunction(left, right),
        Op::Or => disjunction(left, right),
        Op::Not => Err(WRONG_TYPE),
    }
}

#[tactic(auto, unfolding(crate::specs::Operators::conjunction))]
fn conjunction(left: &Value, right: &Value) -> Result<Value, u32>
    ensures { result ≡ spec.conjunction left.now right.now }
{
    match (left, right) {
        (Value::Boolean(a), Value::Boolean(b)) => Ok(Value::Boolean(*a && *b)),
        _ => Err(WRONG_TYPE),
    }
}

#[tactic(auto, unfolding(crate::specs::Operators::disjunction))]
fn disjunction(left: &Value, right: &Value) -> Result<Value, u32>
    ensures { result ≡ spec.disjunction left.now right.now }
{
    match (left, right) {
        (Value::Boolean(a), Value::Boolean(b)) => Ok(Value::Boolean(*a || *b)),
        _ => Err(WRONG_TYPE),
    }
}

/// What an operator of two operands, any but `Not`, gives for two scalars. First the shapes (C25), then the types (C26), then
/// the value (C30). Where the operator is `And` or `Or`, `decided` judges the left side before the right one is evaluated.
pub fn binary(alloc: Global, op: Op, left: &Array, right: &Array) -> Result<Array, EvalFault>
    ensures { Answers (spec.binary op left.now right.now) result }
{
    let Some(left) = scalar_of(left) else {
        return Err(EvalFault::Rule(WRONG_SHAPE));
    };
    let Some(right) = scalar_of(right) else {
        return Err(EvalFault::Rule(WRONG_SHAPE));
    };
    scalar_if(alloc, binary_value(op, left, right))
}

// The value of an operator of one operand.
#[tactic(auto, unfolding(crate::specs::Operators::unary_value))]
fn unary_value(op: Op, operand: &Value) -> Result<Value, u32>
    ensures { result ≡ spec.unary_value op operand.now }
{
    match (op, operand) {
        (Op::Plus, Value::Integer(z)) => Ok(Value::Integer(*z)),
        (Op::Plus, Value::Real(x)) => Ok(Value::Real(*x)),
        (Op::Minus, Value::Integer(z)) => integer_value(-(*z as i128)),
        (Op::Minus, Value::Real(x)) => real_value(real_of(0).sub(*x)),
        (Op::Not, Value::Boolean(b)) => Ok(Value::Boolean(!*b)),
        _ => Err(WRONG_TYPE),
    }
}

/// What an operator of one operand, `Plus`, `Minus` or `Not`, gives for a scalar: C25, then C26, then C30.
pub fn unary(alloc: Global, op: Op, operand: &Array) -> Result<Array, EvalFault>
    ensures { Answers (spec.unary op operand.now) result }
{
    let Some(operand) = scalar_of(operand) else {
        return Err(EvalFault::Rule(WRONG_SHAPE));
    };
    scalar_if(alloc, unary_value(op, operand))
}

// What a left operand says alone.
#[tactic(auto, unfolding(crate::specs::Operators::decided_value))]
fn decided_value(op: Op, left: &Value) -> Result<Option<bool>, u32>
    ensures { result ≡ spec.decided_value op left.now }
{
    match (op, left) {
        (Op::And, Value::Boolean(false)) => Ok(Some(false)),
        (Op::And, Value::Boolean(true)) => Ok(None),
        (Op::Or, Value::Boolean(true)) => Ok(Some(true)),
        (Op::Or, Value::Boolean(false)) => Ok(None),
        _ => Err(WRONG_TYPE),
    }
}

/// What the left side of `And` or `Or` says alone: its value where it decides, so that the right side is not looked at; none
/// where the right side is needed. C25, then C26. Any other operator needs both sides.
#[tactic(auto, unfolding(crate::specs::Operators::is_logical))]
pub fn decided(op: Op, left: &Array) -> Result<Option<bool>, EvalFault>
    ensures { Answers (spec.decided op left.now) result }
{
    if op != Op::And && op != Op::Or {
        return Ok(None);
    }
    let Some(left) = scalar_of(left) else {
        return Err(EvalFault::Rule(WRONG_SHAPE));
    };
    match decided_value(op, left) {
        Ok(value) => Ok(value),
        Err(rule) => Err(EvalFault::Rule(rule)),
    }
}

/// What a condition says. C26: it is no Boolean scalar.
pub fn condition(array: &Array) -> Result<bool, EvalFault>
    ensures { Answers (spec.condition array.now) result }
{
    match scalar_of(array) {
        Some(Value::Boolean(holds)) => Ok(*holds),
        _ => Err(EvalFault::Rule(WRONG_TYPE)),
    }
}
