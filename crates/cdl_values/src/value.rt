// Values, and arrays of them.
ghost use Rattle.std.specs.Prelude.{◌≡◌, IfOk};

use cdl_decimal::Real;
use cdl_source::{List, OutOfMemory, Text};
use std::alloc::Global;

/// The types of values.
#[derive(Clone, Copy, Debug, PartialEq, Eq, Drop)]
pub enum ValueType {
    Boolean,
    Integer,
    Real,
    Str,
    /// The enumeration of this number.
    Enumeration(u32),
}

/// A value.
#[derive(Debug, Drop)]
pub enum Value {
    Boolean(bool),
    Integer(i32),
    Real(Real),
    Str(Text),
    /// The literal of that number, counted from 1, of the enumeration of that number.
    Enumeration { class: u32, ordinal: u32 },
}

/// Values of one type. The shape has no size at a scalar, else one or two; the items stand row by row.
#[derive(Debug, Drop)]
pub struct Array {
    pub value_type: ValueType,
    pub shape: List<u32>,
    pub items: List<Value>,
}

// An equal shape.
fn copy_shape(alloc: Global, shape: &[u32]) -> Result<List<u32>, OutOfMemory>
    ensures { IfOk result (λ s. s ≡ shape.now) }
{
    let mut copy = List::new(alloc);
    for size in shape {
        copy.push(*size)?;
    }
    Ok(copy)
}

// Equal items.
fn copy_items(alloc: Global, items: &[Value]) -> Result<List<Value>, OutOfMemory>
    ensures { IfOk result (λ v. v ≡ items.now) }
{
    let mut copy = List::new(alloc);
    for item in items {
        copy.push(item.copy(alloc)?)?;
    }
    Ok(copy)
}

impl Value {
    /// An equal value.
    pub fn copy(&self, alloc: Global) -> Result<Value, OutOfMemory>
        ensures { IfOk result (λ v. v ≡ self.now) }
    {
        match self {
            Value::Boolean(b) => Ok(Value::Boolean(*b)),
            Value::Integer(z) => Ok(Value::Integer(*z)),
            Value::Real(x) => Ok(Value::Real(*x)),
            Value::Str(text) => Ok(Value::Str(text.copy(alloc)?)),
            Value::Enumeration { class, ordinal } => Ok(Value::Enumeration {
                class: *class,
                ordinal: *ordinal,
            }),
        }
    }
}

impl Array {
    /// An equal array.
    pub fn copy(&self, alloc: Global) -> Result<Array, OutOfMemory>
        ensures { IfOk result (λ a. a ≡ self.now) }
    {
        let shape = copy_shape(alloc, self.shape.items())?;
        let items = copy_items(alloc, self.items.items())?;
        Ok(Array {
            value_type: self.value_type,
            shape,
            items,
        })
    }
}
