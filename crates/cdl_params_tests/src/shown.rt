// Arrays as texts: a letter for the type, the sizes in brackets, a colon and the items.
use cdl_array::EvalFault;
use cdl_values::{Array, Value, ValueType};
use std::alloc::{AllocError, Global};

fn letter_of(value_type: ValueType) -> &'static str {
    match value_type {
        ValueType::Boolean => "B",
        ValueType::Integer => "I",
        ValueType::Real => "R",
        ValueType::Str => "S",
        ValueType::Enumeration(_) => "E",
    }
}

fn show_value(alloc: Global, value: &Value) -> Result<String, AllocError> {
    match value {
        Value::Boolean(b) => String::from_str(alloc, if *b { "1" } else { "0" }),
        Value::Integer(z) => format!(in alloc; "{z}"),
        Value::Real(x) => {
            let count = x.count();
            format!(in alloc; "{count}")
        }
        Value::Str(text) => {
            let mut shown = String::new(alloc);
            for byte in text.bytes() {
                shown.push(*byte as char)?;
            }
            Ok(shown)
        }
        Value::Enumeration { ordinal, .. } => format!(in alloc; "{ordinal}"),
    }
}

// The sizes of a shape, with commas between them.
pub fn show_sizes(alloc: Global, shape: &[u32]) -> Result<String, AllocError> {
    let mut text = String::new(alloc);
    for (i, size) in shape.iter().enumerate() {
        text.push_str(if i == 0 { "" } else { "," })?;
        let size = format!(in alloc; "{size}")?;
        text.push_str(size.as_str())?;
    }
    Ok(text)
}

// The text of an array.
pub fn show(alloc: Global, array: &Array) -> Result<String, AllocError> {
    let mut text = String::from_str(alloc, letter_of(array.value_type))?;
    if !array.shape.items().is_empty() {
        let sizes = show_sizes(alloc, array.shape.items())?;
        text.push_str("[")?;
        text.push_str(sizes.as_str())?;
        text.push_str("]")?;
    }
    text.push_str(":")?;
    for (i, item) in array.items.items().iter().enumerate() {
        text.push_str(if i == 0 { "" } else { "," })?;
        let shown = show_value(alloc, item)?;
        text.push_str(shown.as_str())?;
    }
    Ok(text)
}

pub fn show_fault(alloc: Global, fault: EvalFault) -> Result<String, AllocError> {
    match fault {
        EvalFault::Rule(rule) => format!(in alloc; "C{rule}"),
        EvalFault::OutOfMemory => String::from_str(alloc, "no memory"),
    }
}
