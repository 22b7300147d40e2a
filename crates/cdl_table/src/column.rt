// Columns of tables and of traces.
use cdl_source::Text;
use cdl_values::ValueType;

/// A column: its name in the header, and the type of its values. A value is one word: 0 or 1 for a Boolean, the number for an
/// Integer, the count of millionths for a Real. No text is a value of another type.
#[derive(Debug, Drop)]
pub struct Column {
    pub name: Text,
    pub value_type: ValueType,
}
