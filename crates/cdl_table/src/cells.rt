// What one field of a table says.
ghost use Rattle.std.specs.Prelude.{◌≡◌, ◌≤◌, IfSome, IsTrue, Some, ◌↔◌, option_and_then};
ghost use Rattle.csv.specs.Records.{field_at, fields_of};
ghost use Rattle.cdl_table.specs.Cells.{boolean_word, integer_word, number_of, real_word, time_of, word_of};

use cdl_decimal::parse;
use cdl_source::{LARGEST_INTEGER, LATEST_TIME};
use cdl_values::ValueType;
use csv::ByteRecord;

// The most digits of the text of a time, and of the magnitude of an Integer.
const TIME_DIGITS: usize = 14;

const INTEGER_DIGITS: usize = 10;

// The number that at most so many decimal digits write, where it is not above `greatest`.
fn read_number(text: &[u8], most: usize, greatest: u64) -> Option<u64>
    requires { most ≤ 14 }
    ensures value { result ≡ number_of most greatest text.now }
    ensures bound { IfSome result (λ n. n ≤ greatest) }
{
    if text.is_empty() || text.len() > most {
        return None;
    }
    let mut number = 0u64;
    for digit in text {
        if !digit.is_ascii_digit() {
            return None;
        }
        number = 10 * number + u64::from(*digit - b'0');
    }
    if number <= greatest {
        Some(number)
    } else {
        None
    }
}

// The milliseconds of a field.
pub(crate) fn read_time(text: &[u8]) -> Option<i64>
    ensures { result ≡ time_of text.now }
{
    match read_number(text, TIME_DIGITS, LATEST_TIME) {
        Some(time) => Some(time as i64),
        None => None,
    }
}

// The word of a Boolean's text.
fn read_boolean(text: &[u8]) -> Option<i64>
    ensures { result ≡ boolean_word text.now }
{
    if text == b"true".as_slice() || text == b"1".as_slice() {
        Some(1)
    } else if text == b"false".as_slice() || text == b"0".as_slice() {
        Some(0)
    } else {
        None
    }
}

// The word of an Integer's text.
fn read_integer(text: &[u8]) -> Option<i64>
    ensures { result ≡ integer_word text.now }
{
    match text.split_first() {
        Some((b'-', digits)) => match read_number(digits, INTEGER_DIGITS, LARGEST_INTEGER as u64) {
            Some(magnitude) => Some(-(magnitude as i64)),
            None => None,
        },
        _ => match read_number(text, INTEGER_DIGITS, LARGEST_INTEGER as u64) {
            Some(number) => Some(number as i64),
            None => None,
        },
    }
}

// The word of a Real's text.
fn read_real(text: &[u8]) -> Option<i64>
    ensures { result ≡ real_word text.now }
{
    match parse(text) {
        Ok(value) => Some(value.count()),
        Err(_) => None,
    }
}

// The word of a field's text, as a value of this type.
fn read_word(value_type: ValueType, text: &[u8]) -> Option<i64>
    ensures { result ≡ word_of value_type text.now }
{
    match value_type {
        ValueType::Boolean => read_boolean(text),
        ValueType::Integer => read_integer(text),
        ValueType::Real => read_real(text),
        ValueType::Str => None,
        ValueType::Enumeration(_) => None,
    }
}

// The word of the field at this place of a record, as a value of this type.
pub(crate) fn word_at(csv_record: &ByteRecord, at: usize, value_type: ValueType) -> Option<i64>
    ensures { result ≡ option_and_then (word_of value_type) (field_at (fields_of csv_record.now) at) }
{
    match csv_record.get(at) {
        Some(text) => read_word(value_type, text),
        None => None,
    }
}

// Whether a record has this field at this place.
pub(crate) fn has_field(csv_record: &ByteRecord, at: usize, text: &[u8]) -> bool
    ensures { IsTrue result ↔ (field_at (fields_of csv_record.now) at ≡ Some text.now) }
{
    match csv_record.get(at) {
        Some(field) => field == text,
        None => false,
    }
}
