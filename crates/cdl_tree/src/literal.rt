// The values of literals.
ghost use Rattle.std.specs.Prelude.{◌≡◌, ◌≤◌, ℕ, false, List, Some, IfOk, IfSome, IfNone};
ghost use Rattle.cdl_source.specs.declared.limits.TheConstants.{LARGEST_INTEGER};
ghost use Rattle.cdl_tree.specs.Literals as spec;
ghost use Rattle.cdl_tree.specs.Literals.{IsString};
ghost use Rattle.cdl_tree.specs.inner.Strings as strings;

use cdl_source::{LARGEST_INTEGER, OutOfMemory, Text};
use std::alloc::Global;

// The number with a digit more, where it is not too great.
fn with_digit(number: u32, digit: u8) -> Option<u32>
    ensures { result ≡ spec.with_digit number digit }
{
    if !digit.is_ascii_digit() {
        return None;
    }
    let next = number as u64 * 10 + (digit - b'0') as u64;
    if next <= LARGEST_INTEGER as u64 {
        Some(next as u32)
    } else {
        None
    }
}

// The number that the digits write, where it is not too great.
fn number(text: &[u8]) -> Option<u32>
    ensures value { result ≡ spec.integer_from (Some 0) text.now }
    ensures limit { IfSome result (λ n. n ≤ LARGEST_INTEGER) }
{
    let mut number = 0;
    for digit in text {
        let Some(next) = with_digit(number, *digit) else {
            return None;
        };
        number = next;
    }
    Some(number)
}

/// The value of a whole number's text, None exactly where it is above `LARGEST_INTEGER` or where a byte is no digit.
#[tactic(auto, using(crate::proofs::Integers::integer_is))]
pub fn integer(text: &[u8]) -> Option<i32>
    ensures { result ≡ spec.integer_of text.now }
{
    match number(text) {
        Some(value) => Some(value as i32),
        None => None,
    }
}

const QUOTE: u8 = b'"';

const BACKSLASH: u8 = b'\\';

// The byte that an escape stands for, by the byte behind its backslash.
fn escaped(byte: u8) -> Option<u8>
    ensures { result ≡ spec.escaped byte }
{
    match byte {
        b'\'' | b'"' | b'?' | b'\\' => Some(byte),
        b'a' => Some(7),
        b'b' => Some(8),
        b'f' => Some(12),
        b'n' => Some(10),
        b'r' => Some(13),
        b't' => Some(9),
        b'v' => Some(11),
        _ => None,
    }
}

// What the bytes up to the closing quote mean.
#[tactic(auto, using(crate::proofs::Strings::one_byte))]
fn unescaped(alloc: Global, mut rest: &[u8]) -> Result<Option<Text>, OutOfMemory>
    ensures { IfOk result (λ s. s ≡ strings.unescaped false rest.entry.now) }
{
    let mut bytes = Text::new(alloc);
    let mut escape = false;
    while let [byte, tail @ ..] = rest {
        rest = tail;
        if escape {
            let Some(meant) = escaped(*byte) else {
                return Ok(None);
            };
            bytes.push(&[meant])?;
            escape = false;
        } else if *byte == QUOTE {
            return Ok(if rest.is_empty() { Some(bytes) } else { None });
        } else if *byte == BACKSLASH {
            escape = true;
        } else {
            bytes.push(&[*byte])?;
        }
    }
    Ok(None)
}

// What the text means, where a quote begins it.
#[tactic(auto, unfolding(crate::specs::inner::Strings::string_of))]
fn unquoted(alloc: Global, text: &[u8]) -> Result<Option<Text>, OutOfMemory>
    ensures { IfOk result (λ s. s ≡ strings.string_of text.now) }
{
    match text {
        [QUOTE, rest @ ..] => unescaped(alloc, rest),
        _ => Ok(None),
    }
}

/// The bytes that a string's text means: without its quotes, and one byte for each escape. It is None exactly where the
/// bytes are no string: a quote at each end and nowhere else, and behind each backslash one of `' " ? \ a b f n r t v`.
pub fn string(alloc: Global, text: &[u8]) -> Result<Option<Text>, OutOfMemory>
    ensures means { IfOk result (λ s. IfSome s (IsString text.now)) }
    ensures none { IfOk result (λ s. IfNone s ((value : List ℕ) → IsString text.now value → ⊥)) }
{
    unquoted(alloc, text)
}
