// How many bytes the parts of literals and comments take.
ghost use Rattle.std.specs.Prelude.{◌≡◌, ◌≤◌, false, length, IfSome};
ghost use Rattle.cdl_lex.specs.Spellings as spec;
ghost use Rattle.cdl_lex.specs.Steps.{fraction_len, sign_len, exponent_len, tail_len, inside_len, block_len};

use crate::byte_set::ByteSet;

// A point and digits, where a point begins the bytes.
#[tactic(auto, unfolding(crate::specs::Steps::fraction_len))]
fn fraction_size(bytes: &[u8]) -> usize
    ensures size { result ≡ fraction_len bytes.now }
    ensures within { result ≤ length bytes.now }
{
    match bytes {
        [b'.', digits @ ..] => 1 + ByteSet::Digit.prefix(digits),
        _ => 0,
    }
}

#[tactic(auto, unfolding(crate::specs::Steps::sign_len))]
fn sign_size(bytes: &[u8]) -> usize
    ensures size { result ≡ sign_len bytes.now }
    ensures within { result ≤ length bytes.now }
    ensures limit { result ≤ 1 }
{
    match bytes {
        [b'+' | b'-', ..] => 1,
        _ => 0,
    }
}

// An exponent, where one begins the bytes.
#[tactic(auto, unfolding(crate::specs::Steps::exponent_len))]
fn exponent_size(bytes: &[u8]) -> usize
    ensures size { result ≡ exponent_len bytes.now }
    ensures within { result ≤ length bytes.now }
{
    let [b'e' | b'E', behind @ ..] = bytes else {
        return 0;
    };
    let sign = sign_size(behind);
    let digits = ByteSet::Digit.prefix(&behind[sign..]);
    if digits == 0 { 0 } else { 1 + sign + digits }
}

// What stands of a number behind its first digits.
#[tactic(auto, unfolding(crate::specs::Steps::tail_len))]
pub(crate) fn tail_size(bytes: &[u8]) -> usize
    ensures size { result ≡ tail_len bytes.now }
    ensures within { result ≤ length bytes.now }
{
    let fraction = fraction_size(bytes);
    fraction + exponent_size(&bytes[fraction..])
}

#[tactic(auto, unfolding(crate::specs::Spellings::is_escape))]
fn is_escape(byte: u8) -> bool
    ensures { result ≡ spec.is_escape byte }
{
    matches!(
        byte,
        b'\'' | b'"' | b'?' | b'\\' | b'a' | b'b' | b'f' | b'n' | b'r' | b't' | b'v'
    )
}

// What stands of a string behind its first quote, where it is closed.
pub(crate) fn inside_size(bytes: &[u8]) -> Option<usize>
    ensures size { result ≡ inside_len false bytes.now }
    ensures within { IfSome result (λ n. n ≤ length bytes.now) }
{
    let mut at = 0;
    let mut escape = false;
    while at < bytes.len() {
        let byte = bytes[at];
        at += 1;
        if escape {
            if !is_escape(byte) {
                return None;
            }
            escape = false;
        } else if byte == b'"' {
            return Some(at);
        } else {
            escape = byte == b'\\';
        }
    }
    None
}

// What stands of a comment behind `/*`, where it is closed.
pub(crate) fn block_size(bytes: &[u8]) -> Option<usize>
    ensures size { result ≡ block_len bytes.now }
    ensures within { IfSome result (λ n. n ≤ length bytes.now) }
{
    let mut at = 0;
    while at < bytes.len() {
        if bytes[at] == b'*' && at + 1 < bytes.len() && bytes[at + 1] == b'/' {
            return Some(at + 2);
        }
        at += 1;
    }
    None
}
