// The tokens of a file, or the first rule that it breaks.
ghost use Rattle.std.specs.Prelude.{◌≡◌, ◌<◌, ◌^◌, length, IfOk, IfErr, IfNone, List as Listed};
ghost use Rattle.std.specs.Str.{IsUtf8};
ghost use Rattle.cdl_source.specs.declared.place.Token.{Token as Item};
ghost use Rattle.cdl_lex.specs.Found.{IsFirst};
ghost use Rattle.cdl_lex.specs.declared.lexer.LexFault.TheVariants.{Rule};
ghost use Rattle.cdl_lex.specs.Rules.{IsTooLong, IsNotUtf8, BreaksNone};
ghost use Rattle.cdl_lex.specs.Splits.{Splits};
ghost use Rattle.cdl_lex.specs.Verdict.{IsRefusal};

use crate::counts::too_many;
use crate::depth::too_deep;
use crate::literals::past_limits;
use crate::split::{Splitting, split};
use crate::tokens::Tokens;
use cdl_source::rules::{
    EXPRESSION_TOO_LONG, MODEL_TOO_LONG, NESTED_TOO_DEEPLY, NO_TOKEN, NOT_UTF8, PAST_LIMITS,
};
use cdl_source::{LONGEST_MODEL, OutOfMemory, Place, Text};
use std::alloc::Global;

/// Why a text has no tokens.
#[derive(Clone, Copy, Debug, PartialEq, Eq)]
pub enum LexFault {
    /// The text breaks the rule of this number, at this place.
    Rule { rule: u32, place: Place },
    OutOfMemory,
}

impl From<OutOfMemory> for LexFault {
    ghost use Rattle.std.specs.Prelude.{◌≡◌};
    ghost use Rattle.cdl_lex.specs.declared.lexer.LexFault.TheVariants.{OutOfMemory};

    ghost from_gives = { λ _ e. e ≡ OutOfMemory };

    fn from(_: OutOfMemory) -> Self {
        LexFault::OutOfMemory
    }
}

// Where the text is too long.
fn too_long(bytes: &[u8]) -> Option<u32>
    ensures { IsFirst (IsTooLong bytes.now) result }
{
    if bytes.len() > LONGEST_MODEL {
        Some(LONGEST_MODEL as u32)
    } else {
        None
    }
}

// Where the longest front of the text that is UTF-8 ends.
fn not_utf8(bytes: &[u8]) -> Option<u32>
    requires { length bytes.now < 2 ^ 32 }
    ensures first { IsFirst (IsNotUtf8 bytes.now) result }
    ensures utf8 { IfNone result (IsUtf8 bytes.now) }
{
    match std::str::from_utf8(bytes) {
        Ok(_) => None,
        Err(error) => Some(error.valid_up_to() as u32),
    }
}

fn broken(rule: u32, file: u32, byte: u32) -> LexFault
    ensures { result ≡ Rule rule (record { file = file; byte = byte }) }
{
    LexFault::Rule {
        rule,
        place: Place { file, byte },
    }
}

/// The tokens of the bytes of a file: at most `LONGEST_MODEL` bytes of UTF-8 that split into gaps and tokens, where each token is the
/// longest that begins at its place.
///
/// `Rule` names the first rule that the text breaks, by its number, and the first byte at which it is broken:
///
/// | rule | broken where |
/// |---|---|
/// | `MODEL_TOO_LONG` | there are more bytes than `LONGEST_MODEL`: at that byte |
/// | `NOT_UTF8` | the text is not UTF-8: at the end of its longest front that is UTF-8 |
/// | `NO_TOKEN` | neither a blank nor a comment nor a token begins: at that byte |
/// | `PAST_LIMITS` | a whole number is above `LARGEST_INTEGER`, a Real is refused by `cdl_decimal::parse`, or an identifier has more than 64 bytes: at its first byte |
/// | `NESTED_TOO_DEEPLY` | a token raises the depth of nesting to 65: at its first byte |
/// | `EXPRESSION_TOO_LONG` | a token is the 65th `if` or the 1,025th counted operator since the last `;`: at its first byte |
///
/// `OutOfMemory` comes where the allocator refuses. The time is linear in the bytes, and a token takes 12 bytes of memory.
pub fn lex(alloc: Global, file: u32, bytes: &[u8]) -> Result<Tokens, LexFault>
    // The text breaks no rule, and splits into the tokens that are given.
    ensures file { IfOk result (λ t. t.file ≡ file) }
    ensures bytes { IfOk result (λ t. t.bytes ≡ bytes.now) }
    ensures found { IfOk result (λ t. Splits bytes.now t.items) }
    ensures unbroken { IfOk result (λ t. BreaksNone bytes.now) }

    // It splits into no others.
    ensures only { IfOk result (λ t. (ts : Listed Item) → Splits bytes.now ts → ts ≡ t.items) }

    // The rule that is named is the first that is broken. So a text that breaks none is refused for want of memory alone.
    ensures refused { IfErr result (IsRefusal file bytes.now) }
{
    if let Some(at) = too_long(bytes) {
        return Err(broken(MODEL_TOO_LONG, file, at));
    }
    if let Some(at) = not_utf8(bytes) {
        return Err(broken(NOT_UTF8, file, at));
    }
    let items = match split(alloc, bytes)? {
        Splitting::Whole(items) => items,
        Splitting::Stuck(at) => return Err(broken(NO_TOKEN, file, at as u32)),
    };
    if let Some(at) = past_limits(bytes, items.items()) {
        return Err(broken(PAST_LIMITS, file, at));
    }
    if let Some(at) = too_deep(bytes, items.items()) {
        return Err(broken(NESTED_TOO_DEEPLY, file, at));
    }
    if let Some(at) = too_many(bytes, items.items()) {
        return Err(broken(EXPRESSION_TOO_LONG, file, at));
    }
    let mut text = Text::new(alloc);
    text.push(bytes)?;
    Ok(Tokens::new(file, text, items))
}
