// The limits of literals and identifiers.
ghost use Rattle.std.specs.Prelude.{◌≡◌, ◌↔◌, ◌<◌, IsTrue, Err};
ghost use Rattle.cdl_source.specs.declared.limits.TheConstants.{LARGEST_INTEGER};
ghost use Rattle.cdl_decimal.specs.Spells.{number};
ghost use Rattle.cdl_lex.specs.Found.{IsFirst};
ghost use Rattle.cdl_lex.specs.Limits.{IsPast, IsRefused};
ghost use Rattle.cdl_lex.specs.Steps.{refuses};
ghost use Rattle.cdl_lex.specs.Rules.{HasPastLimits};
ghost use Rattle.cdl_lex.specs.TokenList.{LieWithin, Rise};

use crate::role::text_of;
use cdl_decimal::{DecimalError, parse};
use cdl_source::{LARGEST_INTEGER, LONGEST_IDENTIFIER, Token, TokenSort};

// The greatest whole number that a text may have.
const MOST_INTEGER: u64 = LARGEST_INTEGER as u64;

// The digits write too great a number.
fn is_great(digits: &[u8]) -> bool
    ensures { IsTrue result ↔ LARGEST_INTEGER < number digits.now }
{
    let mut number = 0u64;
    for digit in digits {
        number = number * 10 + digit.saturating_sub(b'0') as u64;
        if number > MOST_INTEGER {
            return true;
        }
    }
    false
}

fn is_limit(error: DecimalError) -> bool
    ensures { result ≡ refuses (Err error) }
{
    match error {
        DecimalError::NotDecimal => false,
        DecimalError::TooLong | DecimalError::OutOfRange => true,
    }
}

// The decimal text is refused for its length or its magnitude.
fn is_refused(text: &[u8]) -> bool
    ensures { IsTrue result ↔ IsRefused text.now }
{
    match parse(text) {
        Ok(_) => false,
        Err(error) => is_limit(error),
    }
}

fn is_past(sort: TokenSort, text: &[u8]) -> bool
    ensures { IsTrue result ↔ IsPast sort text.now }
{
    match sort {
        TokenSort::Identifier => text.len() > LONGEST_IDENTIFIER,
        TokenSort::Integer => is_great(text),
        TokenSort::Real => is_refused(text),
        TokenSort::Str | TokenSort::Keyword | TokenSort::Symbol => false,
    }
}

// The first byte of the first token that is past its limits.
pub(crate) fn past_limits(bytes: &[u8], tokens: &[Token]) -> Option<u32>
    requires within { LieWithin bytes.now tokens.now }
    requires rise { Rise tokens.now }
    ensures { IsFirst (HasPastLimits bytes.now tokens.now) result }
{
    for token in tokens {
        if is_past(token.sort, text_of(bytes, *token)) {
            return Some(token.span.start);
        }
    }
    None
}
