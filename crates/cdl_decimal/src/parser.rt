// Decimal texts as Reals.
ghost use Rattle.std.specs.Prelude.{◌≡◌, ℤ, Result};
ghost use Rattle.cdl_decimal.specs.Spells.{Parses};
ghost use Rattle.cdl_decimal.specs.Split.{parse_of};
ghost use Rattle.cdl_decimal.specs.declared.numeral.DecimalError.{DecimalError};

use crate::numeral::split;
use crate::{DecimalError, Real};

#[tactic(auto, unfolding(crate::specs::Split::parse_of))]
fn read(bytes: &[u8]) -> Result<Real, DecimalError>
    ensures { result ≡ parse_of bytes.now }
{
    let Some(numeral) = split(bytes) else {
        return Err(DecimalError::NotDecimal);
    };
    if numeral.is_long() {
        return Err(DecimalError::TooLong);
    }
    numeral.value().ok_or(DecimalError::OutOfRange)
}

/// The Real nearest to the number that a decimal text spells, and the even one where two are nearest. The form is an
/// optional `+` or `-`, one or more digits, optionally `.` and any number of digits, optionally `e` or `E`, an optional
/// sign and one or more digits. It takes no memory. The errors are judged in the order of `DecimalError`.
pub fn parse(bytes: &[u8]) -> Result<Real, DecimalError>
    ensures value { result ≡ parse_of bytes.now }
    ensures exact { Parses bytes.now result }
    ensures only { (r : Result ℤ DecimalError) → Parses bytes.now r → result ≡ r }
{
    read(bytes)
}
