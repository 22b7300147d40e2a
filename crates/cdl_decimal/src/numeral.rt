// The parts of a decimal text.
ghost use Rattle.std.specs.Prelude.{◌≡◌, ◌+◌, ◌*◌, ◌^◌, ◌<◌, ◌≤◌, length, None, Some, IfSome, MatchOption, false, cond, unsigned_abs};
ghost use Rattle.std.specs.Char.{is_ascii_digit};
ghost use Rattle.std.specs.List.{prefix_len, list_all};
ghost use Rattle.cdl_decimal.specs.Spells.{AllDigits, number, number_after, with_sign};
ghost use Rattle.cdl_decimal.specs.Split.{is_minus, after_sign, digits_front, digits_back, fraction_front, fraction_back, is_numeral, exponent_of, split, parts_of, is_long, count_of, significand, AreDigits};

use crate::Real;
use crate::scale::scaled;

/// Why bytes are no Real. The first that holds is given.
#[derive(Clone, Copy, Debug, PartialEq, Eq, Drop)]
pub enum DecimalError {
    /// The bytes have another form.
    NotDecimal,
    /// There are more than 30 digits before the exponent, or more than 3 in it.
    TooLong,
    /// The magnitude of the nearest count passes 10^16.
    OutOfRange,
}

// The signs of a decimal text, and its digits before the point, behind it, and in the exponent.
#[derive(Clone, Copy)]
pub(crate) struct Numeral<'a> {
    negative: bool,
    whole: &'a [u8],
    fraction: &'a [u8],
    exponent_negative: bool,
    exponent: &'a [u8],
}

// Whether a `-` stands in front, and what stands behind a sign.
fn take_sign(bytes: &[u8]) -> (bool, &[u8])
    ensures negative { result.0 ≡ is_minus bytes.now }
    ensures rest { result.1.now ≡ after_sign bytes.now }
{
    match bytes.split_first() {
        Some((b'-', rest)) => (true, rest),
        Some((b'+', rest)) => (false, rest),
        _ => (false, bytes),
    }
}

// The number of digits in front.
fn digits_len(bytes: &[u8]) -> usize
    ensures value { result ≡ prefix_len is_ascii_digit bytes.now }
    ensures within { result ≤ length bytes.now }
{
    bytes.iter().take_while(|b| b.is_ascii_digit()).count()
}

// The digits in front, and what stands behind them.
fn take_digits(bytes: &[u8]) -> (&[u8], &[u8])
    ensures front { result.0.now ≡ digits_front bytes.now }
    ensures back { result.1.now ≡ digits_back bytes.now }
{
    bytes.split_at(digits_len(bytes))
}

// The digits behind a point in front, and what stands behind them.
fn take_fraction(bytes: &[u8]) -> (&[u8], &[u8])
    ensures front { result.0.now ≡ fraction_front bytes.now }
    ensures back { result.1.now ≡ fraction_back bytes.now }
{
    match bytes.split_first() {
        Some((b'.', rest)) => take_digits(rest),
        _ => (&[], bytes),
    }
}

fn all_digits(bytes: &[u8]) -> bool
    ensures { result ≡ list_all is_ascii_digit bytes.now }
{
    bytes.iter().all(|b| b.is_ascii_digit())
}

fn is_numeral(bytes: &[u8]) -> bool
    ensures { result ≡ is_numeral bytes.now }
{
    !bytes.is_empty() && all_digits(bytes)
}

// Whether the exponent is negative, and its digits. None: the bytes are no exponent.
fn take_exponent(bytes: &[u8]) -> Option<(bool, &[u8])>
    ensures { MatchOption result (exponent_of bytes.now ≡ None) (λ e. exponent_of bytes.now ≡ Some (record { negative = e.0; digits = e.1.now })) }
{
    let Some((mark, rest)) = bytes.split_first() else {
        return Some((false, &[]));
    };
    let (negative, digits) = take_sign(rest);
    if (*mark == b'e' || *mark == b'E') && is_numeral(digits) {
        Some((negative, digits))
    } else {
        None
    }
}

#[tactic(auto, unfolding(crate::specs::Split::split))]
// The parts of a decimal text. None: the bytes are none.
pub(crate) fn split(bytes: &[u8]) -> Option<Numeral<'_>>
    ensures parts { MatchOption result (split bytes.now ≡ None) (λ n. split bytes.now ≡ Some (parts_of n)) }
    ensures digits { IfSome result (λ n. AreDigits (parts_of n)) }
{
    let (negative, body) = take_sign(bytes);
    let (whole, rest) = take_digits(body);
    let (fraction, last) = take_fraction(rest);
    let (exponent_negative, exponent) = take_exponent(last)?;
    if whole.is_empty() {
        return None;
    }
    Some(Numeral {
        negative,
        whole,
        fraction,
        exponent_negative,
        exponent,
    })
}

// The number that digits write behind those of n.
fn number_after(n: u128, digits: &[u8]) -> u128
    requires are_digits { AllDigits digits.now }
    requires small { (n + 1) * 10 ^ length digits.now ≤ 1000000000000000000000000000000 }
    ensures value { result ≡ number_after n digits.now }
    ensures below { result < (n + 1) * 10 ^ length digits.now }
{
    let mut sum = n;
    for digit in digits {
        sum = sum * 10 + u128::from(*digit - b'0');
    }
    sum
}

impl Numeral<'_> {
    // Whether there are more than 30 digits before the exponent, or more than 3 in it.
    pub(crate) fn is_long(&self) -> bool
        ensures { result ≡ is_long (parts_of self.now) }
    {
        self.whole.len() + self.fraction.len() > 30 || self.exponent.len() > 3
    }

    // The number that the digits before the exponent write.
    fn significand(&self) -> u128
        requires digits { AreDigits (parts_of self.now) }
        requires short { is_long (parts_of self.now) ≡ false }
        ensures value { result ≡ significand (parts_of self.now) }
        ensures small { result < 1000000000000000000000000000000 }
    {
        number_after(number_after(0, self.whole), self.fraction)
    }

    // The magnitude of the exponent.
    fn power(&self) -> u32
        requires digits { AreDigits (parts_of self.now) }
        requires short { is_long (parts_of self.now) ≡ false }
        ensures value { result ≡ number self.now.exponent.now }
        ensures small { result < 1000 }
    {
        number_after(0, self.exponent) as u32
    }

    // The digits before the exponent, with their sign.
    fn signed(&self) -> i128
        requires digits { AreDigits (parts_of self.now) }
        requires short { is_long (parts_of self.now) ≡ false }
        ensures value { result ≡ with_sign self.now.negative (significand (parts_of self.now)) }
        ensures small { unsigned_abs result < 1000000000000000000000000000000 }
    {
        let significand = self.significand() as i128;
        if self.negative {
            -significand
        } else {
            significand
        }
    }

    // The power of ten above the fraction line, of the fraction in millionths.
    fn up(&self) -> u32
        requires digits { AreDigits (parts_of self.now) }
        requires short { is_long (parts_of self.now) ≡ false }
        ensures { result ≡ 6 + cond self.now.exponent_negative 0 (number self.now.exponent.now) }
    {
        if self.exponent_negative {
            6
        } else {
            6 + self.power()
        }
    }

    // The power of ten below the fraction line.
    fn down(&self) -> u32
        requires digits { AreDigits (parts_of self.now) }
        requires short { is_long (parts_of self.now) ≡ false }
        ensures { result ≡ length self.now.fraction.now + cond self.now.exponent_negative (number self.now.exponent.now) 0 }
    {
        let places = self.fraction.len() as u32;
        if self.exponent_negative {
            places + self.power()
        } else {
            places
        }
    }

    // The count, where it is in range.
    pub(crate) fn value(&self) -> Option<Real>
        requires digits { AreDigits (parts_of self.now) }
        requires short { is_long (parts_of self.now) ≡ false }
        ensures { result ≡ count_of (parts_of self.now) }
    {
        scaled(self.signed(), self.up(), self.down())
    }
}
