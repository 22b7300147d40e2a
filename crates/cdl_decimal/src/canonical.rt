// The canonical texts of Reals.
ghost use Rattle.std.specs.Prelude.{◌≡◌, ◌+◌, ◌^◌, ◌<◌, ◌≤◌, ◌++◌, ◌∷◌, [], Ok, OnOk, IfOk};
ghost use Rattle.cdl_decimal.specs.Canon.{sign_of, decimal, places_of, point_of, canon};
ghost use Rattle.cdl_decimal.specs.Split.{parse_of};

use crate::Real;
use cdl_source::{OutOfMemory, Text};
use std::alloc::Global;

fn push_digit(text: &mut Text, digit: u64) -> Result<(), OutOfMemory>
    requires { digit < 10 }
    ensures { OnOk result (text.new ≡ text.old ++ (48 + digit) ∷ []) }
{
    text.push(&[b'0' + digit as u8])
}

fn power_of_ten(places: u32) -> u64
    requires { places < 6 }
    ensures value { result ≡ 10 ^ places }
    ensures positive { 0 < result }
{
    10_u64.pow(places)
}

// Adds a whole number in decimal.
fn push_whole(text: &mut Text, whole: u64) -> Result<(), OutOfMemory>
    ensures { OnOk result (text.new ≡ text.old ++ decimal whole) }
{
    if whole < 10 {
        return push_digit(text, whole);
    }
    push_whole(text, whole / 10)?;
    push_digit(text, whole % 10)
}

// Adds the digits behind the point of rest / 10 ^ places, without the zeros at their end.
fn push_places(text: &mut Text, rest: u64, places: u32) -> Result<(), OutOfMemory>
    requires few { places ≤ 6 }
    requires small { rest < 10 ^ places }
    ensures { OnOk result (text.new ≡ text.old ++ places_of places rest) }
{
    if rest == 0 {
        return Ok(());
    }
    let unit = power_of_ten(places - 1);
    push_digit(text, rest / unit)?;
    push_places(text, rest % unit, places - 1)
}

// Adds a point and its digits, where these are not all zero.
fn push_point(text: &mut Text, rest: u64) -> Result<(), OutOfMemory>
    requires { rest < 1000000 }
    ensures { OnOk result (text.new ≡ text.old ++ point_of rest) }
{
    if rest == 0 {
        return Ok(());
    }
    text.push(b".")?;
    push_places(text, rest, 6)
}

// Adds a `-`, where the value is negative.
fn push_sign(text: &mut Text, value: Real) -> Result<(), OutOfMemory>
    ensures { OnOk result (text.new ≡ text.old ++ sign_of value) }
{
    if value.count() < 0 {
        return text.push(b"-");
    }
    Ok(())
}

/// The canonical text: `-` if negative, the whole part, and where the rest is not zero `.` and its digits without
/// trailing zeros. `parse` reads it back as the value. The error is want of memory alone.
pub fn text(alloc: Global, value: Real) -> Result<Text, OutOfMemory>
    ensures canonical { IfOk result (λ t. t ≡ canon value) }
    ensures reads_back { IfOk result (λ t. parse_of t ≡ Ok value) }
{
    let magnitude = value.count().unsigned_abs();
    let mut text = Text::new(alloc);
    push_sign(&mut text, value)?;
    push_whole(&mut text, magnitude / 1_000_000)?;
    push_point(&mut text, magnitude % 1_000_000)?;
    Ok(text)
}
