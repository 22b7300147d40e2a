// Quotients of whole numbers of 128 bits, rounded.
ghost use Rattle.std.specs.Prelude.{◌≡◌, ◌^◌, ◌<◌, pos, ◌<ℤ◌, unsigned_abs};
ghost use Rattle.cdl_decimal.specs.Near.{near, near_signed, modulo_of, rounds_down};

// Whether the quotient q, rounded down and with r left of d, is the nearest.
fn goes_down(q: i128, r: u128, d: u128) -> bool
    requires { r < 2 ^ 126 }
    ensures { result ≡ rounds_down d q r }
{
    2 * r < d || (2 * r == d && q.unsigned_abs() % 2 == 0)
}

// The whole number nearest to n / d, and even where two are nearest.
pub(crate) fn nearest(n: i128, d: i128) -> i128
    requires positive { pos 0 <ℤ d }
    requires divisor_small { unsigned_abs d < 2 ^ 126 }
    requires small { unsigned_abs n < 2 ^ 126 }
    ensures { result ≡ near n (unsigned_abs d) }
{
    let q = n.div_euclid(d);
    let r = n.rem_euclid(d).unsigned_abs();
    if goes_down(q, r, d.unsigned_abs()) {
        q
    } else {
        q + 1
    }
}

// The same at a divisor of either sign.
pub(crate) fn signed_nearest(n: i128, d: i128) -> i128
    requires divisor { ¬ (d ≡ pos 0) }
    requires divisor_small { unsigned_abs d < 2 ^ 126 }
    requires small { unsigned_abs n < 2 ^ 126 }
    ensures { result ≡ near_signed n d }
{
    if d < 0 {
        nearest(-n, -d)
    } else {
        nearest(n, d)
    }
}

// What is left of a, of the sign of b.
pub(crate) fn signed_left(a: i64, b: i64) -> i64
    requires divisor { ¬ (b ≡ pos 0) }
    requires divisor_small { unsigned_abs b < 2 ^ 62 }
    requires small { unsigned_abs a < 2 ^ 62 }
    ensures { result ≡ modulo_of a b }
{
    if b < 0 {
        -(-a).rem_euclid(-b)
    } else {
        a.rem_euclid(b)
    }
}
