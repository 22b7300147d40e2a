// Whole numbers times powers of ten, as counts.
ghost use Rattle.std.specs.Prelude.{◌≡◌, ◌^◌, ◌<◌, ◌≤◌, pos, ◌*ℤ◌, ◌<ℤ◌, unsigned_abs};
ghost use Rattle.cdl_source.specs.declared.limits.TheConstants.{LARGEST_REAL};
ghost use Rattle.cdl_decimal.specs.Near.{near, in_range};

use crate::Real;
use crate::real::{LIMIT, narrow, rounded};

fn power_of_ten(k: u32) -> i128
    requires { k ≤ 30 }
    ensures value { result ≡ pos (10 ^ k) }
    ensures positive { pos 0 <ℤ result }
    ensures small { unsigned_abs result ≤ 1000000000000000000000000000000 }
{
    10_i128.pow(k)
}

fn wide_scaled(n: i128, k: u32) -> i128
    requires small { unsigned_abs n ≤ LARGEST_REAL }
    requires few { k ≤ 16 }
    ensures { result ≡ n *ℤ pos (10 ^ k) }
{
    n * power_of_ten(k)
}

// The Real whose count is n times ten to the power k.
fn scaled_up(n: i128, k: u32) -> Option<Real>
    ensures { result ≡ in_range (n *ℤ pos (10 ^ k)) }
{
    if n == 0 {
        return Real::from_count(0);
    }
    if k > 16 {
        return None;
    }
    if n.unsigned_abs() > LIMIT as u128 {
        return None;
    }
    narrow(wide_scaled(n, k))
}

// The Real whose count is nearest to n divided by ten to the power k.
fn scaled_down(n: i128, k: u32) -> Option<Real>
    requires { unsigned_abs n < 1000000000000000000000000000000 }
    ensures { result ≡ in_range (near n (10 ^ k)) }
{
    if k > 30 {
        return Real::from_count(0);
    }
    rounded(n, power_of_ten(k))
}

// The Real whose count is nearest to n times ten to the power `up`, divided by ten to the power `down`.
pub(crate) fn scaled(n: i128, up: u32, down: u32) -> Option<Real>
    requires { unsigned_abs n < 1000000000000000000000000000000 }
    ensures { result ≡ in_range (near (n *ℤ pos (10 ^ up)) (10 ^ down)) }
{
    if down <= up {
        scaled_up(n, up - down)
    } else {
        scaled_down(n, down - up)
    }
}
