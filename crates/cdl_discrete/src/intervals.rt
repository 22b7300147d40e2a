// Sample intervals.
ghost use Rattle.std.specs.Prelude.{◌≡◌, ◌↔◌, ◌≤ℤ◌, ◌<ℤ◌, ◌*ℤ◌, IsTrue, pos};
ghost use Rattle.cdl_values.specs.History.{IsTime};
ghost use Rattle.cdl_kinds.specs.Meaning.Discrete.{interval};
ghost use Rattle.cdl_kinds.specs.States.{IsIntervalUpTo};

use cdl_decimal::Real;

/// The number of the sample interval in which a time lies, rounded down.
#[tactic(auto, using(crate::proofs::SampleIntervals::interval_known))]
pub fn interval(period: Real, now: i64) -> i64
    requires positive { pos 0 <ℤ period }
    requires now { IsTime now }
    ensures value { result ≡ interval period now }
    ensures low { pos 0 ≤ℤ result }
    ensures known { IsIntervalUpTo period now result }
{
    (now * 1000).div_euclid(period.count())
}

// The product, in full.
fn wide_product(a: i64, b: Real) -> i128
    ensures { result ≡ a *ℤ b }
{
    a as i128 * b.count() as i128
}

// A thousand times the time.
fn wide_thousand(time: i64) -> i128
    ensures { result ≡ time *ℤ pos 1000 }
{
    time as i128 * 1000
}

// Whether an interval begins no later than a time.
fn begins(period: Real, w: i64, last: i64) -> bool
    ensures { IsTrue result ↔ ((w *ℤ period) ≤ℤ (last *ℤ pos 1000)) }
{
    wide_product(w, period) <= wide_thousand(last)
}

/// Whether the word is that of a sample interval which begins no later than the last time, or -1 for none.
pub fn is_interval(period: Real, w: i64, last: i64) -> bool
    ensures { IsTrue result ↔ IsIntervalUpTo period last w }
{
    w == -1 || (0 <= w && begins(period, w, last))
}
