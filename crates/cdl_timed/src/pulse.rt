// Pulses.
ghost use Rattle.std.specs.Prelude.{◌≡◌, ◌<ℤ◌, ◌*ℤ◌, ◌-ℤ◌, ◌*◌, ◌≤◌, [], length, pos, refl, unsigned_abs};
ghost use Rattle.std.specs.Int.{int_rem_euclid};
ghost use Rattle.std.specs.Int.RustNames.{int_lt};
ghost use Rattle.cdl_source.specs.declared.limits.TheConstants.{LARGEST_REAL};
ghost use Rattle.cdl_values.specs.History.{IsTime, booleans, typed};
ghost use Rattle.cdl_values.proofs.Laws.{by_all};
ghost use Rattle.cdl_kinds.specs.Meaning.Timers.{pulse};

use crate::times::put_flag;
use cdl_decimal::Real;
use cdl_kinds::{Elementary, Steps};
use cdl_values::NoValue;
use std::sync::ledger::Ledger;

// The count of a Real.
fn wide(a: Real) -> i128
    ensures value { result ≡ a }
    ensures small { unsigned_abs result ≤ LARGEST_REAL }
{
    a.count() as i128
}

// From the shift to a time, in millionths of a second.
fn from_shift(shift: Real, now: i64) -> i128
    requires { IsTime now }
    ensures value { result ≡ now *ℤ pos 1000 -ℤ shift }
    ensures small { unsigned_abs result ≤ 2 * LARGEST_REAL }
{
    now as i128 * 1000 - wide(shift)
}

// What is left after whole periods.
fn left(time: i128, period: i128) -> i128
    requires positive { pos 0 <ℤ period }
    requires small { unsigned_abs period ≤ LARGEST_REAL }
    requires small_time { unsigned_abs time ≤ 2 * LARGEST_REAL }
    ensures value { result ≡ int_rem_euclid time period }
    ensures small { unsigned_abs result ≤ LARGEST_REAL }
{
    time.rem_euclid(period)
}

// Where a time lies in its period, in millionths of a second.
fn place(period: Real, shift: Real, now: i64) -> i128
    requires positive { pos 0 <ℤ period }
    requires now { IsTime now }
    ensures value { result ≡ int_rem_euclid (now *ℤ pos 1000 -ℤ shift) period }
    ensures small { unsigned_abs result ≤ LARGEST_REAL }
{
    left(from_shift(shift, now), wide(period))
}

// The product, in full.
fn wide_product(a: Real, b: Real) -> i128
    ensures { result ≡ a *ℤ b }
{
    a.count() as i128 * b.count() as i128
}

// Whether the place, in millionths of the period, is below the width.
fn is_in_width(place: i128, width: Real, period: Real) -> bool
    requires { unsigned_abs place ≤ LARGEST_REAL }
    ensures { result ≡ int_lt (place *ℤ pos 1000000) (width *ℤ period) }
{
    place * 1_000_000 < wide_product(width, period)
}

/// True in the first part of each period, counted from the shift. The width is that part, as a share of the period.
#[derive(Clone, Copy, Drop)]
pub struct Pulse {
    pub width: Real,
    pub period: Real,
    pub shift: Real,
    pub ghost positive: { pos 0 <ℤ period },
}

impl Elementary for Pulse {
    ghost inputs = { λ _. typed [] };

    ghost width = { λ _. 0 };

    ghost results = { λ _. booleans 1 };

    ghost meaning = { λ b. pulse b.width b.period b.shift };

    ghost may_lack = { λ _ _ _. ⊥ };

    ghost stands = { λ _ state _. state ≡ [] };

    ghost is_sound = { λ _ state _. state ≡ [] };

    fn words(&self) -> usize {
        0
    }

    fn reset(&self, _state: &mut [i64]) {}

    fn sound(&self, state: &[i64], _last: i64) -> bool {
        state.is_empty()
    }

    fn emit<L: Ledger>(
        &self,
        _state: &[i64],
        now: i64,
        _ins: &[i64],
        outs: &mut [i64],
        steps: &mut Steps<L>,
    ) -> Result<(), NoValue> {
        steps.tick();
        let place = place(self.period, self.shift, now);
        put_flag(outs, is_in_width(place, self.width, self.period));
        Ok(())
    }

    fn absorb(&self, _state: &mut [i64], _now: i64, _ins: &[i64]) {}

    ghost idle = { λ _ _. (λ _ _ _ s. s, λ _ _ _ s. s) };

    ghost direct_only = { by_all (λ b. pulse b.width b.period b.shift) (typed []) (λ _. refl) };
}
