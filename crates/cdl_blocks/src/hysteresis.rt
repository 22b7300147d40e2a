// Comparisons of Reals that hold on to what they gave.
ghost use Rattle.std.specs.Prelude.{◌≡◌, ◌+ℤ◌, ◌-ℤ◌, [], ◌∷◌, cond, length, pos};
ghost use Rattle.std.proofs.Common.{arith};
ghost use Rattle.std.specs.Int.RustNames.{int_le, int_lt};
ghost use Rattle.cdl_decimal.specs.Near.{InRange};
ghost use Rattle.cdl_values.specs.History.{AreValues, bit, booleans, is_on, word};
ghost use Rattle.cdl_values.proofs.Laws.{by_all};
ghost use Rattle.cdl_kinds.specs.Meaning.Reals.{remembered, remembering};
ghost use Rattle.cdl_blocks.specs.Rules.{rule_direct, rule_function, rule_inputs};

use cdl_decimal::Real;
use cdl_kinds::{Elementary, Steps};
use cdl_timed::checks::holds_boolean;
use cdl_values::NoValue;
use cdl_values::words::{bit, is_on, put_one, read_real};
use std::sync::ledger::Ledger;

/// What is compared. Where it held before, it holds on for as much as the hysteresis beyond.
#[derive(Clone, Copy, Drop)]
pub enum Rule {
    /// The first input is above the second.
    Above { hysteresis: Real },
    /// The first input is below the second.
    Below { hysteresis: Real },
    /// The input is above the threshold.
    AboveThreshold { threshold: Real, hysteresis: Real },
    /// The input is below the threshold.
    BelowThreshold { threshold: Real, hysteresis: Real },
    /// The input is above the high one, and then not below the low one.
    Between { low: Real, high: Real },
}

// The hysteresis where the rule held before, else 0.
fn margin(hysteresis: Real, on: bool) -> i64
    ensures value { result ≡ cond on hysteresis (pos 0) }
    ensures range { InRange result }
{
    if on { hysteresis.count() } else { 0 }
}

// Whether a is above b less the margin.
fn is_above(a: Real, b: Real, margin: i64) -> bool
    requires { InRange margin }
    ensures { result ≡ int_lt (b -ℤ margin) a }
{
    b.count() - margin < a.count()
}

// Whether a is below b and the margin.
fn is_below(a: Real, b: Real, margin: i64) -> bool
    requires { InRange margin }
    ensures { result ≡ int_lt a (b +ℤ margin) }
{
    a.count() < b.count() + margin
}

// Whether u is between, where it was before or was not.
fn is_between(u: Real, low: Real, high: Real, on: bool) -> bool
    ensures { result ≡ cond on (int_le low u) (int_lt high u) }
{
    if on {
        low.count() <= u.count()
    } else {
        high.count() < u.count()
    }
}

// Whether the rule holds, where it held before or did not.
fn holds(rule: &Rule, on: bool, ins: &[i64]) -> bool
    requires { AreValues (rule_inputs rule.now) ins.now }
    ensures { result ≡ rule_function rule.now on ins.now }
{
    match rule {
        Rule::Above { hysteresis } => {
            let margin = margin(*hysteresis, on);
            is_above(read_real(ins, 0), read_real(ins, 1), margin)
        }
        Rule::Below { hysteresis } => {
            let margin = margin(*hysteresis, on);
            is_below(read_real(ins, 0), read_real(ins, 1), margin)
        }
        Rule::AboveThreshold {
            threshold,
            hysteresis,
        } => {
            let margin = margin(*hysteresis, on);
            is_above(read_real(ins, 0), *threshold, margin)
        }
        Rule::BelowThreshold {
            threshold,
            hysteresis,
        } => {
            let margin = margin(*hysteresis, on);
            is_below(read_real(ins, 0), *threshold, margin)
        }
        Rule::Between { low, high } => is_between(read_real(ins, 0), *low, *high, on),
    }
}

// The output at the last tick.
#[derive(Clone, Copy, Drop)]
struct Given {
    on: bool,
}

impl Given {
    fn read(state: &[i64]) -> Given
        requires { length state.now ≡ 1 }
        ensures { result.on ≡ is_on (word state.now 0) }
    {
        Given {
            on: is_on(state, 0),
        }
    }

    fn write(self, state: &mut [i64])
        requires { length state.old ≡ 1 }
        ensures { state.new ≡ bit self.on ∷ [] }
    {
        put_one(state, bit(self.on));
    }
}

/// Whether a rule holds. At the first tick it held before as the start says.
#[derive(Clone, Copy, Drop)]
pub struct Hysteresis {
    pub rule: Rule,
    pub start: bool,
}

impl Elementary for Hysteresis {
    ghost inputs = { λ b. rule_inputs b.rule };

    ghost width = { λ _. 1 };

    ghost results = { λ _. booleans 1 };

    ghost meaning = { λ b. remembering (rule_function b.rule) b.start };

    ghost may_lack = { λ _ _ _. ⊥ };

    ghost stands = { λ b state h. state ≡ bit (remembered (rule_function b.rule) b.start h) ∷ [] };

    ghost is_sound = { λ _ state _. AreValues (booleans 1) state };

    fn words(&self) -> usize {
        1
    }

    fn reset(&self, state: &mut [i64]) {
        Given { on: self.start }.write(state);
    }

    fn sound(&self, state: &[i64], _last: i64) -> bool {
        holds_boolean(state)
    }

    fn emit<L: Ledger>(
        &self,
        state: &[i64],
        _now: i64,
        ins: &[i64],
        outs: &mut [i64],
        steps: &mut Steps<L>,
    ) -> Result<(), NoValue> {
        steps.tick();
        put_one(outs, bit(holds(&self.rule, Given::read(state).on, ins)));
        Ok(())
    }

    fn absorb(&self, state: &mut [i64], _now: i64, ins: &[i64]) {
        let given = Given {
            on: holds(&self.rule, Given::read(state).on, ins),
        };
        given.write(state);
    }

    ghost idle = { λ _ (w : 1 ≡ 0). absurd (omega (arith, w)) };

    ghost direct_only = { λ b h now x y s. by_all (λ c. remembering (rule_function c.rule) c.start) (rule_inputs b.rule) (rule_direct b.rule) b h now x y s };
}
