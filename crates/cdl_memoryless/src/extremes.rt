// The greatest and the least of many Reals.
ghost use Rattle.std.specs.Prelude.{◌≡◌, ◌<◌, ◌≤◌, ℕ, length};
ghost use Rattle.cdl_decimal.specs.Near.{InRange};
ghost use Rattle.cdl_values.specs.History.{reals, word};
ghost use Rattle.cdl_kinds.specs.Meaning.Reals.{extreme};
ghost use Rattle.cdl_values.specs.Extremes.{greatest, least};
ghost use Rattle.cdl_memoryless.specs.AtOnce.{at_once};
ghost use Rattle.cdl_memoryless.specs.Extremes.{extreme_function};

use crate::integers::{greater, lesser};
use crate::memoryless::Memoryless;
use cdl_values::NoValue;
use cdl_values::words::put_one;

/// Which of many Reals a block gives.
#[derive(Clone, Copy, Drop)]
pub enum ExtremeOp {
    Max,
    Min,
}

// The greatest word.
fn greatest(words: &[i64]) -> i64
    requires some { 0 < length words.now }
    requires range { (i : ℕ) → i < length words.now → InRange (word words.now i) }
    ensures value { result ≡ greatest words.now }
    ensures range { InRange result }
{
    let mut best = words[0];
    for i in 1..words.len() {
        best = greater(best, words[i]);
    }
    best
}

// The least word.
fn least(words: &[i64]) -> i64
    requires some { 0 < length words.now }
    requires range { (i : ℕ) → i < length words.now → InRange (word words.now i) }
    ensures value { result ≡ least words.now }
    ensures range { InRange result }
{
    let mut best = words[0];
    for i in 1..words.len() {
        best = lesser(best, words[i]);
    }
    best
}

/// The greatest or the least of `nin` Reals, of which there is at least one.
#[derive(Clone, Copy, Drop)]
pub struct Extreme {
    pub op: ExtremeOp,
    pub nin: usize,
    pub ghost some: { 0 < nin },
}

impl Memoryless for Extreme {
    ghost inputs = { λ b. reals b.nin };

    ghost results = { λ _. reals 1 };

    ghost gives = { λ b. at_once (extreme (extreme_function b.op)) };

    fn give(&self, ins: &[i64], outs: &mut [i64]) -> Result<(), NoValue> {
        let found = match self.op {
            ExtremeOp::Max => greatest(ins),
            ExtremeOp::Min => least(ins),
        };
        put_one(outs, found);
        Ok(())
    }
}
