// A block of any kind without a memory.
ghost use Rattle.std.specs.Prelude.{◌≡◌, ℕ, ℤ, [], ◌∷◌, List, None, refl, true};
ghost use Rattle.cdl_memoryless.specs.declared.memoryless_block.MemorylessBlock.TheVariants.{Gate, Not, MultiGate, Switch, Constant, Choice, IntegerToReal, RealToInteger, Replicator, Magnitude, IntegerArithmetic, IntegerWithParameter, IntegerSum, Comparison, Threshold, RealArithmetic, RealWithParameter, RealSum, Extreme, Limiter, Line};
ghost use Rattle.cdl_values.proofs.Laws.{by_all};
ghost use Rattle.cdl_memoryless.specs.AtOnce.{all_direct};

use crate::extremes::Extreme;
use crate::gates::{Gate, MultiGate, Not, Switch};
use crate::integers::{Comparison, IntegerArithmetic, IntegerWithParameter, Threshold};
use crate::memoryless::Memoryless;
use crate::reals::{Limiter, Line, Magnitude, RealArithmetic, RealWithParameter};
use crate::sources::{Choice, Constant, IntegerToReal, RealToInteger, Replicator};
use crate::sums::{IntegerSum, RealSum};
use cdl_kinds::{Elementary, Steps};
use cdl_values::NoValue;
use std::sync::ledger::Ledger;

/// A block of any kind without a memory.
#[derive(Drop)]
pub enum MemorylessBlock {
    Gate(Gate),
    Not(Not),
    MultiGate(MultiGate),
    Switch(Switch),
    Constant(Constant),
    Choice(Choice),
    IntegerToReal(IntegerToReal),
    RealToInteger(RealToInteger),
    Replicator(Replicator),
    Magnitude(Magnitude),
    IntegerArithmetic(IntegerArithmetic),
    IntegerWithParameter(IntegerWithParameter),
    IntegerSum(IntegerSum),
    Comparison(Comparison),
    Threshold(Threshold),
    RealArithmetic(RealArithmetic),
    RealWithParameter(RealWithParameter),
    RealSum(RealSum),
    Extreme(Extreme),
    Limiter(Limiter),
    Line(Line),
}

macro_rules! each {
    ($block:expr, $b:ident => $call:expr) => {
        match $block {
            MemorylessBlock::Gate($b) => $call,
            MemorylessBlock::Not($b) => $call,
            MemorylessBlock::MultiGate($b) => $call,
            MemorylessBlock::Switch($b) => $call,
            MemorylessBlock::Constant($b) => $call,
            MemorylessBlock::Choice($b) => $call,
            MemorylessBlock::IntegerToReal($b) => $call,
            MemorylessBlock::RealToInteger($b) => $call,
            MemorylessBlock::Replicator($b) => $call,
            MemorylessBlock::Magnitude($b) => $call,
            MemorylessBlock::IntegerArithmetic($b) => $call,
            MemorylessBlock::IntegerWithParameter($b) => $call,
            MemorylessBlock::IntegerSum($b) => $call,
            MemorylessBlock::Comparison($b) => $call,
            MemorylessBlock::Threshold($b) => $call,
            MemorylessBlock::RealArithmetic($b) => $call,
            MemorylessBlock::RealWithParameter($b) => $call,
            MemorylessBlock::RealSum($b) => $call,
            MemorylessBlock::Extreme($b) => $call,
            MemorylessBlock::Limiter($b) => $call,
            MemorylessBlock::Line($b) => $call,
        }
    };
}

impl Memoryless for MemorylessBlock {
    ghost inputs = { elim [ Gate b ↦ ⟦<Gate as Memoryless>⟧.inputs b | Not b ↦ ⟦<Not as Memoryless>⟧.inputs b | MultiGate b ↦ ⟦<MultiGate as Memoryless>⟧.inputs b | Switch b ↦ ⟦<Switch as Memoryless>⟧.inputs b | Constant b ↦ ⟦<Constant as Memoryless>⟧.inputs b | Choice b ↦ ⟦<Choice as Memoryless>⟧.inputs b | IntegerToReal b ↦ ⟦<IntegerToReal as Memoryless>⟧.inputs b | RealToInteger b ↦ ⟦<RealToInteger as Memoryless>⟧.inputs b | Replicator b ↦ ⟦<Replicator as Memoryless>⟧.inputs b | Magnitude b ↦ ⟦<Magnitude as Memoryless>⟧.inputs b | IntegerArithmetic b ↦ ⟦<IntegerArithmetic as Memoryless>⟧.inputs b | IntegerWithParameter b ↦ ⟦<IntegerWithParameter as Memoryless>⟧.inputs b | IntegerSum b ↦ ⟦<IntegerSum as Memoryless>⟧.inputs b | Comparison b ↦ ⟦<Comparison as Memoryless>⟧.inputs b | Threshold b ↦ ⟦<Threshold as Memoryless>⟧.inputs b | RealArithmetic b ↦ ⟦<RealArithmetic as Memoryless>⟧.inputs b | RealWithParameter b ↦ ⟦<RealWithParameter as Memoryless>⟧.inputs b | RealSum b ↦ ⟦<RealSum as Memoryless>⟧.inputs b | Extreme b ↦ ⟦<Extreme as Memoryless>⟧.inputs b | Limiter b ↦ ⟦<Limiter as Memoryless>⟧.inputs b | Line b ↦ ⟦<Line as Memoryless>⟧.inputs b ] };

    ghost results = { elim [ Gate b ↦ ⟦<Gate as Memoryless>⟧.results b | Not b ↦ ⟦<Not as Memoryless>⟧.results b | MultiGate b ↦ ⟦<MultiGate as Memoryless>⟧.results b | Switch b ↦ ⟦<Switch as Memoryless>⟧.results b | Constant b ↦ ⟦<Constant as Memoryless>⟧.results b | Choice b ↦ ⟦<Choice as Memoryless>⟧.results b | IntegerToReal b ↦ ⟦<IntegerToReal as Memoryless>⟧.results b | RealToInteger b ↦ ⟦<RealToInteger as Memoryless>⟧.results b | Replicator b ↦ ⟦<Replicator as Memoryless>⟧.results b | Magnitude b ↦ ⟦<Magnitude as Memoryless>⟧.results b | IntegerArithmetic b ↦ ⟦<IntegerArithmetic as Memoryless>⟧.results b | IntegerWithParameter b ↦ ⟦<IntegerWithParameter as Memoryless>⟧.results b | IntegerSum b ↦ ⟦<IntegerSum as Memoryless>⟧.results b | Comparison b ↦ ⟦<Comparison as Memoryless>⟧.results b | Threshold b ↦ ⟦<Threshold as Memoryless>⟧.results b | RealArithmetic b ↦ ⟦<RealArithmetic as Memoryless>⟧.results b | RealWithParameter b ↦ ⟦<RealWithParameter as Memoryless>⟧.results b | RealSum b ↦ ⟦<RealSum as Memoryless>⟧.results b | Extreme b ↦ ⟦<Extreme as Memoryless>⟧.results b | Limiter b ↦ ⟦<Limiter as Memoryless>⟧.results b | Line b ↦ ⟦<Line as Memoryless>⟧.results b ] };

    ghost gives = { elim [ Gate b ↦ ⟦<Gate as Memoryless>⟧.gives b | Not b ↦ ⟦<Not as Memoryless>⟧.gives b | MultiGate b ↦ ⟦<MultiGate as Memoryless>⟧.gives b | Switch b ↦ ⟦<Switch as Memoryless>⟧.gives b | Constant b ↦ ⟦<Constant as Memoryless>⟧.gives b | Choice b ↦ ⟦<Choice as Memoryless>⟧.gives b | IntegerToReal b ↦ ⟦<IntegerToReal as Memoryless>⟧.gives b | RealToInteger b ↦ ⟦<RealToInteger as Memoryless>⟧.gives b | Replicator b ↦ ⟦<Replicator as Memoryless>⟧.gives b | Magnitude b ↦ ⟦<Magnitude as Memoryless>⟧.gives b | IntegerArithmetic b ↦ ⟦<IntegerArithmetic as Memoryless>⟧.gives b | IntegerWithParameter b ↦ ⟦<IntegerWithParameter as Memoryless>⟧.gives b | IntegerSum b ↦ ⟦<IntegerSum as Memoryless>⟧.gives b | Comparison b ↦ ⟦<Comparison as Memoryless>⟧.gives b | Threshold b ↦ ⟦<Threshold as Memoryless>⟧.gives b | RealArithmetic b ↦ ⟦<RealArithmetic as Memoryless>⟧.gives b | RealWithParameter b ↦ ⟦<RealWithParameter as Memoryless>⟧.gives b | RealSum b ↦ ⟦<RealSum as Memoryless>⟧.gives b | Extreme b ↦ ⟦<Extreme as Memoryless>⟧.gives b | Limiter b ↦ ⟦<Limiter as Memoryless>⟧.gives b | Line b ↦ ⟦<Line as Memoryless>⟧.gives b ] };

    fn give(&self, ins: &[i64], outs: &mut [i64]) -> Result<(), NoValue> {
        each!(self, b => b.give(ins, outs))
    }
}

impl Elementary for MemorylessBlock {
    ghost inputs = { λ b. all_direct (⟦<MemorylessBlock as Memoryless>⟧.inputs b) };

    ghost width = { λ _. 0 };

    ghost results = { λ b. ⟦<MemorylessBlock as Memoryless>⟧.results b };

    ghost meaning = { λ b _ _ x. ⟦<MemorylessBlock as Memoryless>⟧.gives b x };

    ghost may_lack = { λ b _ x. ⟦<MemorylessBlock as Memoryless>⟧.gives b x ≡ None };

    ghost stands = { λ _ state _. state ≡ [] };

    ghost is_sound = { λ _ state _. state ≡ [] };

    fn words(&self) -> usize {
        0
    }

    fn reset(&self, _state: &mut [i64]) {}

    fn sound(&self, state: &[i64], _last: i64) -> bool {
        state.is_empty()
    }

    #[tactic(auto, using(crate::proofs::Ready::all_values))]
    fn emit<L: Ledger>(
        &self,
        _state: &[i64],
        _now: i64,
        ins: &[i64],
        outs: &mut [i64],
        steps: &mut Steps<L>,
    ) -> Result<(), NoValue> {
        steps.tick();
        self.give(ins, outs)
    }

    fn absorb(&self, _state: &mut [i64], _now: i64, _ins: &[i64]) {}

    ghost idle = { λ _ _. (λ _ _ _ s. s, λ _ _ _ s. s) };

    ghost direct_only = { λ b h now x y s. by_all (λ c _ _ z. ⟦<MemorylessBlock as Memoryless>⟧.gives c z) (all_direct (⟦<MemorylessBlock as Memoryless>⟧.inputs b)) (λ _. refl) b h now x y s };
}
