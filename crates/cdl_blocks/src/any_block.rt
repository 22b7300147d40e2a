// A block of any kind.
ghost use Rattle.std.specs.Prelude.{◌≡◌, ◌+◌, ◌↔◌, ◌<ℤ◌, ℤ, List, MatchResult, None, OnErr, OnOk, Some, false, length, refl, unsigned_abs};
ghost use Rattle.std.proofs.Common.{arith};
ghost use Rattle.cdl_blocks.specs.declared.any_block.AnyBlock.TheVariants.{Memoryless, Edge, Pre, Memory, Hysteresis, IntegerChange, OnCounter, Timer, TimerAccumulating, TrueDelay, TrueFalseHold, Pulse, Sampler, UnitDelay, TriggeredSampler, TriggeredMax, TriggeredMovingMean};
ghost use Rattle.cdl_blocks.specs.Rules.{rule_direct};
ghost use Rattle.cdl_discrete.specs.Samples.{second_sample};
ghost use Rattle.cdl_kinds.specs.declared.kind.Kind.TheVariants.{DiscreteSampler, DiscreteTriggeredMovingMean, DiscreteUnitDelay, DiscreteZeroOrderHold, LogicalSourcesPulse};
ghost use Rattle.cdl_kinds.specs.Conditions.{Keeps};
ghost use Rattle.cdl_kinds.specs.Meaning.Discrete.{sampled, samples};
ghost use Rattle.cdl_kinds.specs.Meanings.{MayLack, meaning};
ghost use Rattle.cdl_kinds.specs.Ports.{inputs, outputs};
ghost use Rattle.cdl_kinds.specs.StateWords.{state_words};
ghost use Rattle.cdl_kinds.specs.States.{IsSound, Stands};
ghost use Rattle.cdl_memoryless.specs.AtOnce.{all_direct};
ghost use Rattle.cdl_memoryless.specs.MemorylessKinds.{is_memoryless};
ghost use Rattle.cdl_values.proofs.Laws.{by_all};
ghost use Rattle.cdl_values.specs.History.{AreReady, AreValues, History, IsHistory, IsLater, IsTime, word};
ghost use Rattle.cdl_values.specs.Values.{integer_at, real_at};

use crate::counter::OnCounter;
use crate::edges::{Edge, EdgeOp, Pre};
use crate::hysteresis::{Hysteresis, Rule};
use crate::integer_change::IntegerChange;
use crate::memory::{Memory, MemoryOp};
use cdl_discrete::{Sampler, TriggeredMax, TriggeredMovingMean, TriggeredSampler, UnitDelay};
use cdl_kinds::{Elementary, Kind, Params, Steps};
use cdl_memoryless::{Memoryless, MemorylessBlock, Whole, is_memoryless};
use cdl_timed::{Pulse, Timer, TimerAccumulating, TrueDelay, TrueFalseHold};
use cdl_values::NoValue;
use std::sync::ledger::Ledger;

/// A block of any kind. What it needs of its parameters it has read once, when it was made.
#[derive(Drop)]
pub enum AnyBlock {
    Memoryless(MemorylessBlock),
    Edge(Edge),
    Pre(Pre),
    Memory(Memory),
    Hysteresis(Hysteresis),
    IntegerChange(IntegerChange),
    OnCounter(OnCounter),
    Timer(Timer),
    TimerAccumulating(TimerAccumulating),
    TrueDelay(TrueDelay),
    TrueFalseHold(TrueFalseHold),
    Pulse(Pulse),
    Sampler(Sampler),
    UnitDelay(UnitDelay),
    TriggeredSampler(TriggeredSampler),
    TriggeredMax(TriggeredMax),
    TriggeredMovingMean(TriggeredMovingMean),
}

macro_rules! each {
    ($block:expr, $b:ident => $call:expr) => {
        match $block {
            AnyBlock::Memoryless($b) => $call,
            AnyBlock::Edge($b) => $call,
            AnyBlock::Pre($b) => $call,
            AnyBlock::Memory($b) => $call,
            AnyBlock::Hysteresis($b) => $call,
            AnyBlock::IntegerChange($b) => $call,
            AnyBlock::OnCounter($b) => $call,
            AnyBlock::Timer($b) => $call,
            AnyBlock::TimerAccumulating($b) => $call,
            AnyBlock::TrueDelay($b) => $call,
            AnyBlock::TrueFalseHold($b) => $call,
            AnyBlock::Pulse($b) => $call,
            AnyBlock::Sampler($b) => $call,
            AnyBlock::UnitDelay($b) => $call,
            AnyBlock::TriggeredSampler($b) => $call,
            AnyBlock::TriggeredMax($b) => $call,
            AnyBlock::TriggeredMovingMean($b) => $call,
        }
    };
}

#[tactic(auto, using(crate::proofs::Periods::sampler_period))]
fn sampler(params: &Params) -> Sampler
    requires { Keeps DiscreteSampler params.now }
    ensures { result.period ≡ real_at params.now 0 }
{
    Sampler {
        period: params.real(0),
    }
}

#[tactic(auto, using(crate::proofs::Periods::hold_period))]
fn zero_order_hold(params: &Params) -> Sampler
    requires { Keeps DiscreteZeroOrderHold params.now }
    ensures { result.period ≡ real_at params.now 0 }
{
    Sampler {
        period: params.real(0),
    }
}

#[tactic(auto, using(crate::proofs::Periods::delay_period))]
fn unit_delay(params: &Params) -> UnitDelay
    requires { Keeps DiscreteUnitDelay params.now }
    ensures period { result.period ≡ real_at params.now 0 }
    ensures start { result.start ≡ real_at params.now 1 }
{
    UnitDelay {
        period: params.real(0),
        start: params.real(1),
    }
}

#[tactic(auto, using(crate::proofs::Periods::pulse_period))]
fn pulse(params: &Params) -> Pulse
    requires { Keeps LogicalSourcesPulse params.now }
    ensures width { result.width ≡ real_at params.now 0 }
    ensures period { result.period ≡ real_at params.now 1 }
    ensures shift { result.shift ≡ real_at params.now 2 }
{
    Pulse {
        width: params.real(0),
        period: params.real(1),
        shift: params.real(2),
    }
}

#[tactic(auto, using(crate::proofs::Periods::window_size))]
fn moving_mean(params: &Params) -> TriggeredMovingMean
    requires { Keeps DiscreteTriggeredMovingMean params.now }
    ensures { result.size ≡ unsigned_abs (integer_at params.now 0) }
{
    TriggeredMovingMean {
        size: params.integer(0).unsigned_abs() as usize,
    }
}

impl AnyBlock {
    /// The block of the kind with these parameters: its ports, its state words and its meaning are those of the table, and a
    /// state stands for a history, and is sound for a time, as the table says. It takes no memory.
    pub fn new(kind: Kind, params: Params) -> AnyBlock
        requires keeps { Keeps kind params }
        ensures inputs { ⟦<AnyBlock as Elementary>⟧.inputs result ≡ inputs kind params }
        ensures results { ⟦<AnyBlock as Elementary>⟧.results result ≡ outputs kind params }
        ensures width { ⟦<AnyBlock as Elementary>⟧.width result ≡ state_words kind params }
        ensures meaning { ⟦<AnyBlock as Elementary>⟧.meaning result ≡ meaning kind params }
        ensures stands { (state : List ℤ) (h : History) → ⟦<AnyBlock as Elementary>⟧.stands result state h ↔ Stands kind params state h }
        ensures sound { (state : List ℤ) (last : ℤ) → ⟦<AnyBlock as Elementary>⟧.is_sound result state last ↔ IsSound kind params state last }
        ensures may_lack { (now : ℤ) (x : List ℤ) → ⟦<AnyBlock as Elementary>⟧.may_lack result now x → MayLack kind params now x }
    {
        if is_memoryless(kind) {
            AnyBlock::Memoryless(MemorylessBlock::new(kind, params))
        } else {
            AnyBlock::with_memory(kind, &params)
        }
    }

    // The block of a kind that remembers, or looks at the time.
    fn with_memory(kind: Kind, params: &Params) -> AnyBlock
        requires keeps { Keeps kind params.now }
        requires memory { is_memoryless kind ≡ false }
        ensures inputs { ⟦<AnyBlock as Elementary>⟧.inputs result ≡ inputs kind params.now }
        ensures results { ⟦<AnyBlock as Elementary>⟧.results result ≡ outputs kind params.now }
        ensures width { ⟦<AnyBlock as Elementary>⟧.width result ≡ state_words kind params.now }
        ensures meaning { ⟦<AnyBlock as Elementary>⟧.meaning result ≡ meaning kind params.now }
        ensures stands { (state : List ℤ) (h : History) → ⟦<AnyBlock as Elementary>⟧.stands result state h ↔ Stands kind params.now state h }
        ensures sound { (state : List ℤ) (last : ℤ) → ⟦<AnyBlock as Elementary>⟧.is_sound result state last ↔ IsSound kind params.now state last }
        ensures may_lack { (now : ℤ) (x : List ℤ) → ⟦<AnyBlock as Elementary>⟧.may_lack result now x → MayLack kind params.now now x }
    {
        match kind {
            Kind::LogicalEdge => AnyBlock::Edge(Edge {
                op: EdgeOp::Rising,
                start: params.boolean(0),
            }),
            Kind::LogicalFallingEdge => AnyBlock::Edge(Edge {
                op: EdgeOp::Falling,
                start: params.boolean(0),
            }),
            Kind::LogicalChange => AnyBlock::Edge(Edge {
                op: EdgeOp::Change,
                start: params.boolean(0),
            }),
            Kind::LogicalLatch => AnyBlock::Memory(Memory {
                op: MemoryOp::Latch,
            }),
            Kind::LogicalToggle => AnyBlock::Memory(Memory {
                op: MemoryOp::Toggle,
            }),
            Kind::LogicalPre => AnyBlock::Pre(Pre {
                start: params.boolean(0),
            }),
            Kind::LogicalTimer => AnyBlock::Timer(Timer {
                time: params.real(0),
            }),
            Kind::LogicalTimerAccumulating => AnyBlock::TimerAccumulating(TimerAccumulating {
                time: params.real(0),
            }),
            Kind::LogicalTrueDelay => AnyBlock::TrueDelay(TrueDelay {
                delay: params.real(0),
                on_init: params.boolean(1),
            }),
            Kind::LogicalTrueFalseHold => AnyBlock::TrueFalseHold(TrueFalseHold {
                true_hold: params.real(0),
                false_hold: params.real(1),
            }),
            Kind::LogicalSourcesPulse => AnyBlock::Pulse(pulse(params)),
            Kind::IntegersChange => AnyBlock::IntegerChange(IntegerChange {
                start: Whole::new(params.integer(0)),
            }),
            Kind::IntegersOnCounter => AnyBlock::OnCounter(OnCounter {
                start: Whole::new(params.integer(0)),
            }),
            Kind::RealsGreater => AnyBlock::Hysteresis(Hysteresis {
                rule: Rule::Above {
                    hysteresis: params.real(0),
                },
                start: params.boolean(1),
            }),
            Kind::RealsLess => AnyBlock::Hysteresis(Hysteresis {
                rule: Rule::Below {
                    hysteresis: params.real(0),
                },
                start: params.boolean(1),
            }),
            Kind::RealsGreaterThreshold => AnyBlock::Hysteresis(Hysteresis {
                rule: Rule::AboveThreshold {
                    threshold: params.real(0),
                    hysteresis: params.real(1),
                },
                start: params.boolean(2),
            }),
            Kind::RealsLessThreshold => AnyBlock::Hysteresis(Hysteresis {
                rule: Rule::BelowThreshold {
                    threshold: params.real(0),
                    hysteresis: params.real(1),
                },
                start: params.boolean(2),
            }),
            Kind::RealsHysteresis => AnyBlock::Hysteresis(Hysteresis {
                rule: Rule::Between {
                    low: params.real(0),
                    high: params.real(1),
                },
                start: params.boolean(2),
            }),
            Kind::DiscreteSampler => AnyBlock::Sampler(sampler(params)),
            Kind::DiscreteZeroOrderHold => AnyBlock::Sampler(zero_order_hold(params)),
            Kind::DiscreteUnitDelay => AnyBlock::UnitDelay(unit_delay(params)),
            Kind::DiscreteTriggeredSampler => AnyBlock::TriggeredSampler(TriggeredSampler {
                start: params.real(0),
            }),
            Kind::DiscreteTriggeredMax => AnyBlock::TriggeredMax(TriggeredMax),
            Kind::DiscreteTriggeredMovingMean => AnyBlock::TriggeredMovingMean(moving_mean(params)),
            _ => unreachable!(),
        }
    }
}

// Emits a block. It is no part of the loop over the steps of a tick, which is faster with the memoryless kinds alone in it.
#[inline(never)]
fn emit_apart<L: Ledger>(
    block: &AnyBlock,
    state: &[i64],
    now: i64,
    ins: &[i64],
    outs: &mut [i64],
    steps: &mut Steps<L>,
) -> Result<(), NoValue>
    requires apart { (b : MemorylessBlock) → block.now ≡ Memoryless b → ⊥ }
    requires state { length state.now ≡ ⟦<AnyBlock as Elementary>⟧.width block.now }
    requires outs { length outs.old ≡ (⟦<AnyBlock as Elementary>⟧.results block.now).count }
    requires time { IsTime now }
    requires ready { AreReady (⟦<AnyBlock as Elementary>⟧.inputs block.now) ins.now }
    requires sound { (last : ℤ) × (last <ℤ now) × ⟦<AnyBlock as Elementary>⟧.is_sound block.now state.now last }
    ensures step { steps.new ≡ steps.old + 1 }
    ensures typed { OnOk result (AreValues (⟦<AnyBlock as Elementary>⟧.results block.now) outs.new) }
    ensures gives { (h : History) → IsHistory (⟦<AnyBlock as Elementary>⟧.inputs block.now) (⟦<AnyBlock as Elementary>⟧.meaning block.now) h → IsLater now h → ⟦<AnyBlock as Elementary>⟧.stands block.now state.now h → MatchResult result (λ _. ⟦<AnyBlock as Elementary>⟧.meaning block.now h now ins.now ≡ Some outs.new) (λ _. ⟦<AnyBlock as Elementary>⟧.meaning block.now h now ins.now ≡ None) }
    ensures lacks { OnErr result (⟦<AnyBlock as Elementary>⟧.may_lack block.now now ins.now) }
{
    match block {
        AnyBlock::Memoryless(_) => unreachable!(),
        AnyBlock::Edge(b) => b.emit(state, now, ins, outs, steps),
        AnyBlock::Pre(b) => b.emit(state, now, ins, outs, steps),
        AnyBlock::Memory(b) => b.emit(state, now, ins, outs, steps),
        AnyBlock::Hysteresis(b) => b.emit(state, now, ins, outs, steps),
        AnyBlock::IntegerChange(b) => b.emit(state, now, ins, outs, steps),
        AnyBlock::OnCounter(b) => b.emit(state, now, ins, outs, steps),
        AnyBlock::Timer(b) => b.emit(state, now, ins, outs, steps),
        AnyBlock::TimerAccumulating(b) => b.emit(state, now, ins, outs, steps),
        AnyBlock::TrueDelay(b) => b.emit(state, now, ins, outs, steps),
        AnyBlock::TrueFalseHold(b) => b.emit(state, now, ins, outs, steps),
        AnyBlock::Pulse(b) => b.emit(state, now, ins, outs, steps),
        AnyBlock::Sampler(b) => b.emit(state, now, ins, outs, steps),
        AnyBlock::UnitDelay(b) => b.emit(state, now, ins, outs, steps),
        AnyBlock::TriggeredSampler(b) => b.emit(state, now, ins, outs, steps),
        AnyBlock::TriggeredMax(b) => b.emit(state, now, ins, outs, steps),
        AnyBlock::TriggeredMovingMean(b) => b.emit(state, now, ins, outs, steps),
    }
}

impl Elementary for AnyBlock {
    ghost inputs = { elim [ Memoryless b ↦ ⟦<MemorylessBlock as Elementary>⟧.inputs b | Edge b ↦ ⟦<Edge as Elementary>⟧.inputs b | Pre b ↦ ⟦<Pre as Elementary>⟧.inputs b | Memory b ↦ ⟦<Memory as Elementary>⟧.inputs b | Hysteresis b ↦ ⟦<Hysteresis as Elementary>⟧.inputs b | IntegerChange b ↦ ⟦<IntegerChange as Elementary>⟧.inputs b | OnCounter b ↦ ⟦<OnCounter as Elementary>⟧.inputs b | Timer b ↦ ⟦<Timer as Elementary>⟧.inputs b | TimerAccumulating b ↦ ⟦<TimerAccumulating as Elementary>⟧.inputs b | TrueDelay b ↦ ⟦<TrueDelay as Elementary>⟧.inputs b | TrueFalseHold b ↦ ⟦<TrueFalseHold as Elementary>⟧.inputs b | Pulse b ↦ ⟦<Pulse as Elementary>⟧.inputs b | Sampler b ↦ ⟦<Sampler as Elementary>⟧.inputs b | UnitDelay b ↦ ⟦<UnitDelay as Elementary>⟧.inputs b | TriggeredSampler b ↦ ⟦<TriggeredSampler as Elementary>⟧.inputs b | TriggeredMax b ↦ ⟦<TriggeredMax as Elementary>⟧.inputs b | TriggeredMovingMean b ↦ ⟦<TriggeredMovingMean as Elementary>⟧.inputs b ] };

    ghost width = { elim [ Memoryless b ↦ ⟦<MemorylessBlock as Elementary>⟧.width b | Edge b ↦ ⟦<Edge as Elementary>⟧.width b | Pre b ↦ ⟦<Pre as Elementary>⟧.width b | Memory b ↦ ⟦<Memory as Elementary>⟧.width b | Hysteresis b ↦ ⟦<Hysteresis as Elementary>⟧.width b | IntegerChange b ↦ ⟦<IntegerChange as Elementary>⟧.width b | OnCounter b ↦ ⟦<OnCounter as Elementary>⟧.width b | Timer b ↦ ⟦<Timer as Elementary>⟧.width b | TimerAccumulating b ↦ ⟦<TimerAccumulating as Elementary>⟧.width b | TrueDelay b ↦ ⟦<TrueDelay as Elementary>⟧.width b | TrueFalseHold b ↦ ⟦<TrueFalseHold as Elementary>⟧.width b | Pulse b ↦ ⟦<Pulse as Elementary>⟧.width b | Sampler b ↦ ⟦<Sampler as Elementary>⟧.width b | UnitDelay b ↦ ⟦<UnitDelay as Elementary>⟧.width b | TriggeredSampler b ↦ ⟦<TriggeredSampler as Elementary>⟧.width b | TriggeredMax b ↦ ⟦<TriggeredMax as Elementary>⟧.width b | TriggeredMovingMean b ↦ ⟦<TriggeredMovingMean as Elementary>⟧.width b ] };

    ghost results = { elim [ Memoryless b ↦ ⟦<MemorylessBlock as Elementary>⟧.results b | Edge b ↦ ⟦<Edge as Elementary>⟧.results b | Pre b ↦ ⟦<Pre as Elementary>⟧.results b | Memory b ↦ ⟦<Memory as Elementary>⟧.results b | Hysteresis b ↦ ⟦<Hysteresis as Elementary>⟧.results b | IntegerChange b ↦ ⟦<IntegerChange as Elementary>⟧.results b | OnCounter b ↦ ⟦<OnCounter as Elementary>⟧.results b | Timer b ↦ ⟦<Timer as Elementary>⟧.results b | TimerAccumulating b ↦ ⟦<TimerAccumulating as Elementary>⟧.results b | TrueDelay b ↦ ⟦<TrueDelay as Elementary>⟧.results b | TrueFalseHold b ↦ ⟦<TrueFalseHold as Elementary>⟧.results b | Pulse b ↦ ⟦<Pulse as Elementary>⟧.results b | Sampler b ↦ ⟦<Sampler as Elementary>⟧.results b | UnitDelay b ↦ ⟦<UnitDelay as Elementary>⟧.results b | TriggeredSampler b ↦ ⟦<TriggeredSampler as Elementary>⟧.results b | TriggeredMax b ↦ ⟦<TriggeredMax as Elementary>⟧.results b | TriggeredMovingMean b ↦ ⟦<TriggeredMovingMean as Elementary>⟧.results b ] };

    ghost meaning = { elim [ Memoryless b ↦ ⟦<MemorylessBlock as Elementary>⟧.meaning b | Edge b ↦ ⟦<Edge as Elementary>⟧.meaning b | Pre b ↦ ⟦<Pre as Elementary>⟧.meaning b | Memory b ↦ ⟦<Memory as Elementary>⟧.meaning b | Hysteresis b ↦ ⟦<Hysteresis as Elementary>⟧.meaning b | IntegerChange b ↦ ⟦<IntegerChange as Elementary>⟧.meaning b | OnCounter b ↦ ⟦<OnCounter as Elementary>⟧.meaning b | Timer b ↦ ⟦<Timer as Elementary>⟧.meaning b | TimerAccumulating b ↦ ⟦<TimerAccumulating as Elementary>⟧.meaning b | TrueDelay b ↦ ⟦<TrueDelay as Elementary>⟧.meaning b | TrueFalseHold b ↦ ⟦<TrueFalseHold as Elementary>⟧.meaning b | Pulse b ↦ ⟦<Pulse as Elementary>⟧.meaning b | Sampler b ↦ ⟦<Sampler as Elementary>⟧.meaning b | UnitDelay b ↦ ⟦<UnitDelay as Elementary>⟧.meaning b | TriggeredSampler b ↦ ⟦<TriggeredSampler as Elementary>⟧.meaning b | TriggeredMax b ↦ ⟦<TriggeredMax as Elementary>⟧.meaning b | TriggeredMovingMean b ↦ ⟦<TriggeredMovingMean as Elementary>⟧.meaning b ] };

    ghost may_lack = { elim [ Memoryless b ↦ ⟦<MemorylessBlock as Elementary>⟧.may_lack b | Edge b ↦ ⟦<Edge as Elementary>⟧.may_lack b | Pre b ↦ ⟦<Pre as Elementary>⟧.may_lack b | Memory b ↦ ⟦<Memory as Elementary>⟧.may_lack b | Hysteresis b ↦ ⟦<Hysteresis as Elementary>⟧.may_lack b | IntegerChange b ↦ ⟦<IntegerChange as Elementary>⟧.may_lack b | OnCounter b ↦ ⟦<OnCounter as Elementary>⟧.may_lack b | Timer b ↦ ⟦<Timer as Elementary>⟧.may_lack b | TimerAccumulating b ↦ ⟦<TimerAccumulating as Elementary>⟧.may_lack b | TrueDelay b ↦ ⟦<TrueDelay as Elementary>⟧.may_lack b | TrueFalseHold b ↦ ⟦<TrueFalseHold as Elementary>⟧.may_lack b | Pulse b ↦ ⟦<Pulse as Elementary>⟧.may_lack b | Sampler b ↦ ⟦<Sampler as Elementary>⟧.may_lack b | UnitDelay b ↦ ⟦<UnitDelay as Elementary>⟧.may_lack b | TriggeredSampler b ↦ ⟦<TriggeredSampler as Elementary>⟧.may_lack b | TriggeredMax b ↦ ⟦<TriggeredMax as Elementary>⟧.may_lack b | TriggeredMovingMean b ↦ ⟦<TriggeredMovingMean as Elementary>⟧.may_lack b ] };

    ghost stands = { elim [ Memoryless b ↦ ⟦<MemorylessBlock as Elementary>⟧.stands b | Edge b ↦ ⟦<Edge as Elementary>⟧.stands b | Pre b ↦ ⟦<Pre as Elementary>⟧.stands b | Memory b ↦ ⟦<Memory as Elementary>⟧.stands b | Hysteresis b ↦ ⟦<Hysteresis as Elementary>⟧.stands b | IntegerChange b ↦ ⟦<IntegerChange as Elementary>⟧.stands b | OnCounter b ↦ ⟦<OnCounter as Elementary>⟧.stands b | Timer b ↦ ⟦<Timer as Elementary>⟧.stands b | TimerAccumulating b ↦ ⟦<TimerAccumulating as Elementary>⟧.stands b | TrueDelay b ↦ ⟦<TrueDelay as Elementary>⟧.stands b | TrueFalseHold b ↦ ⟦<TrueFalseHold as Elementary>⟧.stands b | Pulse b ↦ ⟦<Pulse as Elementary>⟧.stands b | Sampler b ↦ ⟦<Sampler as Elementary>⟧.stands b | UnitDelay b ↦ ⟦<UnitDelay as Elementary>⟧.stands b | TriggeredSampler b ↦ ⟦<TriggeredSampler as Elementary>⟧.stands b | TriggeredMax b ↦ ⟦<TriggeredMax as Elementary>⟧.stands b | TriggeredMovingMean b ↦ ⟦<TriggeredMovingMean as Elementary>⟧.stands b ] };

    ghost is_sound = { elim [ Memoryless b ↦ ⟦<MemorylessBlock as Elementary>⟧.is_sound b | Edge b ↦ ⟦<Edge as Elementary>⟧.is_sound b | Pre b ↦ ⟦<Pre as Elementary>⟧.is_sound b | Memory b ↦ ⟦<Memory as Elementary>⟧.is_sound b | Hysteresis b ↦ ⟦<Hysteresis as Elementary>⟧.is_sound b | IntegerChange b ↦ ⟦<IntegerChange as Elementary>⟧.is_sound b | OnCounter b ↦ ⟦<OnCounter as Elementary>⟧.is_sound b | Timer b ↦ ⟦<Timer as Elementary>⟧.is_sound b | TimerAccumulating b ↦ ⟦<TimerAccumulating as Elementary>⟧.is_sound b | TrueDelay b ↦ ⟦<TrueDelay as Elementary>⟧.is_sound b | TrueFalseHold b ↦ ⟦<TrueFalseHold as Elementary>⟧.is_sound b | Pulse b ↦ ⟦<Pulse as Elementary>⟧.is_sound b | Sampler b ↦ ⟦<Sampler as Elementary>⟧.is_sound b | UnitDelay b ↦ ⟦<UnitDelay as Elementary>⟧.is_sound b | TriggeredSampler b ↦ ⟦<TriggeredSampler as Elementary>⟧.is_sound b | TriggeredMax b ↦ ⟦<TriggeredMax as Elementary>⟧.is_sound b | TriggeredMovingMean b ↦ ⟦<TriggeredMovingMean as Elementary>⟧.is_sound b ] };

    fn words(&self) -> usize {
        each!(self, b => b.words())
    }

    fn reset(&self, state: &mut [i64]) {
        each!(self, b => b.reset(state))
    }

    fn sound(&self, state: &[i64], last: i64) -> bool {
        each!(self, b => b.sound(state, last))
    }

    fn emit<L: Ledger>(
        &self,
        state: &[i64],
        now: i64,
        ins: &[i64],
        outs: &mut [i64],
        steps: &mut Steps<L>,
    ) -> Result<(), NoValue> {
        match self {
            AnyBlock::Memoryless(b) => b.emit(state, now, ins, outs, steps),
            _ => emit_apart(self, state, now, ins, outs, steps),
        }
    }

    fn absorb(&self, state: &mut [i64], now: i64, ins: &[i64]) {
        each!(self, b => b.absorb(state, now, ins))
    }

    ghost idle = { elim [ Memoryless _ ↦ λ _. (λ _ _ _ s. s, λ _ _ _ s. s) | Edge _ ↦ λ (w : 1 ≡ 0). absurd (omega (arith, w)) | Pre _ ↦ λ (w : 1 ≡ 0). absurd (omega (arith, w)) | Memory _ ↦ λ (w : 2 ≡ 0). absurd (omega (arith, w)) | Hysteresis _ ↦ λ (w : 1 ≡ 0). absurd (omega (arith, w)) | IntegerChange _ ↦ λ (w : 1 ≡ 0). absurd (omega (arith, w)) | OnCounter _ ↦ λ (w : 3 ≡ 0). absurd (omega (arith, w)) | Timer _ ↦ λ (w : 2 ≡ 0). absurd (omega (arith, w)) | TimerAccumulating _ ↦ λ (w : 4 ≡ 0). absurd (omega (arith, w)) | TrueDelay _ ↦ λ (w : 2 ≡ 0). absurd (omega (arith, w)) | TrueFalseHold _ ↦ λ (w : 2 ≡ 0). absurd (omega (arith, w)) | Pulse _ ↦ λ _. (λ _ _ _ s. s, λ _ _ _ s. s) | Sampler _ ↦ λ (w : 2 ≡ 0). absurd (omega (arith, w)) | UnitDelay _ ↦ λ (w : 3 ≡ 0). absurd (omega (arith, w)) | TriggeredSampler _ ↦ λ (w : 2 ≡ 0). absurd (omega (arith, w)) | TriggeredMax _ ↦ λ (w : 3 ≡ 0). absurd (omega (arith, w)) | TriggeredMovingMean b ↦ λ (w : b.size + 3 ≡ 0). absurd (omega (arith, w)) ] };

    ghost direct_only = { elim [ Memoryless b ↦ by_all (λ c _ _ z. ⟦<MemorylessBlock as Memoryless>⟧.gives c z) (all_direct (⟦<MemorylessBlock as Memoryless>⟧.inputs b)) (λ _. refl) b | Edge b ↦ by_all (λ c. ⟦<Edge as Elementary>⟧.meaning c) (⟦<Edge as Elementary>⟧.inputs b) (λ _. refl) b | Pre b ↦ λ _ _ _ _ _. refl | Memory b ↦ by_all (λ c. ⟦<Memory as Elementary>⟧.meaning c) (⟦<Memory as Elementary>⟧.inputs b) (λ _. refl) b | Hysteresis b ↦ by_all (λ c. ⟦<Hysteresis as Elementary>⟧.meaning c) (⟦<Hysteresis as Elementary>⟧.inputs b) (rule_direct b.rule) b | IntegerChange b ↦ by_all (λ c. ⟦<IntegerChange as Elementary>⟧.meaning c) (⟦<IntegerChange as Elementary>⟧.inputs b) (λ _. refl) b | OnCounter b ↦ by_all (λ c. ⟦<OnCounter as Elementary>⟧.meaning c) (⟦<OnCounter as Elementary>⟧.inputs b) (λ _. refl) b | Timer b ↦ by_all (λ c. ⟦<Timer as Elementary>⟧.meaning c) (⟦<Timer as Elementary>⟧.inputs b) (λ _. refl) b | TimerAccumulating b ↦ by_all (λ c. ⟦<TimerAccumulating as Elementary>⟧.meaning c) (⟦<TimerAccumulating as Elementary>⟧.inputs b) (λ _. refl) b | TrueDelay b ↦ by_all (λ c. ⟦<TrueDelay as Elementary>⟧.meaning c) (⟦<TrueDelay as Elementary>⟧.inputs b) (λ _. refl) b | TrueFalseHold b ↦ by_all (λ c. ⟦<TrueFalseHold as Elementary>⟧.meaning c) (⟦<TrueFalseHold as Elementary>⟧.inputs b) (λ _. refl) b | Pulse b ↦ by_all (λ c. ⟦<Pulse as Elementary>⟧.meaning c) (⟦<Pulse as Elementary>⟧.inputs b) (λ _. refl) b | Sampler b ↦ by_all (λ c. ⟦<Sampler as Elementary>⟧.meaning c) (⟦<Sampler as Elementary>⟧.inputs b) (λ _. refl) b | UnitDelay b ↦ λ h now x y _. second_sample b.start (samples b.period h now) (word x 0) (word y 0) (sampled b.period h) | TriggeredSampler b ↦ by_all (λ c. ⟦<TriggeredSampler as Elementary>⟧.meaning c) (⟦<TriggeredSampler as Elementary>⟧.inputs b) (λ _. refl) b | TriggeredMax b ↦ by_all (λ c. ⟦<TriggeredMax as Elementary>⟧.meaning c) (⟦<TriggeredMax as Elementary>⟧.inputs b) (λ _. refl) b | TriggeredMovingMean b ↦ by_all (λ c. ⟦<TriggeredMovingMean as Elementary>⟧.meaning c) (⟦<TriggeredMovingMean as Elementary>⟧.inputs b) (λ _. refl) b ] };
}
