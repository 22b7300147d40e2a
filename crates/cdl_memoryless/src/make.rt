// The block of each kind without a memory.
ghost use Rattle.std.specs.Prelude.{◌≡◌, ◌↔◌, ◌<◌, ℤ, List, length, true};
ghost use Rattle.cdl_kinds.specs.declared.kind.Kind.TheVariants.{IntegersMultiSum, RealsMultiSum};
ghost use Rattle.cdl_kinds.specs.Conditions.{Keeps};
ghost use Rattle.cdl_kinds.specs.Meanings.{MayLack, meaning};
ghost use Rattle.cdl_kinds.specs.Ports.{inputs, outputs, nin_or_nout};
ghost use Rattle.cdl_values.specs.History.{History};
ghost use Rattle.cdl_values.specs.Values.{items_at};
ghost use Rattle.cdl_kinds.specs.StateWords.{state_words};
ghost use Rattle.cdl_kinds.specs.States.{IsSound, Stands};
ghost use Rattle.cdl_memoryless.specs.MemorylessKinds.{is_memoryless};

use crate::extremes::{Extreme, ExtremeOp};
use crate::gates::{Gate, GateOp, MultiGate, MultiGateOp, Not, Switch};
use crate::integers::{
    Comparison, ComparisonOp, IntegerArithmetic, IntegerOp, IntegerWithParameter, Threshold,
};
use crate::memoryless_block::MemorylessBlock;
use crate::reals::{Limiter, Line, Magnitude, RealArithmetic, RealOp, RealWithParameter};
use crate::scalar::Scalar;
use crate::sources::{Choice, Constant, IntegerToReal, RealToInteger, Replicator};
use crate::sums::{IntegerSum, RealSum};
use crate::whole::Whole;
use cdl_kinds::{Elementary, Kind, Params};
use cdl_source::List;
use cdl_values::{Value, ValueType};

/// Whether the blocks of the kind have no memory: they have no state words, and don't look at the time.
pub fn is_memoryless(kind: Kind) -> bool
    ensures { result ≡ is_memoryless kind }
{
    match kind {
        Kind::LogicalAnd => true,
        Kind::LogicalOr => true,
        Kind::LogicalNand => true,
        Kind::LogicalNor => true,
        Kind::LogicalXor => true,
        Kind::LogicalNot => true,
        Kind::LogicalMultiAnd => true,
        Kind::LogicalMultiOr => true,
        Kind::LogicalEdge => false,
        Kind::LogicalFallingEdge => false,
        Kind::LogicalChange => false,
        Kind::LogicalLatch => false,
        Kind::LogicalToggle => false,
        Kind::LogicalPre => false,
        Kind::LogicalSwitch => true,
        Kind::IntegersSwitch => true,
        Kind::RealsSwitch => true,
        Kind::LogicalTimer => false,
        Kind::LogicalTimerAccumulating => false,
        Kind::LogicalTrueDelay => false,
        Kind::LogicalTrueFalseHold => false,
        Kind::LogicalSourcesConstant => true,
        Kind::IntegersSourcesConstant => true,
        Kind::RealsSourcesConstant => true,
        Kind::LogicalSourcesPulse => false,
        Kind::IntegersAbs => true,
        Kind::RealsAbs => true,
        Kind::IntegersAdd => true,
        Kind::IntegersSubtract => true,
        Kind::IntegersMultiply => true,
        Kind::IntegersMax => true,
        Kind::IntegersMin => true,
        Kind::IntegersAddParameter => true,
        Kind::IntegersMultiSum => true,
        Kind::IntegersEqual => true,
        Kind::IntegersGreater => true,
        Kind::IntegersGreaterEqual => true,
        Kind::IntegersLess => true,
        Kind::IntegersLessEqual => true,
        Kind::IntegersGreaterThreshold => true,
        Kind::IntegersGreaterEqualThreshold => true,
        Kind::IntegersLessThreshold => true,
        Kind::IntegersLessEqualThreshold => true,
        Kind::IntegersChange => false,
        Kind::IntegersOnCounter => false,
        Kind::RealsAdd => true,
        Kind::RealsSubtract => true,
        Kind::RealsMultiply => true,
        Kind::RealsDivide => true,
        Kind::RealsMax => true,
        Kind::RealsMin => true,
        Kind::RealsAddParameter => true,
        Kind::RealsMultiplyByParameter => true,
        Kind::RealsAverage => true,
        Kind::RealsModulo => true,
        Kind::RealsMultiSum => true,
        Kind::RealsMultiMax => true,
        Kind::RealsMultiMin => true,
        Kind::RealsGreater => false,
        Kind::RealsLess => false,
        Kind::RealsGreaterThreshold => false,
        Kind::RealsLessThreshold => false,
        Kind::RealsHysteresis => false,
        Kind::RealsLimiter => true,
        Kind::RealsLine => true,
        Kind::ConversionsBooleanToInteger => true,
        Kind::ConversionsBooleanToReal => true,
        Kind::ConversionsIntegerToReal => true,
        Kind::ConversionsRealToInteger => true,
        Kind::DiscreteSampler => false,
        Kind::DiscreteZeroOrderHold => false,
        Kind::DiscreteUnitDelay => false,
        Kind::DiscreteTriggeredSampler => false,
        Kind::DiscreteTriggeredMax => false,
        Kind::DiscreteTriggeredMovingMean => false,
        Kind::RoutingBooleanScalarReplicator => true,
        Kind::RoutingIntegerScalarReplicator => true,
        Kind::RoutingRealScalarReplicator => true,
    }
}

// The extreme of as many inputs as the first parameter says.
fn extreme(op: ExtremeOp, params: &Params) -> Extreme
    requires { 0 < nin_or_nout params.now }
    ensures op { result.op ≡ op }
    ensures nin { result.nin ≡ nin_or_nout params.now }
{
    Extreme {
        op,
        nin: params.size(),
    }
}

// The items of the last of two parameters.
#[tactic(auto, using(crate::proofs::Factors::last_of_two))]
fn into_factors(params: Params) -> List<Value>
    requires { length params ≡ 2 }
    ensures { result ≡ items_at params 1 }
{
    let mut values = params.into_values();
    match values.pop() {
        Some(array) => array.items,
        None => unreachable!(),
    }
}

// The sum with the factors of the second parameter.
#[tactic(auto, using(crate::proofs::Factors::integer_factors))]
fn integer_sum(params: Params) -> IntegerSum
    requires { Keeps IntegersMultiSum params }
    ensures factors { result.factors ≡ items_at params 1 }
    ensures inputs { length result.factors ≡ nin_or_nout params }
{
    IntegerSum {
        factors: into_factors(params),
    }
}

// The sum with the factors of the second parameter.
#[tactic(auto, using(crate::proofs::Factors::real_factors))]
fn real_sum(params: Params) -> RealSum
    requires { Keeps RealsMultiSum params }
    ensures factors { result.factors ≡ items_at params 1 }
    ensures inputs { length result.factors ≡ nin_or_nout params }
{
    RealSum {
        factors: into_factors(params),
    }
}

impl MemorylessBlock {
    /// The block of a kind without a memory, with these parameters. It takes no memory of the machine.
    pub fn new(kind: Kind, params: Params) -> MemorylessBlock
        requires keeps { Keeps kind params }
        requires memoryless { is_memoryless kind ≡ true }
        ensures inputs { ⟦<MemorylessBlock as Elementary>⟧.inputs result ≡ inputs kind params }
        ensures results { ⟦<MemorylessBlock as Elementary>⟧.results result ≡ outputs kind params }
        ensures width { ⟦<MemorylessBlock as Elementary>⟧.width result ≡ state_words kind params }
        ensures meaning { ⟦<MemorylessBlock as Elementary>⟧.meaning result ≡ meaning kind params }
        ensures stands { (state : List ℤ) (h : History) → ⟦<MemorylessBlock as Elementary>⟧.stands result state h ↔ Stands kind params state h }
        ensures sound { (state : List ℤ) (last : ℤ) → ⟦<MemorylessBlock as Elementary>⟧.is_sound result state last ↔ IsSound kind params state last }
        ensures lacks { (now : ℤ) (x : List ℤ) → ⟦<MemorylessBlock as Elementary>⟧.may_lack result now x → MayLack kind params now x }
    {
        match kind {
            Kind::LogicalAnd => MemorylessBlock::Gate(Gate { op: GateOp::And }),
            Kind::LogicalOr => MemorylessBlock::Gate(Gate { op: GateOp::Or }),
            Kind::LogicalNand => MemorylessBlock::Gate(Gate { op: GateOp::Nand }),
            Kind::LogicalNor => MemorylessBlock::Gate(Gate { op: GateOp::Nor }),
            Kind::LogicalXor => MemorylessBlock::Gate(Gate { op: GateOp::Xor }),
            Kind::LogicalNot => MemorylessBlock::Not(Not),
            Kind::LogicalMultiAnd => MemorylessBlock::MultiGate(MultiGate {
                op: MultiGateOp::All,
                nin: params.size(),
            }),
            Kind::LogicalMultiOr => MemorylessBlock::MultiGate(MultiGate {
                op: MultiGateOp::Any,
                nin: params.size(),
            }),
            Kind::LogicalEdge => unreachable!(),
            Kind::LogicalFallingEdge => unreachable!(),
            Kind::LogicalChange => unreachable!(),
            Kind::LogicalLatch => unreachable!(),
            Kind::LogicalToggle => unreachable!(),
            Kind::LogicalPre => unreachable!(),
            Kind::LogicalSwitch => MemorylessBlock::Switch(Switch {
                value_type: ValueType::Boolean,
            }),
            Kind::IntegersSwitch => MemorylessBlock::Switch(Switch {
                value_type: ValueType::Integer,
            }),
            Kind::RealsSwitch => MemorylessBlock::Switch(Switch {
                value_type: ValueType::Real,
            }),
            Kind::LogicalTimer => unreachable!(),
            Kind::LogicalTimerAccumulating => unreachable!(),
            Kind::LogicalTrueDelay => unreachable!(),
            Kind::LogicalTrueFalseHold => unreachable!(),
            Kind::LogicalSourcesConstant => MemorylessBlock::Constant(Constant {
                value: Scalar::Boolean(params.boolean(0)),
            }),
            Kind::IntegersSourcesConstant => MemorylessBlock::Constant(Constant {
                value: Scalar::Integer(Whole::new(params.integer(0))),
            }),
            Kind::RealsSourcesConstant => MemorylessBlock::Constant(Constant {
                value: Scalar::Real(params.real(0)),
            }),
            Kind::LogicalSourcesPulse => unreachable!(),
            Kind::IntegersAbs => MemorylessBlock::Magnitude(Magnitude::Integer),
            Kind::RealsAbs => MemorylessBlock::Magnitude(Magnitude::Real),
            Kind::IntegersAdd => MemorylessBlock::IntegerArithmetic(IntegerArithmetic {
                op: IntegerOp::Add,
            }),
            Kind::IntegersSubtract => MemorylessBlock::IntegerArithmetic(IntegerArithmetic {
                op: IntegerOp::Subtract,
            }),
            Kind::IntegersMultiply => MemorylessBlock::IntegerArithmetic(IntegerArithmetic {
                op: IntegerOp::Multiply,
            }),
            Kind::IntegersMax => MemorylessBlock::IntegerArithmetic(IntegerArithmetic {
                op: IntegerOp::Max,
            }),
            Kind::IntegersMin => MemorylessBlock::IntegerArithmetic(IntegerArithmetic {
                op: IntegerOp::Min,
            }),
            Kind::IntegersAddParameter => MemorylessBlock::IntegerWithParameter(
                IntegerWithParameter {
                    op: IntegerOp::Add,
                    parameter: Whole::new(params.integer(0)),
                },
            ),
            Kind::IntegersMultiSum => MemorylessBlock::IntegerSum(integer_sum(params)),
            Kind::IntegersEqual => MemorylessBlock::Comparison(Comparison {
                op: ComparisonOp::Equal,
            }),
            Kind::IntegersGreater => MemorylessBlock::Comparison(Comparison {
                op: ComparisonOp::Greater,
            }),
            Kind::IntegersGreaterEqual => MemorylessBlock::Comparison(Comparison {
                op: ComparisonOp::GreaterEqual,
            }),
            Kind::IntegersLess => MemorylessBlock::Comparison(Comparison {
                op: ComparisonOp::Less,
            }),
            Kind::IntegersLessEqual => MemorylessBlock::Comparison(Comparison {
                op: ComparisonOp::LessEqual,
            }),
            Kind::IntegersGreaterThreshold => MemorylessBlock::Threshold(Threshold {
                op: ComparisonOp::Greater,
                threshold: params.integer(0),
            }),
            Kind::IntegersGreaterEqualThreshold => MemorylessBlock::Threshold(Threshold {
                op: ComparisonOp::GreaterEqual,
                threshold: params.integer(0),
            }),
            Kind::IntegersLessThreshold => MemorylessBlock::Threshold(Threshold {
                op: ComparisonOp::Less,
                threshold: params.integer(0),
            }),
            Kind::IntegersLessEqualThreshold => MemorylessBlock::Threshold(Threshold {
                op: ComparisonOp::LessEqual,
                threshold: params.integer(0),
            }),
            Kind::IntegersChange => unreachable!(),
            Kind::IntegersOnCounter => unreachable!(),
            Kind::RealsAdd => MemorylessBlock::RealArithmetic(RealArithmetic { op: RealOp::Add }),
            Kind::RealsSubtract => MemorylessBlock::RealArithmetic(RealArithmetic {
                op: RealOp::Subtract,
            }),
            Kind::RealsMultiply => MemorylessBlock::RealArithmetic(RealArithmetic {
                op: RealOp::Multiply,
            }),
            Kind::RealsDivide => MemorylessBlock::RealArithmetic(RealArithmetic {
                op: RealOp::Divide,
            }),
            Kind::RealsMax => MemorylessBlock::RealArithmetic(RealArithmetic { op: RealOp::Max }),
            Kind::RealsMin => MemorylessBlock::RealArithmetic(RealArithmetic { op: RealOp::Min }),
            Kind::RealsAddParameter => MemorylessBlock::RealWithParameter(RealWithParameter {
                op: RealOp::Add,
                parameter: params.real(0),
            }),
            Kind::RealsMultiplyByParameter => MemorylessBlock::RealWithParameter(
                RealWithParameter {
                    op: RealOp::Multiply,
                    parameter: params.real(0),
                },
            ),
            Kind::RealsAverage => MemorylessBlock::RealArithmetic(RealArithmetic {
                op: RealOp::Average,
            }),
            Kind::RealsModulo => MemorylessBlock::RealArithmetic(RealArithmetic {
                op: RealOp::Modulo,
            }),
            Kind::RealsMultiSum => MemorylessBlock::RealSum(real_sum(params)),
            Kind::RealsMultiMax => MemorylessBlock::Extreme(extreme(ExtremeOp::Max, &params)),
            Kind::RealsMultiMin => MemorylessBlock::Extreme(extreme(ExtremeOp::Min, &params)),
            Kind::RealsGreater => unreachable!(),
            Kind::RealsLess => unreachable!(),
            Kind::RealsGreaterThreshold => unreachable!(),
            Kind::RealsLessThreshold => unreachable!(),
            Kind::RealsHysteresis => unreachable!(),
            Kind::RealsLimiter => MemorylessBlock::Limiter(Limiter {
                most: params.real(0),
                least: params.real(1),
            }),
            Kind::RealsLine => MemorylessBlock::Line(Line {
                limit_below: params.boolean(0),
                limit_above: params.boolean(1),
            }),
            Kind::ConversionsBooleanToInteger => MemorylessBlock::Choice(Choice::Integer {
                on: Whole::new(params.integer(0)),
                off: Whole::new(params.integer(1)),
            }),
            Kind::ConversionsBooleanToReal => MemorylessBlock::Choice(Choice::Real {
                on: params.real(0),
                off: params.real(1),
            }),
            Kind::ConversionsIntegerToReal => MemorylessBlock::IntegerToReal(IntegerToReal),
            Kind::ConversionsRealToInteger => MemorylessBlock::RealToInteger(RealToInteger),
            Kind::DiscreteSampler => unreachable!(),
            Kind::DiscreteZeroOrderHold => unreachable!(),
            Kind::DiscreteUnitDelay => unreachable!(),
            Kind::DiscreteTriggeredSampler => unreachable!(),
            Kind::DiscreteTriggeredMax => unreachable!(),
            Kind::DiscreteTriggeredMovingMean => unreachable!(),
            Kind::RoutingBooleanScalarReplicator => MemorylessBlock::Replicator(Replicator {
                value_type: ValueType::Boolean,
                nout: params.size(),
            }),
            Kind::RoutingIntegerScalarReplicator => MemorylessBlock::Replicator(Replicator {
                value_type: ValueType::Integer,
                nout: params.size(),
            }),
            Kind::RoutingRealScalarReplicator => MemorylessBlock::Replicator(Replicator {
                value_type: ValueType::Real,
                nout: params.size(),
            }),
        }
    }
}
