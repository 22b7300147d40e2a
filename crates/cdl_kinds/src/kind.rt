// The kinds, and their names.
ghost use Rattle.std.specs.Prelude.{◌≡◌, List, ℕ, Option, Some, None, ◌↔◌};
ghost use Rattle.cdl_kinds.specs.Names.{found, kind_name, kinds};

use crate::table::kind_row;

/// The kinds of elementary blocks. The variant is the kind's name without its points.
#[derive(Clone, Copy, Debug, PartialEq, Eq, Drop)]
pub enum Kind {
    LogicalAnd,
    LogicalOr,
    LogicalNand,
    LogicalNor,
    LogicalXor,
    LogicalNot,
    LogicalMultiAnd,
    LogicalMultiOr,
    LogicalEdge,
    LogicalFallingEdge,
    LogicalChange,
    LogicalLatch,
    LogicalToggle,
    LogicalPre,
    LogicalSwitch,
    IntegersSwitch,
    RealsSwitch,
    LogicalTimer,
    LogicalTimerAccumulating,
    LogicalTrueDelay,
    LogicalTrueFalseHold,
    LogicalSourcesConstant,
    IntegersSourcesConstant,
    RealsSourcesConstant,
    LogicalSourcesPulse,
    IntegersAbs,
    RealsAbs,
    IntegersAdd,
    IntegersSubtract,
    IntegersMultiply,
    IntegersMax,
    IntegersMin,
    IntegersAddParameter,
    IntegersMultiSum,
    IntegersEqual,
    IntegersGreater,
    IntegersGreaterEqual,
    IntegersLess,
    IntegersLessEqual,
    IntegersGreaterThreshold,
    IntegersGreaterEqualThreshold,
    IntegersLessThreshold,
    IntegersLessEqualThreshold,
    IntegersChange,
    IntegersOnCounter,
    RealsAdd,
    RealsSubtract,
    RealsMultiply,
    RealsDivide,
    RealsMax,
    RealsMin,
    RealsAddParameter,
    RealsMultiplyByParameter,
    RealsAverage,
    RealsModulo,
    RealsMultiSum,
    RealsMultiMax,
    RealsMultiMin,
    RealsGreater,
    RealsLess,
    RealsGreaterThreshold,
    RealsLessThreshold,
    RealsHysteresis,
    RealsLimiter,
    RealsLine,
    ConversionsBooleanToInteger,
    ConversionsBooleanToReal,
    ConversionsIntegerToReal,
    ConversionsRealToInteger,
    DiscreteSampler,
    DiscreteZeroOrderHold,
    DiscreteUnitDelay,
    DiscreteTriggeredSampler,
    DiscreteTriggeredMax,
    DiscreteTriggeredMovingMean,
    RoutingBooleanScalarReplicator,
    RoutingIntegerScalarReplicator,
    RoutingRealScalarReplicator,
}

// In the order of the table.
static KINDS: [Kind; 78] = [
    Kind::LogicalAnd,
    Kind::LogicalOr,
    Kind::LogicalNand,
    Kind::LogicalNor,
    Kind::LogicalXor,
    Kind::LogicalNot,
    Kind::LogicalMultiAnd,
    Kind::LogicalMultiOr,
    Kind::LogicalEdge,
    Kind::LogicalFallingEdge,
    Kind::LogicalChange,
    Kind::LogicalLatch,
    Kind::LogicalToggle,
    Kind::LogicalPre,
    Kind::LogicalSwitch,
    Kind::IntegersSwitch,
    Kind::RealsSwitch,
    Kind::LogicalTimer,
    Kind::LogicalTimerAccumulating,
    Kind::LogicalTrueDelay,
    Kind::LogicalTrueFalseHold,
    Kind::LogicalSourcesConstant,
    Kind::IntegersSourcesConstant,
    Kind::RealsSourcesConstant,
    Kind::LogicalSourcesPulse,
    Kind::IntegersAbs,
    Kind::RealsAbs,
    Kind::IntegersAdd,
    Kind::IntegersSubtract,
    Kind::IntegersMultiply,
    Kind::IntegersMax,
    Kind::IntegersMin,
    Kind::IntegersAddParameter,
    Kind::IntegersMultiSum,
    Kind::IntegersEqual,
    Kind::IntegersGreater,
    Kind::IntegersGreaterEqual,
    Kind::IntegersLess,
    Kind::IntegersLessEqual,
    Kind::IntegersGreaterThreshold,
    Kind::IntegersGreaterEqualThreshold,
    Kind::IntegersLessThreshold,
    Kind::IntegersLessEqualThreshold,
    Kind::IntegersChange,
    Kind::IntegersOnCounter,
    Kind::RealsAdd,
    Kind::RealsSubtract,
    Kind::RealsMultiply,
    Kind::RealsDivide,
    Kind::RealsMax,
    Kind::RealsMin,
    Kind::RealsAddParameter,
    Kind::RealsMultiplyByParameter,
    Kind::RealsAverage,
    Kind::RealsModulo,
    Kind::RealsMultiSum,
    Kind::RealsMultiMax,
    Kind::RealsMultiMin,
    Kind::RealsGreater,
    Kind::RealsLess,
    Kind::RealsGreaterThreshold,
    Kind::RealsLessThreshold,
    Kind::RealsHysteresis,
    Kind::RealsLimiter,
    Kind::RealsLine,
    Kind::ConversionsBooleanToInteger,
    Kind::ConversionsBooleanToReal,
    Kind::ConversionsIntegerToReal,
    Kind::ConversionsRealToInteger,
    Kind::DiscreteSampler,
    Kind::DiscreteZeroOrderHold,
    Kind::DiscreteUnitDelay,
    Kind::DiscreteTriggeredSampler,
    Kind::DiscreteTriggeredMax,
    Kind::DiscreteTriggeredMovingMean,
    Kind::RoutingBooleanScalarReplicator,
    Kind::RoutingIntegerScalarReplicator,
    Kind::RoutingRealScalarReplicator,
];

/// The name of a kind, such as `Logical.And`. Under `Buildings.Controls.OBC.CDL` it is the class name of its blocks.
pub fn kind_name(kind: Kind) -> &'static str
    ensures { result.now ≡ kind_name kind }
{
    kind_row(kind).name
}

// The first of these kinds that has the name.
fn find_in(name: &str, kinds: &[Kind]) -> Option<Kind>
    ensures { result ≡ found name.now kinds.now }
{
    for kind in kinds {
        if kind_name(*kind) == name {
            return Some(*kind);
        }
    }
    None
}

/// The kind of this name, and none where it is the name of no kind.
pub fn find(name: &str) -> Option<Kind>
    ensures { (kind : Kind) → (result ≡ Some kind) ↔ (kind_name kind ≡ name.now) }
{
    find_in(name, &KINDS)
}
