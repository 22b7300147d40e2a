// The table of the kinds: a row for each.
ghost use Rattle.std.specs.Prelude.{◌≡◌, ◌<◌, length};
ghost use Rattle.cdl_kinds.specs.Table.{row};
ghost use Rattle.cdl_kinds.specs.inner.Declared.{row_of};

use crate::conditions::Condition;
use crate::conditions::Condition::{Below, Count, NotNegative, Positive, Share, Window};
use crate::kind::Kind;
use crate::parameter::{
    DELAY_ON_INIT, DELAY_TIME, FALSE_HOLD_DURATION, H, INTEGER_FALSE, INTEGER_TRUE, K_B, K_I,
    K_I_EACH, K_R, K_R_EACH, LIMIT_ABOVE, LIMIT_BELOW, N, NIN, NOUT, P_I, P_R, PERIOD,
    PRE_U_START_B, PRE_U_START_I, PRE_Y_START, Parameter, REAL_FALSE, REAL_TRUE, SAMPLE_PERIOD,
    SHIFT, T_I, T_R, TRUE_HOLD_DURATION, U_HIGH, U_LOW, U_MAX, U_MIN, WIDTH, Y_START_I, Y_START_R,
};
use crate::ports::{
    CLR_B, DOWN_B, F1_R, F2_R, Group, PASSED_B, RESET_B, TRIGGER_B, U_B, U_B_EACH, U_I, U_I_EACH,
    U_R, U_R_EACH, U1_B, U1_I, U1_R, U2_B, U2_I, U2_R, U3_B, U3_I, U3_R, UP_B, X1_R, X2_R, Y_B,
    Y_B_EACH, Y_I, Y_I_EACH, Y_R, Y_R_EACH,
};
use crate::state_size::StateSize;
use crate::state_size::StateSize::{Samples, Words};

// What the table says of a kind.
#[derive(Clone, Copy, Drop)]
pub struct Row {
    pub name: &'static str,
    pub parameters: &'static [Parameter],
    pub conditions: &'static [Condition],
    pub ins: &'static [Group],
    pub outs: &'static [Group],
    // Whether the outputs rest on the inputs at once.
    pub direct: bool,
    pub state: StateSize,
}

// Name; parameters; conditions; inputs => outputs; state. The outputs rest on the inputs at once.
macro_rules! row {
    ($name:literal; $($parameter:ident),*; $($condition:expr),*; $($input:ident),* => $($output:ident),*; $state:expr) => {
        Row {
            name: $name,
            parameters: &[$($parameter),*],
            conditions: &[$($condition),*],
            ins: &[$($input),*],
            outs: &[$($output),*],
            direct: true,
            state: $state,
        }
    };
}

// The same where the outputs rest on inputs of earlier ticks alone.
macro_rules! late_row {
    ($name:literal; $($parameter:ident),*; $($condition:expr),*; $($input:ident),* => $($output:ident),*; $state:expr) => {
        Row {
            name: $name,
            parameters: &[$($parameter),*],
            conditions: &[$($condition),*],
            ins: &[$($input),*],
            outs: &[$($output),*],
            direct: false,
            state: $state,
        }
    };
}

// The row of a kind.
pub fn kind_row(kind: Kind) -> &'static Row
    ensures entry { row_of result.now ≡ row kind }
    ensures few { (length result.now.conditions.now < 16) × (length result.now.ins.now < 16) × (length result.now.outs.now < 16) }
{
    match kind {
        Kind::LogicalAnd => &row!("Logical.And";;; U1_B, U2_B => Y_B; Words(0)),
        Kind::LogicalOr => &row!("Logical.Or";;; U1_B, U2_B => Y_B; Words(0)),
        Kind::LogicalNand => &row!("Logical.Nand";;; U1_B, U2_B => Y_B; Words(0)),
        Kind::LogicalNor => &row!("Logical.Nor";;; U1_B, U2_B => Y_B; Words(0)),
        Kind::LogicalXor => &row!("Logical.Xor";;; U1_B, U2_B => Y_B; Words(0)),
        Kind::LogicalNot => &row!("Logical.Not";;; U_B => Y_B; Words(0)),
        Kind::LogicalMultiAnd =>
            &row!("Logical.MultiAnd"; NIN; Count(0); U_B_EACH => Y_B; Words(0)),
        Kind::LogicalMultiOr => &row!("Logical.MultiOr"; NIN; Count(0); U_B_EACH => Y_B; Words(0)),
        Kind::LogicalEdge => &row!("Logical.Edge"; PRE_U_START_B;; U_B => Y_B; Words(1)),
        Kind::LogicalFallingEdge =>
            &row!("Logical.FallingEdge"; PRE_U_START_B;; U_B => Y_B; Words(1)),
        Kind::LogicalChange => &row!("Logical.Change"; PRE_U_START_B;; U_B => Y_B; Words(1)),
        Kind::LogicalLatch => &row!("Logical.Latch";;; U_B, CLR_B => Y_B; Words(2)),
        Kind::LogicalToggle => &row!("Logical.Toggle";;; U_B, CLR_B => Y_B; Words(2)),
        Kind::LogicalPre => &late_row!("Logical.Pre"; PRE_U_START_B;; U_B => Y_B; Words(1)),
        Kind::LogicalSwitch => &row!("Logical.Switch";;; U1_B, U2_B, U3_B => Y_B; Words(0)),
        Kind::IntegersSwitch => &row!("Integers.Switch";;; U1_I, U2_B, U3_I => Y_I; Words(0)),
        Kind::RealsSwitch => &row!("Reals.Switch";;; U1_R, U2_B, U3_R => Y_R; Words(0)),
        Kind::LogicalTimer =>
            &row!("Logical.Timer"; T_R; NotNegative(0); U_B => Y_R, PASSED_B; Words(2)),
        Kind::LogicalTimerAccumulating =>
            &row!("Logical.TimerAccumulating"; T_R; NotNegative(0); U_B, RESET_B => Y_R, PASSED_B; Words(4)),
        Kind::LogicalTrueDelay =>
            &row!("Logical.TrueDelay"; DELAY_TIME, DELAY_ON_INIT; NotNegative(0); U_B => Y_B; Words(2)),
        Kind::LogicalTrueFalseHold =>
            &row!("Logical.TrueFalseHold"; TRUE_HOLD_DURATION, FALSE_HOLD_DURATION; NotNegative(0), NotNegative(1); U_B => Y_B; Words(2)),
        Kind::LogicalSourcesConstant => &row!("Logical.Sources.Constant"; K_B;; => Y_B; Words(0)),
        Kind::IntegersSourcesConstant => &row!("Integers.Sources.Constant"; K_I;; => Y_I; Words(0)),
        Kind::RealsSourcesConstant => &row!("Reals.Sources.Constant"; K_R;; => Y_R; Words(0)),
        Kind::LogicalSourcesPulse =>
            &row!("Logical.Sources.Pulse"; WIDTH, PERIOD, SHIFT; Share(0), Positive(1); => Y_B; Words(0)),
        Kind::IntegersAbs => &row!("Integers.Abs";;; U_I => Y_I; Words(0)),
        Kind::RealsAbs => &row!("Reals.Abs";;; U_R => Y_R; Words(0)),
        Kind::IntegersAdd => &row!("Integers.Add";;; U1_I, U2_I => Y_I; Words(0)),
        Kind::IntegersSubtract => &row!("Integers.Subtract";;; U1_I, U2_I => Y_I; Words(0)),
        Kind::IntegersMultiply => &row!("Integers.Multiply";;; U1_I, U2_I => Y_I; Words(0)),
        Kind::IntegersMax => &row!("Integers.Max";;; U1_I, U2_I => Y_I; Words(0)),
        Kind::IntegersMin => &row!("Integers.Min";;; U1_I, U2_I => Y_I; Words(0)),
        Kind::IntegersAddParameter => &row!("Integers.AddParameter"; P_I;; U_I => Y_I; Words(0)),
        Kind::IntegersMultiSum =>
            &row!("Integers.MultiSum"; NIN, K_I_EACH; Count(0); U_I_EACH => Y_I; Words(0)),
        Kind::IntegersEqual => &row!("Integers.Equal";;; U1_I, U2_I => Y_B; Words(0)),
        Kind::IntegersGreater => &row!("Integers.Greater";;; U1_I, U2_I => Y_B; Words(0)),
        Kind::IntegersGreaterEqual => &row!("Integers.GreaterEqual";;; U1_I, U2_I => Y_B; Words(0)),
        Kind::IntegersLess => &row!("Integers.Less";;; U1_I, U2_I => Y_B; Words(0)),
        Kind::IntegersLessEqual => &row!("Integers.LessEqual";;; U1_I, U2_I => Y_B; Words(0)),
        Kind::IntegersGreaterThreshold =>
            &row!("Integers.GreaterThreshold"; T_I;; U_I => Y_B; Words(0)),
        Kind::IntegersGreaterEqualThreshold =>
            &row!("Integers.GreaterEqualThreshold"; T_I;; U_I => Y_B; Words(0)),
        Kind::IntegersLessThreshold => &row!("Integers.LessThreshold"; T_I;; U_I => Y_B; Words(0)),
        Kind::IntegersLessEqualThreshold =>
            &row!("Integers.LessEqualThreshold"; T_I;; U_I => Y_B; Words(0)),
        Kind::IntegersChange =>
            &row!("Integers.Change"; PRE_U_START_I;; U_I => Y_B, UP_B, DOWN_B; Words(1)),
        Kind::IntegersOnCounter =>
            &row!("Integers.OnCounter"; Y_START_I;; TRIGGER_B, RESET_B => Y_I; Words(3)),
        Kind::RealsAdd => &row!("Reals.Add";;; U1_R, U2_R => Y_R; Words(0)),
        Kind::RealsSubtract => &row!("Reals.Subtract";;; U1_R, U2_R => Y_R; Words(0)),
        Kind::RealsMultiply => &row!("Reals.Multiply";;; U1_R, U2_R => Y_R; Words(0)),
        Kind::RealsDivide => &row!("Reals.Divide";;; U1_R, U2_R => Y_R; Words(0)),
        Kind::RealsMax => &row!("Reals.Max";;; U1_R, U2_R => Y_R; Words(0)),
        Kind::RealsMin => &row!("Reals.Min";;; U1_R, U2_R => Y_R; Words(0)),
        Kind::RealsAddParameter => &row!("Reals.AddParameter"; P_R;; U_R => Y_R; Words(0)),
        Kind::RealsMultiplyByParameter =>
            &row!("Reals.MultiplyByParameter"; K_R;; U_R => Y_R; Words(0)),
        Kind::RealsAverage => &row!("Reals.Average";;; U1_R, U2_R => Y_R; Words(0)),
        Kind::RealsModulo => &row!("Reals.Modulo";;; U1_R, U2_R => Y_R; Words(0)),
        Kind::RealsMultiSum =>
            &row!("Reals.MultiSum"; NIN, K_R_EACH; Count(0); U_R_EACH => Y_R; Words(0)),
        Kind::RealsMultiMax => &row!("Reals.MultiMax"; NIN; Count(0); U_R_EACH => Y_R; Words(0)),
        Kind::RealsMultiMin => &row!("Reals.MultiMin"; NIN; Count(0); U_R_EACH => Y_R; Words(0)),
        Kind::RealsGreater =>
            &row!("Reals.Greater"; H, PRE_Y_START; NotNegative(0); U1_R, U2_R => Y_B; Words(1)),
        Kind::RealsLess =>
            &row!("Reals.Less"; H, PRE_Y_START; NotNegative(0); U1_R, U2_R => Y_B; Words(1)),
        Kind::RealsGreaterThreshold =>
            &row!("Reals.GreaterThreshold"; T_R, H, PRE_Y_START; NotNegative(1); U_R => Y_B; Words(1)),
        Kind::RealsLessThreshold =>
            &row!("Reals.LessThreshold"; T_R, H, PRE_Y_START; NotNegative(1); U_R => Y_B; Words(1)),
        Kind::RealsHysteresis =>
            &row!("Reals.Hysteresis"; U_LOW, U_HIGH, PRE_Y_START; Below(0, 1); U_R => Y_B; Words(1)),
        Kind::RealsLimiter =>
            &row!("Reals.Limiter"; U_MAX, U_MIN; Below(1, 0); U_R => Y_R; Words(0)),
        Kind::RealsLine =>
            &row!("Reals.Line"; LIMIT_BELOW, LIMIT_ABOVE;; X1_R, F1_R, X2_R, F2_R, U_R => Y_R; Words(0)),
        Kind::ConversionsBooleanToInteger =>
            &row!("Conversions.BooleanToInteger"; INTEGER_TRUE, INTEGER_FALSE;; U_B => Y_I; Words(0)),
        Kind::ConversionsBooleanToReal =>
            &row!("Conversions.BooleanToReal"; REAL_TRUE, REAL_FALSE;; U_B => Y_R; Words(0)),
        Kind::ConversionsIntegerToReal =>
            &row!("Conversions.IntegerToReal";;; U_I => Y_R; Words(0)),
        Kind::ConversionsRealToInteger =>
            &row!("Conversions.RealToInteger";;; U_R => Y_I; Words(0)),
        Kind::DiscreteSampler =>
            &row!("Discrete.Sampler"; SAMPLE_PERIOD; Positive(0); U_R => Y_R; Words(2)),
        Kind::DiscreteZeroOrderHold =>
            &row!("Discrete.ZeroOrderHold"; SAMPLE_PERIOD; Positive(0); U_R => Y_R; Words(2)),
        Kind::DiscreteUnitDelay =>
            &late_row!("Discrete.UnitDelay"; SAMPLE_PERIOD, Y_START_R; Positive(0); U_R => Y_R; Words(3)),
        Kind::DiscreteTriggeredSampler =>
            &row!("Discrete.TriggeredSampler"; Y_START_R;; U_R, TRIGGER_B => Y_R; Words(2)),
        Kind::DiscreteTriggeredMax =>
            &row!("Discrete.TriggeredMax";;; U_R, TRIGGER_B => Y_R; Words(3)),
        Kind::DiscreteTriggeredMovingMean =>
            &row!("Discrete.TriggeredMovingMean"; N; Window(0); U_R, TRIGGER_B => Y_R; Samples(3)),
        Kind::RoutingBooleanScalarReplicator =>
            &row!("Routing.BooleanScalarReplicator"; NOUT; Count(0); U_B => Y_B_EACH; Words(0)),
        Kind::RoutingIntegerScalarReplicator =>
            &row!("Routing.IntegerScalarReplicator"; NOUT; Count(0); U_I => Y_I_EACH; Words(0)),
        Kind::RoutingRealScalarReplicator =>
            &row!("Routing.RealScalarReplicator"; NOUT; Count(0); U_R => Y_R_EACH; Words(0)),
    }
}
