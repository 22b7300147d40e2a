// Parameters, and those that rows of the table name.
ghost use Rattle.std.specs.Prelude.{◌≡◌, map};
ghost use Rattle.cdl_kinds.specs.Parameters.{parameters, parameter_row};

use crate::kind::Kind;
use crate::table::kind_row;
use cdl_values::ValueType;

/// The default of a parameter.
#[derive(Clone, Copy, Debug, PartialEq, Eq, Drop)]
pub enum Preset {
    /// There is none, so a value has to be given.
    Absent,
    /// The value of the parameter of that number, counted from 0, of the same kind.
    Same(u32),
    /// 1 for each input.
    Ones,
    /// This Boolean.
    Boolean(bool),
    /// This Integer.
    Integer(i32),
    /// The Real of this count of millionths.
    Real(i64),
}

/// A parameter of a kind: its name, the type of its value, whether it has one value for each of the `nin` inputs, and its default.
#[derive(Clone, Copy, Debug, Drop)]
pub struct Parameter {
    pub name: &'static str,
    pub value_type: ValueType,
    pub per_nin: bool,
    pub preset: Preset,
}

// A parameter with one value.
macro_rules! parameter {
    ($name:literal, $value_type:ident, $preset:expr) => {
        Parameter {
            name: $name,
            value_type: ValueType::$value_type,
            per_nin: false,
            preset: $preset,
        }
    };
}

// The factors of a sum, one for each input.
macro_rules! factors {
    ($value_type:ident) => {
        Parameter {
            name: "k",
            value_type: ValueType::$value_type,
            per_nin: true,
            preset: Preset::Ones,
        }
    };
}

pub(crate) const NIN: Parameter = parameter!("nin", Integer, Preset::Absent);

pub(crate) const PRE_U_START_B: Parameter = parameter!(
    "pre_u_start",
    Boolean,
    Preset::Boolean(false)
);

pub(crate) const PRE_U_START_I: Parameter = parameter!("pre_u_start", Integer, Preset::Integer(0));

pub(crate) const T_R: Parameter = parameter!("t", Real, Preset::Real(0));

pub(crate) const T_I: Parameter = parameter!("t", Integer, Preset::Integer(0));

pub(crate) const DELAY_TIME: Parameter = parameter!("delayTime", Real, Preset::Absent);

pub(crate) const DELAY_ON_INIT: Parameter = parameter!(
    "delayOnInit",
    Boolean,
    Preset::Boolean(false)
);

pub(crate) const TRUE_HOLD_DURATION: Parameter = parameter!(
    "trueHoldDuration",
    Real,
    Preset::Absent
);

pub(crate) const FALSE_HOLD_DURATION: Parameter = parameter!(
    "falseHoldDuration",
    Real,
    Preset::Same(0)
);

pub(crate) const K_B: Parameter = parameter!("k", Boolean, Preset::Absent);

pub(crate) const K_I: Parameter = parameter!("k", Integer, Preset::Absent);

pub(crate) const K_R: Parameter = parameter!("k", Real, Preset::Absent);

pub(crate) const K_I_EACH: Parameter = factors!(Integer);

pub(crate) const K_R_EACH: Parameter = factors!(Real);

pub(crate) const WIDTH: Parameter = parameter!("width", Real, Preset::Real(500_000));

pub(crate) const PERIOD: Parameter = parameter!("period", Real, Preset::Absent);

pub(crate) const SHIFT: Parameter = parameter!("shift", Real, Preset::Real(0));

pub(crate) const P_I: Parameter = parameter!("p", Integer, Preset::Absent);

pub(crate) const P_R: Parameter = parameter!("p", Real, Preset::Absent);

pub(crate) const Y_START_I: Parameter = parameter!("y_start", Integer, Preset::Integer(0));

pub(crate) const Y_START_R: Parameter = parameter!("y_start", Real, Preset::Real(0));

pub(crate) const H: Parameter = parameter!("h", Real, Preset::Real(0));

pub(crate) const PRE_Y_START: Parameter = parameter!(
    "pre_y_start",
    Boolean,
    Preset::Boolean(false)
);

pub(crate) const U_LOW: Parameter = parameter!("uLow", Real, Preset::Absent);

pub(crate) const U_HIGH: Parameter = parameter!("uHigh", Real, Preset::Absent);

pub(crate) const U_MAX: Parameter = parameter!("uMax", Real, Preset::Absent);

pub(crate) const U_MIN: Parameter = parameter!("uMin", Real, Preset::Absent);

pub(crate) const LIMIT_BELOW: Parameter = parameter!("limitBelow", Boolean, Preset::Boolean(true));

pub(crate) const LIMIT_ABOVE: Parameter = parameter!("limitAbove", Boolean, Preset::Boolean(true));

pub(crate) const INTEGER_TRUE: Parameter = parameter!("integerTrue", Integer, Preset::Integer(1));

pub(crate) const INTEGER_FALSE: Parameter = parameter!("integerFalse", Integer, Preset::Integer(0));

pub(crate) const REAL_TRUE: Parameter = parameter!("realTrue", Real, Preset::Real(1_000_000));

pub(crate) const REAL_FALSE: Parameter = parameter!("realFalse", Real, Preset::Real(0));

pub(crate) const SAMPLE_PERIOD: Parameter = parameter!("samplePeriod", Real, Preset::Absent);

pub(crate) const N: Parameter = parameter!("n", Integer, Preset::Absent);

pub(crate) const NOUT: Parameter = parameter!("nout", Integer, Preset::Absent);

/// The parameters of a kind, in the order of the table.
pub fn parameters(kind: Kind) -> &'static [Parameter]
    ensures { map parameter_row result.now ≡ parameters kind }
{
    kind_row(kind).parameters
}
