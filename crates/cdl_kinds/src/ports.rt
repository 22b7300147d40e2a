// Ports, and the groups of ports that rows of the table name.
use cdl_values::ValueType;

/// A port: an input or an output of a block.
#[derive(Clone, Copy, Debug, Drop)]
pub struct Port {
    /// Its name, without an index.
    pub name: &'static str,
    /// 0 at a scalar port, else the index, from 1.
    pub index: u32,
    /// The type of its values.
    pub value_type: ValueType,
    /// Whether it is an input.
    pub input: bool,
    /// Whether the outputs rest on this input at once, at the same tick. False at an output.
    pub direct: bool,
}

/// Ports of one name: a scalar one, or one for each of nin or nout.
#[derive(Clone, Copy, Drop)]
pub struct Group {
    /// Their name, without an index.
    pub name: &'static str,
    /// The type of their values.
    pub value_type: ValueType,
    /// Whether there is one for each of nin or nout.
    pub many: bool,
}

// A scalar port.
macro_rules! single {
    ($name:literal, $value_type:ident) => {
        Group {
            name: $name,
            value_type: ValueType::$value_type,
            many: false,
        }
    };
}

// A port for each of nin or nout.
macro_rules! each {
    ($name:literal, $value_type:ident) => {
        Group {
            name: $name,
            value_type: ValueType::$value_type,
            many: true,
        }
    };
}

pub(crate) const U1_B: Group = single!("u1", Boolean);

pub(crate) const U2_B: Group = single!("u2", Boolean);

pub(crate) const Y_B: Group = single!("y", Boolean);

pub(crate) const U_B: Group = single!("u", Boolean);

pub(crate) const U_B_EACH: Group = each!("u", Boolean);

pub(crate) const CLR_B: Group = single!("clr", Boolean);

pub(crate) const U3_B: Group = single!("u3", Boolean);

pub(crate) const U1_I: Group = single!("u1", Integer);

pub(crate) const U3_I: Group = single!("u3", Integer);

pub(crate) const Y_I: Group = single!("y", Integer);

pub(crate) const U1_R: Group = single!("u1", Real);

pub(crate) const U3_R: Group = single!("u3", Real);

pub(crate) const Y_R: Group = single!("y", Real);

pub(crate) const PASSED_B: Group = single!("passed", Boolean);

pub(crate) const RESET_B: Group = single!("reset", Boolean);

pub(crate) const U_I: Group = single!("u", Integer);

pub(crate) const U_R: Group = single!("u", Real);

pub(crate) const U2_I: Group = single!("u2", Integer);

pub(crate) const U_I_EACH: Group = each!("u", Integer);

pub(crate) const UP_B: Group = single!("up", Boolean);

pub(crate) const DOWN_B: Group = single!("down", Boolean);

pub(crate) const TRIGGER_B: Group = single!("trigger", Boolean);

pub(crate) const U2_R: Group = single!("u2", Real);

pub(crate) const U_R_EACH: Group = each!("u", Real);

pub(crate) const X1_R: Group = single!("x1", Real);

pub(crate) const F1_R: Group = single!("f1", Real);

pub(crate) const X2_R: Group = single!("x2", Real);

pub(crate) const F2_R: Group = single!("f2", Real);

pub(crate) const Y_B_EACH: Group = each!("y", Boolean);

pub(crate) const Y_I_EACH: Group = each!("y", Integer);

pub(crate) const Y_R_EACH: Group = each!("y", Real);
