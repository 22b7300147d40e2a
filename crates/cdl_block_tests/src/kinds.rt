// The table, gone over kind by kind, and every condition at its edges.
ghost use Rattle.std.specs.Prelude.{◌≡◌, ◌<◌};
ghost use Rattle.cdl_kinds.specs.Conditions.{Keeps};

use crate::values::{numbers, values};
use cdl_kinds::{
    Kind, Params, Port, Preset, Steps, check, find, kind_name, parameters, port, port_count,
    state_words,
};
use cdl_values::ValueType;
use std::alloc::{AllocError, Global};
use std::marker::Brand;
use std::sync::ledger::{Blank, Ledger};
use std::test::Fail;

// Each kind with values of its parameters, and its inputs, its outputs and its parameters. A star is a port or a parameter
// for each of nin or nout; a default is a Boolean, an Integer, a count of millionths, 1 for each input, or the value of
// another parameter. An input that isn't direct has a ~. The number of state words stands in parentheses where there are any.
const ROWS: &str = "Logical.And;;u1:B u2:B > y:B\n\
    Logical.Or;;u1:B u2:B > y:B\n\
    Logical.Nand;;u1:B u2:B > y:B\n\
    Logical.Nor;;u1:B u2:B > y:B\n\
    Logical.Xor;;u1:B u2:B > y:B\n\
    Logical.Not;;u:B > y:B\n\
    Logical.MultiAnd;3;u*:B > y:B | I nin\n\
    Logical.MultiOr;3;u*:B > y:B | I nin\n\
    Logical.Edge;1;u:B > y:B | B pre_u_start=false (1)\n\
    Logical.FallingEdge;1;u:B > y:B | B pre_u_start=false (1)\n\
    Logical.Change;1;u:B > y:B | B pre_u_start=false (1)\n\
    Logical.Latch;;u:B clr:B > y:B (2)\n\
    Logical.Toggle;;u:B clr:B > y:B (2)\n\
    Logical.Pre;1;~u:B > y:B | B pre_u_start=false (1)\n\
    Logical.Switch;;u1:B u2:B u3:B > y:B\n\
    Integers.Switch;;u1:I u2:B u3:I > y:I\n\
    Reals.Switch;;u1:R u2:B u3:R > y:R\n\
    Logical.Timer;1;u:B > y:R passed:B | R t=0 (2)\n\
    Logical.TimerAccumulating;1;u:B reset:B > y:R passed:B | R t=0 (4)\n\
    Logical.TrueDelay;1 1;u:B > y:B | R delayTime, B delayOnInit=false (2)\n\
    Logical.TrueFalseHold;1 1;u:B > y:B | R trueHoldDuration, R falseHoldDuration=#0 (2)\n\
    Logical.Sources.Constant;1;> y:B | B k\n\
    Integers.Sources.Constant;1;> y:I | I k\n\
    Reals.Sources.Constant;1;> y:R | R k\n\
    Logical.Sources.Pulse;1 1 1;> y:B | R width=500000, R period, R shift=0\n\
    Integers.Abs;;u:I > y:I\n\
    Reals.Abs;;u:R > y:R\n\
    Integers.Add;;u1:I u2:I > y:I\n\
    Integers.Subtract;;u1:I u2:I > y:I\n\
    Integers.Multiply;;u1:I u2:I > y:I\n\
    Integers.Max;;u1:I u2:I > y:I\n\
    Integers.Min;;u1:I u2:I > y:I\n\
    Integers.AddParameter;1;u:I > y:I | I p\n\
    Integers.MultiSum;3 1;u*:I > y:I | I nin, I k*=ones\n\
    Integers.Equal;;u1:I u2:I > y:B\n\
    Integers.Greater;;u1:I u2:I > y:B\n\
    Integers.GreaterEqual;;u1:I u2:I > y:B\n\
    Integers.Less;;u1:I u2:I > y:B\n\
    Integers.LessEqual;;u1:I u2:I > y:B\n\
    Integers.GreaterThreshold;1;u:I > y:B | I t=0\n\
    Integers.GreaterEqualThreshold;1;u:I > y:B | I t=0\n\
    Integers.LessThreshold;1;u:I > y:B | I t=0\n\
    Integers.LessEqualThreshold;1;u:I > y:B | I t=0\n\
    Integers.Change;1;u:I > y:B up:B down:B | I pre_u_start=0 (1)\n\
    Integers.OnCounter;1;trigger:B reset:B > y:I | I y_start=0 (3)\n\
    Reals.Add;;u1:R u2:R > y:R\n\
    Reals.Subtract;;u1:R u2:R > y:R\n\
    Reals.Multiply;;u1:R u2:R > y:R\n\
    Reals.Divide;;u1:R u2:R > y:R\n\
    Reals.Max;;u1:R u2:R > y:R\n\
    Reals.Min;;u1:R u2:R > y:R\n\
    Reals.AddParameter;1;u:R > y:R | R p\n\
    Reals.MultiplyByParameter;1;u:R > y:R | R k\n\
    Reals.Average;;u1:R u2:R > y:R\n\
    Reals.Modulo;;u1:R u2:R > y:R\n\
    Reals.MultiSum;3 1;u*:R > y:R | I nin, R k*=ones\n\
    Reals.MultiMax;3;u*:R > y:R | I nin\n\
    Reals.MultiMin;3;u*:R > y:R | I nin\n\
    Reals.Greater;1 1;u1:R u2:R > y:B | R h=0, B pre_y_start=false (1)\n\
    Reals.Less;1 1;u1:R u2:R > y:B | R h=0, B pre_y_start=false (1)\n\
    Reals.GreaterThreshold;1 1 1;u:R > y:B | R t=0, R h=0, B pre_y_start=false (1)\n\
    Reals.LessThreshold;1 1 1;u:R > y:B | R t=0, R h=0, B pre_y_start=false (1)\n\
    Reals.Hysteresis;1 2 0;u:R > y:B | R uLow, R uHigh, B pre_y_start=false (1)\n\
    Reals.Limiter;2 1;u:R > y:R | R uMax, R uMin\n\
    Reals.Line;1 1;x1:R f1:R x2:R f2:R u:R > y:R | B limitBelow=true, B limitAbove=true\n\
    Conversions.BooleanToInteger;1 1;u:B > y:I | I integerTrue=1, I integerFalse=0\n\
    Conversions.BooleanToReal;1 1;u:B > y:R | R realTrue=1000000, R realFalse=0\n\
    Conversions.IntegerToReal;;u:I > y:R\n\
    Conversions.RealToInteger;;u:R > y:I\n\
    Discrete.Sampler;1;u:R > y:R | R samplePeriod (2)\n\
    Discrete.ZeroOrderHold;1;u:R > y:R | R samplePeriod (2)\n\
    Discrete.UnitDelay;1 1;~u:R > y:R | R samplePeriod, R y_start=0 (3)\n\
    Discrete.TriggeredSampler;1;u:R trigger:B > y:R | R y_start=0 (2)\n\
    Discrete.TriggeredMax;;u:R trigger:B > y:R (3)\n\
    Discrete.TriggeredMovingMean;3;u:R trigger:B > y:R | I n (6)\n\
    Routing.BooleanScalarReplicator;3;u:B > y*:B | I nout\n\
    Routing.IntegerScalarReplicator;3;u:I > y*:I | I nout\n\
    Routing.RealScalarReplicator;3;u:R > y*:R | I nout";

fn letter(value_type: ValueType) -> &'static str {
    match value_type {
        ValueType::Boolean => "B",
        ValueType::Integer => "I",
        ValueType::Real => "R",
        _ => "?",
    }
}

fn preset_text(alloc: Global, preset: Preset) -> Result<String, AllocError> {
    match preset {
        Preset::Absent => Ok(String::new(alloc)),
        Preset::Same(i) => format!(in alloc; "=#{i}"),
        Preset::Ones => String::from_str(alloc, "=ones"),
        Preset::Boolean(b) => format!(in alloc; "={b}"),
        Preset::Integer(z) => format!(in alloc; "={z}"),
        Preset::Real(count) => format!(in alloc; "={count}"),
    }
}

fn star(many: bool) -> &'static str {
    if many { "*" } else { "" }
}

// A port, or nothing where it is not the first of its array.
fn show_port(text: &mut String, port: Port) -> Result<(), AllocError> {
    if port.index > 1 {
        return Ok(());
    }
    text.push_str(if port.input && !port.direct { "~" } else { "" })?;
    text.push_str(port.name)?;
    text.push_str(star(port.index == 1))?;
    text.push_str(":")?;
    text.push_str(letter(port.value_type))?;
    text.push_str(" ")
}

fn show_ports(text: &mut String, kind: Kind, params: &Params) -> Result<(), AllocError>
    requires { Keeps kind params.now }
{
    let mut inputs = true;
    for i in 0..port_count(kind, params) {
        let port = port(kind, params, i);
        if inputs && !port.input {
            text.push_str("> ")?;
            inputs = false;
        }
        show_port(text, port)?;
    }
    Ok(())
}

// A kind's row as `ROWS` has it.
fn row_text(alloc: Global, kind: Kind, params: &Params) -> Result<String, AllocError>
    requires { Keeps kind params.now }
{
    let mut text = String::new(alloc);
    show_ports(&mut text, kind, params)?;
    for (i, parameter) in parameters(kind).iter().enumerate() {
        text.push_str(if i == 0 { "| " } else { ", " })?;
        text.push_str(letter(parameter.value_type))?;
        text.push_str(" ")?;
        text.push_str(parameter.name)?;
        text.push_str(star(parameter.per_nin))?;
        let preset = preset_text(alloc, parameter.preset)?;
        text.push_str(preset.as_str())?;
    }
    let words = state_words(kind, params);
    if words > 0 {
        text.push_str(if parameters(kind).is_empty() {
            "("
        } else {
            " ("
        })?;
        let number = format!(in alloc; "{words})")?;
        text.push_str(number.as_str())?;
    }
    Ok(text)
}

fn is_row(text: &str, want: &str) -> bool {
    text.trim_end() == want
}

#[test]
fn the_table_is_whole(rt: HostRuntime) -> Result<(), Fail> {
    let alloc = rt.alloc();
    let mut kinds = 0_u32;
    for row in ROWS.lines() {
        let mut cells = row.split(';');
        let name = cells.next().ok_or("no name")?;
        let kind = find(name).ok_or("no kind")?;
        assert_eq!(rt; kind_name(kind), name);
        let given = numbers(alloc, cells.next().ok_or("no values")?)?;
        let text = match check(kind, values(alloc, kind, given.as_slice())?) {
            Ok(params) => row_text(alloc, kind, &params)?,
            Err(_fault) => return Err("a condition is broken".into()),
        };
        let want = cells.next().ok_or("no row")?;
        assert!(rt; is_row(text.as_str(), want), "{row}");
        kinds = kinds.saturating_add(1);
    }
    assert_eq!(rt; kinds, 78);
    for name in ["Logical.and", "Logical.And ", "", "Logical", "LogicalAnd"] {
        assert!(rt; find(name).is_none(), "{name}");
    }
    Ok(())
}

// Values that a kind is given, and the number of the first condition that they break, 0 for none.
const CASES: &str = "Logical.MultiAnd;0;1\n\
    Logical.MultiAnd;1;0\n\
    Logical.MultiAnd;256;0\n\
    Logical.MultiAnd;257;1\n\
    Logical.MultiAnd;-1;1\n\
    Logical.MultiOr;256;0\n\
    Logical.MultiOr;257;1\n\
    Integers.MultiSum;0 1;1\n\
    Integers.MultiSum;256 1;0\n\
    Reals.MultiSum;256 1;0\n\
    Reals.MultiSum;257 1;1\n\
    Reals.MultiMax;1;0\n\
    Reals.MultiMax;0;1\n\
    Reals.MultiMin;1;0\n\
    Reals.MultiMin;0;1\n\
    Routing.BooleanScalarReplicator;256;0\n\
    Routing.BooleanScalarReplicator;257;1\n\
    Routing.IntegerScalarReplicator;1;0\n\
    Routing.IntegerScalarReplicator;0;1\n\
    Routing.RealScalarReplicator;256;0\n\
    Routing.RealScalarReplicator;257;1\n\
    Discrete.TriggeredMovingMean;0;1\n\
    Discrete.TriggeredMovingMean;1;0\n\
    Discrete.TriggeredMovingMean;1024;0\n\
    Discrete.TriggeredMovingMean;1025;1\n\
    Logical.Timer;-1;1\n\
    Logical.Timer;0;0\n\
    Logical.TimerAccumulating;-1;1\n\
    Logical.TimerAccumulating;0;0\n\
    Logical.TrueDelay;-1 0;1\n\
    Logical.TrueDelay;0 0;0\n\
    Logical.TrueFalseHold;-1 0;1\n\
    Logical.TrueFalseHold;0 -1;2\n\
    Logical.TrueFalseHold;-1 -1;1\n\
    Logical.TrueFalseHold;0 0;0\n\
    Logical.Sources.Pulse;0 1 0;1\n\
    Logical.Sources.Pulse;1 1 0;0\n\
    Logical.Sources.Pulse;999999 1 0;0\n\
    Logical.Sources.Pulse;1000000 1 0;1\n\
    Logical.Sources.Pulse;1 0 0;2\n\
    Reals.Greater;-1 0;1\n\
    Reals.Greater;0 0;0\n\
    Reals.Less;-1 0;1\n\
    Reals.Less;0 0;0\n\
    Reals.GreaterThreshold;-1 0 0;0\n\
    Reals.GreaterThreshold;0 -1 0;1\n\
    Reals.LessThreshold;-1 0 0;0\n\
    Reals.LessThreshold;0 -1 0;1\n\
    Reals.Hysteresis;1 1 0;1\n\
    Reals.Hysteresis;0 1 0;0\n\
    Reals.Limiter;1 1;1\n\
    Reals.Limiter;1 0;0\n\
    Discrete.Sampler;0;1\n\
    Discrete.Sampler;1;0\n\
    Discrete.ZeroOrderHold;0;1\n\
    Discrete.UnitDelay;0 0;1\n\
    Discrete.UnitDelay;1 0;0";

#[test]
fn each_condition_is_broken_alone(rt: HostRuntime) -> Result<(), Fail> {
    let alloc = rt.alloc();
    for row in CASES.lines() {
        let mut cells = row.split(';');
        let kind = find(cells.next().ok_or("no kind")?).ok_or("no such kind")?;
        let given = numbers(alloc, cells.next().ok_or("no values")?)?;
        let broken = match check(kind, values(alloc, kind, given.as_slice())?) {
            Ok(_params) => 0,
            Err(fault) => fault.condition,
        };
        let want: u32 = cells.next().ok_or("no condition")?.parse()?;
        assert_eq!(rt; broken, want, "{row}");
    }
    Ok(())
}

#[test]
fn a_kind_has_its_ports(rt: HostRuntime) -> Result<(), Fail> {
    let alloc = rt.alloc();
    match check(
        Kind::LogicalMultiAnd,
        values(alloc, Kind::LogicalMultiAnd, &[3])?,
    ) {
        Ok(params) => {
            let copy = params.copy(alloc)?;
            assert_eq!(rt; copy.values().len(), 1);
            assert_eq!(rt; params.integer(0), 3);
            assert_eq!(rt; port_count(Kind::LogicalMultiAnd, &params), 4);
            let last = port(Kind::LogicalMultiAnd, &params, 2);
            assert!(rt; last.name == "u" && last.index == 3 && last.input && last.direct);
            let y = port(Kind::LogicalMultiAnd, &params, 3);
            assert!(rt; y.name == "y" && y.index == 0 && !y.input);
        }
        Err(_fault) => assert!(rt; false, "refused"),
    }
    match check(
        Kind::LogicalMultiAnd,
        values(alloc, Kind::LogicalMultiAnd, &[257])?,
    ) {
        Ok(_params) => assert!(rt; false, "not refused"),
        Err(fault) => {
            assert_eq!(rt; fault.condition, 1);
            assert_eq!(rt; fault.values.items().len(), 1);
        }
    }
    Ok(())
}

// Two steps over a ledger.
fn two_steps<L: Ledger>(blank: Blank)
    requires name { blank.name ≡ L.name }
    requires parts { blank.parts ≡ L.parts }
    requires some { 0 < blank.parts }
{
    let mut steps = Steps::<L>::new(blank);
    steps.tick();
    steps.tick();
}

#[test]
fn steps_need_a_ledger(_rt: HostRuntime) {
    two_steps::<Brand>(Blank::new(1));
}
