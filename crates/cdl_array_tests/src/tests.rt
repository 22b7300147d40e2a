// What each operator, literal, subscript, function, size and conversion answers.
ghost use Rattle.std.specs.Prelude.{IfOk};
ghost use Rattle.cdl_values.specs.Values.{IsArray};

use crate::arrays::{array, show};
use crate::table::CASES;
use cdl_array::{
    EvalFault, Function, binary, call, condition, converted, count_of, decided, literal, part,
    size_of, subscript, unary,
};
use cdl_source::{List, OutOfMemory};
use cdl_tree::Op;
use cdl_values::{Array, Value, ValueType};
use std::alloc::Global;
use std::test::Fail;

fn operator(name: &str) -> Option<Op> {
    match name {
        "+" => Some(Op::Plus),
        "-" => Some(Op::Minus),
        "*" => Some(Op::Times),
        "/" => Some(Op::Divide),
        "<" => Some(Op::Less),
        "<=" => Some(Op::LessEqual),
        ">" => Some(Op::Greater),
        ">=" => Some(Op::GreaterEqual),
        "==" => Some(Op::Equal),
        "<>" => Some(Op::NotEqual),
        "and" => Some(Op::And),
        "or" => Some(Op::Or),
        "not" => Some(Op::Not),
        _ => None,
    }
}

fn declared(name: &str) -> Option<ValueType> {
    match name {
        "=B" => Some(ValueType::Boolean),
        "=I" => Some(ValueType::Integer),
        "=R" => Some(ValueType::Real),
        "=S" => Some(ValueType::Str),
        "=C" => Some(ValueType::Enumeration(1)),
        "=D" => Some(ValueType::Enumeration(2)),
        _ => None,
    }
}

fn fault(alloc: Global, fault: EvalFault) -> Result<String, Fail> {
    match fault {
        EvalFault::Rule(rule) => Ok(format!(in alloc; "C{rule}")?),
        EvalFault::OutOfMemory => Ok(String::from_str(alloc, "no memory")?),
    }
}

fn answer(alloc: Global, outcome: Result<Array, EvalFault>) -> Result<String, Fail> {
    match outcome {
        Ok(array) => Ok(show(alloc, &array)?),
        Err(rule) => fault(alloc, rule),
    }
}

fn truth(alloc: Global, outcome: Result<bool, EvalFault>) -> Result<String, Fail> {
    match outcome {
        Ok(holds) => Ok(format!(in alloc; "{holds}")?),
        Err(rule) => fault(alloc, rule),
    }
}

fn side(alloc: Global, outcome: Result<Option<bool>, EvalFault>) -> Result<String, Fail> {
    match outcome {
        Ok(Some(value)) => truth(alloc, Ok(value)),
        Ok(None) => Ok(String::from_str(alloc, "both")?),
        Err(rule) => fault(alloc, rule),
    }
}

fn number(alloc: Global, outcome: Result<usize, EvalFault>) -> Result<String, Fail> {
    match outcome {
        Ok(count) => Ok(format!(in alloc; "{count}")?),
        Err(rule) => fault(alloc, rule),
    }
}

fn of_function(alloc: Global, name: &str, args: &[Array]) -> Result<String, Fail> {
    match Function::named(name.as_bytes()) {
        Some(function) if function.takes(args.len()) => answer(alloc, call(alloc, function, args)),
        Some(function) => {
            let refused = answer(alloc, call(alloc, function, args))?;
            Ok(format!(in alloc; "{refused}")?)
        }
        None => Ok(String::from_str(alloc, "C27")?),
    }
}

// What a call of one argument answers.
fn of_one(alloc: Global, name: &str, arg: &Array) -> Result<Option<String>, Fail> {
    if let Some(op) = name.strip_suffix('?').and_then(operator) {
        return Ok(Some(side(alloc, decided(op, arg))?));
    }
    if let Some(value_type) = declared(name) {
        return Ok(Some(answer(alloc, converted(alloc, value_type, arg))?));
    }
    if let Some(op) = operator(name) {
        return Ok(Some(answer(alloc, unary(alloc, op, arg))?));
    }
    match name {
        "if" => Ok(Some(truth(alloc, condition(arg))?)),
        "?" => match size_of(arg) {
            Ok(size) => Ok(Some(number(alloc, Ok(size as usize))?)),
            Err(rule) => Ok(Some(fault(alloc, rule)?)),
        },
        "#" => {
            let shape = arg.shape.items();
            if shape.len() > 2 {
                return Ok(None);
            }
            Ok(Some(number(alloc, count_of(shape))?))
        }
        _ => Ok(None),
    }
}

// What a call answers.
fn ask(alloc: Global, name: &str, args: &[Array]) -> Result<String, Fail> {
    match (name, args) {
        ("lit", items) => return answer(alloc, literal(alloc, items)),
        ("sub", [array, subs @ ..]) => return answer(alloc, subscript(alloc, array, subs)),
        _ => {}
    }
    match args {
        [arg] => {
            if let Some(text) = of_one(alloc, name, arg)? {
                return Ok(text);
            }
        }
        [left, right] => {
            if let Some(op) = operator(name) {
                return answer(alloc, binary(alloc, op, left, right));
            }
        }
        _ => {}
    }
    of_function(alloc, name, args)
}

#[test]
fn each_call_answers_so(rt: HostRuntime) -> Result<(), Fail> {
    let alloc = rt.alloc();
    for line in CASES.lines() {
        let (asked, wanted) = line.split_once(" = ").ok_or("no answer")?;
        let mut words = asked.split(' ');
        let name = words.next().ok_or("no call")?;
        let mut args = Vec::new(alloc);
        for word in words {
            args.push(array(alloc, word)?)?;
        }
        let found = ask(alloc, name, args.as_slice())?;
        assert!(rt; found.as_str() == wanted, "{line}: {found}");
    }
    Ok(())
}

// A literal of so many equal arrays.
fn many(alloc: Global, item: &str, times: usize) -> Result<String, Fail> {
    let mut items = Vec::new(alloc);
    for _ in 0..times {
        items.push(array(alloc, item)?)?;
    }
    answer(alloc, literal(alloc, items.as_slice()))
}

#[test]
fn a_literal_has_so_many_items(rt: HostRuntime) -> Result<(), Fail> {
    let alloc = rt.alloc();
    for (item, times, wanted) in [
        ("I:0", 4096, "I[4096]:0*"),
        ("I:0", 4097, "C28"),
        ("I[256]:0*", 256, "I[256,256]:0*"),
        ("I[256]:0*", 257, "C28"),
        ("I[0]:", 4096, "I[4096,0]:"),
        ("I[0]:", 4097, "C28"),
    ] {
        let found = many(alloc, item, times)?;
        assert!(rt; found.as_str() == wanted, "{times} of {item}: {found}");
    }
    Ok(())
}

// The rows 4, 5, 6 and 7, 8, 9.
fn rows(alloc: Global) -> Result<Array, OutOfMemory>
    ensures { IfOk result IsArray }
{
    let mut shape = List::new(alloc);
    shape.push(2)?;
    shape.push(3)?;
    let mut items = List::new(alloc);
    items.push(Value::Integer(4))?;
    items.push(Value::Integer(5))?;
    items.push(Value::Integer(6))?;
    items.push(Value::Integer(7))?;
    items.push(Value::Integer(8))?;
    items.push(Value::Integer(9))?;
    Ok(Array {
        value_type: ValueType::Integer,
        shape,
        items,
    })
}

#[test]
fn a_part_is_handed_out(rt: HostRuntime) -> Result<(), Fail> {
    let alloc = rt.alloc();
    let rows = rows(alloc)?;
    let all = answer(alloc, part(alloc, &rows, &[]))?;
    assert!(rt; all.as_str() == "I[2,3]:4,5,6,7,8,9", "{all}");
    let second = answer(alloc, part(alloc, &rows, &[2]))?;
    assert!(rt; second.as_str() == "I[3]:7,8,9", "{second}");
    let last = answer(alloc, part(alloc, &rows, &[2, 3]))?;
    assert!(rt; last.as_str() == "I:9", "{last}");
    for indices in [[0, 1], [3, 1], [1, 0], [1, 4]] {
        let none = answer(alloc, part(alloc, &rows, &indices))?;
        assert!(rt; none.as_str() == "C25", "{indices:?}: {none}");
    }
    let many = answer(alloc, part(alloc, &rows, &[1, 1, 1]))?;
    assert!(rt; many.as_str() == "C25", "{many}");
    Ok(())
}
