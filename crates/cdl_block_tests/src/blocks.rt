// Each kind without a memory on inputs at their edges. The expected words were worked out with exact fractions, apart from the program.
ghost use Rattle.std.specs.Prelude.{◌≡◌, ◌+◌, ◌<◌, ◌≤◌, ℕ, IsTrue, length, true};
ghost use Rattle.cdl_kinds.specs.Conditions.{Keeps};
ghost use Rattle.cdl_values.specs.History.{AreReady, AreValues, IsValue, word};
ghost use Rattle.cdl_kinds.specs.Ports.{inputs, outputs};

use crate::values::{block_of, numbers, params_of};
use cdl_blocks::AnyBlock;
use cdl_kinds::{Elementary, Kind, Params, Steps, find, port, port_count};
use cdl_values::words::read;
use cdl_values::{NoValue, ValueType};
use std::alloc::Global;
use std::marker::Brand;
use std::sync::ledger::{Blank, Ledger};
use std::test::Fail;

// A kind, its parameters, and its words: inputs, then outputs, or `none` where there is no value.
const CASES: &str = "Logical.And;;0 0=0;0 1=0;1 0=0;1 1=1\n\
    Logical.Or;;0 0=0;0 1=1;1 0=1;1 1=1\n\
    Logical.Nand;;0 0=1;0 1=1;1 0=1;1 1=0\n\
    Logical.Nor;;0 0=1;0 1=0;1 0=0;1 1=0\n\
    Logical.Xor;;0 0=0;0 1=1;1 0=1;1 1=0\n\
    Logical.Not;;0=1;1=0;0=1;1=0\n\
    Logical.MultiAnd;3;0 0 0=0;1 1 1=1;1 1 0=0;0 1 1=0;0 1 0=0\n\
    Logical.MultiOr;3;0 0 0=0;1 1 1=1;1 1 0=1;0 1 1=1;0 1 0=1\n\
    Logical.Switch;;0 0 0=0;0 0 1=1;0 1 0=0;0 1 1=0;1 0 0=0;1 0 1=1;1 1 0=1;1 1 1=1\n\
    Integers.Switch;;5 1 -7=5;5 0 -7=-7;2147483647 0 -2147483647=-2147483647;2147483647 1 -2147483647=2147483647\n\
    Reals.Switch;;500000 1 -7=500000;500000 0 -7=-7;10000000000000000 0 -10000000000000000=-10000000000000000;10000000000000000 1 -10000000000000000=10000000000000000\n\
    Logical.Sources.Constant;1;=1\n\
    Logical.Sources.Constant;0;=0\n\
    Integers.Sources.Constant;0;=0\n\
    Integers.Sources.Constant;7;=7\n\
    Integers.Sources.Constant;2147483647;=2147483647\n\
    Integers.Sources.Constant;-2147483647;=-2147483647\n\
    Reals.Sources.Constant;0;=0\n\
    Reals.Sources.Constant;1;=1\n\
    Reals.Sources.Constant;10000000000000000;=10000000000000000\n\
    Reals.Sources.Constant;-10000000000000000;=-10000000000000000\n\
    Integers.Abs;;0=0;-5=5;2147483647=2147483647;-2147483647=2147483647\n\
    Reals.Abs;;0=0;-1=1;10000000000000000=10000000000000000;-10000000000000000=10000000000000000\n\
    Integers.Add;;3 4=7;-3 4=1;2147483647 1=none;-2147483647 1=-2147483646;2147483647 -1=2147483646;-2147483647 -1=none;32768 65536=98304;32767 65536=98303;0 0=0\n\
    Integers.Subtract;;3 4=-1;-3 4=-7;2147483647 1=2147483646;-2147483647 1=none;2147483647 -1=none;-2147483647 -1=-2147483646;32768 65536=-32768;32767 65536=-32769;0 0=0\n\
    Integers.Multiply;;3 4=12;-3 4=-12;2147483647 1=2147483647;-2147483647 1=-2147483647;2147483647 -1=-2147483647;-2147483647 -1=2147483647;32768 65536=none;32767 65536=2147418112;0 0=0;2147483647 2147483647=none;-2147483647 2147483647=none\n\
    Integers.Max;;3 4=4;-3 4=4;2147483647 1=2147483647;-2147483647 1=1;2147483647 -1=2147483647;-2147483647 -1=-1;32768 65536=65536;32767 65536=65536;0 0=0\n\
    Integers.Min;;3 4=3;-3 4=-3;2147483647 1=1;-2147483647 1=-2147483647;2147483647 -1=-1;-2147483647 -1=-2147483647;32768 65536=32768;32767 65536=32767;0 0=0\n\
    Integers.AddParameter;-3;0=-3;5=2;-2147483647=none;-2147483644=-2147483647\n\
    Integers.MultiSum;3 2 -1 1;1 2 3=3;2147483647 2147483647 0=2147483647;2147483647 2147483647 1=none;-2147483647 2147483647 2147483647=none;2147483647 2147483647 -2147483647=0\n\
    Integers.Equal;;1 2=0;2 1=0;2 2=1;-2 2=0;2147483647 -2147483647=0\n\
    Integers.Greater;;1 2=0;2 1=1;2 2=0;-2 2=0;2147483647 -2147483647=1\n\
    Integers.GreaterThreshold;2;1=0;2=0;3=1;-2147483647=0\n\
    Integers.GreaterEqual;;1 2=0;2 1=1;2 2=1;-2 2=0;2147483647 -2147483647=1\n\
    Integers.GreaterEqualThreshold;2;1=0;2=1;3=1;-2147483647=0\n\
    Integers.Less;;1 2=1;2 1=0;2 2=0;-2 2=1;2147483647 -2147483647=0\n\
    Integers.LessThreshold;2;1=1;2=0;3=0;-2147483647=1\n\
    Integers.LessEqual;;1 2=1;2 1=0;2 2=1;-2 2=1;2147483647 -2147483647=0\n\
    Integers.LessEqualThreshold;2;1=1;2=1;3=0;-2147483647=1\n\
    Reals.Add;;1000000 3000000=4000000;-1000000 3000000=2000000;1 2=3;10000000000000000 1=none;-10000000000000000 -1=none;10000000000000000 -1=9999999999999999;5 500000=500005;7000000 -3000000=4000000;10000000000000000 10000000000000000=none;4 0=4;0 0=0\n\
    Reals.Subtract;;1000000 3000000=-2000000;-1000000 3000000=-4000000;1 2=-1;10000000000000000 1=9999999999999999;-10000000000000000 -1=-9999999999999999;10000000000000000 -1=none;5 500000=-499995;7000000 -3000000=10000000;10000000000000000 10000000000000000=0;4 0=4;0 0=0\n\
    Reals.Multiply;;1000000 3000000=3000000;-1000000 3000000=-3000000;1 2=0;10000000000000000 1=10000000000;-10000000000000000 -1=10000000000;10000000000000000 -1=-10000000000;5 500000=2;7000000 -3000000=-21000000;10000000000000000 10000000000000000=none;4 0=0;0 0=0;1 500000=0;3 500000=2;-3 500000=-2;10000000000000000 1000001=none\n\
    Reals.Divide;;1000000 3000000=333333;-1000000 3000000=-333333;1 2=500000;10000000000000000 1=none;-10000000000000000 -1=none;10000000000000000 -1=none;5 500000=10;7000000 -3000000=-2333333;10000000000000000 10000000000000000=1000000;4 0=none;0 0=none;1 2000000=0;3 2000000=2;3 -2000000=-2\n\
    Reals.Max;;1000000 3000000=3000000;-1000000 3000000=3000000;1 2=2;10000000000000000 1=10000000000000000;-10000000000000000 -1=-1;10000000000000000 -1=10000000000000000;5 500000=500000;7000000 -3000000=7000000;10000000000000000 10000000000000000=10000000000000000;4 0=4;0 0=0\n\
    Reals.Min;;1000000 3000000=1000000;-1000000 3000000=-1000000;1 2=1;10000000000000000 1=1;-10000000000000000 -1=-10000000000000000;10000000000000000 -1=-1;5 500000=5;7000000 -3000000=-3000000;10000000000000000 10000000000000000=10000000000000000;4 0=0;0 0=0\n\
    Reals.AddParameter;-1;0=-1;1=0;10000000000000000=9999999999999999;-10000000000000000=none\n\
    Reals.MultiplyByParameter;1500000;0=0;1=2;3=4;-3=-4;10000000000000000=none\n\
    Reals.Average;;1000000 3000000=2000000;-1000000 3000000=1000000;1 2=2;10000000000000000 1=5000000000000000;-10000000000000000 -1=-5000000000000000;10000000000000000 -1=5000000000000000;5 500000=250002;7000000 -3000000=2000000;10000000000000000 10000000000000000=10000000000000000;4 0=2;0 0=0;1 2=2;3 4=4;10000000000000000 10000000000000000=10000000000000000\n\
    Reals.Modulo;;1000000 3000000=1000000;-1000000 3000000=2000000;1 2=1;10000000000000000 1=0;-10000000000000000 -1=0;10000000000000000 -1=0;5 500000=5;7000000 -3000000=-2000000;10000000000000000 10000000000000000=0;4 0=none;0 0=none;7 3=1;-7 3=2;7 -3=-2;-7 -3=-1\n\
    Reals.MultiSum;3 500000 -1000000 1;1 0 0=0;3 0 0=2;1 1 500000=0;10000000000000000 -10000000000000000 0=none;10000000000000000 10000000000000000 10000000000000000=-4999990000000000;-10000000000000000 10000000000000000 0=none\n\
    Reals.MultiMax;4;1 2 3 4=4;4 3 2 1=4;-1 10000000000000000 -10000000000000000 0=10000000000000000;0 0 0 0=0;-5 -2 -9 -2=-2\n\
    Reals.MultiMin;4;1 2 3 4=1;4 3 2 1=1;-1 10000000000000000 -10000000000000000 0=-10000000000000000;0 0 0 0=0;-5 -2 -9 -2=-9\n\
    Reals.MultiMax;1;-7=-7\n\
    Reals.Limiter;5 -3;0=0;5=5;6=5;-3=-3;-4=-3;10000000000000000=5;-10000000000000000=-3\n\
    Reals.Line;0 0;0 0 10 20 5=10;0 0 10 20 15=30;0 0 10 20 -5=-10;0 1 3 2 1=1;0 0 2 1 1=0;0 0 2 3 1=2;5 0 5 1 5=none;6 0 5 1 5=none;0 0 1 10000000000000000 2=none;-10000000000000000 -10000000000000000 10000000000000000 10000000000000000 7=7;0 0 1 10000000000000000 1=10000000000000000\n\
    Reals.Line;0 1;0 0 10 20 5=10;0 0 10 20 15=20;0 0 10 20 -5=-10;0 1 3 2 1=1;0 0 2 1 1=0;0 0 2 3 1=2;5 0 5 1 5=none;6 0 5 1 5=none;0 0 1 10000000000000000 2=10000000000000000;-10000000000000000 -10000000000000000 10000000000000000 10000000000000000 7=7;0 0 1 10000000000000000 1=10000000000000000\n\
    Reals.Line;1 0;0 0 10 20 5=10;0 0 10 20 15=30;0 0 10 20 -5=0;0 1 3 2 1=1;0 0 2 1 1=0;0 0 2 3 1=2;5 0 5 1 5=none;6 0 5 1 5=none;0 0 1 10000000000000000 2=none;-10000000000000000 -10000000000000000 10000000000000000 10000000000000000 7=7;0 0 1 10000000000000000 1=10000000000000000\n\
    Reals.Line;1 1;0 0 10 20 5=10;0 0 10 20 15=20;0 0 10 20 -5=0;0 1 3 2 1=1;0 0 2 1 1=0;0 0 2 3 1=2;5 0 5 1 5=none;6 0 5 1 5=none;0 0 1 10000000000000000 2=10000000000000000;-10000000000000000 -10000000000000000 10000000000000000 10000000000000000 7=7;0 0 1 10000000000000000 1=10000000000000000\n\
    Conversions.BooleanToInteger;3 -4;0=-4;1=3\n\
    Conversions.BooleanToInteger;2147483647 -2147483647;0=-2147483647;1=2147483647\n\
    Conversions.BooleanToReal;3 -4;0=-4;1=3\n\
    Conversions.BooleanToReal;10000000000000000 -10000000000000000;0=-10000000000000000;1=10000000000000000\n\
    Conversions.IntegerToReal;;0=0;-5=-5000000;2147483647=2147483647000000;-2147483647=-2147483647000000\n\
    Conversions.RealToInteger;;0=0;499999=0;500000=1;-500000=-1;-499999=0;1500000=2;2147483647499999=2147483647;2147483647500000=none;-2147483647500000=none\n\
    Routing.BooleanScalarReplicator;3;0=0 0 0;1=1 1 1;0=0 0 0;1=1 1 1\n\
    Routing.IntegerScalarReplicator;2;5=5 5;-5=-5 -5;2147483647=2147483647 2147483647;0=0 0\n\
    Routing.RealScalarReplicator;4;5=5 5 5 5;-5=-5 -5 -5 -5;10000000000000000=10000000000000000 10000000000000000 10000000000000000 10000000000000000;0=0 0 0 0\n\
    Routing.RealScalarReplicator;1;9=9";

fn is_value(value_type: ValueType, w: i64) -> bool
    ensures { IsTrue result → IsValue value_type w }
{
    match value_type {
        ValueType::Boolean => w == 0 || w == 1,
        ValueType::Integer => w.unsigned_abs() <= 2_147_483_647,
        ValueType::Real => w.unsigned_abs() <= 10_000_000_000_000_000,
        _ => false,
    }
}

// Whether the port of that number is an input, and the word in its place a value of it.
#[tactic(auto, using(crate::proofs::Fitting::before_outputs))]
fn is_input(kind: Kind, params: &Params, ins: &[i64], i: usize) -> bool
    requires keeps { Keeps kind params.now }
    requires port { i < (inputs kind params.now).count + (outputs kind params.now).count }
    requires word { i < length ins.now }
    ensures within { IsTrue result → i < (inputs kind params.now).count }
    ensures value { IsTrue result → IsValue ((inputs kind params.now).value_type i) (word ins.now i) }
{
    let p = port(kind, params, i);
    p.input && is_value(p.value_type, read(ins, i))
}

// Whether the words are values of the inputs, and there are as many outputs.
pub fn are_ready(kind: Kind, params: &Params, ins: &[i64], outs: usize) -> bool
    requires keeps { Keeps kind params.now }
    requires few { outs ≤ 8 }
    ensures values { IsTrue result → AreValues (inputs kind params.now) ins.now }
    ensures outs { IsTrue result → outs ≡ (outputs kind params.now).count }
{
    let n = ins.len();
    if outs == 0 || port_count(kind, params) != n + outs || port(kind, params, n).input {
        return false;
    }
    for i in 0..n {
        if !is_input(kind, params, ins, i) {
            return false;
        }
    }
    true
}

// What a block gives at its first tick, and whether it took one step.
fn first_tick<L: Ledger>(
    blank: Blank,
    block: &AnyBlock,
    ins: &[i64],
    outs: &mut [i64],
) -> Option<Result<(), NoValue>>
    requires name { blank.name ≡ L.name }
    requires parts { blank.parts ≡ L.parts }
    requires some { 0 < blank.parts }
    requires ready { AreReady (⟦<AnyBlock as Elementary>⟧.inputs block.now) ins.now }
    requires outs { length outs.old ≡ (⟦<AnyBlock as Elementary>⟧.results block.now).count }
{
    let mut words = [0; 8];
    let width = block.words();
    if width > words.len() {
        return None;
    }
    let state = &mut words[..width];
    block.reset(state);
    let mut steps = Steps::<L>::new(blank);
    Some(block.emit(state, 0, ins, outs, &mut steps))
}

// Whether a block of the kind gives these words, or none where there are none.
fn gives(kind: Kind, params: &Params, block: &AnyBlock, ins: &[i64], want: &[i64]) -> bool
    requires keeps { Keeps kind params.now }
    requires inputs { ⟦<AnyBlock as Elementary>⟧.inputs block.now ≡ inputs kind params.now }
    requires results { ⟦<AnyBlock as Elementary>⟧.results block.now ≡ outputs kind params.now }
{
    let n = if want.is_empty() { 1 } else { want.len() };
    if n > 8 || !are_ready(kind, params, ins, n) {
        return false;
    }
    let mut words = [0; 8];
    let outs = &mut words[..n];
    match first_tick::<Brand>(Blank::new(1), block, ins, outs) {
        Some(Ok(())) => *outs == *want,
        Some(Err(NoValue)) => want.is_empty(),
        None => false,
    }
}

// Whether the block gives the words of each cell.
fn gives_each(
    alloc: Global,
    kind: Kind,
    params: &Params,
    block: &AnyBlock,
    row: &str,
) -> Result<bool, Fail>
    requires keeps { Keeps kind params.now }
    requires inputs { ⟦<AnyBlock as Elementary>⟧.inputs block.now ≡ inputs kind params.now }
    requires results { ⟦<AnyBlock as Elementary>⟧.results block.now ≡ outputs kind params.now }
{
    for cell in row.split(';').skip(2) {
        let (ins, outs) = cell.split_once('=').ok_or("no outputs")?;
        let ins = numbers(alloc, ins)?;
        let want = numbers(alloc, outs)?;
        if !gives(kind, params, block, ins.as_slice(), want.as_slice()) {
            return Ok(false);
        }
    }
    Ok(true)
}

// Whether a block of the row's kind and parameters gives its words.
fn keeps_row(alloc: Global, row: &str) -> Result<bool, Fail> {
    let mut cells = row.split(';');
    let kind = find(cells.next().ok_or("no kind")?).ok_or("no such kind")?;
    let given = numbers(alloc, cells.next().ok_or("no parameters")?)?;
    let params = params_of(alloc, kind, given.as_slice())?;
    let block = block_of(alloc, kind, &params)?;
    gives_each(alloc, kind, &params, &block, row)
}

#[test]
fn each_kind_gives_its_words(rt: HostRuntime) -> Result<(), Fail> {
    for row in CASES.lines() {
        assert!(rt; keeps_row(rt.alloc(), row)?, "{row}");
    }
    Ok(())
}
