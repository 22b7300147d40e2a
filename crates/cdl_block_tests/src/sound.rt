// State words at the ends of their range, and whether they are sound.
use crate::values::{block_of, numbers, params_of};
use cdl_blocks::AnyBlock;
use cdl_kinds::{Elementary, find};
use std::alloc::Global;
use std::test::Fail;

// A kind, its parameters, and its cells: the last time and the state words, then 1 where they are sound, else 0.
const CASES: &str = "Logical.Sources.Pulse;500000 2000000 0;-1=1;5=1\n\
    Logical.And;;-1=1;5=1\n\
    Logical.Edge;0;-1 0=1;0 1=1;0 2=0;0 -1=0\n\
    Logical.FallingEdge;1;-1 0=1;0 1=1;0 2=0;0 -1=0\n\
    Logical.Change;0;-1 0=1;0 1=1;0 2=0;0 -1=0\n\
    Logical.Pre;1;-1 0=1;0 1=1;0 2=0;0 -1=0\n\
    Reals.Greater;0 0;-1 0=1;0 1=1;0 2=0;0 -1=0\n\
    Reals.Less;0 0;-1 0=1;0 1=1;0 2=0;0 -1=0\n\
    Reals.GreaterThreshold;0 0 0;-1 0=1;0 1=1;0 2=0;0 -1=0\n\
    Reals.LessThreshold;0 0 0;-1 0=1;0 1=1;0 2=0;0 -1=0\n\
    Reals.Hysteresis;0 1 0;-1 0=1;0 1=1;0 2=0;0 -1=0\n\
    Logical.Latch;;-1 0 0=1;0 1 1=1;0 2 0=0;0 -1 0=0;0 0 2=0;0 0 -1=0\n\
    Logical.Toggle;;-1 0 0=1;0 1 1=1;0 2 0=0;0 -1 0=0;0 0 2=0;0 0 -1=0\n\
    Logical.Timer;1000000;-1 -1 0=1;-1 0 0=0;5 -1 0=1;5 5 0=1;5 6 0=0;5 -2 0=0;5 0 1=0;10000000000000 10000000000000 0=1\n\
    Logical.TimerAccumulating;1000000;-1 0 -1 0 1=1;-1 1 -1 0 1=0;-1 0 -1 1 1=0;-1 0 -1 0 2=0;5 5000 5 1 0=1;5 5001 5 1 0=0;5 -1 5 0 0=0;5 0 6 0 0=0;5 4000 4 0 0=1;5 4001 4 0 0=0;5 0 -2 0 0=0;5 0 5 2 0=0;10000000000000 10000000000000000 10000000000000 1 1=1;10000000000000 10000000000000001 10000000000000 1 1=0\n\
    Logical.TrueDelay;5000 0;-1 -1 1=1;-1 0 1=0;5 -1 0=1;5 5 1=1;5 6 1=0;5 5 2=0;5 -2 1=0;10000000000000 10000000000000 1=1\n\
    Logical.TrueFalseHold;0 0;-1 0 -1=1;-1 0 0=0;5 1 5=1;5 1 6=0;5 2 5=0;5 -1 5=0;5 0 -2=0;10000000000000 1 10000000000000=1\n\
    Integers.Change;0;0 2147483647=1;0 -2147483647=1;0 2147483648=0;0 -2147483648=0\n\
    Integers.OnCounter;0;0 2147483647 1 1=1;0 -2147483647 0 0=1;0 2147483648 0 0=0;0 -2147483648 0 0=0;0 0 2 0=0;0 0 0 -1=0\n\
    Discrete.Sampler;1000;-1 -1 0=1;-1 0 0=0;5 5 10000000000000000=1;5 0 -10000000000000000=1;5 6 0=0;5 5 10000000000000001=0;5 0 -10000000000000001=0;5 -2 0=0;10000000000000 10000000000000 0=1\n\
    Discrete.ZeroOrderHold;1000;-1 -1 0=1;-1 0 0=0;5 5 10000000000000000=1;5 0 -10000000000000000=1;5 6 0=0;5 5 10000000000000001=0;5 0 -10000000000000001=0;5 -2 0=0;10000000000000 10000000000000 0=1\n\
    Discrete.UnitDelay;2000000 0;-1 -1 0 0=1;3999 1 10000000000000000 -10000000000000000=1;3999 2 0 0=0;4000 2 0 0=1;5 0 10000000000000001 0=0;5 0 0 -10000000000000001=0;5 -1 0 0=1;5 -2 0 0=0\n\
    Discrete.TriggeredSampler;0;0 1 10000000000000000=1;0 0 -10000000000000000=1;0 2 0=0;0 0 10000000000000001=0;0 0 -10000000000000001=0\n\
    Discrete.TriggeredMax;;0 1 1 10000000000000000=1;0 0 0 -10000000000000000=1;0 2 0 0=0;0 0 2 0=0;0 0 0 10000000000000001=0;0 0 0 -10000000000000001=0\n\
    Discrete.TriggeredMovingMean;2;-1 -1 0 0 0 0=1;0 -1 1 0 0 0=0;0 1 0 0 0 0=0;0 1 2 0 10000000000000000 -10000000000000000=1;0 1 3 0 0 0=0;0 0 1 0 0 0=1;0 2 1 0 0 0=0;0 0 1 1 0 0=0;0 0 1 0 10000000000000001 0=0;0 0 1 0 0 -10000000000000001=0";

// Whether the block answers for the words of each cell as the cell says.
fn answers_each(alloc: Global, block: &AnyBlock, row: &str) -> Result<bool, Fail> {
    for cell in row.split(';').skip(2) {
        let (words, sound) = cell.split_once('=').ok_or("no answer")?;
        let words = numbers(alloc, words)?;
        let (last, state) = words.as_slice().split_first().ok_or("no time")?;
        if state.len() != block.words() || block.sound(state, *last) != (sound == "1") {
            return Ok(false);
        }
    }
    Ok(true)
}

// Whether a block of the row's kind and parameters answers as the row says.
fn keeps_row(alloc: Global, row: &str) -> Result<bool, Fail> {
    let mut cells = row.split(';');
    let kind = find(cells.next().ok_or("no kind")?).ok_or("no such kind")?;
    let given = numbers(alloc, cells.next().ok_or("no parameters")?)?;
    let params = params_of(alloc, kind, given.as_slice())?;
    let block = block_of(alloc, kind, &params)?;
    answers_each(alloc, &block, row)
}

#[test]
fn each_kind_knows_sound_words(rt: HostRuntime) -> Result<(), Fail> {
    for row in CASES.lines() {
        assert!(rt; keeps_row(rt.alloc(), row)?, "{row}");
    }
    Ok(())
}
