use crate::Trial;
use crate::values::numbers;
use std::alloc::Global;
use std::test::Fail;

// A line for each net: its name, the net, and its ticks: the time and the row, then the outputs, or the instance of the fault.
// Behind `steps` stands how many steps an Ok tick takes, behind `words` stand the words of the runner. A Real stands as a count of millionths.
static ROWS: &str = "\
three gates: c3 iB iB oB Logical.Not Logical.And Logical.Or 0:0-3 0:4-5 0:1-6 0:0-8 0:7-9 0:10-2 = 0 0 0 > 0; 1000 0 1 > 1; 2000 1 0 > 1; 3000 1 1 > 1; steps 3; words 1 1 1 1 0 0 1 0 1 0 1
a loop of gates through a Pre: c2 iB oB Logical.Not Logical.And Logical.And Logical.Pre/1 0:0-2 0:3-4 0:9-10 0:11-5 0:6-7 0:3-8 0:9-1 = 0 0 > 1; 1 1 > 0; 2 0 > 0; steps 4; words 0 0 0 1 1 0 0 0 1 0 0 0 0
only the second of three divisions has no value: c4 iR oR oR oR Reals.Divide Reals.Divide Reals.Divide Reals.AddParameter/0 0:12-4 0:12-5 0:0-13 0:14-7 0:0-8 0:0-10 0:0-11 0:6-1 0:9-2 0:12-3 = 0 2000000 > 1000000 1000000 1000000; steps 4; 5 0 > fault 2; 6 2000000 > fault 2
a UnitDelay: c2 iR oR Discrete.UnitDelay/2000000/7000000 0:0-2 0:3-1 = 0 1000000 > 7000000; 1000 2000000 > 7000000; 2000 3000000 > 1000000; 3000 4000000 > 1000000; 4500 5000000 > 3000000
a Pre in a ring: c1 oB Logical.Pre/1 Logical.Not 0:2-3 0:4-1 0:2-0 = 0 > 1; 1 > 0; 2 > 1; 3 > 0; words 0 1 0 0 1 1
two Pre that swap: c2 oB oB Logical.Pre/1 Logical.Pre/0 0:3-4 0:5-2 0:3-0 0:5-1 = 0 > 1 0; 1 > 0 1; 2 > 1 0; words 1 0 0 1 1 0 0 1
a Pre that reads its own output: c1 oB Logical.Pre/1 0:2-1 0:2-0 = 0 > 1; 1 > 1; 2 > 1
a UnitDelay that reads its own output: c1 oR Discrete.UnitDelay/1000/5 0:2-1 0:2-0 = 0 > 5; 1 > 5; 2 > 5
a sum with its own delayed output: c2 iR oR Reals.Add Discrete.UnitDelay/1000/0 0:0-2 0:6-3 0:4-5 0:4-1 = 0 1000000 > 1000000; 1 1000000 > 2000000; 2 -500000 > 1500000
a delay of true: c2 iB oB Logical.TrueDelay/5000/0 0:0-2 0:3-1 = 0 0 > 0; 1 1 > 0; 5 1 > 0; 6 1 > 1; 7 0 > 0; 8 1 > 0; 13 1 > 1
a mean of samples: c3 iR iB oR Discrete.TriggeredMovingMean/2 0:0-3 0:1-4 0:5-2 = 0 4 1 > 4; 1 7 0 > 4; 2 6 1 > 5; 3 9 1 > 5; 4 1 0 > 5; 5 1 1 > 4
a counter that counts: c3 iB iB oI Integers.OnCounter/7 0:0-3 0:1-4 0:5-2 = 0 1 1 > 7; 1 0 1 > 7; 2 1 0 > 8; 3 1 0 > 8; 4 0 0 > 8; 5 1 1 > 7; 6 0 1 > 7; 7 1 1 > 8
a counter without room: c3 iB iB oI Integers.OnCounter/2147483647 0:0-3 0:1-4 0:5-2 = 0 1 0 > 2147483647; 1 0 0 > 2147483647; 2 1 0 > fault 1; 3 0 1 > fault 1
no block: c2 iB oB 0:0-1 = 0 1 > 1; 1 0 > 0; steps 0; words 0 0
an empty root: c0 = 0 >; 1 >; steps 0; words
no input of the root: c1 oB Logical.Sources.Constant/1 0:1-0 = 0 > 1; 1 > 1; words 1 1
no output of the root: c1 iB Logical.Not 0:0-1 = 0 1 >; 1 0 >; words 0 0 1
every second instance has a fault: c1 iR Reals.Abs Reals.Divide Reals.Abs Reals.Divide Reals.Abs Reals.Divide 0:0-1 0:0-3 0:0-4 0:0-6 0:0-8 0:0-9 0:0-11 0:0-13 0:0-14 = 0 5 >; 1 0 > fault 2; 2 5 > fault 2
a fault at the first tick: c2 iR oR Reals.Divide 0:0-2 0:0-3 0:4-1 = 0 0 > fault 1; 1 1 > fault 1
nothing that reads a fault has one: c2 iR oR Reals.Divide Reals.Divide 0:0-5 0:0-6 0:7-2 0:7-3 0:4-1 = 0 0 > fault 2
a Switch without the input that it does not take: c2 iR iB Reals.Divide Reals.Switch Reals.Divide 0:8-2 0:0-3 0:0-5 0:1-6 0:11-7 0:0-9 0:0-10 = 0 3 1 >; 1 0 1 > fault 3
a fault in a part: c1 iR c1 iR Reals.Divide c1 iR Reals.Subtract Reals.Divide 0:0-1 1:1-2 1:1-3 0:0-5 3:5-6 3:5-7 3:5-9 3:8-10 = 0 1000000 > fault 5
the first of two faults in parts: c1 iR c1 iR Reals.Divide c1 iR Reals.Subtract Reals.Divide 0:0-1 1:1-2 1:1-3 0:0-5 3:5-6 3:5-7 3:5-9 3:8-10 = 0 0 > fault 2
the first time and the last: c2 iB oB Logical.Pre/0 0:0-2 0:3-1 = 0 1 > 0; 10000000000000 0 > 1";

// Whether the runner gives what the cell says, at its tick, or of its steps or words.
pub(crate) fn gives(alloc: Global, trial: &mut Trial, cell: &str) -> Result<bool, Fail> {
    if let Some(words) = cell.strip_prefix(" words") {
        let words = numbers(alloc, words, ' ')?;
        return Ok(*trial.runner().words() == *words.as_slice());
    }
    if let Some(steps) = cell.strip_prefix(" steps ") {
        return Ok(trial.blocks() == steps.parse()?);
    }
    let (tick, want) = cell.split_once('>').ok_or("no outputs")?;
    let tick = numbers(alloc, tick, ' ')?;
    let (now, row) = tick.as_slice().split_first().ok_or("no time")?;
    match trial.tick(*now, row).ok_or("no tick of the net")? {
        Ok(()) => {
            let want = numbers(alloc, want, ' ')?;
            Ok(trial.runner().last() == *now && trial.shows(want.as_slice()))
        }
        Err(fault) => {
            let instance = want.strip_prefix(" fault ").ok_or("a fault")?;
            Ok(fault.instance == instance.parse()?)
        }
    }
}

// Whether the net gives what the cells say, where its words are saved before the cell of that number, and a new runner goes on
// from them. A runner that has answered a fault is not saved.
fn follows(alloc: Global, net: &str, cells: &str, cut: usize) -> Result<bool, Fail> {
    let mut trial = Trial::start(alloc, net)?;
    let mut number = 0usize;
    let mut calm = true;
    for cell in cells.split(';') {
        if number == cut && calm {
            let runner = trial.runner();
            match Trial::resume(alloc, net, runner.last(), runner.words())? {
                Ok(resumed) => trial = resumed,
                Err(_fault) => return Err("its own words are refused".into()),
            }
        }
        if !gives(alloc, &mut trial, cell)? {
            return Ok(false);
        }
        calm = calm && !cell.contains("fault");
        number = number.saturating_add(1);
    }
    Ok(true)
}

#[test]
fn each_net_gives_its_outputs_and_its_words(rt: HostRuntime) -> Result<(), Fail> {
    for row in ROWS.lines() {
        let (name, rest) = row.split_once(": ").ok_or("no name")?;
        let (net, cells) = rest.split_once(" =").ok_or("no ticks")?;
        assert!(rt; follows(rt.alloc(), net, cells, 100)?, "{name}");
    }
    Ok(())
}

#[test]
fn a_run_that_is_saved_and_resumed_at_any_tick_gives_the_same(rt: HostRuntime) -> Result<(), Fail> {
    for row in ROWS.lines() {
        let (name, rest) = row.split_once(": ").ok_or("no name")?;
        let (net, cells) = rest.split_once(" =").ok_or("no ticks")?;
        for cut in 0..9 {
            assert!(rt;
                follows(rt.alloc(), net, cells, cut)?,
                "{name}, cut at {cut}"
            );
        }
    }
    Ok(())
}
