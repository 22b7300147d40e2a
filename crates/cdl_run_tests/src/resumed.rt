use crate::Trial;
use crate::runs::gives;
use crate::values::numbers;
use cdl_run::ResumeFault;
use std::alloc::Global;
use std::test::Fail;

// A line for each list of words: its name, the net, the last time and the words, and what is answered.
static ROWS: &str = "\
words of a run: c2 iB oB Logical.Pre/0 Logical.Pre/0 0:0-2 0:3-4 0:5-1 = 5 1 0 1 0 0 0 1 0 = taken
words of no run: c2 iB oB Logical.Pre/0 Logical.Pre/0 0:0-2 0:3-4 0:5-1 = 5 9 9 9 9 9 9 1 1 = taken
the second instance is not sound: c2 iB oB Logical.Pre/0 Logical.Pre/0 0:0-2 0:3-4 0:5-1 = 5 1 0 1 0 0 0 1 2 = state 2
both are not sound: c2 iB oB Logical.Pre/0 Logical.Pre/0 0:0-2 0:3-4 0:5-1 = 5 1 0 1 0 0 0 -1 2 = state 1
one in a part behind a gate: c2 iB oB Logical.Not c1 iB Logical.Pre/0 0:0-2 0:0-4 2:4-5 0:3-1 = 5 1 0 1 0 1 1 0 7 = state 3
a word too few: c2 iB oB Logical.Pre/0 Logical.Pre/0 0:0-2 0:3-4 0:5-1 = 5 1 0 1 0 0 0 1 = count
a word too many: c2 iB oB Logical.Pre/0 Logical.Pre/0 0:0-2 0:3-4 0:5-1 = 5 1 0 1 0 0 0 1 0 0 = count
a word too few, and not sound: c2 iB oB Logical.Pre/0 Logical.Pre/0 0:0-2 0:3-4 0:5-1 = 5 1 0 1 0 0 0 7 = count
no words: c2 iB oB Logical.Pre/0 0:0-2 0:3-1 = -1 = count
no words of an empty root: c0 = -1 = taken
a word of an empty root: c0 = -1 0 = count
true since the last time: c2 iB oB Logical.TrueDelay/5000/0 0:0-2 0:3-1 = 5 1 0 1 0 5 0 = taken
true since after the last time: c2 iB oB Logical.TrueDelay/5000/0 0:0-2 0:3-1 = 4 1 0 1 0 5 0 = state 1
true since no tick before any: c2 iB oB Logical.TrueDelay/5000/0 0:0-2 0:3-1 = -1 0 0 0 0 -1 1 = taken";

// A line for each list of sound words that no run gave: its name, the net, the last time and the words, and the ticks from there on,
// as in `runs`.
static ON: &str = "\
two states: c2 iB oB Logical.Pre/0 Logical.Pre/0 0:0-2 0:3-4 0:5-1 = 5 9 9 9 9 9 9 1 1 = 6 0 > 1; 7 0 > 1; 8 0 > 0; words 0 0 0 0 0 0 0 0
the second counter has no room: c4 iB iB oI oI Integers.OnCounter/0 Integers.OnCounter/0 0:0-4 0:1-5 0:0-7 0:1-8 0:6-2 0:9-3 = 5 0 0 0 0 0 0 0 0 0 0 7 0 0 2147483647 0 0 = 6 1 0 > fault 2; 7 0 0 > fault 2
no counter has room: c4 iB iB oI oI Integers.OnCounter/0 Integers.OnCounter/0 0:0-4 0:1-5 0:0-7 0:1-8 0:6-2 0:9-3 = 5 0 0 0 0 0 0 0 0 0 0 2147483647 0 0 2147483647 0 0 = 6 1 0 > fault 1
no counter has room, and none counts: c4 iB iB oI oI Integers.OnCounter/0 Integers.OnCounter/0 0:0-4 0:1-5 0:0-7 0:1-8 0:6-2 0:9-3 = 5 0 0 0 0 0 0 0 0 0 0 2147483647 1 0 2147483647 1 0 = 6 1 0 > 2147483647 2147483647; 7 0 0 > 2147483647 2147483647; 8 1 1 > 0 0
a counter without room behind a division: c3 iB iR oI Reals.Divide Integers.OnCounter/0 0:1-3 0:1-4 0:0-6 0:0-7 0:8-2 = 5 0 0 0 0 0 0 0 0 0 2147483647 0 1 = 6 1 0 > fault 1";

// The name, the net, the last time with the words, and what is behind them.
fn columns(row: &str) -> Option<(&str, &str, &str, &str)> {
    let (name, rest) = row.split_once(": ")?;
    let (net, rest) = rest.split_once(" = ")?;
    let (words, end) = rest.split_once(" =")?;
    Some((name, net, words, end))
}

// What is answered to these words, of which the first is the last time.
fn answer(alloc: Global, net: &str, words: &[i64]) -> Result<String, Fail> {
    let (last, words) = words.split_first().ok_or("no time")?;
    match Trial::resume(alloc, net, *last, words)? {
        Ok(trial) => {
            let same = trial.runner().last() == *last && *trial.runner().words() == *words;
            Ok(String::from_str(alloc, if same { "taken" } else { "other words" })?)
        }
        Err(ResumeFault::Count) => Ok(String::from_str(alloc, "count")?),
        Err(ResumeFault::State { instance }) => Ok(format!(in alloc; "state {instance}")?),
        Err(ResumeFault::OutOfMemory) => Ok(String::from_str(alloc, "out of memory")?),
    }
}

#[test]
fn words_are_refused_by_their_number_and_the_first_unsound_state(
    rt: HostRuntime,
) -> Result<(), Fail> {
    let alloc = rt.alloc();
    for row in ROWS.lines() {
        let (name, net, words, end) = columns(row).ok_or("columns")?;
        let words = numbers(alloc, words, ' ')?;
        let found = answer(alloc, net, words.as_slice())?;
        assert_eq!(rt; found.as_str(), end.trim(), "{name}");
    }
    Ok(())
}

#[test]
fn a_run_goes_on_from_sound_words_that_no_run_gave(rt: HostRuntime) -> Result<(), Fail> {
    let alloc = rt.alloc();
    for row in ON.lines() {
        let (name, net, words, cells) = columns(row).ok_or("columns")?;
        let words = numbers(alloc, words, ' ')?;
        let (last, words) = words.as_slice().split_first().ok_or("no time")?;
        let Ok(mut trial) = Trial::resume(alloc, net, *last, words)? else {
            return Err("sound words are refused".into());
        };
        for cell in cells.split(';') {
            assert!(rt; gives(alloc, &mut trial, cell)?, "{name}");
        }
    }
    Ok(())
}
