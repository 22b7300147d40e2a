use crate::{indexed, net_of};
use cdl_schedule::{OrderFault, Step, order};
use std::alloc::Global;
use std::test::Fail;

// A line for each net: its name, the net, and its plan, or the first instance on a loop.
static ROWS: &str = "\
no block: c-2 iB oB w001 = order
the second before the first: c-2 iB oB n02 iB oB n02 iB oB w004 w052 w031 = order 2 1
a block in a part before one outside: c-2 iB oB n02 iB oB c02 iB oB n22 iB oB w004 w052 w031 w246 w275 = order 3 1
a block joined to itself: c-0 n02 iB oB w010 = loop at 1
only behind a loop: c-0 n02 iB oB n02 iB oB w030 w032 = loop at 2
only before a loop: c-1 iB n02 iB oB a03 iB iB oB w001 w023 w054 = loop at 2
the loop's least instance in the middle: c-0 n02 iB oB n02 iB oB n02 iB oB w030 w034 w052 = loop at 2
two loops, the first one's wires last: c-0 n02 iB oB n02 iB oB w032 w010 = loop at 1
a loop through a part: c-0 c02 iB oB n12 iB oB w010 w102 w131 = loop at 1
a loop through ten parts in one another: c-0 c02 iB oB c12 iB oB c22 iB oB c32 iB oB c42 iB oB c52 iB oB c62 iB oB c72 iB oB c82 iB oB c92 iB oB na2 iB oB w010 w102 w131 w224 w253 w346 w375 w468 w497 w58a w5b9 w6ac w6db w7ce w7fd w8eg w8hf w9gi w9jh waik walj = loop at 1
a loop in a part: c-0 c00 n12 iB oB w110 = loop at 2
a Pre that reads its own output: c-0 p02 iB oB w010 = order 1
a loop through a Pre: c-0 n02 iB oB p02 iB oB w012 w030 = order 2 1
a loop through a UnitDelay: c-0 u02 iR oR w010 = order 1
a loop beside one through a Pre: c-0 p02 iB oB n02 iB oB w010 w032 = loop at 2
behind a loop and before a Pre: c-0 n02 iB oB p02 iB oB w010 w012 = loop at 1
a Pre behind what it is read by: c-1 oB n02 iB oB p02 iB oB w041 w023 w002 = order 2 1
through one input of an And, not through the other: c-0 a03 iB iB oB p02 iB oB w023 w040 w021 = loop at 1";

// The plan of the net of this text, or why there is none.
fn plan_of(alloc: Global, words: &str) -> Result<String, Fail> {
    let Some(net) = indexed(net_of(alloc, words)?) else {
        return Ok(String::from_str(alloc, "numbers out of range")?);
    };
    let Ok(checked) = net.check(alloc) else {
        return Ok(String::from_str(alloc, "broken wires")?);
    };
    let wires = checked.net().wires.items().len();
    match order(alloc, checked) {
        Ok(plan) => {
            if plan.net().net().wires.items().len() != wires {
                return Ok(String::from_str(alloc, "another net")?);
            }
            let emits = plan
                .steps()
                .iter()
                .filter(|step| matches!(**step, Step::Emit { .. }))
                .count();
            if emits != plan.list().len() {
                return Ok(String::from_str(alloc, "other steps")?);
            }
            let mut text = String::from_str(alloc, "order")?;
            for instance in plan.list() {
                text.push_str(format!(in alloc; " {instance}")?.as_str())?;
            }
            Ok(text)
        }
        Err(refusal) => match refusal.fault {
            OrderFault::Loop { instance } => Ok(format!(in alloc; "loop at {instance}")?),
            OrderFault::OutOfMemory => Ok(String::from_str(alloc, "out of memory")?),
        },
    }
}

#[test]
fn each_net_has_its_order(rt: HostRuntime) -> Result<(), Fail> {
    let alloc = rt.alloc();
    for row in ROWS.lines() {
        let (name, rest) = row.split_once(": ").ok_or("no name")?;
        let (words, end) = rest.split_once(" = ").ok_or("no end")?;
        let found = plan_of(alloc, words)?;
        assert_eq!(rt; found.as_str(), end, "{name}");
    }
    Ok(())
}
