use crate::{indexed, net_of};
use cdl_connect::NetFault;
use std::alloc::Global;
use std::test::Fail;

// A line for each net: its name, the net, and how its check ends: with the rule and the number of the wire or element.
static ROWS: &str = "\
a wire from input to output: c-2 iB oB w001 = checked
its sink stands left: c-2 iB oB w010 = checked
an empty root: c-0 = checked
an input that is not read: c-1 iB = checked
C43 of an element with itself: c-2 iB oB w000 w001 = C43 at 0
C43 of two inputs of the root: c-3 iB iB oB w001 w002 = C43 at 0
C43 of two outputs of the root: c-3 iB oB oB w012 w001 = C43 at 0
C43 of two outputs inside a part: c-0 c02 oB oB w101 = C43 at 0
C43 of an input and an output of a block: c-2 iB oB n02 iB oB w002 w003 w031 = C43 at 1
C44 of a Boolean and an Integer: c-2 iB oI w001 = C44 at 0
C44 of an Integer and a Real: c-2 iI oR w001 = C44 at 0
two Integers: c-2 iI oI w001 = checked
C48 of two units: c-2 iRK oRC w001 = C48 at 0
C48 of units that differ in case: c-2 iRK oRk w001 = C48 at 0
C48 of a unit and a longer one: c-2 iRK oRKs w001 = C48 at 0
equal units: c-2 iRK oRK w001 = checked
an empty unit left: c-2 iR oRK w001 = checked
an empty unit right: c-2 iRK oR w001 = checked
C45 of the same wire twice: c-2 iB oB w001 w001 = C45 at 1
C45 of a wire in both directions: c-2 iB oB w001 w010 = C45 at 1
C45 of two sources: c-3 iB iB oB w002 w012 = C45 at 2
C46 of an output of the root: c-2 iB oB = C46 at 1
C46 of an input of a block: c-2 iB oB n02 iB oB w031 = C46 at 2
C46 of an output in an unused part: c-2 iB oB c02 iB oB w001 w002 = C46 at 3
C44 of wire 0 before C43 of wire 1: c-4 iB oI iB oB w001 w002 = C44 at 0
C43 of wire 0 before C44 of wire 1: c-4 iB oI iB oB w002 w001 = C43 at 0
C48 of wire 0 before C44 of wire 1: c-4 iRK oRC iB oI w001 w023 = C48 at 0
C44 of wire 0 before C48 of wire 1: c-4 iRK oRC iB oI w023 w001 = C44 at 0
C44 of the last wire before C46 of the first element: c-4 iB oB oI oB w003 w002 = C44 at 1
C45 of element 1 before C46 of element 2: c-3 iB oB oB w001 w001 = C45 at 1
C46 of element 1 before C45 of element 2: c-3 iB oB oB w002 w002 = C46 at 1
wires through a part: c-2 iB oB c02 iB oB w002 w031 w123 = checked
wires through a part, sinks left: c-2 iB oB c02 iB oB w020 w013 w132 = checked
C46 where the wire outside is missing: c-2 iB oB c02 iB oB w031 w123 = C46 at 2
C46 where the wire inside is missing: c-2 iB oB c02 iB oB w002 w031 = C46 at 3
wires down two parts to a block and up: c-2 iB oB c02 iB oB c12 iB oB n22 iB oB w002 w031 w124 w153 w246 w275 = checked";

// How the check of the net of this text ends.
fn end_of(alloc: Global, words: &str) -> Result<String, Fail> {
    let Some(net) = indexed(net_of(alloc, words)?) else {
        return Ok(String::from_str(alloc, "numbers out of range")?);
    };
    let wires = net.wires.items().len();
    let (fault, back) = match net.check(alloc) {
        Ok(checked) => (None, checked.net().wires.items().len()),
        Err(refusal) => (Some(refusal.fault), refusal.net.wires.items().len()),
    };
    if back != wires {
        return Ok(String::from_str(alloc, "another net")?);
    }
    Ok(match fault {
        None => String::from_str(alloc, "checked")?,
        Some(NetFault::SameSide { wire }) => format!(in alloc; "C43 at {wire}")?,
        Some(NetFault::TypesDiffer { wire }) => format!(in alloc; "C44 at {wire}")?,
        Some(NetFault::UnitsDiffer { wire }) => format!(in alloc; "C48 at {wire}")?,
        Some(NetFault::ManySources { element }) => format!(in alloc; "C45 at {element}")?,
        Some(NetFault::NoSource { element }) => format!(in alloc; "C46 at {element}")?,
        Some(NetFault::OutOfMemory) => String::from_str(alloc, "out of memory")?,
    })
}

#[test]
fn each_net_has_its_first_fault(rt: HostRuntime) -> Result<(), Fail> {
    let alloc = rt.alloc();
    for row in ROWS.lines() {
        let (name, rest) = row.split_once(": ").ok_or("no name")?;
        let (words, end) = rest.split_once(" = ").ok_or("no end")?;
        let found = end_of(alloc, words)?;
        assert_eq!(rt; found.as_str(), end, "{name}");
    }
    Ok(())
}
