// Tables and traces of three columns.
ghost use Rattle.std.specs.Prelude.{◌≡◌, ◌++◌, ◌∷◌, [], IfOk, OnOk};
ghost use Rattle.cdl_command_tests.specs.Mixed.{AreMixed};

use crate::marks::bytes_of;
use cdl_source::{List, MemSink, Text};
use cdl_table::{Column, Table, TableFault, TraceError, TraceWriter};
use cdl_values::ValueType;
use std::alloc::Global;
use std::test::Fail;

// What `&` stands for in a case: the header of the columns `a`, `u[1,2]` and `x`, a Boolean, an Integer and a Real.
const HEADER: &[u8] = b"time,a,\"u[1,2]\",x\n";

// Texts of tables of those columns, with the words of their rows, of a time and three words each; or with the rule that is
// broken first, its row and its column. C61 to C65 come in turn, and then two rules at once; at last C62.
const CASES: &str = "&=\n\
    &0,true,1,1|=0 1 1 1000000\n\
    &5,false,-1,-1=5 0 -1 -1000000\n\
    &%|5,1,0,0%||6,0,0,0%=5 1 0 0 6 0 0 0\n\
    &\"5\",\"1\",\"0\",\"0=5 1 0 0\n\
    &0,1,0|=C61 2 1\n\
    &0,1,0,0,0|=C61 2 1\n\
    &0,1,0,0,|=C61 2 1\n\
    &_|=C61 2 1\n\
    &0,1,0,0||1,1,0|=C61 3 1\n\
    &,1,0,0|=C63 2 1\n\
    &_0,1,0,0|=C63 2 1\n\
    &-1,1,0,0|=C63 2 1\n\
    &+1,1,0,0|=C63 2 1\n\
    &1.5,1,0,0|=C63 2 1\n\
    &00000000000007,1,0,0|=7 1 0 0\n\
    &000000000000007,1,0,0|=C63 2 1\n\
    &10000000000000,1,0,0|=10000000000000 1 0 0\n\
    &10000000000001,1,0,0|=C63 2 1\n\
    &5,1,0,0|6,1,0,0|=5 1 0 0 6 1 0 0\n\
    &5,1,0,0|5,1,0,0|=C64 3 1\n\
    &5,1,0,0|4,1,0,0|=C64 3 1\n\
    &0,True,0,0|=C65 2 2\n\
    &0,yes,0,0|=C65 2 2\n\
    &0,,0,0|=C65 2 2\n\
    &0,01,0,0|=C65 2 2\n\
    &0,2,0,0|=C65 2 2\n\
    &0,1_,0,0|=C65 2 2\n\
    &0,^,0,0|=C65 2 2\n\
    &0,1,2147483647,0|=0 1 2147483647 0\n\
    &0,1,2147483648,0|=C65 2 3\n\
    &0,1,-2147483647,0|=0 1 -2147483647 0\n\
    &0,1,-2147483648,0|=C65 2 3\n\
    &0,1,+1,0|=C65 2 3\n\
    &0,1,01,0|=0 1 1 0\n\
    &0,1,-0,0|=0 1 0 0\n\
    &0,1,0000000001,0|=0 1 1 0\n\
    &0,1,00000000001,0|=C65 2 3\n\
    &0,1,-,0|=C65 2 3\n\
    &0,1,--1,0|=C65 2 3\n\
    &0,1,1.0,0|=C65 2 3\n\
    &0,1,true,0|=C65 2 3\n\
    &0,1,0,1.|=0 1 0 1000000\n\
    &0,1,0,.5|=C65 2 4\n\
    &0,1,0,+0.5|=0 1 0 500000\n\
    &0,1,0,-0|=0 1 0 0\n\
    &0,1,0,1e3|=0 1 0 1000000000\n\
    &0,1,0,25E-1|=0 1 0 2500000\n\
    &0,1,0,1e-999|=0 1 0 0\n\
    &0,1,0,1e1000|=C65 2 4\n\
    &0,1,0,10000000000|=0 1 0 10000000000000000\n\
    &0,1,0,10000000000.000001|=C65 2 4\n\
    &0,1,0,0.0000005000000000000000000000001|=C65 2 4\n\
    &0,1,0,0.00000050000000000000000000001|=0 1 0 1\n\
    &0,1,0,true|=C65 2 4\n\
    &0,1,0,_1|=C65 2 4\n\
    &x,1,0|=C61 2 1\n\
    &x,yes,0,0|=C63 2 1\n\
    &5,1,0,0|5,yes,0,0|=C64 3 1\n\
    &0,yes,+1,.5|=C65 2 2\n\
    &0,1,+1,.5|=C65 2 3\n\
    &0,1,0,.5|x,1,0|=C65 2 4\n\
    &0,1,0|0,1,0,.5|=C61 2 1\n\
    &5,1,0,0|4,1,0|=C61 3 1\n\
    time,a,\"u[1,2]\",x|=\n\
    @time,a,\"u[1,2]\",x=\n\
    |%|\"time\",\"a\",\"u[1,2]\",\"x\"|=\n\
    =C62 1 1\n\
    |%|=C62 1 1\n\
    Time,a,\"u[1,2]\",x|=C62 1 1\n\
    _time,a,\"u[1,2]\",x|=C62 1 1\n\
    a,\"u[1,2]\",x|=C62 1 1\n\
    time,\"u[1,2]\",a,x|=C62 1 2\n\
    time,^,\"u[1,2]\",x|=C62 1 2\n\
    time,a,u[1,2],x|=C62 1 3\n\
    time,a,\"u[1,2]\"|=C62 1 4\n\
    time,a,\"u[1,2]\",y|=C62 1 4\n\
    time,a,\"u[1,2]\",x,|=C62 1 5\n\
    time,a,\"u[1,2]\",x,x|=C62 1 5\n\
    time;a;\"u[1,2]\";x|=C62 1 1";

// Adds a column.
fn add(
    alloc: Global,
    list: &mut List<Column>,
    name: &str,
    value_type: ValueType,
) -> Result<(), Fail>
    ensures { OnOk result (list.new ≡ list.old ++ record { name = name.now; value_type = value_type } ∷ []) }
{
    let mut text = Text::new(alloc);
    text.push(name.as_bytes())?;
    list.push(Column {
        name: text,
        value_type,
    })?;
    Ok(())
}

// A Boolean, an Integer and a Real.
fn columns(alloc: Global) -> Result<List<Column>, Fail>
    ensures { IfOk result (λ list. AreMixed list) }
{
    let mut list = List::new(alloc);
    add(alloc, &mut list, "a", ValueType::Boolean)?;
    add(alloc, &mut list, "u[1,2]", ValueType::Integer)?;
    add(alloc, &mut list, "x", ValueType::Real)?;
    Ok(list)
}

// The times and words of a table, or the rule that it breaks, with its row and column.
fn answer(alloc: Global, bytes: &[u8], inputs: &List<Column>) -> Result<String, Fail> {
    let mut said = String::new(alloc);
    if bytes.len() > 1000 {
        return Err("a long table".into());
    }
    match Table::check(alloc, bytes, inputs) {
        Ok(table) => {
            for i in 0..table.rows() {
                said.push_str(format!(in alloc; " {}", table.time(i))?.as_str())?;
                for word in table.row(i) {
                    said.push_str(format!(in alloc; " {word}")?.as_str())?;
                }
            }
        }
        Err(TableFault::Rule { rule, row, column }) => {
            said.push_str(format!(in alloc; " C{rule} {row} {column}")?.as_str())?;
        }
        Err(e) => Err(e)?,
    }
    Ok(said)
}

// Whether the table of a case is answered so.
fn holds(alloc: Global, inputs: &List<Column>, case: &str) -> Result<bool, Fail> {
    let (marked, want) = case.split_once('=').ok_or("no answer")?;
    let table = bytes_of(alloc, marked, HEADER)?;
    let said = answer(alloc, table.bytes(), inputs)?;
    Ok(said.as_str().strip_prefix(' ').unwrap_or("") == want)
}

#[test]
fn tables_are_read(rt: HostRuntime) -> Result<(), Fail> {
    let alloc = rt.alloc();
    let inputs = columns(alloc)?;
    for case in CASES.lines() {
        assert!(rt; holds(alloc, &inputs, case)?, "{case}");
    }
    Ok(())
}

#[test]
fn traces_are_written(rt: HostRuntime) -> Result<(), Fail> {
    let alloc = rt.alloc();
    let outputs = columns(alloc)?;
    let mut writer = TraceWriter::new(alloc, outputs)?;
    let mut sink = MemSink::new(alloc, 7, 128)?;
    writer.header(&mut sink)?;
    writer.row(0, &[1, -7, 1], &mut sink)?;
    writer.row(5, &[0, 2_147_483_647, -1_500_000], &mut sink)?;
    let want = b"time,a,\"u[1,2]\",x\n0,true,-7,0.000001\n5,false,2147483647,-1.5\n";
    assert_eq!(rt; sink.bytes(), want.as_slice());
    let mut small = MemSink::new(alloc, 7, 28)?;
    writer.header(&mut small)?;
    assert!(rt;
        matches!(
            writer.row(5, &[0, 1, 0], &mut small),
            Err(TraceError::WriteFault)
        )
    );
    assert_eq!(rt;
        small.bytes(),
        b"time,a,\"u[1,2]\",x\n5,false,1,".as_slice()
    );
    Ok(())
}
