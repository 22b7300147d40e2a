// Reading the table of a run.
ghost use Rattle.std.specs.Prelude.{◌≡◌, ◌≤◌, ◌<◌, ◌+◌, ◌-◌, ◌^◌, IfOk, IfErr, OnOk};
ghost use Rattle.std.specs.Io.KnownBytes.{IsAtEnd};
ghost use Rattle.cdl_source.specs.Causes.{Rose};
ghost use Rattle.cdl_source.specs.Outside.{IsNextDue, due_after};
ghost use Rattle.cdl_table.specs.Values.{HaveValues};
ghost use Rattle.cdl_table.specs.IsTable.{before_all};
ghost use Rattle.cdl_trace.specs.Rising.{Rise};
ghost use Rattle.cdl_command.specs.inner.Reads.{RefusesTable};
ghost use Rattle.cdl_command.specs.inner.Stops.{FaultIsAnswered, Stops};
ghost use Rattle.cdl_command.specs.Tables.{HoldsRows};

use crate::stop::{Stop, refusal_of};
use cdl_job::Spot;
use cdl_source::rules::TABLE_TOO_LONG;
use cdl_source::{Files, LONGEST_TABLE, List, ReadError, read_whole};
use cdl_table::{Column, Table, TableFault};
use cdl_trace::times_rise;
use std::alloc::Global;

/// Reads a table of these inputs.
pub(crate) fn read_table<F: Files>(
    alloc: Global,
    files: &mut F,
    name: &str,
    inputs: &List<Column>,
) -> Result<Table, Stop>
    requires room { F.begun files.old < 2 ^ 64 - 1 }
    requires next { IsNextDue (F.due files.old) name.now }
    ensures begun { F.begun files.new ≡ F.begun files.old + 1 }
    ensures due { F.due files.new ≡ due_after (F.due files.old) }
    ensures contents { F.contents files.new ≡ F.contents files.old }
    ensures later { F.faults files.old ≤ F.faults files.new }
    ensures ok { IfOk result (HoldsRows (F.contents files.old) name.now inputs.now) }
    ensures values { IfOk result (HaveValues inputs.now) }
    ensures rising { IfOk result (Rise before_all) }
    ensures end { OnOk result (IsAtEnd (F.rest files.new)) }
    ensures err { IfErr result (Stops (Rose (F.faults files.old) (F.faults files.new)) (RefusesTable (F.contents files.old) name.now inputs.now)) }
    ensures kept { OnOk result (F.faults files.new ≡ F.faults files.old) }
    ensures answered { IfErr result (FaultIsAnswered (F.faults files.old) (F.faults files.new)) }
{
    let text = match read_whole(alloc, files, name, LONGEST_TABLE) {
        Ok(text) => text,
        Err(ReadError::Failed) => return Err(Stop::ReadFault),
        Err(ReadError::OutOfMemory) => return Err(Stop::OutOfMemory),
        Err(ReadError::TooLarge { head: _ }) => {
            return Err(Stop::Refused(refusal_of(TABLE_TOO_LONG, Spot::Whole)));
        }
    };
    times_rise();
    match Table::check(alloc, text.bytes(), inputs) {
        Ok(table) => Ok(table),
        Err(TableFault::OutOfMemory) => Err(Stop::OutOfMemory),
        Err(TableFault::Rule { rule, row, column }) => {
            Err(Stop::Refused(refusal_of(rule, Spot::Cell { row, column })))
        }
    }
}
