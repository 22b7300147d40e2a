// The work of the verbs: a sequence is checked, written as a document, or run over a table.
ghost use Rattle.std.specs.Prelude.{◌≡◌, ◌≤◌, ◌<◌, ◌^◌, ◌∷◌, ◌++◌, [], OnOk, map, string_bytes, length};
ghost use Rattle.std.specs.Io.KnownBytes.{IsAtEnd};
ghost use Rattle.cdl_source.specs.Causes.{Rose};
ghost use Rattle.cdl_source.specs.Outside.{DueBeginsWith};
ghost use Rattle.cdl_job.specs.Job.{CheckOf, CxfOf, RunOf};
ghost use Rattle.cdl_job.specs.declared.outcome.Outcome.{Outcome};
ghost use Rattle.cdl_command.specs.Top.{Works};
ghost use Rattle.cdl_command.specs.inner.Stops.{ended_of};

use crate::document::document_of;
use crate::plan::plan_of;
use crate::stop::Stop;
use crate::table::read_table;
use cdl_source::{Files, MOST_MODELS, Sink, write_whole};
use cdl_trace::{input_columns, write_trace};
use std::alloc::Global;

// What a check prints.
const CHECKED: &[u8] = b"ok\n";

/// Checks the sequence of the class in the models.
pub(crate) fn check<F: Files, O: Sink>(
    alloc: Global,
    class: &str,
    models: &[String],
    files: &mut F,
    out: &mut O,
) -> Result<(), Stop>
    requires few { length models.now ≤ MOST_MODELS }
    requires some { 0 < length models.now }
    requires room { F.begun files.old ≤ 2 ^ 32 }
    requires due { DueBeginsWith (F.due files.old) (map string_bytes models.now) }
    ensures works { Works (CheckOf class.now (map string_bytes models.now)) (F.contents files.old) (F.begun files.old) (F.begun files.new)
        (Rose (F.faults files.old) (F.faults files.new)) (Rose (O.faults out.old) (O.faults out.new))
        (ended_of result) (O.written out.old) (O.written out.new) }
    ensures ends { OnOk result (IsAtEnd (F.rest files.new)) }
    ensures contents { F.contents files.new ≡ F.contents files.old }
    ensures files_later { F.faults files.old ≤ F.faults files.new }
    ensures out_later { O.faults out.old ≤ O.faults out.new }
    ensures read_fault { F.faults files.old < F.faults files.new → (ended_of result).outcome ≡ Outcome.ReadFault }
    ensures write_fault { O.faults out.old < O.faults out.new → (ended_of result).outcome ≡ Outcome.WriteFault }
{
    plan_of(alloc, class, models, files)?;
    write_whole(out, CHECKED)?;
    Ok(())
}

/// Writes the document of the sequence of the class in the models.
pub(crate) fn cxf<F: Files, O: Sink>(
    alloc: Global,
    class: &str,
    models: &[String],
    files: &mut F,
    out: &mut O,
) -> Result<(), Stop>
    requires few { length models.now ≤ MOST_MODELS }
    requires some { 0 < length models.now }
    requires room { F.begun files.old ≤ 2 ^ 32 }
    requires due { DueBeginsWith (F.due files.old) (map string_bytes models.now) }
    ensures works { Works (CxfOf class.now (map string_bytes models.now)) (F.contents files.old) (F.begun files.old) (F.begun files.new)
        (Rose (F.faults files.old) (F.faults files.new)) (Rose (O.faults out.old) (O.faults out.new))
        (ended_of result) (O.written out.old) (O.written out.new) }
    ensures ends { OnOk result (IsAtEnd (F.rest files.new)) }
    ensures contents { F.contents files.new ≡ F.contents files.old }
    ensures files_later { F.faults files.old ≤ F.faults files.new }
    ensures out_later { O.faults out.old ≤ O.faults out.new }
    ensures read_fault { F.faults files.old < F.faults files.new → (ended_of result).outcome ≡ Outcome.ReadFault }
    ensures write_fault { O.faults out.old < O.faults out.new → (ended_of result).outcome ≡ Outcome.WriteFault }
{
    let checked = plan_of(alloc, class, models, files)?;
    let text = document_of(alloc, checked.net())?;
    write_whole(out, text.bytes())?;
    Ok(())
}

/// Runs the sequence of the class in the models over the table, and writes its trace.
pub(crate) fn run<F: Files, O: Sink>(
    alloc: Global,
    class: &str,
    table: &str,
    models: &[String],
    files: &mut F,
    out: &mut O,
) -> Result<(), Stop>
    requires few { length models.now ≤ MOST_MODELS }
    requires room { F.begun files.old ≤ 2 ^ 32 }
    requires due { DueBeginsWith (F.due files.old) (map string_bytes models.now ++ table.now ∷ []) }
    ensures works { Works (RunOf class.now table.now (map string_bytes models.now)) (F.contents files.old) (F.begun files.old) (F.begun files.new)
        (Rose (F.faults files.old) (F.faults files.new)) (Rose (O.faults out.old) (O.faults out.new))
        (ended_of result) (O.written out.old) (O.written out.new) }
    ensures ends { OnOk result (IsAtEnd (F.rest files.new)) }
    ensures contents { F.contents files.new ≡ F.contents files.old }
    ensures files_later { F.faults files.old ≤ F.faults files.new }
    ensures out_later { O.faults out.old ≤ O.faults out.new }
    ensures read_fault { F.faults files.old < F.faults files.new → (ended_of result).outcome ≡ Outcome.ReadFault }
    ensures write_fault { O.faults out.old < O.faults out.new → (ended_of result).outcome ≡ Outcome.WriteFault }
{
    let plan = plan_of(alloc, class, models, files)?;
    let inputs = input_columns(alloc, plan.net().net())?;
    let rows = read_table(alloc, files, table, &inputs)?;
    write_trace(alloc, plan, &rows, out)?;
    Ok(())
}
