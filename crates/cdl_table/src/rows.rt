// The records of a text, one after another.
ghost use Rattle.std.specs.Prelude.{◌≡◌, true, List, ℕ, IfOk};
ghost use Rattle.csv.specs.Reading.{Ready, is_flexible};
ghost use Rattle.csv.specs.Records.{fields_of};
ghost use Rattle.cdl_table.specs.Rows.{Gives, GaveNext, IsOfMemory, table_records};

use cdl_source::OutOfMemory;
use csv::{ByteRecord, ErrorKind, Reader, ReaderBuilder};
use std::alloc::Global;

// A reader of the records of a text, as RFC 4180 has them: no header row, and records of any length.
pub(crate) fn open_rows(alloc: Global, bytes: &[u8]) -> Reader<&[u8]>
    ensures { Gives result (table_records bytes.now) }
{
    ReaderBuilder::new()
        .has_headers(false)
        .flexible(true)
        .from_reader(alloc, bytes)
}

// Reads the next record into `row`, or says that there is none.
pub(crate) fn next_row(rows: &mut Reader<&[u8]>, row: &mut ByteRecord) -> Result<bool, OutOfMemory>
    requires { (is_flexible rows.old ≡ true) × Ready rows.old }
    ensures { IfOk result (λ found. (rest : List (List (List ℕ))) → Gives rows.old rest
        → GaveNext rows.new found (fields_of row.new) rest) }
{
    match rows.read_byte_record(row) {
        Ok(found) => Ok(found),
        Err(e) => Err(memory_of(e.into_kind())),
    }
}

// The want of memory that an error of a read from memory stands for. A slice never fails to be read.
fn memory_of(kind: ErrorKind) -> OutOfMemory
    requires { IsOfMemory kind }
{
    match kind {
        ErrorKind::Io(_) | ErrorKind::OutOfMemory => OutOfMemory,
        _ => unreachable!(),
    }
}
