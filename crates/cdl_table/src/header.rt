// The header of a table.
ghost use Rattle.std.specs.Prelude.{◌≡◌, ◌<◌, ◌-◌, ◌^◌, length};
ghost use Rattle.csv.specs.Records.{fields_of};
ghost use Rattle.cdl_table.specs.IsTable.{header_of};
ghost use Rattle.cdl_table.specs.inner.Scan.{header_fault};

use crate::Column;
use crate::cells::has_field;
use csv::ByteRecord;

// The first column at which a record is not the header of these columns.
pub(crate) fn header_column(csv_record: &ByteRecord, inputs: &[Column]) -> Option<u32>
    requires { length (fields_of csv_record.now) < 2 ^ 32 - 2 }
    ensures { result ≡ header_fault 1 (header_of inputs.now) (fields_of csv_record.now) }
{
    if !has_field(csv_record, 0, b"time") {
        return Some(1);
    }
    for (i, input) in inputs.iter().enumerate() {
        if !has_field(csv_record, i + 1, input.name.bytes()) {
            return Some(i as u32 + 2);
        }
    }
    match csv_record.get(inputs.len() + 1) {
        None => None,
        Some(_) => Some(inputs.len() as u32 + 2),
    }
}
