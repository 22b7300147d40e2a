// The records of a table, one after another.
ghost use Rattle.std.specs.Prelude.{◌≡◌, ◌≤◌, length, IfOk, IfErr, Ok};
ghost use Rattle.cdl_table.specs.Rows.{table_records};
ghost use Rattle.cdl_table.specs.inner.Scan.{Names, table_of};

use crate::header::header_column;
use crate::record::read_row;
use crate::rows::{next_row, open_rows};
use crate::{Column, Table, TableFault};
use cdl_source::rules::{TOO_MANY_TICKS, WRONG_HEADER};
use cdl_source::{LONGEST_TABLE, List, MOST_TICKS};
use csv::ByteRecord;
use std::alloc::Global;

// The number of the first record that is too many.
const FIRST_TOO_MANY: u32 = MOST_TICKS as u32 + 2;

// The rows of the records of a text, or the first rule that they break.
pub(crate) fn scan(alloc: Global, bytes: &[u8], inputs: &[Column]) -> Result<Table, TableFault>
    requires { length bytes.now ≤ LONGEST_TABLE }
    ensures ok { IfOk result (λ table. table_of inputs.now (table_records bytes.now) ≡ Ok table) }
    ensures err { IfErr result (Names (table_of inputs.now (table_records bytes.now))) }
{
    let mut records = open_rows(alloc, bytes);
    let mut record = ByteRecord::new(alloc);
    if !next_row(&mut records, &mut record)? {
        return Err(TableFault::Rule {
            rule: WRONG_HEADER,
            row: 1,
            column: 1,
        });
    }
    if let Some(column) = header_column(&record, inputs) {
        return Err(TableFault::Rule {
            rule: WRONG_HEADER,
            row: 1,
            column,
        });
    }
    let width = inputs.len();
    let mut times = List::new(alloc);
    let mut words = List::new(alloc);
    let mut number = 2u32;
    let mut last = -1i64;
    while next_row(&mut records, &mut record)? {
        if number == FIRST_TOO_MANY {
            return Err(TableFault::Rule {
                rule: TOO_MANY_TICKS,
                row: number,
                column: 1,
            });
        }
        let time = read_row(&record, inputs, last, number, &mut words)?;
        times.push(time)?;
        last = time;
        number += 1;
    }
    Ok(Table {
        width,
        times,
        words,
    })
}
