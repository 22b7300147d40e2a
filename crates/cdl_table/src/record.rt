// One record of a table.
ghost use Rattle.std.specs.Prelude.{◌≡◌, ◌<◌, ◌-◌, ◌^◌, ◌++◌, List, [], ℤ, pos, length, drop, IfOk, OnOk, IfErr, Ok};
ghost use Rattle.csv.specs.Records.{fields_of};
ghost use Rattle.cdl_table.specs.inner.Scan.{NamesIn, row_of, with_time, words_from};
ghost use Rattle.cdl_table.specs.TableRow.{row_with};

use crate::cells::{read_time, word_at};
use crate::{Column, TableFault};
use cdl_source::List;
use cdl_source::rules::{NOT_A_TIME, NOT_A_VALUE, TIME_DOES_NOT_RISE, WRONG_FIELD_COUNT};
use csv::ByteRecord;

// Adds the words of the record's fields behind the first, one for each column.
fn read_words(
    csv_record: &ByteRecord,
    inputs: &[Column],
    number: u32,
    words: &mut List<i64>,
) -> Result<(), TableFault>
    requires { length inputs.now < 2 ^ 32 - 2 }
    ensures ok { OnOk result ((v : List ℤ) × (words.new ≡ words.old ++ v) × (words_from 2 [] inputs.now (drop 1 (fields_of csv_record.now)) ≡ Ok v)) }
    ensures err { IfErr result (NamesIn number (with_time (pos 0) (words_from 2 [] inputs.now (drop 1 (fields_of csv_record.now))))) }
{
    for (i, input) in inputs.iter().enumerate() {
        let Some(word) = word_at(csv_record, i + 1, input.value_type) else {
            return Err(TableFault::Rule {
                rule: NOT_A_VALUE,
                row: number,
                column: i as u32 + 2,
            });
        };
        words.push(word)?;
    }
    Ok(())
}

// Adds the words of a record, and gives its time, which is above `last`.
pub(crate) fn read_row(
    csv_record: &ByteRecord,
    inputs: &[Column],
    last: i64,
    number: u32,
    words: &mut List<i64>,
) -> Result<i64, TableFault>
    requires { length inputs.now < 2 ^ 32 - 2 }
    ensures ok { IfOk result (λ time. (v : List ℤ) × (words.new ≡ words.old ++ v) × (row_of inputs.now last (fields_of csv_record.now) ≡ Ok (row_with time v))) }
    ensures err { IfErr result (NamesIn number (row_of inputs.now last (fields_of csv_record.now))) }
{
    if csv_record.len() != inputs.len() + 1 {
        return Err(TableFault::Rule {
            rule: WRONG_FIELD_COUNT,
            row: number,
            column: 1,
        });
    }
    let Some(field) = csv_record.get(0) else {
        return Err(TableFault::Rule {
            rule: WRONG_FIELD_COUNT,
            row: number,
            column: 1,
        });
    };
    let Some(time) = read_time(field) else {
        return Err(TableFault::Rule {
            rule: NOT_A_TIME,
            row: number,
            column: 1,
        });
    };
    if time <= last {
        return Err(TableFault::Rule {
            rule: TIME_DOES_NOT_RISE,
            row: number,
            column: 1,
        });
    }
    match read_words(csv_record, inputs, number, words) {
        Ok(()) => Ok(time),
        Err(e) => Err(e),
    }
}
