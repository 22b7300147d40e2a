// Tables.
ghost use Rattle.std.specs.Prelude.{◌≡◌, ◌≤◌, ◌<◌, List, length, IfOk, IfErr};
ghost use Rattle.cdl_table.specs.Broken.{IsOnly, NamesFirst, Refuses};
ghost use Rattle.cdl_table.specs.IsTable.{IsTable};
ghost use Rattle.cdl_table.specs.Rows.{table_records};
ghost use Rattle.cdl_table.specs.TableRow.{TableRow, row_at};
ghost use Rattle.cdl_table.specs.Values.{HaveValues};

use crate::Column;
use crate::scan::scan;
use cdl_source::{LONGEST_TABLE, List, OutOfMemory};
use std::alloc::Global;
use std::marker::Model;

/// The rows of a table, which contracts see as a list of them: each a time in milliseconds, from 0 to 10^13 and rising, and a
/// word for each column.
#[derive(Debug, Drop)]
pub struct Table {
    pub(crate) width: usize,
    pub(crate) times: List<i64>,
    pub(crate) words: List<i64>,
}

impl Model for Table {
    ghost use Rattle.std.specs.Prelude.{◌≡◌, ◌*◌, List, length};
    ghost use Rattle.cdl_table.specs.TableRow.{TableRow, rows_of};

    ghost Value = { List TableRow };

    ghost view = { λ t. rows_of t.width t.times t.words };

    ghost invariant = { λ t. length t.words ≡ length t.times * t.width };
}

/// Why there is no table.
#[derive(Clone, Copy, Debug, PartialEq, Eq)]
pub enum TableFault {
    /// This rule is broken first: at this row, which is a record, and column, which is a field, both counted from 1.
    /// 61: a record has another number of fields than the first; column 1.
    /// 62: the first record is not the header, or there is none; row 1, the first column that differs, is missing or is too many.
    /// 63: the first field is no time. 64: the time is not above the one before.
    /// 65: a field is no value of its column's type. 66: the record is one of more rows than `MOST_TICKS`; column 1.
    Rule { rule: u32, row: u32, column: u32 },
    OutOfMemory,
}

impl From<OutOfMemory> for TableFault {
    ghost use Rattle.std.specs.Prelude.{◌≡◌};
    ghost use Rattle.cdl_table.specs.declared.table.TableFault.TheVariants.{OutOfMemory as no_memory};

    ghost from_gives = { λ _ e. e ≡ no_memory };

    fn from(_: OutOfMemory) -> Self {
        TableFault::OutOfMemory
    }
}

impl Table {
    /// The rows of a table: records of comma-separated fields, by the rules of RFC 4180. The first record is `time` and the
    /// names of the columns, in order. Each further record is a row: its time in whole milliseconds, of 1 to 14 digits, up to
    /// `LATEST_TIME` and above the time before it, and then a value for each column. A Boolean is `true`, `false`, `1` or
    /// `0`; an Integer an optional `-` and 1 to 10 digits, of a magnitude up to `LARGEST_INTEGER`; a Real any text that
    /// `cdl_decimal::parse` takes. There are at most `MOST_TICKS` rows. A byte order mark at the start and blank lines are passed
    /// over, and blanks belong to their field.
    ///
    /// There are at most `LONGEST_TABLE` bytes. They are a table of at most one list of rows. `Rule` comes exactly where they are a
    /// table of none, memory aside, and names the first rule that is broken: by row, then column, and in a record 66 and 61
    /// before the cells. The memory taken is linear in the bytes.
    pub fn check(alloc: Global, bytes: &[u8], inputs: &List<Column>) -> Result<Table, TableFault>
        requires { length bytes.now ≤ LONGEST_TABLE }
        ensures ok { IfOk result (λ table. IsTable inputs.now (table_records bytes.now) table) }
        ensures only { IfOk result (λ table. (rows : List TableRow) → IsTable inputs.now (table_records bytes.now) rows → rows ≡ table) }
        ensures values { IfOk result (HaveValues inputs.now) }
        ensures first { IfErr result (NamesFirst inputs.now (table_records bytes.now)) }
        ensures refused { IfErr result (Refuses inputs.now (table_records bytes.now)) }
        ensures only_first { IfErr result (IsOnly inputs.now (table_records bytes.now)) }
    {
        match scan(alloc, bytes, inputs.items()) {
            Ok(table) => Ok(table),
            Err(e) => Err(e),
        }
    }

    /// The number of rows.
    pub fn rows(&self) -> usize
        ensures { result ≡ length self.now }
    {
        self.times.items().len()
    }

    /// The time of the row of that number, from 0, in milliseconds.
    pub fn time(&self, i: usize) -> i64
        requires { i < length self.now }
        ensures { result ≡ (row_at self.now i).time }
    {
        self.times.items()[i]
    }

    /// The words of the row of that number, from 0, one for each column.
    pub fn row(&self, i: usize) -> &[i64]
        requires { i < length self.now }
        ensures { result.now ≡ (row_at self.now i).words }
    {
        let words = self.words.items();
        let start = i * self.width;
        &words[start..start + self.width]
    }
}
