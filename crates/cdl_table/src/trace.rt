// Traces.
ghost use Rattle.std.specs.Prelude.{◌≡◌, ◌≤◌, ◌++◌, ◌∷◌, [], IfOk, IsErrOf, OnOk, OnErr};
ghost use Rattle.csv.specs.Records.{fields_of};
ghost use Rattle.csv.specs.Writing.{comma, default_writer, field_text, fields_text, row_text};
ghost use Rattle.cdl_decimal.specs.Canon.{canon};
ghost use Rattle.cdl_decimal.specs.Near.{InRange};
ghost use Rattle.cdl_values.specs.History.{IsValue};
ghost use Rattle.cdl_source.specs.Causes.{Rose};
ghost use Rattle.cdl_source.specs.Outside.{written_after};
ghost use Rattle.cdl_source.specs.Whole.{WritesSome};
ghost use Rattle.cdl_table.specs.IsTable.{header_of};
ghost use Rattle.cdl_table.specs.Trace.{FaultIsAnswered, boolean_text, header_text, record_text, word_text, word_texts};
ghost use Rattle.cdl_table.specs.Values.{AreValues};

use crate::Column;
use cdl_decimal::{Real, text};
use cdl_source::{Failed, List, OutOfMemory, Sink, Text, write_whole};
use cdl_values::ValueType;
use csv::{ByteRecord, WriterBuilder};
use itoa::Buffer;
use std::alloc::{AllocError, Global};
use std::marker::Model;

/// Why a record of a trace was not written whole.
#[derive(Clone, Copy, Debug, PartialEq, Eq)]
pub enum TraceError {
    /// The sink failed.
    WriteFault,
    OutOfMemory,
}

impl From<OutOfMemory> for TraceError {
    ghost use Rattle.std.specs.Prelude.{◌≡◌};
    ghost use Rattle.cdl_table.specs.declared.trace.TraceError.TheVariants.{OutOfMemory as no_memory};

    ghost from_gives = { λ _ e. e ≡ no_memory };

    fn from(_: OutOfMemory) -> Self {
        TraceError::OutOfMemory
    }
}

impl From<AllocError> for TraceError {
    ghost use Rattle.std.specs.Prelude.{◌≡◌};
    ghost use Rattle.cdl_table.specs.declared.trace.TraceError.TheVariants.{OutOfMemory as no_memory};

    ghost from_gives = { λ _ e. e ≡ no_memory };

    fn from(_: AllocError) -> Self {
        TraceError::OutOfMemory
    }
}

impl From<Failed> for TraceError {
    ghost use Rattle.std.specs.Prelude.{◌≡◌};
    ghost use Rattle.cdl_table.specs.declared.trace.TraceError.TheVariants.{WriteFault as fault};

    ghost from_gives = { λ _ e. e ≡ fault };

    fn from(_: Failed) -> Self {
        TraceError::WriteFault
    }
}

/// Writes a trace record by record. Contracts see its outputs: the name and the type of each.
#[derive(Debug, Drop)]
pub struct TraceWriter {
    alloc: Global,
    outputs: List<Column>,
    // The bytes of the record of a tick, whose room is kept for the next.
    buffer: Vec<u8>,
}

impl Model for TraceWriter {
    ghost use Rattle.std.specs.Prelude.{List};
    ghost use Rattle.cdl_table.specs.declared.column.Column.{Column};

    ghost Value = { List Column };

    ghost view = { λ w. w.outputs };
}

impl TraceWriter {
    /// A writer of the trace of these outputs.
    pub fn new(alloc: Global, outputs: List<Column>) -> Result<TraceWriter, OutOfMemory>
        ensures { IfOk result (λ writer. writer ≡ outputs) }
    {
        Ok(TraceWriter {
            alloc,
            outputs,
            buffer: Vec::new(alloc),
        })
    }

    /// Writes the first record, `time` and the names of the outputs, by one `write_whole`. `WriteFault` comes exactly where
    /// the sink failed. At an error a prefix of the record was written.
    pub fn header<S: Sink>(&mut self, sink: &mut S) -> Result<(), TraceError>
        ensures ok { OnOk result (S.written sink.new ≡ written_after (S.written sink.old) (header_text self.old)) }
        ensures err { OnErr result (WritesSome (S.written sink.old) (S.written sink.new) (header_text self.old)) }
        ensures kept { self.new ≡ self.old }
        ensures later { S.faults sink.old ≤ S.faults sink.new }
        ensures fault { IsErrOf result TraceError.WriteFault → Rose (S.faults sink.old) (S.faults sink.new) }
        ensures answered { FaultIsAnswered (S.faults sink.old) (S.faults sink.new) result }
    {
        let fields = header_record(self.alloc, self.outputs.items())?;
        let text = record_bytes(self.alloc, &fields)?;
        write_whole(sink, text.as_slice())?;
        Ok(())
    }

    /// Writes the record of one tick by one `write_whole`: its time in milliseconds, and a word for each output, each a value of
    /// its type. A Boolean is written as `true` or `false`, an Integer in decimal, a Real in its canonical text. `WriteFault`
    /// comes exactly where the sink failed. At an error a prefix of the record was written.
    pub fn row<S: Sink>(&mut self, now: i64, words: &[i64], sink: &mut S) -> Result<(), TraceError>
        requires { AreValues self.old words.now }
        ensures ok { OnOk result (S.written sink.new ≡ written_after (S.written sink.old) (record_text self.old now words.now)) }
        ensures err { OnErr result (WritesSome (S.written sink.old) (S.written sink.new) (record_text self.old now words.now)) }
        ensures kept { self.new ≡ self.old }
        ensures later { S.faults sink.old ≤ S.faults sink.new }
        ensures fault { IsErrOf result TraceError.WriteFault → Rose (S.faults sink.old) (S.faults sink.new) }
        ensures answered { FaultIsAnswered (S.faults sink.old) (S.faults sink.new) result }
    {
        let outputs = self.outputs.items();
        fill_record(self.alloc, &mut self.buffer, outputs, now, words)?;
        write_whole(sink, self.buffer.as_slice())?;
        Ok(())
    }
}

// The header of these columns.
fn header_record(alloc: Global, columns: &[Column]) -> Result<ByteRecord, OutOfMemory>
    ensures { IfOk result (λ fields. fields_of fields ≡ header_of columns.now) }
{
    let mut fields = ByteRecord::new(alloc);
    fields.push_field(b"time")?;
    for column in columns {
        fields.push_field(column.name.bytes())?;
    }
    Ok(fields)
}

// Writes the record of a tick over what stood in the buffer. None of its fields calls for quotes.
fn fill_record(
    alloc: Global,
    buffer: &mut Vec<u8>,
    columns: &[Column],
    now: i64,
    words: &[i64],
) -> Result<(), OutOfMemory>
    requires { AreValues columns.now words.now }
    ensures { OnOk result (buffer.new.items ≡ record_text columns.now now words.now) }
{
    let mut digits = Buffer::new();
    buffer.clear();
    buffer.extend_from_slice(digits.format(now).as_bytes())?;
    push_words(alloc, buffer, columns, words)?;
    buffer.extend_from_slice(b"\n")?;
    Ok(())
}

// Adds a field behind the first for each column, with the text of its word.
fn push_words(
    alloc: Global,
    buffer: &mut Vec<u8>,
    columns: &[Column],
    words: &[i64],
) -> Result<(), OutOfMemory>
    requires { AreValues columns.now words.now }
    ensures { OnOk result (buffer.new.items ≡ buffer.old.items ++ fields_text default_writer (word_texts columns.now words.now)) }
{
    for (i, column) in columns.iter().enumerate() {
        push_word(alloc, buffer, column.value_type, words[i])?;
    }
    Ok(())
}

// Adds a comma and the text of the word.
fn push_word(
    alloc: Global,
    buffer: &mut Vec<u8>,
    value_type: ValueType,
    word: i64,
) -> Result<(), OutOfMemory>
    requires { IsValue value_type word }
    ensures { OnOk result (buffer.new.items ≡ buffer.old.items ++ (comma ∷ field_text default_writer (word_text value_type word))) }
{
    buffer.extend_from_slice(b",")?;
    match value_type {
        ValueType::Boolean => {
            buffer.extend_from_slice(boolean_bytes(word == 1))?;
            Ok(())
        }
        ValueType::Integer => {
            let mut digits = Buffer::new();
            buffer.extend_from_slice(digits.format(word).as_bytes())?;
            Ok(())
        }
        ValueType::Real => {
            let digits = real_text(alloc, word)?;
            buffer.extend_from_slice(digits.bytes())?;
            Ok(())
        }
        _ => unreachable!(),
    }
}

// The canonical text of a count of millionths.
fn real_text(alloc: Global, count: i64) -> Result<Text, OutOfMemory>
    requires { InRange count }
    ensures { IfOk result (λ digits. digits ≡ canon count) }
{
    match Real::from_count(count) {
        Some(value) => text(alloc, value),
        None => unreachable!(),
    }
}

// The text of a Boolean.
fn boolean_bytes(value: bool) -> &'static [u8]
    ensures { result.now ≡ boolean_text value }
{
    if value { b"true" } else { b"false" }
}

// The text of a record. A fresh writer over memory fails only for want of memory.
fn record_bytes(alloc: Global, fields: &ByteRecord) -> Result<Vec<u8>, OutOfMemory>
    ensures { IfOk result (λ text. text.items ≡ row_text default_writer (fields_of fields.now)) }
{
    let mut writer = WriterBuilder::new().from_writer(Vec::new(alloc));
    if writer.write_byte_record(fields).is_err() {
        return Err(OutOfMemory);
    }
    match writer.into_inner() {
        Ok(text) => Ok(text),
        Err(_) => Err(OutOfMemory),
    }
}
