// What standard error is told of an outcome.
ghost use Rattle.std.specs.Prelude.{◌≡◌, ◌++◌, ◌≤◌, [], IfOk, OnOk, MatchResult, decimal, get_or, map, string_bytes};
ghost use Rattle.std.specs.Fmt.{signed_decimal};
ghost use Rattle.cdl_source.specs.Causes.{Rose};
ghost use Rattle.cdl_job.specs.Job.{task_of_job};
ghost use Rattle.cdl_job.specs.Outcome as spec;
ghost use Rattle.cdl_job.specs.Outcome.{no_memory_text, usage_text};
ghost use Rattle.cdl_job.specs.Told.{Tells, Reports};

use crate::job::Job;
use crate::outcome::{Outcome, Spot};
use cdl_source::{Failed, OutOfMemory, Sink, Text, rules, write_whole};
use itoa::Buffer;
use std::alloc::Global;

const USAGE: &[u8] =
    b"usage: cdl check CLASS MODEL.. | run CLASS TABLE MODEL.. | cxf CLASS MODEL.. | checkcxf DOC | runcxf TABLE DOC | sample N\n";

const NO_MEMORY: &[u8] = b"out of memory\n";

fn push_number(text: &mut Text, n: u32) -> Result<(), OutOfMemory>
    ensures { OnOk result (text.new ≡ text.old ++ decimal n) }
{
    let mut digits = Buffer::new();
    text.push(digits.format(n).as_bytes())
}

fn push_time(text: &mut Text, time: i64) -> Result<(), OutOfMemory>
    ensures { OnOk result (text.new ≡ text.old ++ signed_decimal time) }
{
    let mut digits = Buffer::new();
    text.push(digits.format(time).as_bytes())
}

// The word of the model of this number.
fn model_of<'a>(job: Job<'a>, file: u32) -> &'a str
    ensures { result.now ≡ get_or (spec.models_of (task_of_job job.entry)) file [] }
{
    let models = match job {
        Job::Check { models, .. } | Job::Run { models, .. } | Job::Cxf { models, .. } => models,
        Job::CheckCxf { .. } | Job::RunCxf { .. } | Job::Sample { .. } => return "",
    };
    word_at(models, file)
}

fn word_at(words: &[String], place: u32) -> &str
    ensures { result.now ≡ get_or (map string_bytes words.now) place [] }
{
    match words.get(place as usize) {
        Some(word) => word.as_str(),
        None => "",
    }
}

fn table_of<'a>(job: Job<'a>) -> &'a str
    ensures { result.now ≡ spec.table_of (task_of_job job.entry) }
{
    match job {
        Job::Run { table, .. } => table,
        Job::RunCxf { table, .. } => table,
        Job::Check { .. } | Job::Cxf { .. } | Job::CheckCxf { .. } | Job::Sample { .. } => "",
    }
}

fn document_of<'a>(job: Job<'a>) -> &'a str
    ensures { result.now ≡ spec.document_of (task_of_job job.entry) }
{
    match job {
        Job::CheckCxf { doc } => doc,
        Job::RunCxf { doc, .. } => doc,
        Job::Check { .. } | Job::Run { .. } | Job::Cxf { .. } | Job::Sample { .. } => "",
    }
}

// NAME:LINE:COLUMN
fn push_position(text: &mut Text, name: &str, line: u32, column: u32) -> Result<(), OutOfMemory>
    ensures { OnOk result (text.new ≡ text.old ++ spec.position_text name.now line column) }
{
    text.push(name.as_bytes())?;
    text.push(b":")?;
    push_number(text, line)?;
    text.push(b":")?;
    push_number(text, column)
}

// Where a rule is broken. The byte of the spot stands in this line and column.
fn push_spot(
    text: &mut Text,
    job: Job<'_>,
    line: u32,
    column: u32,
    rule: u32,
    spot: &Spot,
) -> Result<(), OutOfMemory>
    ensures { OnOk result (text.new ≡ text.old ++ spec.spot_text (task_of_job job.entry) line column rule spot.now) }
{
    match spot {
        Spot::Source(place) => push_position(text, model_of(job, place.file), line, column),
        Spot::Path(path) => text.push(path.bytes()),
        Spot::Statement { path, place } => {
            push_position(text, model_of(job, place.file), line, column)?;
            text.push(b" in ")?;
            text.push(path.bytes())
        }
        Spot::Wire { left, right } => {
            text.push(left.bytes())?;
            text.push(b" to ")?;
            text.push(right.bytes())
        }
        Spot::Cell { row, column: field } => push_position(text, table_of(job), *row, *field),
        Spot::Node { node } => {
            text.push(document_of(job).as_bytes())?;
            text.push(b": node ")?;
            push_number(text, *node)
        }
        Spot::Whole => {
            if rule < rules::NOT_JSON {
                return text.push(table_of(job).as_bytes());
            }
            text.push(document_of(job).as_bytes())
        }
    }
}

// The texts of the rules of texts and classes.
fn text_rule(rule: u32) -> &'static [u8]
    ensures { result.now ≡ spec.text_rule rule }
{
    match rule {
        rules::MODEL_TOO_LONG => b"model file too long",
        rules::NOT_UTF8 => b"not UTF-8",
        rules::NO_TOKEN => b"no token here",
        rules::PAST_LIMITS => b"literal or identifier past its limits",
        rules::NESTED_TOO_DEEPLY => b"nested too deeply",
        rules::EXPRESSION_TOO_LONG => b"expression too long",
        rules::SYNTAX => b"syntax",
        rules::WRONG_END_NAME => b"wrong name after end",
        rules::NOT_BUILT => b"not built yet",
        rules::DECLARED_TWICE => b"name declared twice",
        rules::NAME_NOT_FREE => b"name not free",
        rules::NAME_NOT_FOUND => b"name not found",
        rules::NOT_SUPPORTED => b"not supported here",
        rules::NO_SUCH_BLOCK => b"no such block",
        _ => b"",
    }
}

// The texts of the rules of instances.
fn instance_rule(rule: u32) -> &'static [u8]
    ensures { result.now ≡ spec.instance_rule rule }
{
    match rule {
        rules::TOO_MANY_OR_TOO_DEEP => b"too many or too deep",
        rules::CONTAINS_ITSELF => b"block contains itself",
        rules::NOTHING_TO_MODIFY => b"nothing to modify",
        rules::MODIFIED_TWICE => b"modified twice",
        rules::FINAL_MODIFIED => b"modifies a final value",
        rules::WRONG_SHAPE => b"wrong shape",
        rules::WRONG_TYPE => b"wrong type",
        rules::UNKNOWN_NAME => b"unknown name or function",
        rules::SIZE_OUT_OF_RANGE => b"size out of range",
        rules::PARAMETERS_TOO_DEEP => b"parameters depend too deeply",
        rules::NO_VALUE => b"no value",
        rules::PARAMETER_WITHOUT_VALUE => b"parameter without a value",
        rules::PARAMETER_OUT_OF_CONDITION => b"parameter out of its condition",
        rules::UNIT_TOO_LONG => b"unit too long",
        _ => b"",
    }
}

// The texts of the rules of statements, wires, elements and loops.
fn connection_rule(rule: u32) -> &'static [u8]
    ensures { result.now ≡ spec.connection_rule rule }
{
    match rule {
        rules::TOO_MANY_TURNS => b"too many turns",
        rules::NO_SUCH_CONNECTOR => b"no such connector",
        rules::WRONG_SUBSCRIPT => b"wrong subscript",
        rules::SHAPES_DIFFER => b"shapes differ",
        rules::TWO_SOURCES_OR_SINKS => b"two sources or two sinks joined",
        rules::TYPES_DIFFER => b"types differ",
        rules::MORE_THAN_ONE_SOURCE => b"more than one source",
        rules::NO_SOURCE => b"no source",
        rules::TOO_MANY_WIRES => b"too many wires",
        rules::UNITS_DIFFER => b"units differ",
        rules::CXF_TOO_LONG => b"CXF text too long",
        rules::LOOP_WITHOUT_DELAY => b"loop without a delay",
        _ => b"",
    }
}

// The texts of the rules of tables.
fn table_rule(rule: u32) -> &'static [u8]
    ensures { result.now ≡ spec.table_rule rule }
{
    match rule {
        rules::TABLE_TOO_LONG => b"table too long",
        rules::WRONG_FIELD_COUNT => b"wrong number of fields",
        rules::WRONG_HEADER => b"wrong header",
        rules::NOT_A_TIME => b"not a time",
        rules::TIME_DOES_NOT_RISE => b"time doesn't rise",
        rules::NOT_A_VALUE => b"not a value of its type",
        rules::TOO_MANY_TICKS => b"too many ticks",
        _ => b"",
    }
}

fn rule_text(rule: u32) -> &'static [u8]
    ensures { result.now ≡ spec.rule_text rule }
{
    if rule < rules::TOO_MANY_OR_TOO_DEEP {
        return text_rule(rule);
    }
    if rule < rules::TOO_MANY_TURNS {
        return instance_rule(rule);
    }
    if rule < rules::TABLE_TOO_LONG {
        return connection_rule(rule);
    }
    table_rule(rule)
}

// The text of a refusal.
fn refusal(
    alloc: Global,
    job: Job<'_>,
    line: u32,
    column: u32,
    rule: u32,
    spot: &Spot,
) -> Result<Text, OutOfMemory>
    ensures { IfOk result (λ text. text ≡ spec.refusal_text (task_of_job job.entry) line column rule spot.now) }
{
    let mut text = Text::new(alloc);
    push_spot(&mut text, job, line, column, rule, spot)?;
    text.push(b": C")?;
    push_number(&mut text, rule)?;
    text.push(b" ")?;
    text.push(rule_text(rule))?;
    text.push(b"\n")?;
    Ok(text)
}

// The text of a range fault.
fn range_fault(alloc: Global, time: &i64, path: &Text) -> Result<Text, OutOfMemory>
    ensures { IfOk result (λ text. text ≡ spec.range_fault_text time.now path.now) }
{
    let mut text = Text::new(alloc);
    text.push(b"range fault at ")?;
    push_time(&mut text, *time)?;
    text.push(b" in ")?;
    text.push(path.bytes())?;
    text.push(b"\n")?;
    Ok(text)
}

// Writes the text of an outcome on `err`, and gives the outcome, or the fault of `err`.
fn tell<E: Sink>(outcome: Outcome, text: &[u8], err: &mut E) -> Outcome
    ensures told { Tells outcome text.now result (E.written err.old) (E.written err.new) (Rose (E.faults err.old) (E.faults err.new)) }
    ensures later { E.faults err.old ≤ E.faults err.new }
{
    match write_whole(err, text) {
        Ok(()) => outcome,
        Err(Failed) => Outcome::WriteFault,
    }
}

/// Answers words that are no job. It takes no memory.
pub fn usage<E: Sink>(err: &mut E) -> Outcome
    ensures told { Tells Outcome.Usage usage_text result (E.written err.old) (E.written err.new) (Rose (E.faults err.old) (E.faults err.new)) }
    ensures later { E.faults err.old ≤ E.faults err.new }
{
    tell(Outcome::Usage, USAGE, err)
}

// Tells an outcome by the text that was made for it, or want of memory in its place.
fn tell_made<E: Sink>(outcome: Outcome, made: Result<Text, OutOfMemory>, err: &mut E) -> Outcome
    ensures told { MatchResult made
        (λ text. Tells outcome text result (E.written err.old) (E.written err.new) (Rose (E.faults err.old) (E.faults err.new)))
        (λ _. Tells Outcome.OutOfMemory no_memory_text result (E.written err.old) (E.written err.new) (Rose (E.faults err.old) (E.faults err.new))) }
    ensures later { E.faults err.old ≤ E.faults err.new }
{
    match made {
        Ok(text) => tell(outcome, text.bytes(), err),
        Err(OutOfMemory) => tell(Outcome::OutOfMemory, NO_MEMORY, err),
    }
}

/// Tells `err` of an outcome of a job, whose place stands in this line and column. Where there is no memory for the text of
/// a refusal or of a range fault, want of memory is the outcome. The other texts take no memory.
pub fn report<E: Sink>(
    alloc: Global,
    job: Job<'_>,
    line: u32,
    column: u32,
    outcome: Outcome,
    err: &mut E,
) -> Outcome
    ensures told { Reports (task_of_job job.entry) line column outcome result (E.written err.old) (E.written err.new) (Rose (E.faults err.old) (E.faults err.new)) }
    ensures later { E.faults err.old ≤ E.faults err.new }
{
    match &outcome {
        Outcome::Refused { rule, spot } => {
            let made = refusal(alloc, job, line, column, *rule, spot);
            tell_made(outcome, made, err)
        }
        Outcome::RangeFault { time, path } => {
            let made = range_fault(alloc, time, path);
            tell_made(outcome, made, err)
        }
        Outcome::Done => tell(outcome, b"", err),
        Outcome::Usage => tell(outcome, USAGE, err),
        Outcome::ReadFault => tell(outcome, b"read fault\n", err),
        Outcome::WriteFault => tell(outcome, b"write fault\n", err),
        Outcome::OutOfMemory => tell(outcome, NO_MEMORY, err),
    }
}
