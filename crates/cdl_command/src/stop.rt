// Why the work of a job stops, and how it ends.
ghost use Rattle.std.specs.Prelude.{◌≡◌, ◌≤◌, ◌⊎◌, length, take};
ghost use Rattle.cdl_command.specs.inner.Reads.{AreShort};
ghost use Rattle.cdl_command.specs.inner.Stops.{end_of, ended_of, plain_end, refusal_at, refusal_in, refusal_of};
ghost use Rattle.cdl_command.specs.Breaks.{root_path};

use cdl_job::{Outcome, Spot};
use cdl_source::{Failed, LONGEST_MODEL, OutOfMemory, Place, Text, line_column};
use cdl_trace::TraceStop;
use std::alloc::Global;

/// A broken rule, where it is broken, and the line and the column of that place in its text; 1 and 1 where it has none.
#[derive(Drop)]
pub(crate) struct Refusal {
    pub(crate) rule: u32,
    pub(crate) spot: Spot,
    pub(crate) line: u32,
    pub(crate) column: u32,
}

/// Why the work of a job stops before its end.
#[derive(Drop)]
pub(crate) enum Stop {
    /// This rule is broken first, here.
    Refused(Refusal),
    /// At this time, in milliseconds, the instance of this path has the first fault.
    RangeFault { time: i64, path: Text },
    /// The files failed.
    ReadFault,
    /// Standard output failed.
    WriteFault,
    OutOfMemory,
}

impl From<OutOfMemory> for Stop {
    ghost use Rattle.std.specs.Prelude.{◌≡◌};
    ghost use Rattle.cdl_command.specs.declared.stop.Stop.TheVariants.{OutOfMemory as no_memory};

    ghost from_gives = { λ _ e. e ≡ no_memory };

    fn from(_: OutOfMemory) -> Self {
        Stop::OutOfMemory
    }
}

impl From<Failed> for Stop {
    ghost use Rattle.std.specs.Prelude.{◌≡◌};
    ghost use Rattle.cdl_command.specs.declared.stop.Stop.TheVariants.{WriteFault as fault};

    ghost from_gives = { λ _ e. e ≡ fault };

    fn from(_: Failed) -> Self {
        Stop::WriteFault
    }
}

impl From<TraceStop> for Stop {
    ghost use Rattle.std.specs.Prelude.{◌≡◌};
    ghost use Rattle.cdl_command.specs.inner.Stops.{stop_of};

    ghost from_gives = { λ t e. e ≡ stop_of t };

    fn from(stop: TraceStop) -> Self {
        match stop {
            TraceStop::RangeFault { time, path } => Stop::RangeFault { time, path },
            TraceStop::WriteFault => Stop::WriteFault,
            TraceStop::OutOfMemory => Stop::OutOfMemory,
        }
    }
}

/// How the work of a job ended, and the line and the column of its place.
#[derive(Drop)]
pub(crate) struct Ended {
    pub(crate) outcome: Outcome,
    pub(crate) line: u32,
    pub(crate) column: u32,
}

// An end with no place in a text.
fn plain_end(outcome: Outcome) -> Ended
    ensures { result ≡ plain_end outcome }
{
    Ended {
        outcome,
        line: 1,
        column: 1,
    }
}

// The end of what was stopped.
fn stopped(stop: Stop) -> Ended
    ensures { result ≡ end_of stop }
{
    match stop {
        Stop::Refused(
            Refusal {
                rule,
                spot,
                line,
                column,
            },
        ) => Ended {
            outcome: Outcome::Refused { rule, spot },
            line,
            column,
        },
        Stop::RangeFault { time, path } => plain_end(Outcome::RangeFault { time, path }),
        Stop::ReadFault => plain_end(Outcome::ReadFault),
        Stop::WriteFault => plain_end(Outcome::WriteFault),
        Stop::OutOfMemory => plain_end(Outcome::OutOfMemory),
    }
}

/// The end of work that is done, or was stopped.
pub(crate) fn finished(work: Result<(), Stop>) -> Ended
    ensures { result ≡ ended_of work }
{
    match work {
        Ok(()) => plain_end(Outcome::Done),
        Err(stop) => stopped(stop),
    }
}

/// A broken rule at a spot of no text.
pub(crate) fn refusal_of(rule: u32, spot: Spot) -> Refusal
    ensures { result ≡ refusal_of rule spot }
{
    Refusal {
        rule,
        spot,
        line: 1,
        column: 1,
    }
}

// The number of a byte, or of the end of the text where it has fewer bytes.
fn within(byte: u32, text: &[u8]) -> u32
    requires { length text.now ≤ LONGEST_MODEL }
    ensures within { result ≤ length text.now }
    ensures front { take result text.now ≡ take byte text.now }
{
    if (byte as usize) < text.len() {
        byte
    } else {
        text.len() as u32
    }
}

/// A broken rule at a spot that is a byte of this text.
pub(crate) fn refusal_at(rule: u32, spot: Spot, byte: u32, text: &[u8]) -> Refusal
    requires { length text.now ≤ LONGEST_MODEL }
    ensures { result ≡ refusal_at rule spot byte text.now }
{
    let (line, column) = line_column(text, within(byte, text));
    Refusal {
        rule,
        spot,
        line,
        column,
    }
}

/// A broken rule at a spot that is a place in one of these texts.
pub(crate) fn refusal_in(rule: u32, spot: Spot, place: Place, texts: &[Text]) -> Refusal
    requires { AreShort texts.now }
    ensures { result ≡ refusal_in rule spot place texts.now }
{
    match texts.get(place.file as usize) {
        Some(text) => refusal_at(rule, spot, place.byte, text.bytes()),
        None => refusal_of(rule, spot),
    }
}

/// A broken rule at the path of the class that is checked or run.
pub(crate) fn refused_root(alloc: Global, rule: u32) -> Stop
    ensures { (result ≡ Stop.Refused (refusal_of rule root_path)) ⊎ (result ≡ Stop.OutOfMemory) }
{
    let mut path = Text::new(alloc);
    match path.push(b"#") {
        Ok(()) => Stop::Refused(refusal_of(rule, Spot::Path(path))),
        Err(OutOfMemory) => Stop::OutOfMemory,
    }
}
