// How a job ended.
ghost use Rattle.std.specs.Prelude.{◌≡◌};
ghost use Rattle.cdl_job.specs.Outcome.{code_of};

use cdl_source::{Place, Text};

/// How a job ended.
#[derive(Debug, Drop)]
pub enum Outcome {
    /// All was done, and all that was due stands on standard output.
    Done,
    /// A written rule is broken: its number, and where.
    Refused { rule: u32, spot: Spot },
    /// The words are no job.
    Usage,
    /// A block had no value at this tick: the time in milliseconds, and the path of its instance.
    RangeFault { time: i64, path: Text },
    /// The files failed.
    ReadFault,
    /// A sink failed.
    WriteFault,
    /// No memory was left.
    OutOfMemory,
}

/// Where a rule is broken.
#[derive(Debug, Drop)]
pub enum Spot {
    /// At a byte of a model.
    Source(Place),
    /// At an instance, a component or a connector.
    Path(Text),
    /// At a statement of the class of this instance.
    Statement { path: Text, place: Place },
    /// At the wire between these two connectors.
    Wire { left: Text, right: Text },
    /// At a field of the table: its record and its column, counted from 1.
    Cell { row: u32, column: u32 },
    /// At a node of the document, counted from 1.
    Node { node: u32 },
    /// At the table or the document as a whole.
    Whole,
}

impl Outcome {
    /// The status with which the program ends.
    pub fn code(&self) -> u8
        ensures { result ≡ code_of self.now }
    {
        match self {
            Outcome::Done => 0,
            Outcome::Refused { .. } => 1,
            Outcome::Usage => 2,
            Outcome::RangeFault { .. } => 3,
            Outcome::ReadFault => 4,
            Outcome::WriteFault => 5,
            Outcome::OutOfMemory => 6,
        }
    }
}
