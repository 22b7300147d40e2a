// Why ticks stop.
use cdl_source::{OutOfMemory, Text};
use cdl_table::TraceError;

/// Why the ticks of a table end before its last row, or their trace is not written whole.
#[derive(Debug, Drop)]
pub enum TraceStop {
    /// At this time, in milliseconds, the instance of this path has the first fault. The records before it are written.
    RangeFault { time: i64, path: Text },
    /// The sink failed.
    WriteFault,
    OutOfMemory,
}

impl From<OutOfMemory> for TraceStop {
    ghost use Rattle.std.specs.Prelude.{◌≡◌};
    ghost use Rattle.cdl_trace.specs.declared.stop.TraceStop.TheVariants.{OutOfMemory as no_memory};

    ghost from_gives = { λ _ e. e ≡ no_memory };

    fn from(_: OutOfMemory) -> Self {
        TraceStop::OutOfMemory
    }
}

impl From<TraceError> for TraceStop {
    ghost use Rattle.std.specs.Prelude.{◌≡◌};
    ghost use Rattle.cdl_trace.specs.inner.Steps.{stop_of};

    ghost from_gives = { λ t e. e ≡ stop_of t };

    fn from(e: TraceError) -> Self {
        match e {
            TraceError::WriteFault => TraceStop::WriteFault,
            TraceError::OutOfMemory => TraceStop::OutOfMemory,
        }
    }
}
