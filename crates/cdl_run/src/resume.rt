// Why no runner goes on from words.
use cdl_source::OutOfMemory;

/// Why no runner goes on from saved words.
#[derive(Clone, Copy, Debug, PartialEq, Eq, Drop)]
pub enum ResumeFault {
    /// There are not as many words as the net has.
    Count,
    /// The first elementary instance in preorder whose state words can stand for no ticks up to that time.
    State { instance: u32 },
    OutOfMemory,
}

impl From<OutOfMemory> for ResumeFault {
    ghost use Rattle.std.specs.Prelude.{◌≡◌};
    ghost use Rattle.cdl_run.specs.declared.resume.ResumeFault.TheVariants.{OutOfMemory as no_memory};

    ghost from_gives = { λ _ e. e ≡ no_memory };

    fn from(_: OutOfMemory) -> Self {
        ResumeFault::OutOfMemory
    }
}
