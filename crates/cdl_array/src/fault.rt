// What keeps an expression from being worth anything.
ghost use Rattle.std.specs.Prelude.{◌≡◌};
ghost use Rattle.cdl_array.specs.declared.fault.EvalFault.TheVariants.{OutOfMemory as NoMemory};

use cdl_source::OutOfMemory;

/// Why an expression is worth nothing.
#[derive(Clone, Copy, Debug, PartialEq, Eq)]
pub enum EvalFault {
    /// The rule of this number is the first that is broken.
    Rule(u32),
    /// No memory was left for the answer.
    OutOfMemory,
}

impl From<OutOfMemory> for EvalFault {
    ghost from_gives = { λ _ f. f ≡ NoMemory };

    fn from(_: OutOfMemory) -> Self {
        EvalFault::OutOfMemory
    }
}
