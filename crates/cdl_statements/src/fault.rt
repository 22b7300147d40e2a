// Rules that statements break.
ghost use Rattle.std.specs.Prelude.{◌≡◌};
ghost use Rattle.cdl_statements.specs.declared.fault.Broken.TheVariants.{OutOfMemory as no_memory};

use cdl_paths::Path;
use cdl_source::{OutOfMemory, Place};

/// Why there are no wires.
#[derive(Drop)]
pub enum StatementFault {
    /// This rule is broken first: by a statement of the instance at this path. The place is that of its word `connect` or `for`.
    Rule { rule: u32, path: Path, place: Place },
    OutOfMemory,
}

/// What ends the statements of an instance.
#[derive(Clone, Copy)]
pub enum Broken {
    /// A rule that is broken, and the first byte of the statement that breaks it.
    Rule { rule: u32, byte: u32 },
    OutOfMemory,
}

impl From<OutOfMemory> for Broken {
    ghost use Rattle.std.specs.Prelude.{◌≡◌};
    ghost use Rattle.cdl_statements.specs.declared.fault.Broken.TheVariants.{OutOfMemory as no_memory};

    ghost from_gives = { λ _ e. e ≡ no_memory };

    fn from(_: OutOfMemory) -> Self {
        Broken::OutOfMemory
    }
}
