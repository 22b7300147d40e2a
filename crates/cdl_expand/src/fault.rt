// Why a model has no net.
use cdl_source::{OutOfMemory, Place, Text};

/// Why a model has no net.
#[derive(Debug, Drop)]
pub enum ExpandFault {
    /// This rule of C20 to C32 and C38 is broken first, at the instance, component, connector or parameter of this path.
    Instance { rule: u32, path: Text },
    /// No rule of instances is broken, and of C39, C40, C41, C42 and C47 this one first: by the statement at this place, that of its word
    /// `connect` or `for`, in the instance of this path.
    Statement { rule: u32, path: Text, place: Place },
    OutOfMemory,
}

impl From<OutOfMemory> for ExpandFault {
    ghost use Rattle.std.specs.Prelude.{◌≡◌};
    ghost use Rattle.cdl_expand.specs.declared.fault.ExpandFault.TheVariants.{OutOfMemory as no_memory};

    ghost from_gives = { λ _ e. e ≡ no_memory };

    fn from(_: OutOfMemory) -> Self {
        ExpandFault::OutOfMemory
    }
}
