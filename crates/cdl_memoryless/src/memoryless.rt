// Blocks without a memory.
ghost use Rattle.std.specs.Prelude.{◌≡◌, ℤ, List, Option, length, Some, None, MatchResult, OnOk};
ghost use Rattle.cdl_values.specs.History.{Signature, AreValues};

use cdl_values::NoValue;

/// A block without a memory: its outputs at a tick rest on its inputs at that tick alone, not on the time nor on the ticks before.
/// It takes no memory of the machine either.
pub trait Memoryless {
    /// Its inputs: how many, and their types. Each is direct.
    ghost inputs: { Self → Signature };

    /// Its outputs.
    ghost results: { Self → Signature };

    /// What it gives for these inputs, or none.
    ghost gives: { Self → List ℤ → Option (List ℤ) };

    /// Writes the outputs, a word each.
    /// NoValue: there is no value for these inputs; the outputs are then unspecified.
    fn give(&self, ins: &[i64], outs: &mut [i64]) -> Result<(), NoValue>
        requires outs { length outs.old ≡ (results self.now).count }
        requires values { AreValues (inputs self.now) ins.now }
        ensures typed { OnOk result (AreValues (results self.now) outs.new) }
        ensures gives { MatchResult result (λ _. gives self.now ins.now ≡ Some outs.new) (λ _. gives self.now ins.now ≡ None) };
}
