// What holds of the meaning of each kind.
ghost use Rattle.std.specs.Prelude.{◌≡◌, ℤ, List, [], Some};
ghost use Rattle.cdl_kinds.specs.declared.kind.Kind.{Kind};
ghost use Rattle.cdl_values.specs.declared.value.Array.{Array};
ghost use Rattle.cdl_values.specs.History.{AreValues, History, IsHistory, IsLater, IsTime, SameDirect};
ghost use Rattle.cdl_kinds.specs.Conditions.{Keeps};
ghost use Rattle.cdl_kinds.specs.Meanings.{meaning};
ghost use Rattle.cdl_kinds.specs.Ports.{inputs, outputs};
ghost use Rattle.cdl_kinds.specs.StateWords.{state_words};

/// A law: inputs that aren't direct play no part in what a block gives.
#[tactic(auto, using(crate::proofs::Direct::direct_only))]
pub fn direct_inputs_alone()
    ensures { (k : Kind) (v : List Array) (h : History) (now : ℤ) (x y : List ℤ) → SameDirect (inputs k v) x y → meaning k v h now x ≡ meaning k v h now y }
{}

/// A law: what a block without state words gives doesn't rest on the ticks before.
#[tactic(auto, using(crate::proofs::Widths::needs_no_history))]
pub fn no_history_without_state()
    ensures { (k : Kind) (v : List Array) (h : History) (now : ℤ) (x : List ℤ) → state_words k v ≡ 0 → meaning k v h now x ≡ meaning k v [] now x }
{}

/// A law: from inputs of their types, at a history, what a block gives are values of its outputs' types.
pub fn outputs_have_their_types()
    ensures { (k : Kind) (v : List Array) (h : History) (now : ℤ) (x y : List ℤ) → Keeps k v → IsHistory (inputs k v) (meaning k v) h → IsTime now → IsLater now h → AreValues (inputs k v) x → meaning k v h now x ≡ Some y → AreValues (outputs k v) y }
{}
