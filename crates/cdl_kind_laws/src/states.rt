// What holds of the state words of each kind.
ghost use Rattle.std.specs.Prelude.{◌≡◌, ◌≤ℤ◌, ℤ, List, length};
ghost use Rattle.cdl_kinds.specs.declared.kind.Kind.{Kind};
ghost use Rattle.cdl_values.specs.declared.value.Array.{Array};
ghost use Rattle.cdl_values.specs.History.{History, IsHistory, last_time};
ghost use Rattle.cdl_kinds.specs.Conditions.{Keeps};
ghost use Rattle.cdl_kinds.specs.Meanings.{meaning};
ghost use Rattle.cdl_kinds.specs.Ports.{inputs};
ghost use Rattle.cdl_kinds.specs.StateWords.{state_words};
ghost use Rattle.cdl_kinds.specs.States.{IsSound, Stands, state_of};

/// A law: as many words stand for a history as the table says.
#[tactic(auto, using(crate::proofs::Widths::state_length))]
pub fn states_have_their_words()
    ensures { (k : Kind) (v : List Array) (h : History) → length (state_of k v h) ≡ state_words k v }
{}

/// A law: at a kind without state words the state stands for each history.
#[tactic(auto, using(crate::proofs::Widths::stands_always))]
pub fn stateless_stands()
    ensures { (k : Kind) (v : List Array) (state : List ℤ) (h : History) → state_words k v ≡ 0 → length state ≡ 0 → Stands k v state h }
{}

/// A law: a state that stands for a history is sound for the time of its last tick, or for -1 before any.
#[tactic(auto, using(crate::proofs::Standing::standing_sound))]
pub fn standing_is_sound()
    ensures { (k : Kind) (v : List Array) (h : History) → Keeps k v → IsHistory (inputs k v) (meaning k v) h → IsSound k v (state_of k v h) (last_time h) }
{}

/// A law: a state that is sound for a time is sound for each later one.
#[tactic(auto, using(crate::proofs::Later::sound_later))]
pub fn sound_for_later_times()
    ensures { (k : Kind) (v : List Array) (state : List ℤ) (last next : ℤ) → last ≤ℤ next → IsSound k v state last → IsSound k v state next }
{}
