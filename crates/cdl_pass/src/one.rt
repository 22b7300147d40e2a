// One block over the region.

ghost use Rattle.std.specs.Prelude.{◌≡◌, ℕ, ◌+◌, ℤ, length, replicate, MatchResult, OnErr, OnOk, Some, None, ◌∷◌, ◌<ℤ◌};
ghost use Rattle.cdl_values.specs.History.{History, Tick, IsTime, IsLater, IsHistory, AreReady, AreValues, no_value, tick};
ghost use Rattle.cdl_pass.specs.Windows.{ins_of, outs_of, state_of, Lies, OnlyOuts, OnlyState};

use crate::net::Node;
use cdl_kinds::{Elementary, Steps};
use cdl_values::NoValue;
use std::sync::ledger::Ledger;

// Emits a block in its windows.
pub fn emit_one<B: Elementary, L: Ledger>(
    block: &B,
    node: &Node,
    words: &mut [i64],
    now: i64,
    steps: &mut Steps<L>,
) -> Result<(), NoValue>
    requires lies { Lies node.now (length words.old) }
    requires state { node.now.width ≡ B.width block.now }
    requires outs { node.now.nout ≡ (B.results block.now).count }
    requires time { IsTime now }
    requires ready { AreReady (B.inputs block.now) (ins_of node.now words.old) }
    requires sound { (last : ℤ) × (last <ℤ now) × B.is_sound block.now (state_of node.now words.old) last }
    ensures step { steps.new ≡ steps.old + 1 }
    ensures only { OnlyOuts node.now words.old words.new }
    ensures size { length words.new ≡ length words.old }
    ensures typed { OnOk result (AreValues (B.results block.now) (outs_of node.now words.new)) }
    ensures lacks { OnErr result (B.may_lack block.now now (ins_of node.now words.old)) }
    ensures gives { (h : History) → IsHistory (B.inputs block.now) (B.meaning block.now) h → IsLater now h → B.stands block.now (state_of node.now words.old) h → MatchResult result (λ _. B.meaning block.now h now (ins_of node.now words.old) ≡ Some (outs_of node.now words.new)) (λ _. B.meaning block.now h now (ins_of node.now words.old) ≡ None) }
{
    let (elements, states) = words.split_at_mut(node.state);
    let state = &states[..node.width];
    let (front, back) = elements.split_at_mut(node.outs);
    let ins = &front[node.ins..node.ins + node.nin];
    let outs = &mut back[..node.nout];
    block.emit(state, now, ins, outs, steps)
}

// Writes no value into the outputs.
pub fn blank(node: &Node, words: &mut [i64])
    requires lies { Lies node.now (length words.old) }
    ensures only { OnlyOuts node.now words.old words.new }
    ensures size { length words.new ≡ length words.old }
    ensures none { outs_of node.now words.new ≡ replicate node.now.nout no_value }
{
    let (front, back) = words.split_at_mut(node.outs);
    back[..node.nout].fill(i64::MIN);
}

// Absorbs a tick into a block's window.
pub fn absorb_one<B: Elementary>(block: &B, node: &Node, words: &mut [i64], now: i64)
    requires lies { Lies node.now (length words.old) }
    requires state { node.now.width ≡ B.width block.now }
    requires time { IsTime now }
    requires ready { AreValues (B.inputs block.now) (ins_of node.now words.old) }
    requires sound { (last : ℤ) × (last <ℤ now) × B.is_sound block.now (state_of node.now words.old) last }
    ensures sound { B.is_sound block.now (state_of node.now words.new) now }
    ensures only { OnlyState node.now words.old words.new }
    ensures size { length words.new ≡ length words.old }
    ensures stands { (h : History) → B.stands block.now (state_of node.now words.old) h → IsHistory (B.inputs block.now) (B.meaning block.now) (tick now (ins_of node.now words.old) ∷ h) → B.stands block.now (state_of node.now words.new) (tick now (ins_of node.now words.old) ∷ h) }
{
    let (elements, states) = words.split_at_mut(node.state);
    let ins = &elements[node.ins..node.ins + node.nin];
    let state = &mut states[..node.width];
    block.absorb(state, now, ins);
}
