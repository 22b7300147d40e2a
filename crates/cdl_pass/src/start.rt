// Before the first tick.

ghost use Rattle.std.specs.Prelude.{◌≡◌, ℕ, ◌+◌, ◌<◌, ℤ, List, [], negsuc, length, take, IsTrue, ◌↔◌, IfSome, IsNone, None, slice_get, Some};
ghost use Rattle.cdl_values.specs.History.{History, IsHistory, last_time};
ghost use Rattle.cdl_pass.specs.Windows.{state_of, Lies, OnlyState};
ghost use Rattle.cdl_pass.specs.Net.{blocks_of, net_of, AllAt, Laid};
ghost use Rattle.cdl_pass.specs.Absorb.{FirstUnsound};

use crate::net::{Action, Node};
use cdl_kinds::Elementary;
use cdl_values::ValueType;

// Resets a block's state.
fn reset_one<B: Elementary>(block: &B, node: &Node, words: &mut [i64])
    requires lies { Lies node.now (length words.old) }
    requires state { node.now.width ≡ B.width block.now }
    ensures size { length words.new ≡ length words.old }
    ensures only { OnlyState node.now words.old words.new }
    ensures stands { B.stands block.now (state_of node.now words.new) [] }
    ensures sound { B.is_sound block.now (state_of node.now words.new) (negsuc 0) }
{
    let (_elements, states) = words.split_at_mut(node.state);
    block.reset(&mut states[..node.width]);
}

// Resets all states.
pub fn reset_all<B: Elementary>(
    blocks: &[B],
    nodes: &[Node],
    _actions: &[Action],
    _kinds: &[ValueType],
    _rows: &[ValueType],
    words: &mut [i64],
)
    requires laid { Laid (blocks_of B.inputs B.results B.width B.meaning B.stands B.is_sound B.may_lack) (net_of blocks.now nodes.now _actions.now _kinds.now _rows.now) (length words.old) }
    ensures size { length words.new ≡ length words.old }
    ensures sound { AllAt (net_of blocks.now nodes.now _actions.now _kinds.now _rows.now) (λ j b p. B.is_sound b (state_of p words.new) (negsuc 0)) }
    ensures stands { AllAt (net_of blocks.now nodes.now _actions.now _kinds.now _rows.now) (λ j b p. B.stands b (state_of p words.new) []) }
{
    for i in 0..nodes.len() {
        reset_one(&blocks[i], &nodes[i], words);
    }
}

// Whether a block's state may stand for some ticks.
fn sound_one<B: Elementary>(block: &B, node: &Node, words: &[i64], last: i64) -> bool
    requires lies { Lies node.now (length words.now) }
    requires state { node.now.width ≡ B.width block.now }
    ensures answer { IsTrue result ↔ B.is_sound block.now (state_of node.now words.now) last }
    ensures standing { (h : History) → IsHistory (B.inputs block.now) (B.meaning block.now) h → B.stands block.now (state_of node.now words.now) h → last ≡ last_time h → B.is_sound block.now (state_of node.now words.now) last }
{
    block.sound(&words[node.state..node.state + node.width], last)
}

// The first instance in preorder whose state cannot stand for ticks of which the last was at that time.
pub fn first_unsound<B: Elementary>(
    blocks: &[B],
    nodes: &[Node],
    _actions: &[Action],
    _kinds: &[ValueType],
    _rows: &[ValueType],
    words: &[i64],
    last: i64,
) -> Option<usize>
    requires laid { Laid (blocks_of B.inputs B.results B.width B.meaning B.stands B.is_sound B.may_lack) (net_of blocks.now nodes.now _actions.now _kinds.now _rows.now) (length words.now) }
    ensures sound { result ≡ None → AllAt (net_of blocks.now nodes.now _actions.now _kinds.now _rows.now) (λ j b p. B.is_sound b (state_of p words.now) last) }
    ensures first { IfSome result (λ i. FirstUnsound (blocks_of B.inputs B.results B.width B.meaning B.stands B.is_sound B.may_lack) (net_of blocks.now nodes.now _actions.now _kinds.now _rows.now) last words.now i) }
    ensures standing { AllAt (net_of blocks.now nodes.now _actions.now _kinds.now _rows.now) (λ j b p. (h : History) × IsHistory (B.inputs b) (B.meaning b) h × B.stands b (state_of p words.now) h × (last ≡ last_time h)) → result ≡ None }
{
    for i in 0..nodes.len() {
        if !sound_one(&blocks[i], &nodes[i], words, last) {
            return Some(i);
        }
    }
    None
}
