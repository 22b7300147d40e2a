// All blocks with state words take in a tick.

ghost use Rattle.std.specs.Prelude.{◌≡◌, ℕ, ◌+◌, ◌<◌, ℤ, length, List, take, ◌<ℤ◌};
ghost use Rattle.cdl_values.specs.History.{IsTime, IsValue, word};
ghost use Rattle.cdl_pass.specs.Windows.{state_of};
ghost use Rattle.cdl_pass.specs.Net.{blocks_of, net_of, sort_at, AllAt, Laid};
ghost use Rattle.cdl_pass.specs.Tick.{Past};
ghost use Rattle.cdl_pass.specs.Absorb.{AreStateful, MayAbsorb, longer};

use crate::net::{Action, Node};
use crate::one::absorb_one;
use cdl_kinds::Elementary;
use cdl_values::ValueType;

// Each block with state words absorbs the tick. The others have nothing to absorb.
pub(crate) fn absorb_all<B: Elementary>(
    blocks: &[B],
    nodes: &[Node],
    _actions: &[Action],
    _kinds: &[ValueType],
    _rows: &[ValueType],
    stateful: &[usize],
    words: &mut [i64],
    now: i64,
)
    requires stateful { AreStateful nodes.now (length nodes.now) stateful.now }
    requires laid { Laid (blocks_of B.inputs B.results B.width B.meaning B.stands B.is_sound B.may_lack) (net_of blocks.now nodes.now _actions.now _kinds.now _rows.now) (length words.old) }
    requires time { IsTime now }
    requires values { (e : ℕ) → e < length _kinds.now → IsValue (sort_at _kinds.now e) (word words.old e) }
    requires sound { (last : ℤ) × (last <ℤ now) × AllAt (net_of blocks.now nodes.now _actions.now _kinds.now _rows.now) (λ j b p. B.is_sound b (state_of p words.old) last) }
    ensures size { length words.new ≡ length words.old }
    ensures kept { take (length _kinds.now) words.new ≡ take (length _kinds.now) words.old }
    ensures sound { AllAt (net_of blocks.now nodes.now _actions.now _kinds.now _rows.now) (λ j b p. B.is_sound b (state_of p words.new) now) }
    ensures stands { (r : Past) → MayAbsorb (blocks_of B.inputs B.results B.width B.meaning B.stands B.is_sound B.may_lack) (net_of blocks.now nodes.now _actions.now _kinds.now _rows.now) now r words.old → AllAt (net_of blocks.now nodes.now _actions.now _kinds.now _rows.now) (λ j b p. B.stands b (state_of p words.new) (longer now r j p words.old)) }
{
    for k in 0..stateful.len() {
        let i = stateful[k];
        absorb_one(&blocks[i], &nodes[i], words, now);
    }
}
