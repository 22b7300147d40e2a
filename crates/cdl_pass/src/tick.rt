// A tick.

ghost use Rattle.std.specs.Prelude.{◌≡◌, ◌∷◌, ℕ, ◌+◌, ◌<◌, ◌≤◌, ℤ, length, List, take, drop, ◌<ℤ◌, OnOk, OnErr, IfErr};
ghost use Rattle.cdl_values.specs.History.{IsTime, IsValue, word};
ghost use Rattle.cdl_pass.specs.Windows.{state_of};
ghost use Rattle.cdl_pass.specs.Net.{blocks_of, net_of, sort_at, AllAt, Laid, Planned};
ghost use Rattle.cdl_pass.specs.Tick.{IsTyped, Past, Starts, Solves, NoFault, FirstFault, FirstLack, RowOf, Valuation, spent_in};
ghost use Rattle.cdl_pass.specs.Absorb.{AreStateful, Stood};

use crate::absorb::absorb_all;
use crate::net::{Action, Node};
use crate::pass::emit_all;
use cdl_kinds::{Elementary, Steps};
use cdl_values::ValueType;
use std::sync::ledger::Ledger;

// The first instance in preorder whose direct inputs all have values and whose meaning has none.
#[derive(Clone, Copy, Debug, PartialEq, Eq, Drop)]
pub struct BlockFault {
    pub block: usize,
}

// One tick. `stateful` has the numbers of the blocks with state words. Nothing is absorbed at a tick with a fault.
pub fn tick_all<B: Elementary, L: Ledger>(
    blocks: &[B],
    nodes: &[Node],
    actions: &[Action],
    kinds: &[ValueType],
    rows: &[ValueType],
    stateful: &[usize],
    row: &[i64],
    words: &mut [i64],
    now: i64,
    steps: &mut Steps<L>,
) -> Result<(), BlockFault>
    requires laid { Laid (blocks_of B.inputs B.results B.width B.meaning B.stands B.is_sound B.may_lack) (net_of blocks.now nodes.now actions.now kinds.now rows.now) (length words.old) }
    requires stateful { AreStateful nodes.now (length nodes.now) stateful.now }
    requires planned { Planned (net_of blocks.now nodes.now actions.now kinds.now rows.now) }
    requires time { IsTime now }
    requires row { RowOf rows.now row.now }
    requires sound { (last : ℤ) × (last <ℤ now) × AllAt (net_of blocks.now nodes.now actions.now kinds.now rows.now) (λ j b p. B.is_sound b (state_of p words.old) last) }
    ensures size { length words.new ≡ length words.old }
    ensures few { steps.new ≤ steps.old + spent_in actions.now (length actions.now) }
    ensures step { OnOk result (steps.new ≡ steps.old + spent_in actions.now (length actions.now)) }
    ensures inside { IfErr result (λ f. f.block < length nodes.now) }
    ensures sound { OnOk result (AllAt (net_of blocks.now nodes.now actions.now kinds.now rows.now) (λ j b p. B.is_sound b (state_of p words.new) now)) }
    ensures states { OnErr result (drop (length kinds.now) words.new ≡ drop (length kinds.now) words.old) }
    ensures typed { (e : ℕ) → e < length kinds.now → IsTyped kinds.now (word words.new) e }
    ensures values { OnOk result ((e : ℕ) → e < length kinds.now → IsValue (sort_at kinds.now e) (word words.new e)) }
    ensures lacks { IfErr result (λ f. FirstLack (blocks_of B.inputs B.results B.width B.meaning B.stands B.is_sound B.may_lack) (net_of blocks.now nodes.now actions.now kinds.now rows.now) now (word words.new) f.block) }
    ensures solves { (r : Past) → Starts (blocks_of B.inputs B.results B.width B.meaning B.stands B.is_sound B.may_lack) (net_of blocks.now nodes.now actions.now kinds.now rows.now) now r words.old → Solves (blocks_of B.inputs B.results B.width B.meaning B.stands B.is_sound B.may_lack) (net_of blocks.now nodes.now actions.now kinds.now rows.now) now row.now r (word words.new) }
    ensures only { (r : Past) → Starts (blocks_of B.inputs B.results B.width B.meaning B.stands B.is_sound B.may_lack) (net_of blocks.now nodes.now actions.now kinds.now rows.now) now r words.old → (v : Valuation) → Solves (blocks_of B.inputs B.results B.width B.meaning B.stands B.is_sound B.may_lack) (net_of blocks.now nodes.now actions.now kinds.now rows.now) now row.now r v → (e : ℕ) → e < length kinds.now → v e ≡ word words.new e }
    ensures ok { OnOk result ((r : Past) → Starts (blocks_of B.inputs B.results B.width B.meaning B.stands B.is_sound B.may_lack) (net_of blocks.now nodes.now actions.now kinds.now rows.now) now r words.old → NoFault (blocks_of B.inputs B.results B.width B.meaning B.stands B.is_sound B.may_lack) (net_of blocks.now nodes.now actions.now kinds.now rows.now) now r (word words.new) × Stood (blocks_of B.inputs B.results B.width B.meaning B.stands B.is_sound B.may_lack) (net_of blocks.now nodes.now actions.now kinds.now rows.now) now r words.new) }
    ensures fault { IfErr result (λ f. (r : Past) → Starts (blocks_of B.inputs B.results B.width B.meaning B.stands B.is_sound B.may_lack) (net_of blocks.now nodes.now actions.now kinds.now rows.now) now r words.old → FirstFault (blocks_of B.inputs B.results B.width B.meaning B.stands B.is_sound B.may_lack) (net_of blocks.now nodes.now actions.now kinds.now rows.now) now r (word words.new) f.block) }
{
    match emit_all(blocks, nodes, actions, kinds, rows, row, words, now, steps) {
        Some(block) => Err(BlockFault { block }),
        None => {
            absorb_all(blocks, nodes, actions, kinds, rows, stateful, words, now);
            Ok(())
        }
    }
}
