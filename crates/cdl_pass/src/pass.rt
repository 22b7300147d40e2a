// All steps of a tick, in the plan's order.

ghost use Rattle.std.specs.Prelude.{◌≡◌, Bool, ℕ, ◌+◌, ◌<◌, ◌≤◌, ℤ, length, OnOk, Some, None, true, false, drop, cond, IsNone, IsSome, ◌<ℤ◌, slice_get, IfSome};
ghost use Rattle.cdl_values.specs.declared.value.ValueType.{ValueType};
ghost use Rattle.cdl_values.specs.History.{History, IsTime, IsLater, IsHistory, IsValue, no_value, word};
ghost use Rattle.cdl_pass.specs.declared.net.Action.{Action};
ghost use Rattle.cdl_pass.specs.Windows.{ins_of, state_of};
ghost use Rattle.cdl_pass.specs.Net.{blocks_of, net_of, sort_at, AllAt, Fits, Laid, Planned, Reads, Writes, Names};
ghost use Rattle.cdl_pass.specs.Tick.{is_none, ready, given, has_fault, out_word, IsTyped, Past, Starts, Gives, FaultIs, RowOf, FirstFault, FirstLack, LackIs, NoFault, Solves, Valuation, lesser, lesser_of, lacks, spent, spent_in};

use crate::net::{Action, Node};
use crate::one::{blank, emit_one};
use cdl_kinds::{Elementary, Steps};
use cdl_values::ValueType;
use std::sync::ledger::Ledger;

// Whether the element in that place has no value.
fn is_none(words: &[i64], e: usize) -> bool
    requires { e < length words.now }
    ensures { result ≡ is_none (word words.now e) }
{
    words[e] == i64::MIN
}

// Whether the direct inputs of an instance have values.
fn is_ready(words: &[i64], node: &Node) -> bool
    requires { node.now.ins + node.now.reads ≤ length words.now }
    ensures { result ≡ ready (word words.now) node.now.ins node.now.reads }
{
    for i in 0..node.reads {
        if is_none(words, node.ins + i) {
            return false;
        }
    }
    true
}

// The same, where it may be known already.
fn may_emit(whole: bool, words: &[i64], node: &Node) -> bool
    requires size { node.now.ins + node.now.reads ≤ length words.now }
    requires whole { whole ≡ true → ready (word words.now) node.now.ins node.now.reads ≡ true }
    ensures { result ≡ ready (word words.now) node.now.ins node.now.reads }
{
    whole || is_ready(words, node)
}

// Emits an instance, and says whether it has a fault. Where a direct input has no value, no output has one.
fn emit_strict<B: Elementary, L: Ledger>(
    block: &B,
    node: &Node,
    _kinds: &[ValueType],
    whole: bool,
    words: &mut [i64],
    now: i64,
    steps: &mut Steps<L>,
) -> bool
    requires fits { Fits (blocks_of B.inputs B.results B.width B.meaning B.stands B.is_sound B.may_lack) _kinds.now (length words.old) block.now node.now }
    requires time { IsTime now }
    requires typed { (e : ℕ) → node.now.ins ≤ e → e < node.now.ins + node.now.reads → IsTyped _kinds.now (word words.old) e }
    requires whole { whole ≡ true → ready (word words.old) node.now.ins node.now.reads ≡ true }
    requires sound { (last : ℤ) × (last <ℤ now) × B.is_sound block.now (state_of node.now words.old) last }
    ensures size { length words.new ≡ length words.old }
    ensures few { steps.new ≤ steps.old + 1 }
    ensures step { whole ≡ true → steps.new ≡ steps.old + 1 }
    ensures others { (e : ℕ) → (node.now.outs ≤ e → e < node.now.outs + node.now.nout → ⊥) → word words.new e ≡ word words.old e }
    ensures states { drop (length _kinds.now) words.new ≡ drop (length _kinds.now) words.old }
    ensures typed { (k : ℕ) → k < node.now.nout → IsTyped _kinds.now (word words.new) (node.now.outs + k) }
    ensures values { whole ≡ true → result ≡ false → (k : ℕ) → k < node.now.nout → IsValue (sort_at _kinds.now (node.now.outs + k)) (word words.new (node.now.outs + k)) }
    ensures answers { result ≡ false → ready (word words.old) node.now.ins node.now.reads ≡ true → (k : ℕ) → k < node.now.nout → IsValue (sort_at _kinds.now (node.now.outs + k)) (word words.new (node.now.outs + k)) }
    ensures ready { result ≡ true → ready (word words.old) node.now.ins node.now.reads ≡ true }
    ensures lacks { result ≡ true → B.may_lack block.now now (ins_of node.now words.old) }
    ensures none { result ≡ true → (k : ℕ) → k < node.now.nout → word words.new (node.now.outs + k) ≡ no_value }
    ensures gives { (h : History) → IsHistory (B.inputs block.now) (B.meaning block.now) h → IsLater now h → B.stands block.now (state_of node.now words.old) h → (k : ℕ) → k < node.now.nout → word words.new (node.now.outs + k) ≡ out_word (given (blocks_of B.inputs B.results B.width B.meaning B.stands B.is_sound B.may_lack) block.now node.now h now (word words.old)) k }
    ensures fault { (h : History) → IsHistory (B.inputs block.now) (B.meaning block.now) h → IsLater now h → B.stands block.now (state_of node.now words.old) h → result ≡ has_fault (blocks_of B.inputs B.results B.width B.meaning B.stands B.is_sound B.may_lack) block.now node.now h now (word words.old) }
{
    if may_emit(whole, words, node) {
        match emit_one(block, node, words, now, steps) {
            Ok(()) => false,
            Err(_) => {
                blank(node, words);
                true
            }
        }
    } else {
        blank(node, words);
        false
    }
}

// One word becomes this.
fn put_word(words: &mut [i64], e: usize, w: i64)
    requires { e < length words.old }
    ensures size { length words.new ≡ length words.old }
    ensures here { word words.new e ≡ w }
    ensures others { (k : ℕ) → (k ≡ e → ⊥) → word words.new k ≡ word words.old k }
    ensures after { (k : ℕ) → e < k → drop k words.new ≡ drop k words.old }
{
    words[e] = w;
}

// Whether there is none yet.
fn is_whole(least: Option<usize>) -> bool
    ensures { result ≡ lacks least }
{
    match least {
        None => true,
        Some(_) => false,
    }
}

// The least fault so far, with that of one instance more.
fn first_of(fault: bool, least: Option<usize>, block: usize) -> Option<usize>
    ensures { result ≡ cond fault (lesser_of least block) least }
{
    if !fault {
        return least;
    }
    match least {
        Some(l) => Some(if l <= block { l } else { block }),
        None => Some(block),
    }
}

// One step of a tick, and the least fault so far.
fn advance<B: Elementary, L: Ledger>(
    blocks: &[B],
    nodes: &[Node],
    _actions: &[Action],
    _kinds: &[ValueType],
    _rows: &[ValueType],
    action: Action,
    row: &[i64],
    least: Option<usize>,
    words: &mut [i64],
    now: i64,
    steps: &mut Steps<L>,
) -> Option<usize>
    requires laid { Laid (blocks_of B.inputs B.results B.width B.meaning B.stands B.is_sound B.may_lack) (net_of blocks.now nodes.now _actions.now _kinds.now _rows.now) (length words.old) }
    requires names { Names (net_of blocks.now nodes.now _actions.now _kinds.now _rows.now) action }
    requires time { IsTime now }
    requires inside { IfSome least (λ j. j < length nodes.now) }
    requires row { RowOf _rows.now row.now }
    requires typed { (e : ℕ) → Reads nodes.now action e → IsTyped _kinds.now (word words.old) e }
    requires whole { least ≡ None → (e : ℕ) → Reads nodes.now action e → IsValue (sort_at _kinds.now e) (word words.old e) }
    requires sound { (last : ℤ) × (last <ℤ now) × AllAt (net_of blocks.now nodes.now _actions.now _kinds.now _rows.now) (λ j b p. B.is_sound b (state_of p words.old) last) }
    ensures size { length words.new ≡ length words.old }
    ensures few { steps.new ≤ steps.old + spent action }
    ensures step { least ≡ None → steps.new ≡ steps.old + spent action }
    ensures inside { IfSome result (λ j. j < length nodes.now) }
    ensures plain { result ≡ None → least ≡ None }
    ensures others { (e : ℕ) → (Writes nodes.now action e → ⊥) → word words.new e ≡ word words.old e }
    ensures states { drop (length _kinds.now) words.new ≡ drop (length _kinds.now) words.old }
    ensures typed { (e : ℕ) → Writes nodes.now action e → IsTyped _kinds.now (word words.new) e }
    ensures values { result ≡ None → (e : ℕ) → Writes nodes.now action e → IsValue (sort_at _kinds.now e) (word words.new e) }
    ensures tried { (b : Bool) × LackIs (blocks_of B.inputs B.results B.width B.meaning B.stands B.is_sound B.may_lack) (net_of blocks.now nodes.now _actions.now _kinds.now _rows.now) now (word words.new) b action × (result ≡ cond b (lesser least action) least) }
    ensures gives { (r : Past) → Starts (blocks_of B.inputs B.results B.width B.meaning B.stands B.is_sound B.may_lack) (net_of blocks.now nodes.now _actions.now _kinds.now _rows.now) now r words.old → Gives (blocks_of B.inputs B.results B.width B.meaning B.stands B.is_sound B.may_lack) (net_of blocks.now nodes.now _actions.now _kinds.now _rows.now) now row.now r (word words.old) (word words.new) action }
    ensures fault { (r : Past) → Starts (blocks_of B.inputs B.results B.width B.meaning B.stands B.is_sound B.may_lack) (net_of blocks.now nodes.now _actions.now _kinds.now _rows.now) now r words.old → (b : Bool) × FaultIs (blocks_of B.inputs B.results B.width B.meaning B.stands B.is_sound B.may_lack) (net_of blocks.now nodes.now _actions.now _kinds.now _rows.now) now r (word words.old) b action × (result ≡ cond b (lesser least action) least) }
{
    match action {
        Action::Input { place, to } => {
            put_word(words, to, row[place]);
            least
        }
        Action::Copy { from, to } => {
            let w = words[from];
            put_word(words, to, w);
            least
        }
        Action::Emit { block } => {
            let whole = is_whole(least);
            let fault = emit_strict(
                &blocks[block],
                &nodes[block],
                _kinds,
                whole,
                words,
                now,
                steps,
            );
            first_of(fault, least, block)
        }
    }
}

// All steps of a tick, each after all that it reads, and the first instance in preorder with a fault.
pub fn emit_all<B: Elementary, L: Ledger>(
    blocks: &[B],
    nodes: &[Node],
    actions: &[Action],
    kinds: &[ValueType],
    rows: &[ValueType],
    row: &[i64],
    words: &mut [i64],
    now: i64,
    steps: &mut Steps<L>,
) -> Option<usize>
    requires laid { Laid (blocks_of B.inputs B.results B.width B.meaning B.stands B.is_sound B.may_lack) (net_of blocks.now nodes.now actions.now kinds.now rows.now) (length words.old) }
    requires planned { Planned (net_of blocks.now nodes.now actions.now kinds.now rows.now) }
    requires time { IsTime now }
    requires row { RowOf rows.now row.now }
    requires sound { (last : ℤ) × (last <ℤ now) × AllAt (net_of blocks.now nodes.now actions.now kinds.now rows.now) (λ j b p. B.is_sound b (state_of p words.old) last) }
    ensures size { length words.new ≡ length words.old }
    ensures few { steps.new ≤ steps.old + spent_in actions.now (length actions.now) }
    ensures step { result ≡ None → steps.new ≡ steps.old + spent_in actions.now (length actions.now) }
    ensures inside { IfSome result (λ j. j < length nodes.now) }
    ensures states { drop (length kinds.now) words.new ≡ drop (length kinds.now) words.old }
    ensures typed { (e : ℕ) → e < length kinds.now → IsTyped kinds.now (word words.new) e }
    ensures values { result ≡ None → (e : ℕ) → e < length kinds.now → IsValue (sort_at kinds.now e) (word words.new e) }
    ensures lacks { IfSome result (λ j. FirstLack (blocks_of B.inputs B.results B.width B.meaning B.stands B.is_sound B.may_lack) (net_of blocks.now nodes.now actions.now kinds.now rows.now) now (word words.new) j) }
    ensures solves { (r : Past) → Starts (blocks_of B.inputs B.results B.width B.meaning B.stands B.is_sound B.may_lack) (net_of blocks.now nodes.now actions.now kinds.now rows.now) now r words.old → Solves (blocks_of B.inputs B.results B.width B.meaning B.stands B.is_sound B.may_lack) (net_of blocks.now nodes.now actions.now kinds.now rows.now) now row.now r (word words.new) }
    ensures only { (r : Past) → Starts (blocks_of B.inputs B.results B.width B.meaning B.stands B.is_sound B.may_lack) (net_of blocks.now nodes.now actions.now kinds.now rows.now) now r words.old → (v : Valuation) → Solves (blocks_of B.inputs B.results B.width B.meaning B.stands B.is_sound B.may_lack) (net_of blocks.now nodes.now actions.now kinds.now rows.now) now row.now r v → (e : ℕ) → e < length kinds.now → v e ≡ word words.new e }
    ensures fault { (r : Past) → Starts (blocks_of B.inputs B.results B.width B.meaning B.stands B.is_sound B.may_lack) (net_of blocks.now nodes.now actions.now kinds.now rows.now) now r words.old → IfSome result (λ j. FirstFault (blocks_of B.inputs B.results B.width B.meaning B.stands B.is_sound B.may_lack) (net_of blocks.now nodes.now actions.now kinds.now rows.now) now r (word words.new) j) }
    ensures none { (r : Past) → Starts (blocks_of B.inputs B.results B.width B.meaning B.stands B.is_sound B.may_lack) (net_of blocks.now nodes.now actions.now kinds.now rows.now) now r words.old → result ≡ None → NoFault (blocks_of B.inputs B.results B.width B.meaning B.stands B.is_sound B.may_lack) (net_of blocks.now nodes.now actions.now kinds.now rows.now) now r (word words.new) }
{
    let mut least: Option<usize> = None;
    for action in actions {
        least = advance(
            blocks, nodes, actions, kinds, rows, *action, row, least, words, now, steps,
        );
    }
    least
}
