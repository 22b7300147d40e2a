// The runner.
ghost use Rattle.std.specs.Prelude.{◌≡◌, ◌+◌, ◌<◌, ◌≤◌, ◌++◌, ◌∷◌, ◌<ℤ◌, [], ℕ, ℤ, List, Err, IfErr, IfOk, IfSome, MatchResult, None, OnOk, Some, get_or, length, negsuc, slice_get};
ghost use Rattle.std.specs.Option.{option_map};
ghost use Rattle.cdl_values.specs.History.{IsTime, IsValue, word};
ghost use Rattle.cdl_network.specs.Rules.{word_count};
ghost use Rattle.cdl_network.specs.Ticks.{Tick};
ghost use Rattle.cdl_connect.specs.declared.net.NetInstance.{NetInstance as InstanceOf};
ghost use Rattle.cdl_connect.specs.Nets.{network_of};
ghost use Rattle.cdl_connect.specs.WellFormed.{AreOfKinds, ArePlain};
ghost use Rattle.cdl_pass.specs.Absorb.{AreStateful};
ghost use Rattle.cdl_pass.specs.Net.{AllAt, net_of};
ghost use Rattle.cdl_pass.specs.Windows.{state_of};
ghost use Rattle.cdl_run.specs.inner.AnyBlocks.{any_blocks};
ghost use Rattle.cdl_run.specs.declared.resume.ResumeFault.TheVariants.{OutOfMemory as no_memory};
ghost use Rattle.cdl_run.specs.Words.{elementary_count, root_outputs, state_place};
ghost use Rattle.cdl_run.specs.Runs.{HasFault, IsRow, RunStands, tick_at};
ghost use Rattle.cdl_run.specs.Running.{AreSound, FirstLacks, FirstUnsound, IsCause, Stands};
ghost use Rattle.cdl_run.specs.inner.Ready.{IsFixed};

use crate::ResumeFault;
use crate::layout::{actions_in, blocks_in, outputs_in, rows_in, types_in};
use cdl_blocks::AnyBlock;
use cdl_kinds::Steps;
use cdl_pass::{Action, Node, first_unsound, reset_all, stateful_in, tick_all};
use cdl_pool::Region;
use cdl_schedule::Plan;
use cdl_source::{OutOfMemory, Text};
use cdl_values::ValueType;
use std::alloc::Global;
use std::marker::Model;
use std::sync::ledger::Ledger;

/// The first elementary instance in preorder whose direct inputs all have values at a tick, and whose meaning has none.
#[derive(Clone, Copy, Debug, PartialEq, Eq, Drop)]
pub struct RangeFault {
    pub instance: u32,
}

// What a runner has beside its words. It stays as it was made.
#[derive(Drop)]
struct Parts {
    plan: Plan,
    blocks: Vec<AnyBlock>,
    nodes: Vec<Node>,
    // The numbers of the blocks with state words.
    stateful: Vec<usize>,
    // The number of each block's instance.
    instances: Vec<u32>,
    actions: Vec<Action>,
    types: Vec<ValueType>,
    rows: Vec<ValueType>,
    // The outputs of the root.
    outputs: Vec<u32>,
}

/// Runs a net tick by tick. Contracts see its net, its words, the time of its last tick, and the instance of the fault that it
/// has answered.
#[derive(Drop)]
pub struct Runner {
    parts: Parts,
    region: Region,
    last: i64,
    fault: Option<RangeFault>,
}

impl Model for Runner {
    ghost use Rattle.std.specs.Prelude.{length};
    ghost use Rattle.std.specs.Option.{option_map};
    ghost use Rattle.cdl_pass.specs.Absorb.{AreStateful};
    ghost use Rattle.cdl_run.specs.inner.AnyBlocks.{any_blocks};
    ghost use Rattle.cdl_run.specs.Running.{Running};
    ghost use Rattle.cdl_run.specs.inner.Ready.{IsFixed, IsReady};

    ghost Value = { Running };

    ghost view = { λ r. record { net = r.parts.plan.net; words = r.region.words; last = r.last; fault = option_map (λ f. f.instance) r.fault } };

    ghost invariant = { λ r. IsFixed any_blocks r.parts.plan.net r.parts.blocks.items r.parts.nodes.items r.parts.instances.items r.parts.actions.items r.parts.types.items r.parts.rows.items r.parts.outputs.items
        × IsReady any_blocks r.parts.plan.net r.parts.blocks.items r.parts.nodes.items r.parts.actions.items r.parts.types.items r.parts.rows.items r.region.words r.last (option_map (λ f. f.instance) r.fault)
        × AreStateful r.parts.nodes.items (length r.parts.nodes.items) r.parts.stateful.items };
}

// What is made of a plan, and how many words it needs.
fn parts_of(alloc: Global, plan: Plan) -> Result<(Parts, usize), OutOfMemory>
    requires kinds { AreOfKinds plan.net }
    requires plain { ArePlain plan.net }
    ensures net { IfOk result (λ f. f.0.plan ≡ plan) }
    ensures fixed { IfOk result (λ f. IsFixed any_blocks plan.net f.0.blocks.items f.0.nodes.items f.0.instances.items f.0.actions.items f.0.types.items f.0.rows.items f.0.outputs.items) }
    ensures stateful { IfOk result (λ f. AreStateful f.0.nodes.items (length f.0.nodes.items) f.0.stateful.items) }
    ensures size { IfOk result (λ f. f.1 ≡ state_place plan.net (length plan.net.instances)) }
{
    let net = plan.net().net();
    let (blocks, size) = blocks_in(alloc, net)?;
    let stateful = stateful_in(alloc, &blocks.nodes)?;
    let actions = actions_in(alloc, net, plan.steps(), blocks.ranks.as_slice())?;
    let types = types_in(alloc, net)?;
    let rows = rows_in(alloc, net)?;
    let outputs = outputs_in(alloc, net)?;
    let parts = Parts {
        plan,
        blocks: blocks.blocks,
        nodes: blocks.nodes,
        stateful,
        instances: blocks.instances,
        actions,
        types,
        rows,
        outputs,
    };
    Ok((parts, size))
}

// The first elementary instance in preorder whose state can stand for no ticks up to that time.
fn first_unsound_in(parts: &Parts, words: &[i64], last: i64) -> Option<u32>
    requires fixed { IsFixed any_blocks parts.now.plan.net parts.now.blocks.items parts.now.nodes.items parts.now.instances.items parts.now.actions.items parts.now.types.items parts.now.rows.items parts.now.outputs.items }
    requires size { length words.now ≡ state_place parts.now.plan.net (length parts.now.plan.net.instances) }
    ensures first { IfSome result (FirstUnsound parts.now.plan.net last words.now) }
    ensures sound { result ≡ None → AllAt (net_of parts.now.blocks.items parts.now.nodes.items parts.now.actions.items parts.now.types.items parts.now.rows.items) (λ j b p. any_blocks.sound b (state_of p words.now) last) }
    ensures standing { (ts : List Tick) → RunStands parts.now.plan.net ts last words.now → result ≡ None }
{
    let block = first_unsound(
        &parts.blocks,
        &parts.nodes,
        &parts.actions,
        &parts.types,
        &parts.rows,
        words,
        last,
    )?;
    Some(parts.instances[block])
}

impl Runner {
    /// A runner before its first tick. It takes all memory of the run.
    pub fn start(alloc: Global, plan: Plan) -> Result<Runner, OutOfMemory>
        requires kinds { AreOfKinds plan.net }
        requires plain { ArePlain plan.net }
        ensures net { IfOk result (λ r. r.net ≡ plan.net) }
        ensures stands { IfOk result (λ r. Stands r []) }
        ensures size { IfOk result (λ r. length r.words ≡ word_count (network_of plan.net)) }
    {
        let (parts, size) = parts_of(alloc, plan)?;
        let mut region = Region::new(alloc, size)?;
        reset_all(
            &parts.blocks,
            &parts.nodes,
            &parts.actions,
            &parts.types,
            &parts.rows,
            region.all_mut(),
        );
        Ok(Runner {
            parts,
            region,
            last: -1,
            fault: None,
        })
    }

    /// A runner that goes on from the words of another, saved after a tick at the time `last`, or before any where it is -1: it stands
    /// for the ticks that the words stand for. It takes all memory of the run.
    /// Count: there are not as many words as the net has. Else State: the state words of an elementary instance are not sound for
    /// that time, and it is the first such in preorder. Words that stand for some ticks are never refused so.
    pub fn resume(
        alloc: Global,
        plan: Plan,
        last: i64,
        words: &[i64],
    ) -> Result<Runner, ResumeFault>
        requires kinds { AreOfKinds plan.net }
        requires plain { ArePlain plan.net }
        ensures ok { IfOk result (λ r. r ≡ record { net = plan.net; words = words.now; last = last; fault = None }) }
        ensures sound { OnOk result (AreSound plan.net last words.now) }
        ensures refused { IfErr result (IsCause plan.net last words.now) }
        ensures stands { (ts : List Tick) → length words.now ≡ word_count (network_of plan.net) → RunStands plan.net ts last words.now → MatchResult result (λ r. Stands r ts) (λ f. f ≡ no_memory) }
    {
        let (parts, size) = parts_of(alloc, plan)?;
        if words.len() != size {
            return Err(ResumeFault::Count);
        }
        if let Some(instance) = first_unsound_in(&parts, words, last) {
            return Err(ResumeFault::State { instance });
        }
        let mut region = Region::new(alloc, size)?;
        region.all_mut().copy_from_slice(words);
        Ok(Runner {
            parts,
            region,
            last,
            fault: None,
        })
    }

    /// One tick at this time, with a word for each input of the root. Each element then has a value of its type. It takes no memory.
    /// RangeFault: the first elementary instance in preorder whose direct inputs all have values, and whose meaning has none.
    /// Each further tick then answers the same. It is so too for a runner that stands for no ticks, from words that no run gave: the
    /// instance is then the first whose direct inputs all have values at this tick and that gives none.
    pub fn tick<L: Ledger>(
        &mut self,
        now: i64,
        row: &[i64],
        steps: &mut Steps<L>,
    ) -> Result<(), RangeFault>
        requires time { IsTime now }
        requires later { self.old.last <ℤ now }
        requires row { IsRow self.old.net row.now }
        ensures net { self.new.net ≡ self.old.net }
        ensures size { length self.new.words ≡ length self.old.words }
        ensures values { OnOk result ((e : ℕ) → e < length self.old.net.elements → IsValue ((network_of self.old.net).value_type e) (word self.new.words e)) }
        ensures step { OnOk result (steps.new ≡ steps.old + elementary_count self.old.net) }
        ensures few { steps.new ≤ steps.old + elementary_count self.old.net }
        ensures ok { (ts : List Tick) → Stands self.old ts → OnOk result (Stands self.new (ts ++ tick_at now row.now ∷ [])) }
        ensures fault { (ts : List Tick) → Stands self.old ts → IfErr result (λ f. HasFault self.old.net ts (tick_at now row.now) f.instance) }
        ensures lacks { self.old.fault ≡ None → IfErr result (λ f. FirstLacks self.old.net now self.new.words f.instance) }
        ensures kept { IfErr result (λ f. self.new.fault ≡ Some f.instance) }
        ensures again { (i : ℕ) → self.old.fault ≡ Some i → (result ≡ Err (record { instance = i })) × (self.new ≡ self.old) }
    {
        if let Some(fault) = self.fault {
            return Err(fault);
        }
        let parts = &self.parts;
        let words = self.region.all_mut();
        match tick_all(
            &parts.blocks,
            &parts.nodes,
            &parts.actions,
            &parts.types,
            &parts.rows,
            &parts.stateful,
            row,
            words,
            now,
            steps,
        ) {
            Ok(()) => {
                self.last = now;
                Ok(())
            }
            Err(fault) => {
                let fault = RangeFault {
                    instance: parts.instances[fault.block],
                };
                self.fault = Some(fault);
                Err(fault)
            }
        }
    }

    /// The word of an output of the root at the last tick. It takes no memory.
    pub fn output(&self, i: usize) -> i64
        requires { i < length (root_outputs self.now.net) }
        ensures { result ≡ word self.now.words (get_or (root_outputs self.now.net) i 0) }
    {
        self.region.all()[self.parts.outputs[i] as usize]
    }

    /// The path of an instance. It takes no memory.
    pub fn path(&self, instance: u32) -> &Text
        requires { instance < length self.now.net.instances }
        ensures { (t : InstanceOf) → slice_get self.now.net.instances instance ≡ Some t → result.now ≡ t.path }
    {
        &self.parts.plan.net().net().instances.items()[instance as usize].path
    }

    /// Its words: one for each element, and then the state words of each elementary instance in preorder. It takes no memory.
    pub fn words(&self) -> &[i64]
        ensures { result.now ≡ self.now.words }
    {
        self.region.all()
    }

    /// The time of the last tick, and -1 before any. It takes no memory.
    pub fn last(&self) -> i64
        ensures { result ≡ self.now.last }
    {
        self.last
    }
}
