// The blocks of a net, where their words lie, and what a tick does with them.
ghost use Rattle.std.specs.Prelude.{◌≡◌, ◌+◌, ◌<◌, ◌≤◌, ◌&&◌, ◌++◌, ◌∷◌, [], ℕ, List, IfOk, OnOk, Some, cond, get_or, length, map, not, slice_get};
ghost use Rattle.cdl_values.specs.declared.value.Array.{Array};
ghost use Rattle.cdl_kinds.specs.Conditions.{Keeps};
ghost use Rattle.cdl_kinds.specs.declared.kind.Kind.{Kind as KindOf};
ghost use Rattle.cdl_kinds.specs.Ports.{inputs};
ghost use Rattle.cdl_network.specs.Dependence.{is_root_input};
ghost use Rattle.cdl_network.specs.Lists.{has_some};
ghost use Rattle.cdl_connect.specs.declared.net.Body.TheVariants.{Elementary as ElementaryBody};
ghost use Rattle.cdl_connect.specs.Faults.{IsChecked};
ghost use Rattle.cdl_connect.specs.Nets.{network_of};
ghost use Rattle.cdl_connect.specs.WellFormed.{AreOfKinds};
ghost use Rattle.cdl_run.specs.inner.AnyBlocks.{any_blocks};
ghost use Rattle.cdl_schedule.specs.declared.steps.Step.{Step as StepOf};
ghost use Rattle.cdl_schedule.specs.Passes.{IsStep};
ghost use Rattle.cdl_run.specs.Words.{is_root_output, root_outputs, state_place};
ghost use Rattle.cdl_run.specs.inner.Laid.{AreBuilt, AreRanks, IsBlock, action_of, element_types, node_of, row_types};

use cdl_blocks::AnyBlock;
use cdl_connect::{Body, Net, NetInstance};
use cdl_kinds::{Kind, Params, state_words};
use cdl_pass::{Action, Node};
use cdl_schedule::{Step, is_direct_kind};
use cdl_source::OutOfMemory;
use cdl_values::ValueType;
use std::alloc::Global;

// The blocks of the elementary instances, in preorder.
#[derive(Drop)]
pub(crate) struct Blocks {
    pub blocks: Vec<AnyBlock>,
    // Where the words of each block lie.
    pub nodes: Vec<Node>,
    // The number of each block's instance.
    pub instances: Vec<u32>,
    // For each instance how many elementary ones stand before it.
    pub ranks: Vec<usize>,
}

// How many inputs an elementary instance has: they are the first of its elements.
fn input_count(net: &Net, _i: usize, instance: &NetInstance) -> usize
    requires checked { IsChecked net.now }
    requires kinds { AreOfKinds net.now }
    requires there { slice_get net.now.instances _i ≡ Some instance.now }
    ensures count { (k : KindOf) (v : List Array) → instance.now.body ≡ ElementaryBody k v → result ≡ (inputs k v).count }
    ensures few { result ≤ instance.now.count }
{
    let elements = net.elements.items();
    let first = instance.first as usize;
    let count = instance.count as usize;
    for j in 0..count {
        if !elements[first + j].input {
            return j;
        }
    }
    count
}

// Where the words of an elementary instance lie, and its state words from this place on.
fn node(
    net: &Net,
    _i: usize,
    instance: &NetInstance,
    kind: Kind,
    params: &Params,
    state: usize,
) -> Node
    requires checked { IsChecked net.now }
    requires kinds { AreOfKinds net.now }
    requires there { slice_get net.now.instances _i ≡ Some instance.now }
    requires body { instance.now.body ≡ ElementaryBody kind params.now }
    requires state { state ≡ state_place net.now _i }
    ensures { result ≡ node_of net.now _i instance.now kind params.now }
{
    let first = instance.first as usize;
    let nin = input_count(net, _i, instance);
    Node {
        ins: first,
        nin,
        reads: if is_direct_kind(kind) { nin } else { 0 },
        outs: first + nin,
        nout: instance.count as usize - nin,
        state,
        width: state_words(kind, params),
    }
}

fn block(alloc: Global, kind: Kind, params: &Params) -> Result<AnyBlock, OutOfMemory>
    requires { Keeps kind params.now }
    ensures { IfOk result (λ b. IsBlock any_blocks b kind params.now) }
{
    Ok(AnyBlock::new(kind, params.copy(alloc)?))
}

// The place behind so many words. A region of more words than can be counted is out of memory.
fn place_behind(place: usize, width: usize) -> Result<usize, OutOfMemory>
    ensures { IfOk result (λ p. p ≡ place + width) }
{
    match place.checked_add(width) {
        Some(behind) => Ok(behind),
        None => Err(OutOfMemory),
    }
}

// Adds what is made of an instance, whose state words begin at this place, and gives the place behind them.
fn add_instance(
    alloc: Global,
    blocks: &mut Blocks,
    net: &Net,
    i: usize,
    place: usize,
) -> Result<usize, OutOfMemory>
    requires checked { IsChecked net.now }
    requires kinds { AreOfKinds net.now }
    requires inside { i < length net.now.instances }
    requires built { AreBuilt any_blocks net.now i blocks.old.blocks.items blocks.old.nodes.items blocks.old.instances.items blocks.old.ranks.items }
    requires place { place ≡ state_place net.now i }
    ensures built { OnOk result (AreBuilt any_blocks net.now (i + 1) blocks.new.blocks.items blocks.new.nodes.items blocks.new.instances.items blocks.new.ranks.items) }
    ensures place { IfOk result (λ p. p ≡ state_place net.now (i + 1)) }
{
    let instance = &net.instances.items()[i];
    blocks.ranks.push(blocks.instances.len())?;
    match &instance.body {
        Body::Composite => Ok(place),
        Body::Elementary { kind, params } => {
            let node = node(net, i, instance, *kind, params, place);
            blocks.blocks.push(block(alloc, *kind, params)?)?;
            blocks.nodes.push(node)?;
            blocks.instances.push(i as u32)?;
            place_behind(place, node.width)
        }
    }
}

// The blocks of a net, and how many words it has.
pub(crate) fn blocks_in(alloc: Global, net: &Net) -> Result<(Blocks, usize), OutOfMemory>
    requires checked { IsChecked net.now }
    requires kinds { AreOfKinds net.now }
    ensures built { IfOk result (λ r. AreBuilt any_blocks net.now (length net.now.instances) r.0.blocks.items r.0.nodes.items r.0.instances.items r.0.ranks.items) }
    ensures size { IfOk result (λ r. r.1 ≡ state_place net.now (length net.now.instances)) }
{
    let mut blocks = Blocks {
        blocks: Vec::new(alloc),
        nodes: Vec::new(alloc),
        instances: Vec::new(alloc),
        ranks: Vec::new(alloc),
    };
    let mut place = net.elements.items().len();
    for i in 0..net.instances.items().len() {
        place = add_instance(alloc, &mut blocks, net, i, place)?;
    }
    Ok((blocks, place))
}

fn action(_net: &Net, step: Step, ranks: &[usize]) -> Action
    requires named { IsStep _net.now step }
    requires ranks { AreRanks _net.now (length _net.now.instances) ranks.now }
    ensures { result ≡ action_of _net.now step }
{
    match step {
        Step::Input { place, to } => Action::Input {
            place: place as usize,
            to: to as usize,
        },
        Step::Copy { from, to } => Action::Copy {
            from: from as usize,
            to: to as usize,
        },
        Step::Emit { instance } => Action::Emit {
            block: ranks[instance as usize],
        },
    }
}

// The steps of a plan, in which blocks have the numbers of their places.
pub(crate) fn actions_in(
    alloc: Global,
    net: &Net,
    steps: &[Step],
    ranks: &[usize],
) -> Result<Vec<Action>, OutOfMemory>
    requires named { (j : ℕ) (o : StepOf) → slice_get steps.now j ≡ Some o → IsStep net.now o }
    requires ranks { AreRanks net.now (length net.now.instances) ranks.now }
    ensures { IfOk result (λ v. v.items ≡ map (action_of net.now) steps.now) }
{
    let mut actions = Vec::new(alloc);
    for t in 0..steps.len() {
        actions.push(action(net, steps[t], ranks))?;
    }
    Ok(actions)
}

// The type of each element.
pub(crate) fn types_in(alloc: Global, net: &Net) -> Result<Vec<ValueType>, OutOfMemory>
    ensures { IfOk result (λ v. v.items ≡ element_types net.now) }
{
    let mut types = Vec::new(alloc);
    let elements = net.elements.items();
    for x in 0..elements.len() {
        types.push(elements[x].value_type)?;
    }
    Ok(types)
}

fn is_at_root(net: &Net, x: usize) -> bool
    requires checked { IsChecked net.now }
    requires inside { x < length net.now.elements }
    ensures { result ≡ not (has_some ((network_of net.now).parent ((network_of net.now).owner x))) }
{
    let owner = net.elements.items()[x].instance as usize;
    net.instances.items()[owner].parent.is_none()
}

fn add_row(rows: &mut Vec<ValueType>, net: &Net, x: usize) -> Result<(), OutOfMemory>
    requires checked { IsChecked net.now }
    requires inside { x < length net.now.elements }
    ensures { OnOk result (rows.new.items ≡ cond (is_root_input (network_of net.now) x) (rows.old.items ++ (network_of net.now).value_type x ∷ []) rows.old.items) }
{
    let element = &net.elements.items()[x];
    if element.input && is_at_root(net, x) {
        rows.push(element.value_type)?;
    }
    Ok(())
}

// The type of each input of the root.
pub(crate) fn rows_in(alloc: Global, net: &Net) -> Result<Vec<ValueType>, OutOfMemory>
    requires { IsChecked net.now }
    ensures { IfOk result (λ v. v.items ≡ row_types net.now) }
{
    let mut rows = Vec::new(alloc);
    for x in 0..net.elements.items().len() {
        add_row(&mut rows, net, x)?;
    }
    Ok(rows)
}

fn add_output(outputs: &mut Vec<u32>, net: &Net, x: usize) -> Result<(), OutOfMemory>
    requires checked { IsChecked net.now }
    requires inside { x < length net.now.elements }
    ensures { OnOk result (outputs.new.items ≡ cond (is_root_output net.now x) (outputs.old.items ++ x ∷ []) outputs.old.items) }
{
    if !net.elements.items()[x].input && is_at_root(net, x) {
        outputs.push(x as u32)?;
    }
    Ok(())
}

// The outputs of the root.
pub(crate) fn outputs_in(alloc: Global, net: &Net) -> Result<Vec<u32>, OutOfMemory>
    requires { IsChecked net.now }
    ensures { IfOk result (λ v. v.items ≡ root_outputs net.now) }
{
    let mut outputs = Vec::new(alloc);
    for x in 0..net.elements.items().len() {
        add_output(&mut outputs, net, x)?;
    }
    Ok(outputs)
}
