// The order of a tick.
ghost use Rattle.std.specs.Prelude.{◌≡◌, ◌+◌, ◌-◌, ◌<◌, ℕ, length, IfOk, IfErr, OnOk, get_or};
ghost use Rattle.cdl_search.specs.Order.{IsOrder, IsSearchFault};
ghost use Rattle.cdl_network.specs.Dependence.{NoLoop};
ghost use Rattle.cdl_connect.specs.Faults.{IsChecked};
ghost use Rattle.cdl_connect.specs.Nets.{network_of};
ghost use Rattle.cdl_schedule.specs.Passes.{IsPass};
ghost use Rattle.cdl_schedule.specs.Plans.{IsPlan, IsOrderFault};
ghost use Rattle.cdl_schedule.specs.inner.Rows.{AreRows, AreSources, Precedes, vertex_count, added};
ghost use Rattle.cdl_schedule.specs.inner.Listed.{Listed, is_listed};

use crate::rows::{Rows, is_elementary, rows_of, sources};
use crate::steps::{Step, steps_in};
use cdl_connect::{CheckedNet, Net};
use cdl_search::{SearchFault, order_of};
use std::alloc::{AllocError, Global};
use std::marker::Model;

/// Why a net has no order.
#[derive(Clone, Copy, Debug, PartialEq, Eq, Drop)]
pub enum OrderFault {
    /// C50: the first instance in preorder that has an element on a loop.
    Loop { instance: u32 },
    OutOfMemory,
}

/// A checked net that was refused, as it was given, and why.
#[derive(Debug, Drop)]
pub struct OrderRefusal {
    pub net: CheckedNet,
    pub fault: OrderFault,
}

/// A checked net without a loop, and its elementary instances in the order of a tick. Contracts see the net and the list.
#[derive(Debug, Drop)]
pub struct Plan {
    net: CheckedNet,
    list: Vec<u32>,
    steps: Vec<Step>,
}

impl Model for Plan {
    ghost use Rattle.cdl_connect.specs.Nets.{network_of};
    ghost use Rattle.cdl_network.specs.Dependence.{NoLoop};
    ghost use Rattle.cdl_schedule.specs.NetPlan.{NetPlan};

    ghost Value = { NetPlan };

    ghost view = { λ p. record { net = p.net; list = p.list.items } };

    ghost use Rattle.cdl_schedule.specs.Passes.{IsPass};
    ghost use Rattle.cdl_schedule.specs.Plans.{IsPlan};

    ghost invariant = { λ p. IsPlan p.net p.list.items × NoLoop (network_of p.net) × IsPass p.net p.steps.items };
}

fn listed(net: &Net, v: usize) -> bool
    requires { v < vertex_count net.now }
    ensures { result ≡ is_listed net.now v }
{
    let count = net.elements.items().len();
    v >= count && is_elementary(&net.instances.items()[v - count].body)
}

fn list_vertex(list: &mut Vec<u32>, net: &Net, v: usize) -> Result<(), AllocError>
    requires checked { IsChecked net.now }
    requires inside { v < vertex_count net.now }
    ensures { OnOk result (list.new.items ≡ added (is_listed net.now v) list.old.items (v - length net.now.elements)) }
{
    if listed(net, v) {
        list.push((v - net.elements.items().len()) as u32)?;
    }
    Ok(())
}

// The elementary instances among the vertices, in their order.
fn instances_in(alloc: Global, net: &Net, order: &[usize]) -> Result<Vec<u32>, AllocError>
    requires checked { IsChecked net.now }
    requires order { IsOrder (Precedes net.now) (vertex_count net.now) order.now }
    ensures { IfOk result (λ v. Listed (network_of net.now).elementary (length net.now.elements) order.now (length order.now) v.items) }
{
    let mut list = Vec::new(alloc);
    for t in 0..order.len() {
        list_vertex(&mut list, net, order[t])?;
    }
    Ok(list)
}

// All vertices in an order, or why there is none.
fn ordered(alloc: Global, rows: &Rows, _net: &Net) -> Result<Vec<usize>, SearchFault>
    requires checked { IsChecked _net.now }
    requires rows { AreRows (Precedes _net.now) (vertex_count _net.now) (vertex_count _net.now) 0 rows.now.first.items rows.now.edges.items }
    ensures order { IfOk result (λ v. IsOrder (Precedes _net.now) (vertex_count _net.now) v.items) }
    ensures none { OnOk result (NoLoop (network_of _net.now)) }
    ensures fault { IfErr result (λ f. IsSearchFault (Precedes _net.now) (vertex_count _net.now) f) }
{
    order_of(alloc, rows.first.as_slice(), rows.edges.as_slice())
}

fn fault_of(net: &Net, fault: SearchFault) -> OrderFault
    requires checked { IsChecked net.now }
    requires fault { IsSearchFault (Precedes net.now) (vertex_count net.now) fault }
    ensures { IsOrderFault net.now result }
{
    match fault {
        SearchFault::Loop { vertex } => OrderFault::Loop {
            instance: net.elements.items()[vertex].instance,
        },
        SearchFault::OutOfMemory => OrderFault::OutOfMemory,
    }
}

// What a plan has beside its net.
#[derive(Debug, Drop)]
struct Parts {
    list: Vec<u32>,
    steps: Vec<Step>,
}

// The list and the steps of an order.
fn parts_in(
    alloc: Global,
    net: &Net,
    sources: &[usize],
    order: &[usize],
) -> Result<Parts, AllocError>
    requires checked { IsChecked net.now }
    requires sources { AreSources net.now (length net.now.wires) sources.now }
    requires order { IsOrder (Precedes net.now) (vertex_count net.now) order.now }
    ensures plan { IfOk result (λ p. IsPlan net.now p.list.items) }
    ensures pass { IfOk result (λ p. IsPass net.now p.steps.items) }
{
    let list = instances_in(alloc, net, order)?;
    let steps = steps_in(alloc, net, sources, order)?;
    Ok(Parts { list, steps })
}

// What the plan of a net has, or why there is none.
fn parts_of(alloc: Global, net: &Net) -> Result<Parts, OrderFault>
    requires { IsChecked net.now }
    ensures plan { IfOk result (λ p. IsPlan net.now p.list.items) }
    ensures pass { IfOk result (λ p. IsPass net.now p.steps.items) }
    ensures none { OnOk result (NoLoop (network_of net.now)) }
    ensures fault { IfErr result (IsOrderFault net.now) }
{
    let Ok(sources) = sources(alloc, net) else {
        return Err(OrderFault::OutOfMemory);
    };
    let Ok(rows) = rows_of(alloc, net, &sources) else {
        return Err(OrderFault::OutOfMemory);
    };
    match ordered(alloc, &rows, net) {
        Ok(order) => match parts_in(alloc, net, &sources, order.as_slice()) {
            Ok(parts) => Ok(parts),
            Err(_) => Err(OrderFault::OutOfMemory),
        },
        Err(fault) => Err(fault_of(net, fault)),
    }
}

/// The plan of a checked net. Else the net as it was: `Loop` comes exactly where an element is on a loop, memory aside, and names
/// the first instance in preorder that has one; `OutOfMemory` for want of memory. It takes time and memory in proportion to the
/// net's instances, elements and wires, whatever the answer.
pub fn order(alloc: Global, net: CheckedNet) -> Result<Plan, OrderRefusal>
    ensures net { IfOk result (λ p. p.net ≡ net) }
    ensures plan { IfOk result (λ p. IsPlan net p.list) }
    ensures none { OnOk result (NoLoop (network_of net)) }
    ensures back { IfErr result (λ r. r.net ≡ net) }
    ensures fault { IfErr result (λ r. IsOrderFault net r.fault) }
{
    match parts_of(alloc, net.net()) {
        Ok(parts) => Ok(Plan {
            net,
            list: parts.list,
            steps: parts.steps,
        }),
        Err(fault) => Err(OrderRefusal { net, fault }),
    }
}

impl Plan {
    /// The net that was given. It takes no memory.
    pub fn net(&self) -> &CheckedNet
        ensures same { result.now ≡ self.now.net }
        ensures none { NoLoop (network_of self.now.net) }
    {
        &self.net
    }

    /// The numbers of all elementary instances, each once and each behind all on which its direct inputs depend.
    pub fn list(&self) -> &[u32]
        ensures same { result.now ≡ self.now.list }
        ensures plan { IsPlan self.now.net self.now.list }
    {
        self.list.as_slice()
    }

    /// The steps of a tick: each element is written once, behind those that write what its step reads. It takes no memory.
    pub fn steps(&self) -> &[Step]
        ensures pass { IsPass self.now.net result.now }
    {
        self.steps.as_slice()
    }
}
