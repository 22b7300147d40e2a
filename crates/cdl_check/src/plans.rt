// The check of a net.
ghost use Rattle.std.specs.Prelude.{◌≡◌, IfErr, IfOk, OnOk};
ghost use Rattle.cdl_network.specs.FirstBroken.{Accepted};
ghost use Rattle.cdl_connect.specs.Faults.{IsChecked};
ghost use Rattle.cdl_connect.specs.Nets.{network_of};
ghost use Rattle.cdl_connect.specs.WellFormed.{IsIndexed};
ghost use Rattle.cdl_check.specs.Broken.{Refuses};
ghost use Rattle.cdl_check.specs.inner.Faults.{or_no_memory};

use crate::CheckFault;
use crate::spots::{loop_fault, wiring_fault};
use cdl_connect::{CheckedNet, Net};
use cdl_schedule::{Plan, order};
use cdl_source::OutOfMemory;
use std::alloc::Global;

fn or_no_memory(fault: Result<CheckFault, OutOfMemory>) -> CheckFault
    ensures { result ≡ or_no_memory fault }
{
    match fault {
        Ok(fault) => fault,
        Err(OutOfMemory) => CheckFault::OutOfMemory,
    }
}

// The net, where no rule of its wires and elements is broken.
fn wired(alloc: Global, net: Net) -> Result<CheckedNet, CheckFault>
    requires { IsIndexed net }
    ensures same { IfOk result (λ c. c ≡ net) }
    ensures refused { IfErr result (Refuses net) }
{
    match net.check(alloc) {
        Ok(checked) => Ok(checked),
        Err(refusal) => Err(or_no_memory(wiring_fault(alloc, &refusal.net, refusal.fault))),
    }
}

// The plan of a checked net, where nothing is on a loop.
fn ordered(alloc: Global, net: CheckedNet) -> Result<Plan, CheckFault>
    ensures net { IfOk result (λ p. p.net ≡ net) }
    ensures accepted { OnOk result (Accepted (network_of net)) }
    ensures refused { IfErr result (Refuses net) }
{
    let _net = net.net();
    match order(alloc, net) {
        Ok(plan) => Ok(plan),
        Err(refusal) => Err(or_no_memory(loop_fault(alloc, refusal.net.net(), refusal.fault))),
    }
}

/// The plan of a net that breaks no rule. Else the first broken one, with the texts of its place: of its wires in order C43, C44
/// or C48, then of its elements in order C45 or C46, then C50 at the first instance in preorder that has an element on a loop. It
/// needs of a well-formed net only that its numbers are good. It takes time and memory in proportion to the net.
pub fn check(alloc: Global, net: Net) -> Result<Plan, CheckFault>
    requires { IsIndexed net }
    ensures net { IfOk result (λ p. p.net ≡ net) }
    ensures accepted { OnOk result (Accepted (network_of net)) }
    ensures refused { IfErr result (Refuses net) }
{
    match wired(alloc, net) {
        Ok(checked) => ordered(alloc, checked),
        Err(fault) => Err(fault),
    }
}
