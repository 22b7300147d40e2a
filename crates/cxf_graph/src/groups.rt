// The parts and the wires of each instance.
ghost use Rattle.std.specs.Prelude.{◌≡◌, ◌<◌, ◌==◌, ◌∷◌, ◌++◌, ℕ, [], IfOk, IfSome, OnOk, cond, get_or, length, map};
ghost use Rattle.cdl_network.specs.Rules.{is_some_same};
ghost use Rattle.cdl_connect.specs.WellFormed.{AreNumbers};
ghost use Rattle.cxf_graph.specs.Written.{inner, parts};

use cdl_connect::{Net, NetInstance, RawWire};
use cdl_source::{List, OutOfMemory};
use std::alloc::Global;

// So many empty lists.
fn empty_lists<'a, T>(alloc: Global, count: usize) -> Result<Vec<List<&'a T>>, OutOfMemory>
    ensures count { IfOk result (λ v. length v.items ≡ count) }
    ensures empty { IfOk result (λ v. (i : ℕ) → get_or v.items i [] ≡ []) }
{
    let mut lists = Vec::with_capacity(alloc, count)?;
    for _ in 0..count {
        lists.push(List::new(alloc))?;
    }
    Ok(lists)
}

// Adds an instance to the parts of its parent.
fn push_part<'a>(
    lists: &mut Vec<List<&'a NetInstance>>,
    instance: &'a NetInstance,
) -> Result<(), OutOfMemory>
    requires { IfSome instance.now.parent (λ p. p < length lists.old.items) }
    ensures count { OnOk result (length lists.new.items ≡ length lists.old.items) }
    ensures added { OnOk result ((i : ℕ) → map (λ t. t.now) (get_or lists.new.items i []) ≡ map (λ t. t.now) (get_or lists.old.items i []) ++ cond (is_some_same (λ p q. p == q) i instance.now.parent) (instance.now ∷ []) []) }
{
    match instance.parent {
        Some(parent) => lists[parent as usize].push(instance),
        None => Ok(()),
    }
}

// The parts of each instance.
pub(crate) fn all_parts(alloc: Global, net: &Net) -> Result<Vec<List<&NetInstance>>, OutOfMemory>
    requires { AreNumbers net.now }
    ensures count { IfOk result (λ v. length v.items ≡ length net.now.instances) }
    ensures parts { IfOk result (λ v. (i : ℕ) → i < length net.now.instances → map (λ t. t.now) (get_or v.items i []) ≡ parts net.now i) }
{
    let instances = net.instances.items();
    let mut lists = empty_lists(alloc, instances.len())?;
    for k in 0..instances.len() {
        push_part(&mut lists, &instances[k])?;
    }
    Ok(lists)
}

// The wires of each instance.
pub(crate) fn all_wires(alloc: Global, net: &Net) -> Result<Vec<List<&RawWire>>, OutOfMemory>
    requires { AreNumbers net.now }
    ensures count { IfOk result (λ v. length v.items ≡ length net.now.instances) }
    ensures wires { IfOk result (λ v. (i : ℕ) → i < length net.now.instances → map (λ w. w.now) (get_or v.items i []) ≡ inner net.now i) }
{
    let wires = net.wires.items();
    let mut lists = empty_lists(alloc, net.instances.items().len())?;
    for k in 0..wires.len() {
        let wire = &wires[k];
        lists[wire.scope as usize].push(wire)?;
    }
    Ok(lists)
}
