// The blocks that have something to absorb.

ghost use Rattle.std.specs.Prelude.{◌≡◌, ◌+◌, ◌<◌, IfOk, OnOk, length};
ghost use Rattle.cdl_pass.specs.Absorb.{AreStateful};

use crate::net::Node;
use cdl_source::OutOfMemory;
use std::alloc::Global;

// Adds the number of an instance, if it has state words.
#[tactic(auto, using(crate::proofs::Remembering::one_more))]
fn add_stateful(stateful: &mut Vec<usize>, nodes: &[Node], j: usize) -> Result<(), OutOfMemory>
    requires inside { j < length nodes.now }
    requires so_far { AreStateful nodes.now j stateful.old.items }
    ensures { OnOk result (AreStateful nodes.now (j + 1) stateful.new.items) }
{
    if nodes[j].width > 0 {
        stateful.push(j)?;
    }
    Ok(())
}

// The numbers of the instances with state words, in order.
#[tactic(auto, using(crate::proofs::Remembering::none_yet))]
pub fn stateful_in(alloc: Global, nodes: &[Node]) -> Result<Vec<usize>, OutOfMemory>
    ensures { IfOk result (λ v. AreStateful nodes.now (length nodes.now) v.items) }
{
    let mut stateful = Vec::new(alloc);
    for j in 0..nodes.len() {
        add_stateful(&mut stateful, nodes, j)?;
    }
    Ok(stateful)
}
