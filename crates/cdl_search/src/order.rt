// The order of vertices.
ghost use Rattle.std.specs.Prelude.{◌≡◌, ◌-◌, ◌<◌, ℕ, length, IfOk, IfErr, OnOk, get_or, false};
ghost use Rattle.cdl_search.specs.Walks.{OnLoop};
ghost use Rattle.cdl_search.specs.Graph.{Determines, IsGraph};
ghost use Rattle.cdl_search.specs.Order.{IsOrder, IsBegun, IsSearchFault};

use crate::search::{Search, first_looped, search_all};
use std::alloc::{AllocError, Global};

/// Why there is no order.
#[derive(Clone, Copy, Debug, PartialEq, Eq, Drop)]
pub enum SearchFault {
    /// The least vertex on a loop.
    Loop { vertex: usize },
    OutOfMemory,
}

fn zeros(alloc: Global, n: usize) -> Result<Vec<usize>, AllocError>
    ensures size { IfOk result (λ v. length v.items ≡ n) }
    ensures zero { IfOk result (λ v. (x : ℕ) → get_or v.items x 0 ≡ 0) }
{
    let mut v = Vec::with_capacity(alloc, n)?;
    for _ in 0..n {
        v.push(0)?;
    }
    Ok(v)
}

fn flags(alloc: Global, n: usize) -> Result<Vec<bool>, AllocError>
    ensures size { IfOk result (λ v. length v.items ≡ n) }
    ensures down { IfOk result (λ v. (x : ℕ) → get_or v.items x false ≡ false) }
{
    let mut v = Vec::with_capacity(alloc, n)?;
    for _ in 0..n {
        v.push(false)?;
    }
    Ok(v)
}

// A search of n vertices that has found nothing yet.
fn begin(alloc: Global, n: usize) -> Result<Search, AllocError>
    ensures { IfOk result (λ s. IsBegun n s) }
{
    let marks = zeros(alloc, n)?;
    let looped = flags(alloc, n)?;
    Ok(Search {
        marks,
        looped,
        held: Vec::new(alloc),
        todo: Vec::new(alloc),
        starts: Vec::new(alloc),
        owed: Vec::new(alloc),
        order: Vec::new(alloc),
    })
}

/// All vertices in an order in which each stands behind all that determines it; where some vertex is on a loop, the least such.
/// What determines the vertex v stands in `edges` from `first[v]` to `first[v + 1]`. It takes time and memory in proportion to the
/// vertices and edges, whatever the answer.
pub fn order_of(alloc: Global, first: &[usize], edges: &[usize]) -> Result<Vec<usize>, SearchFault>
    requires { IsGraph first.now edges.now (length first.now - 1) }
    ensures order { IfOk result (λ o. IsOrder (Determines first.now edges.now) (length first.now - 1) o.items) }
    ensures none { OnOk result ((v : ℕ) → v < length first.now - 1 → OnLoop (Determines first.now edges.now) v → ⊥) }
    ensures fault { IfErr result (IsSearchFault (Determines first.now edges.now) (length first.now - 1)) }
{
    let Ok(mut search) = begin(alloc, first.len() - 1) else {
        return Err(SearchFault::OutOfMemory);
    };
    match search_all(&mut search, first, edges) {
        Ok(()) => {}
        Err(_) => return Err(SearchFault::OutOfMemory),
    }
    match first_looped(&search, first, edges) {
        Some(vertex) => Err(SearchFault::Loop { vertex }),
        None => Ok(search.order),
    }
}
