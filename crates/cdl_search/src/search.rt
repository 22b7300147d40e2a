// The search: backward along what determines a vertex, from each vertex that is new.
//
// The open vertices stand in segments. A segment is closed when nothing is left to be looked at for it; where what is looked at is
// open, the segments from there on are joined, since they lie on a loop.
ghost use Rattle.std.specs.Prelude.{◌≡◌, ℕ, ◌+◌, ◌-◌, ◌<◌, ◌≤◌, length, OnOk, IfOk, IfSome, IfNone, get_or, false};
ghost use Rattle.cdl_search.specs.Walks.{OnLoop};
ghost use Rattle.cdl_search.specs.Search.{Inv, Sorted};
ghost use Rattle.cdl_search.specs.Graph.{IsGraph, Determines, Pushed, Merged, Finished, Closed, Found, Stepped, last_start, stacks, order_at};

use std::alloc::AllocError;

// What a search has found so far.
#[derive(Debug, Drop)]
pub struct Search {
    // 0 at a new vertex, 1 at one that is done, and p + 2 at one that is open at the place p.
    pub marks: Vec<usize>,
    // Whether a vertex is known to be on a loop.
    pub looped: Vec<bool>,
    // The open vertices.
    pub held: Vec<usize>,
    // What is still to be looked at.
    pub todo: Vec<usize>,
    // Where each segment begins among the open vertices.
    pub starts: Vec<usize>,
    // Where what is to be looked at for each segment begins.
    pub owed: Vec<usize>,
    // The vertices that are done, in the order in which they were.
    pub order: Vec<usize>,
}

// Opens a vertex in a segment of its own.
fn push_segment(
    s: &mut Search,
    first: &[usize],
    edges: &[usize],
    u: usize,
) -> Result<(), AllocError>
    requires inside { u < length s.old.marks.items }
    requires row { (u + 1 < length first.now) × (get_or first.now u 0 ≤ get_or first.now (u + 1) 0) × (get_or first.now (u + 1) 0 ≤ length edges.now) }
    ensures { OnOk result (Pushed first.now edges.now u s.old s.new) }
{
    s.marks[u] = s.held.len() + 2;
    s.starts.push(s.held.len())?;
    s.owed.push(s.todo.len())?;
    s.held.push(u)?;
    s.todo.extend_from_slice(&edges[first[u]..first[u + 1]])?;
    Ok(())
}

// Joins the segments that begin above a place to the one before.
fn merge(s: &mut Search, place: usize)
    requires { length s.old.starts.items ≡ length s.old.owed.items }
    ensures { Merged place s.old s.new }
{
    while s.starts.len() > 0 && s.starts[s.starts.len() - 1] > place {
        s.starts.pop();
        s.owed.pop();
    }
}

// Makes a vertex done.
fn finish(s: &mut Search, v: usize, many: bool) -> Result<(), AllocError>
    requires { (v < length s.old.marks.items) × (length s.old.looped.items ≡ length s.old.marks.items) }
    ensures { OnOk result (Finished v many s.old s.new) }
{
    s.marks[v] = 1;
    if many {
        s.looped[v] = true;
    }
    s.order.push(v)?;
    Ok(())
}

// Makes the vertices of the last segment done.
fn close(s: &mut Search) -> Result<(), AllocError>
    requires some { 0 < length s.old.starts.items }
    requires pairs { length s.old.starts.items ≡ length s.old.owed.items }
    requires above { last_start s.old ≤ length s.old.held.items }
    requires inside { (p : ℕ) → p < length s.old.held.items → get_or s.old.held.items p 0 < length s.old.marks.items }
    requires sizes { length s.old.looped.items ≡ length s.old.marks.items }
    ensures { OnOk result (Closed s.old s.new) }
{
    let start = s.starts[s.starts.len() - 1];
    s.starts.pop();
    s.owed.pop();
    let many = start + 1 < s.held.len();
    for p in start..s.held.len() {
        let v = s.held[p];
        finish(s, v, many)?;
    }
    s.held.truncate(start);
    Ok(())
}

// Looks at the last of the todo list, which is owed for the last segment.
fn look(s: &mut Search, first: &[usize], edges: &[usize]) -> Result<(), AllocError>
    requires graph { IsGraph first.now edges.now (length s.old.marks.items) }
    requires found { Found first.now edges.now (length s.old.marks.items) s.old }
    requires more { (0 < length s.old.starts.items) × (get_or s.old.owed.items (length s.old.starts.items - 1) 0 < length s.old.todo.items) }
    ensures { OnOk result (Stepped first.now edges.now (length s.old.marks.items) s.old s.new) }
{
    let a = s.todo.len() - 1;
    let u = s.todo[a];
    s.todo.truncate(a);
    let mark = s.marks[u];
    if mark == 0 {
        return push_segment(s, first, edges, u);
    }
    if mark == 1 {
        return Ok(());
    }
    s.looped[u] = true;
    merge(s, mark - 2);
    Ok(())
}

// Closes the last segment, for which nothing is owed.
fn shut(s: &mut Search, first: &[usize], edges: &[usize]) -> Result<(), AllocError>
    requires found { Found first.now edges.now (length s.old.marks.items) s.old }
    requires some { 0 < length s.old.starts.items }
    requires none { length s.old.todo.items ≤ get_or s.old.owed.items (length s.old.starts.items - 1) 0 }
    ensures { OnOk result (Stepped first.now edges.now (length s.old.marks.items) s.old s.new) }
{
    close(s)
}

// Searches from a new vertex, until nothing is open.
fn search_from(s: &mut Search, first: &[usize], edges: &[usize], u: usize) -> Result<(), AllocError>
    requires graph { IsGraph first.now edges.now (length s.old.marks.items) }
    requires found { Found first.now edges.now (length s.old.marks.items) s.old }
    requires none { length s.old.starts.items ≡ 0 }
    requires new { (u < length s.old.marks.items) × (get_or s.old.marks.items u 0 ≡ 0) }
    ensures found { OnOk result (Found first.now edges.now (length s.old.marks.items) s.new) }
    ensures none { OnOk result (length s.new.starts.items ≡ 0) }
    ensures done { OnOk result (get_or s.new.marks.items u 0 ≡ 1) }
    ensures kept { OnOk result ((v : ℕ) → get_or s.old.marks.items v 0 ≡ 1 → get_or s.new.marks.items v 0 ≡ 1) }
{
    push_segment(s, first, edges, u)?;
    while s.starts.len() > 0 {
        if s.todo.len() > s.owed[s.starts.len() - 1] {
            look(s, first, edges)?;
        } else {
            shut(s, first, edges)?;
        }
    }
    Ok(())
}

// The first vertex on a loop, once all are done.
pub(crate) fn first_looped(s: &Search, first: &[usize], edges: &[usize]) -> Option<usize>
    requires found { Found first.now edges.now (length s.now.marks.items) s.now }
    requires all { (v : ℕ) → v < length s.now.marks.items → get_or s.now.marks.items v 0 ≡ 1 }
    ensures on { IfSome result (λ v. OnLoop (Determines first.now edges.now) v × (v < length s.now.marks.items)) }
    ensures least { IfSome result (λ v. (w : ℕ) → w < v → OnLoop (Determines first.now edges.now) w → ⊥) }
    ensures none { IfNone result ((w : ℕ) → w < length s.now.marks.items → OnLoop (Determines first.now edges.now) w → ⊥) }
{
    for v in 0..s.looped.len() {
        if s.looped[v] {
            return Some(v);
        }
    }
    None
}

// Searches from a vertex, where it is new.
fn visit(s: &mut Search, first: &[usize], edges: &[usize], u: usize) -> Result<(), AllocError>
    requires graph { IsGraph first.now edges.now (length s.old.marks.items) }
    requires found { Found first.now edges.now (length s.old.marks.items) s.old }
    requires none { length s.old.starts.items ≡ 0 }
    requires inside { u < length s.old.marks.items }
    ensures found { OnOk result (Found first.now edges.now (length s.old.marks.items) s.new) }
    ensures none { OnOk result (length s.new.starts.items ≡ 0) }
    ensures done { OnOk result (get_or s.new.marks.items u 0 ≡ 1) }
    ensures kept { OnOk result ((v : ℕ) → get_or s.old.marks.items v 0 ≡ 1 → get_or s.new.marks.items v 0 ≡ 1) }
{
    if s.marks[u] == 0 {
        return search_from(s, first, edges, u);
    }
    Ok(())
}

// Searches from each new vertex: all are done then.
pub(crate) fn search_all(s: &mut Search, first: &[usize], edges: &[usize]) -> Result<(), AllocError>
    requires graph { IsGraph first.now edges.now (length s.old.marks.items) }
    requires found { Found first.now edges.now (length s.old.marks.items) s.old }
    requires none { length s.old.starts.items ≡ 0 }
    ensures found { OnOk result (Found first.now edges.now (length s.old.marks.items) s.new) }
    ensures all { OnOk result ((v : ℕ) → v < length s.old.marks.items → get_or s.new.marks.items v 0 ≡ 1) }
{
    for u in 0..s.marks.len() {
        visit(s, first, edges, u)?;
    }
    Ok(())
}
