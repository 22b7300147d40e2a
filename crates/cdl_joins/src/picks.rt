// Which places subscripts select.
ghost use Rattle.std.specs.Prelude.{◌≡◌, ◌++◌, ◌∷◌, IfOk, OnOk, map};
ghost use Rattle.std.specs.List.{flat_map, range_with_len};
ghost use Rattle.cdl_joins.specs.Integers.{integer as integer_of};
ghost use Rattle.cdl_joins.specs.Picks as spec;

use crate::integers::integer;
use cdl_params::Elaborator;
use cdl_paths::{Local, Step};
use cdl_source::{List, OutOfMemory};
use cdl_tree::Sub;
use std::alloc::Global;

/// Places of a dimension, from a first to a last; none where the last is before the first. A single index drops its dimension, which
/// else stays.
#[derive(Clone, Copy, Debug, Drop)]
pub struct Pick {
    pub first: u32,
    pub last: u32,
    pub stays: bool,
}

/// Where expressions stand: the path of an instance, and what the indices of loops are worth.
#[derive(Clone, Copy)]
pub struct Site<'s> {
    pub path: &'s [Step],
    pub locals: &'s [Local],
}

// All places of a dimension.
fn whole(size: u32) -> Pick
    ensures { result ≡ spec.whole size }
{
    Pick {
        first: 1,
        last: size,
        stays: true,
    }
}

// The place of this number.
fn one(size: u32, index: i32) -> Option<Pick>
    ensures { result ≡ spec.one size index }
{
    if 1 <= index && index as i64 <= size as i64 {
        Some(Pick {
            first: index.unsigned_abs(),
            last: index.unsigned_abs(),
            stays: false,
        })
    } else {
        None
    }
}

// The places from one number to another, or none just before the first.
fn range(size: u32, low: i32, high: i32) -> Option<Pick>
    ensures { result ≡ spec.range size low high }
{
    if 1 <= low && high as i64 <= size as i64 && low as i64 <= high as i64 + 1 {
        Some(Pick {
            first: low.unsigned_abs(),
            last: high.unsigned_abs(),
            stays: true,
        })
    } else {
        None
    }
}

// The same, where both numbers are known.
fn ranged(size: u32, low: Option<i32>, high: Option<i32>) -> Option<Pick>
    ensures { result ≡ spec.ranged size low high }
{
    match (low, high) {
        (Some(low), Some(high)) => range(size, low, high),
        _ => None,
    }
}

// What a subscript selects in a dimension of this size.
fn pick_one(
    e: &mut Elaborator<'_>,
    site: Site<'_>,
    size: u32,
    sub: &Sub,
) -> Result<Option<Pick>, OutOfMemory>
    ensures kept { e.new ≡ e.old }
    ensures value { IfOk result (λ x. x ≡ spec.pick (integer_of e.old site.entry.path.now site.entry.locals.now) size sub.now) }
{
    match sub {
        Sub::All => Ok(Some(whole(size))),
        Sub::One(index) => match integer(e, site.path, site.locals, index)? {
            Some(index) => Ok(one(size, index)),
            None => Ok(None),
        },
        Sub::Range(low, high) => {
            let low = integer(e, site.path, site.locals, low)?;
            let high = integer(e, site.path, site.locals, high)?;
            Ok(ranged(size, low, high))
        }
    }
}

// All places of these dimensions.
fn all(alloc: Global, sizes: &[u32]) -> Result<List<Pick>, OutOfMemory>
    ensures { IfOk result (λ xs. xs ≡ map spec.whole sizes.now) }
{
    let mut picks = List::new(alloc);
    for size in sizes {
        picks.push(whole(*size))?;
    }
    Ok(picks)
}

// A subscript for each dimension.
fn pick_each(
    alloc: Global,
    e: &mut Elaborator<'_>,
    site: Site<'_>,
    sizes: &[u32],
    subs: &[Sub],
) -> Result<Option<List<Pick>>, OutOfMemory>
    ensures kept { e.new ≡ e.old }
    ensures value { IfOk result (λ xs. xs ≡ spec.pick_each (integer_of e.old site.entry.path.now site.entry.locals.now) sizes.now subs.now) }
{
    if sizes.len() != subs.len() {
        return Ok(None);
    }
    let mut picks = List::new(alloc);
    for i in 0..sizes.len() {
        match pick_one(e, site, sizes[i], &subs[i])? {
            Some(pick) => picks.push(pick)?,
            None => return Ok(None),
        }
    }
    Ok(Some(picks))
}

/// What subscripts select in dimensions of these sizes: everything where there are none. None: C41.
pub fn picks(
    alloc: Global,
    e: &mut Elaborator<'_>,
    site: Site<'_>,
    sizes: &[u32],
    subs: &[Sub],
) -> Result<Option<List<Pick>>, OutOfMemory>
    ensures kept { e.new ≡ e.old }
    ensures value { IfOk result (λ xs. xs ≡ spec.picks (integer_of e.old site.entry.path.now site.entry.locals.now) sizes.now subs.now) }
{
    if subs.is_empty() {
        return Ok(Some(all(alloc, sizes)?));
    }
    pick_each(alloc, e, site, sizes, subs)
}

// How many places there are.
fn count(pick: Pick) -> u64
    ensures { result ≡ spec.count pick }
{
    if pick.last < pick.first {
        return 0;
    }
    pick.last as u64 + 1 - pick.first as u64
}

/// The shape of what is selected: the dimensions that stay.
pub fn shape(alloc: Global, picks: &[Pick]) -> Result<List<u64>, OutOfMemory>
    ensures { IfOk result (λ ns. ns ≡ spec.shape picks.now) }
{
    let mut sizes = List::new(alloc);
    for pick in picks {
        if pick.stays {
            sizes.push(count(*pick))?;
        }
    }
    Ok(sizes)
}

// These indices with the first before them.
fn with_first(alloc: Global, first: u32, rest: &[u32]) -> Result<List<u32>, OutOfMemory>
    ensures { IfOk result (λ indices. indices ≡ first ∷ rest.now) }
{
    let mut indices = List::new(alloc);
    indices.push(first)?;
    for index in rest {
        indices.push(*index)?;
    }
    Ok(indices)
}

// Adds these indices, each with the first before it.
fn push_behind(
    alloc: Global,
    all: &mut List<List<u32>>,
    first: u32,
    rows: &[List<u32>],
) -> Result<(), OutOfMemory>
    ensures { OnOk result (all.new ≡ all.old ++ spec.behind rows.now first) }
{
    for i in 0..rows.len() {
        all.push(with_first(alloc, first, rows[i].items())?)?;
    }
    Ok(())
}

// Adds these indices behind each place in turn.
fn push_rows(
    alloc: Global,
    all: &mut List<List<u32>>,
    pick: Pick,
    rows: &[List<u32>],
) -> Result<(), OutOfMemory>
    ensures { OnOk result (all.new ≡ all.old ++ flat_map (spec.behind rows.now) (range_with_len pick.first (spec.count pick))) }
{
    for k in 0..count(pick) {
        push_behind(alloc, all, (pick.first as u64 + k) as u32, rows)?;
    }
    Ok(())
}

/// The indices that are selected, row by row.
pub fn indices(alloc: Global, picks: &[Pick]) -> Result<List<List<u32>>, OutOfMemory>
    ensures { IfOk result (λ rows. rows ≡ spec.indices picks.now) }
{
    let mut all = List::new(alloc);
    let [pick, rest @ ..] = picks else {
        all.push(List::new(alloc))?;
        return Ok(all);
    };
    let rows = indices(alloc, rest)?;
    push_rows(alloc, &mut all, *pick, rows.items())?;
    Ok(all)
}
