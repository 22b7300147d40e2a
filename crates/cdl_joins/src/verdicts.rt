// The verdicts of heads and occurrences.
ghost use Rattle.std.specs.Prelude.{◌≡◌, ◌<◌, ℤ, ◌+ℤ◌, List as ListOf, pos, IfOk, OnOk, Some};
ghost use Rattle.cdl_paths.specs.declared.path.Local.{Local as LocalOf};
ghost use Rattle.cdl_tree.specs.declared.class.Loop.{Loop as LoopOf};
ghost use Rattle.cdl_scopes.specs.Classes.{declared};
ghost use Rattle.cdl_joins.specs.inner.Seen.{end_seen};
ghost use Rattle.cdl_joins.specs.Verdicts as spec;

use crate::ends::{End, end_of};
use crate::integers::integer;
use crate::picks::Site;
use crate::sides::{Owners, Side, all_have, fit, select_owners, select_side, stands};
use cdl_classes::ClassId;
use cdl_params::Elaborator;
use cdl_paths::Local;
use cdl_source::rules::{NO_SUCH_CONNECTOR, SHAPES_DIFFER, WRONG_SUBSCRIPT};
use cdl_source::{List, OutOfMemory};
use cdl_tree::{Connect, Loop};
use std::alloc::Global;

/// What an occurrence of a connect statement brings.
#[derive(Drop)]
pub enum Verdict {
    /// The rule of this number is broken.
    Breaks(u32),
    /// Nothing, as something isn't there.
    Dropped,
    /// These two sides are joined.
    Joins(Side, Side),
}

// C42 of two sides.
fn joined(alloc: Global, left: Side, right: Side) -> Result<Verdict, OutOfMemory>
    ensures { IfOk result (λ v. v ≡ spec.joined (Some left) (Some right)) }
{
    if fit(alloc, &left, &right)? {
        Ok(Verdict::Joins(left, right))
    } else {
        Ok(Verdict::Breaks(SHAPES_DIFFER))
    }
}

// C41 of connectors, and then C42.
fn with_connectors(
    alloc: Global,
    e: &mut Elaborator<'_>,
    site: Site<'_>,
    left: End<'_>,
    right: End<'_>,
    first: Owners,
    second: Owners,
) -> Result<Verdict, OutOfMemory>
    ensures kept { e.new ≡ e.old }
    ensures value { IfOk result (λ v. v ≡ spec.with_connectors e.old site.entry.path.now site.entry.locals.now (end_seen left.entry) (end_seen right.entry) first second) }
{
    let Some(left) = select_side(alloc, e, site, left, first)? else {
        return Ok(Verdict::Breaks(WRONG_SUBSCRIPT));
    };
    match select_side(alloc, e, site, right, second)? {
        Some(right) => joined(alloc, left, right),
        None => Ok(Verdict::Breaks(WRONG_SUBSCRIPT)),
    }
}

// Dropped where a selected component lacks the connector.
fn with_owners(
    alloc: Global,
    e: &mut Elaborator<'_>,
    site: Site<'_>,
    left: End<'_>,
    right: End<'_>,
    first: Owners,
    second: Owners,
) -> Result<Verdict, OutOfMemory>
    ensures kept { e.new ≡ e.old }
    ensures value { IfOk result (λ v. v ≡ spec.with_owners e.old site.entry.path.now site.entry.locals.now (end_seen left.entry) (end_seen right.entry) (Some first) (Some second)) }
{
    if !all_have(e, left.connector, first.paths.items())? {
        return Ok(Verdict::Dropped);
    }
    if !all_have(e, right.connector, second.paths.items())? {
        return Ok(Verdict::Dropped);
    }
    with_connectors(alloc, e, site, left, right, first, second)
}

// C41 of components.
fn with_components(
    alloc: Global,
    e: &mut Elaborator<'_>,
    site: Site<'_>,
    left: End<'_>,
    right: End<'_>,
) -> Result<Verdict, OutOfMemory>
    ensures kept { e.new ≡ e.old }
    ensures value { IfOk result (λ v. v ≡ spec.with_components e.old site.entry.path.now site.entry.locals.now (end_seen left.entry) (end_seen right.entry)) }
{
    let Some(first) = select_owners(alloc, e, site, left.component)? else {
        return Ok(Verdict::Breaks(WRONG_SUBSCRIPT));
    };
    match select_owners(alloc, e, site, right.component)? {
        Some(second) => with_owners(alloc, e, site, left, right, first, second),
        None => Ok(Verdict::Breaks(WRONG_SUBSCRIPT)),
    }
}

// Dropped where an own connector or a component isn't there.
fn with_ends(
    alloc: Global,
    e: &mut Elaborator<'_>,
    site: Site<'_>,
    left: End<'_>,
    right: End<'_>,
) -> Result<Verdict, OutOfMemory>
    ensures kept { e.new ≡ e.old }
    ensures value { IfOk result (λ v. v ≡ spec.with_ends e.old site.entry.path.now site.entry.locals.now (Some (end_seen left.entry)) (Some (end_seen right.entry))) }
{
    if !stands(e, site.path, left)? {
        return Ok(Verdict::Dropped);
    }
    if !stands(e, site.path, right)? {
        return Ok(Verdict::Dropped);
    }
    with_components(alloc, e, site, left, right)
}

/// The verdict of an occurrence in an instance of a declared block: the first that applies of C40; dropped, as an own connector or a
/// component isn't there; C41 of components; dropped, as a selected component lacks the connector; C41 of connectors; C42; the sides
/// that are joined.
pub fn judge(
    alloc: Global,
    e: &mut Elaborator<'_>,
    site: Site<'_>,
    class: ClassId,
    connect: &Connect,
) -> Result<Verdict, OutOfMemory>
    ensures kept { e.new ≡ e.old }
    ensures value { IfOk result (λ v. v ≡ spec.verdict e.old site.entry.path.now class site.entry.locals.now connect.now) }
{
    let table = e.table();
    let Some(left) = end_of(table, class, &connect.left) else {
        return Ok(Verdict::Breaks(NO_SUCH_CONNECTOR));
    };
    match end_of(table, class, &connect.right) {
        Some(right) => with_ends(alloc, e, site, left, right),
        None => Ok(Verdict::Breaks(NO_SUCH_CONNECTOR)),
    }
}

// ---- heads

// Both numbers, where they are known.
fn both(low: Option<i32>, high: Option<i32>) -> Option<(i32, i32)>
    ensures { result ≡ spec.both low high }
{
    match (low, high) {
        (Some(low), Some(high)) => Some((low, high)),
        _ => None,
    }
}

/// The bounds of a loop. None: one of them has a fault, or is no scalar Integer.
pub fn bounds(
    e: &mut Elaborator<'_>,
    site: Site<'_>,
    head: &Loop,
) -> Result<Option<(i32, i32)>, OutOfMemory>
    ensures kept { e.new ≡ e.old }
    ensures value { IfOk result (λ b. b ≡ spec.bounds e.old site.entry.path.now site.entry.locals.now head.now) }
{
    let low = integer(e, site.path, site.locals, &head.low)?;
    let high = integer(e, site.path, site.locals, &head.high)?;
    Ok(both(low, high))
}

/// How many turns a loop takes from one number to another.
pub fn turns(low: i32, high: i32) -> u64
    ensures { result ≡ spec.turns low high }
{
    if low > high {
        return 0;
    }
    (high as i64 + 1 - low as i64).unsigned_abs()
}

/// The value of the index in the turn of this number.
pub fn value_in(low: i32, high: i32, turn: u64) -> i32
    requires { turn < spec.turns low high }
    ensures { result ≡ low +ℤ pos turn }
{
    let _ = high;
    (low as i64 + turn as i64) as i32
}

/// Goes into a turn, where the index of a loop has this value.
pub fn enter(
    alloc: Global,
    locals: &mut List<Local>,
    head: &Loop,
    value: i32,
) -> Result<(), OutOfMemory>
    ensures { OnOk result (locals.new ≡ spec.with_local locals.old head.now value) }
{
    let name = head.index.text.copy(alloc)?;
    locals.push(Local { name, value })
}

/// Comes back out of it.
pub fn leave(locals: &mut List<Local>)
    ensures { (before : ListOf LocalOf) (head : LoopOf) (value : ℤ) → locals.old ≡ spec.with_local before head value → locals.new ≡ before }
{
    locals.pop();
}
