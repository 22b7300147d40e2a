// What the ends of connect statements select.
ghost use Rattle.std.specs.Prelude.{◌≡◌, ◌++◌, ◌∷◌, [], Ok, IfOk, OnOk, map, option_map};
ghost use Rattle.cdl_kinds.specs.Parameters.{parameters as rows_of};
ghost use Rattle.cdl_kinds.specs.Ports.{nin_or_nout};
ghost use Rattle.cdl_walk.specs.Worth.{dims};
ghost use Rattle.cdl_joins.specs.inner.Seen.{component_seen, connector_seen, end_seen};
ghost use Rattle.cdl_joins.specs.Sides as spec;

use crate::ends::{Component, Connector, End, connector_name};
use crate::paths::{element_path, path_of};
use crate::picks::{Pick, Site, indices, picks, shape};
use cdl_array::EvalFault;
use cdl_kinds::{Kind, parameters};
use cdl_params::Elaborator;
use cdl_paths::{Path, Step};
use cdl_source::{List, OutOfMemory, Text};
use cdl_tree::Item;
use cdl_values::{Array, Value};
use std::alloc::Global;

/// The instances whose connectors an end selects, in order, and the shape in which they stand.
#[derive(Drop)]
pub struct Owners {
    pub shape: List<u64>,
    pub paths: List<Path>,
}

/// What an end selects in the connector of one instance: its shape, and the indices of the elements, row by row.
#[derive(Drop)]
pub struct Piece {
    pub path: Path,
    pub shape: List<u64>,
    pub indices: List<List<u32>>,
}

/// All that an end selects: the shape in which the instances stand, the name of the connector, and a piece for each instance.
#[derive(Drop)]
pub struct Side {
    pub outer: List<u64>,
    pub name: Text,
    pub pieces: List<Piece>,
}

// Whether an item of the instance at a path is there.
fn is_there(e: &mut Elaborator<'_>, path: &[Step], item: &Item) -> Result<bool, OutOfMemory>
    ensures kept { e.new ≡ e.old }
    ensures value { IfOk result (λ there. there ≡ spec.is_there e.old path.now item.now) }
{
    match e.present(path, item) {
        Ok(there) => Ok(there),
        Err(EvalFault::Rule(_)) => Ok(false),
        Err(EvalFault::OutOfMemory) => Err(OutOfMemory),
    }
}

// Whether the instance at a path has the connector.
fn has(e: &mut Elaborator<'_>, path: &[Step], connector: Connector<'_>) -> Result<bool, OutOfMemory>
    ensures kept { e.new ≡ e.old }
    ensures value { IfOk result (λ there. there ≡ spec.has e.old path.now (connector_seen connector.entry)) }
{
    match connector {
        Connector::OfBlock(item) => is_there(e, path, item),
        Connector::OfKind { .. } => Ok(true),
    }
}

/// Whether the component that an end goes through, or its own connector, is there.
pub fn stands(e: &mut Elaborator<'_>, path: &[Step], end: End<'_>) -> Result<bool, OutOfMemory>
    ensures kept { e.new ≡ e.old }
    ensures value { IfOk result (λ there. there ≡ spec.stands e.old path.now (end_seen end.entry)) }
{
    match end.component {
        Some(component) => is_there(e, path, component.item),
        None => has(e, path, end.connector),
    }
}

// The sizes of an item.
fn item_sizes(
    e: &mut Elaborator<'_>,
    path: &[Step],
    item: &Item,
) -> Result<Option<List<u32>>, OutOfMemory>
    ensures kept { e.new ≡ e.old }
    ensures value { IfOk result (λ ns. ns ≡ spec.sizes_in (dims e.old path.now item.now)) }
{
    match e.dims(path, item) {
        Ok(sizes) => Ok(Some(sizes)),
        Err(EvalFault::Rule(_)) => Ok(None),
        Err(EvalFault::OutOfMemory) => Err(OutOfMemory),
    }
}

// The number that a first parameter says.
fn count_in(array: &Array) -> u32
    ensures { result ≡ nin_or_nout (array.now ∷ []) }
{
    match array.items.items() {
        [Value::Integer(integer), ..] => integer.unsigned_abs(),
        _ => 0,
    }
}

// How many ports an array of ports of an instance of a kind has.
fn port_count(e: &mut Elaborator<'_>, path: &[Step], kind: Kind) -> Result<Option<u32>, OutOfMemory>
    ensures kept { e.new ≡ e.old }
    ensures value { IfOk result (λ n. n ≡ spec.count_by e.old path.now (rows_of kind)) }
{
    let [row, ..] = parameters(kind) else {
        return Ok(None);
    };
    match e.value(path, row.name.as_bytes()) {
        Ok(array) => Ok(Some(count_in(&array))),
        Err(EvalFault::Rule(_)) => Ok(None),
        Err(EvalFault::OutOfMemory) => Err(OutOfMemory),
    }
}

// The sizes of ports of one name.
fn port_sizes(
    alloc: Global,
    e: &mut Elaborator<'_>,
    path: &[Step],
    kind: Kind,
    many: bool,
) -> Result<Option<List<u32>>, OutOfMemory>
    ensures kept { e.new ≡ e.old }
    ensures value { IfOk result (λ ns. ns ≡ spec.port_sizes e.old path.now kind many) }
{
    let mut sizes = List::new(alloc);
    if !many {
        return Ok(Some(sizes));
    }
    match port_count(e, path, kind)? {
        Some(count) => {
            sizes.push(count)?;
            Ok(Some(sizes))
        }
        None => Ok(None),
    }
}

// The sizes of a connector of the instance at a path.
fn sizes(
    alloc: Global,
    e: &mut Elaborator<'_>,
    path: &[Step],
    connector: Connector<'_>,
) -> Result<Option<List<u32>>, OutOfMemory>
    ensures kept { e.new ≡ e.old }
    ensures value { IfOk result (λ ns. ns ≡ spec.sizes e.old path.now (connector_seen connector.entry)) }
{
    match connector {
        Connector::OfBlock(item) => item_sizes(e, path, item),
        Connector::OfKind { kind, group } => port_sizes(alloc, e, path, kind, group.many),
    }
}

// The paths of elements of a component.
fn element_paths(
    alloc: Global,
    path: &[Step],
    name: &[u8],
    rows: List<List<u32>>,
) -> Result<List<Path>, OutOfMemory>
    ensures { IfOk result (λ paths. paths ≡ map (spec.element_path path.now name.now) rows) }
{
    let mut paths = List::new(alloc);
    for indices in rows.into_vec() {
        paths.push(element_path(alloc, path, name, indices)?)?;
    }
    Ok(paths)
}

// The elements of a component that are selected.
fn elements_of(
    alloc: Global,
    path: &[Step],
    name: &[u8],
    picks: &[Pick],
) -> Result<Owners, OutOfMemory>
    ensures { IfOk result (λ owners. owners ≡ spec.elements_of path.now name.now picks.now) }
{
    let rows = indices(alloc, picks)?;
    Ok(Owners {
        shape: shape(alloc, picks)?,
        paths: element_paths(alloc, path, name, rows)?,
    })
}

// The instance itself.
fn itself(alloc: Global, path: &[Step]) -> Result<Owners, OutOfMemory>
    ensures { IfOk result (λ owners. owners ≡ spec.itself path.now) }
{
    let mut paths = List::new(alloc);
    paths.push(path_of(alloc, path)?)?;
    Ok(Owners {
        shape: List::new(alloc),
        paths,
    })
}

// The elements of a component that its subscripts select.
fn elements_selected(
    alloc: Global,
    e: &mut Elaborator<'_>,
    site: Site<'_>,
    component: Component<'_>,
) -> Result<Option<Owners>, OutOfMemory>
    ensures kept { e.new ≡ e.old }
    ensures value { IfOk result (λ owners. owners ≡ spec.elements_selected e.old site.entry.path.now site.entry.locals.now (component_seen component.entry)) }
{
    let Some(sizes) = item_sizes(e, site.path, component.item)? else {
        return Ok(None);
    };
    match picks(alloc, e, site, sizes.items(), component.subs)? {
        Some(picks) => {
            let name = component.item.name.text.bytes();
            Ok(Some(elements_of(alloc, site.path, name, picks.items())?))
        }
        None => Ok(None),
    }
}

/// The instances whose connectors an end selects: the instance itself, or the elements of the component that its subscripts select.
/// None: C41.
pub fn select_owners(
    alloc: Global,
    e: &mut Elaborator<'_>,
    site: Site<'_>,
    component: Option<Component<'_>>,
) -> Result<Option<Owners>, OutOfMemory>
    ensures kept { e.new ≡ e.old }
    ensures value { IfOk result (λ owners. owners ≡ spec.owners e.old site.entry.path.now site.entry.locals.now (option_map component_seen component.entry)) }
{
    match component {
        Some(component) => elements_selected(alloc, e, site, component),
        None => Ok(Some(itself(alloc, site.path)?)),
    }
}

/// Whether each of these instances has the connector.
pub fn all_have(
    e: &mut Elaborator<'_>,
    connector: Connector<'_>,
    paths: &[Path],
) -> Result<bool, OutOfMemory>
    ensures kept { e.new ≡ e.old }
    ensures value { IfOk result (λ all. all ≡ spec.all_have e.old (connector_seen connector.entry) paths.now) }
{
    for i in 0..paths.len() {
        if !has(e, paths[i].steps.items(), connector)? {
            return Ok(false);
        }
    }
    Ok(true)
}

// What is selected in the connector of one instance.
fn piece_of(alloc: Global, path: &Path, picks: &[Pick]) -> Result<Piece, OutOfMemory>
    ensures { IfOk result (λ piece. piece ≡ spec.piece_of path.now picks.now) }
{
    Ok(Piece {
        path: path_of(alloc, path.steps.items())?,
        shape: shape(alloc, picks)?,
        indices: indices(alloc, picks)?,
    })
}

// What an end selects in the connector of one instance.
fn select_piece(
    alloc: Global,
    e: &mut Elaborator<'_>,
    site: Site<'_>,
    end: End<'_>,
    path: &Path,
) -> Result<Option<Piece>, OutOfMemory>
    ensures kept { e.new ≡ e.old }
    ensures value { IfOk result (λ piece. piece ≡ spec.piece e.old site.entry.path.now site.entry.locals.now (end_seen end.entry) path.now) }
{
    let Some(sizes) = sizes(alloc, e, path.steps.items(), end.connector)? else {
        return Ok(None);
    };
    match picks(alloc, e, site, sizes.items(), end.subs)? {
        Some(picks) => Ok(Some(piece_of(alloc, path, picks.items())?)),
        None => Ok(None),
    }
}

// What an end selects in the connectors of these instances.
fn select_pieces(
    alloc: Global,
    e: &mut Elaborator<'_>,
    site: Site<'_>,
    end: End<'_>,
    paths: &[Path],
) -> Result<Option<List<Piece>>, OutOfMemory>
    ensures kept { e.new ≡ e.old }
    ensures value { IfOk result (λ pieces. pieces ≡ spec.pieces e.old site.entry.path.now site.entry.locals.now (end_seen end.entry) paths.now) }
{
    let mut pieces = List::new(alloc);
    for i in 0..paths.len() {
        match select_piece(alloc, e, site, end, &paths[i])? {
            Some(piece) => pieces.push(piece)?,
            None => return Ok(None),
        }
    }
    Ok(Some(pieces))
}

/// All that an end selects in the connectors of these instances. None: C41.
pub fn select_side(
    alloc: Global,
    e: &mut Elaborator<'_>,
    site: Site<'_>,
    end: End<'_>,
    owners: Owners,
) -> Result<Option<Side>, OutOfMemory>
    ensures kept { e.new ≡ e.old }
    ensures value { IfOk result (λ side. side ≡ spec.side e.old site.entry.path.now site.entry.locals.now (end_seen end.entry) owners) }
{
    match select_pieces(alloc, e, site, end, owners.paths.items())? {
        Some(pieces) => Ok(Some(Side {
            outer: owners.shape,
            name: Text::from_bytes(alloc, connector_name(end.connector))?,
            pieces,
        })),
        None => Ok(None),
    }
}

// Whether these are the same sizes.
fn same_shape(left: &[u64], right: &[u64]) -> bool
    ensures { result ≡ spec.same_shape left.now right.now }
{
    left == right
}

// Whether all pieces have this shape.
fn have_shape(shape: &[u64], pieces: &[Piece]) -> bool
    ensures { result ≡ spec.have_shape shape.now pieces.now }
{
    pieces
        .iter()
        .all(|piece| same_shape(piece.shape.items(), shape))
}

// The shape of the first piece.
fn inner_shape(pieces: &[Piece]) -> &[u64]
    ensures { result.now ≡ spec.inner_shape pieces.now }
{
    match pieces {
        [piece, ..] => piece.shape.items(),
        [] => &[],
    }
}

// Whether all pieces have the same shape.
fn alike(pieces: &[Piece]) -> bool
    ensures { result ≡ spec.alike pieces.now }
{
    have_shape(inner_shape(pieces), pieces)
}

// Adds sizes.
fn push_sizes(all: &mut List<u64>, sizes: &[u64]) -> Result<(), OutOfMemory>
    ensures { OnOk result (all.new ≡ all.old ++ sizes.now) }
{
    for size in sizes {
        all.push(*size)?;
    }
    Ok(())
}

// The dimensions of the component, and those of the connector behind them.
fn full_shape(alloc: Global, side: &Side) -> Result<List<u64>, OutOfMemory>
    ensures { IfOk result (λ ns. ns ≡ spec.full_shape side.now) }
{
    let mut shape = List::new(alloc);
    push_sizes(&mut shape, side.outer.items())?;
    push_sizes(&mut shape, inner_shape(side.pieces.items()))?;
    Ok(shape)
}

// Whether there are none.
fn is_empty(rows: &[List<u32>]) -> bool
    ensures { result ≡ spec.is_empty rows.now }
{
    rows.is_empty()
}

// Whether none of the pieces has an element.
fn has_none(pieces: &[Piece]) -> bool
    ensures { result ≡ spec.has_none pieces.now }
{
    pieces.iter().all(|piece| is_empty(piece.indices.items()))
}

/// Whether each side selects connectors of one shape, and the two have the same shape or no element at all: C42.
pub fn fit(alloc: Global, left: &Side, right: &Side) -> Result<bool, OutOfMemory>
    ensures { IfOk result (λ fits. fits ≡ spec.fit left.now right.now) }
{
    if !alike(left.pieces.items()) || !alike(right.pieces.items()) {
        return Ok(false);
    }
    let first = full_shape(alloc, left)?;
    let second = full_shape(alloc, right)?;
    if same_shape(first.items(), second.items()) {
        return Ok(true);
    }
    Ok(has_none(left.pieces.items()) && has_none(right.pieces.items()))
}
