// What statements make, and the numbers of what they join.
ghost use Rattle.std.specs.Prelude.{◌≡◌, ◌+◌, ◌++◌, min, nat_le, length, Some, IfOk, OnOk, map, slice_get};
ghost use Rattle.cdl_source.specs.declared.limits.TheConstants.{MOST_TURNS as TURNS, MOST_WIRES as WIRES};
ghost use Rattle.cdl_stations.specs.Runs.{Takes};
ghost use Rattle.cdl_statements.specs.Complete.{AllStand};
ghost use Rattle.cdl_statements.specs.Directory.{AreNumbers, Directory as DirectoryOf};
ghost use Rattle.cdl_statements.specs.Events as event;
ghost use Rattle.cdl_statements.specs.Events.{step, pairs};
ghost use Rattle.cdl_statements.specs.inner.Seen as seen_of;
ghost use Rattle.cdl_statements.specs.inner.Seen.{made, scope_seen, seen};
ghost use Rattle.cdl_statements.specs.Places.{spot};
ghost use Rattle.cdl_joins.specs.Sides as sides;

use crate::directory::Directory;
use crate::fault::Broken;
use cdl_classes::ClassId;
use cdl_connect::RawWire;
use cdl_joins::{Piece, Side};
use cdl_paths::Step;
use cdl_source::rules::{TOO_MANY_TURNS, TOO_MANY_WIRES};
use cdl_source::{List, MOST_TURNS, MOST_WIRES, OutOfMemory};
use std::alloc::Global;

/// An instance of a declared block: its number, its path, its class, and the number of the file of that.
#[derive(Clone, Copy)]
pub struct Scope<'s> {
    pub number: u32,
    pub path: &'s [Step],
    pub class: ClassId,
    pub file: u32,
}

/// How many turns were taken, and the wires, between numbers.
#[derive(Drop)]
pub struct Net {
    pub turns: u32,
    pub wires: List<RawWire>,
}

/// No turns and no wires.
pub fn nothing(alloc: Global) -> Net
    ensures { (d : DirectoryOf) → made d result ≡ event.nothing }
{
    Net {
        turns: 0,
        wires: List::new(alloc),
    }
}

// Whether so many more turns aren't too many.
fn has_room_for(net: &Net, turns: u64) -> bool
    ensures { result ≡ nat_le (net.now.turns + turns) TURNS }
{
    turns <= MOST_TURNS as u64 && net.turns as u64 <= MOST_TURNS as u64 - turns
}

/// Counts the turns of a head: C39.
pub fn add_turns(net: &mut Net, scope: Scope<'_>, byte: u32, turns: u64) -> Result<(), Broken>
    ensures takes { (d : DirectoryOf) → Takes (seen (scope_seen scope.entry)) step (made d net.old) (event.Turns (spot (scope_seen scope.entry) byte) turns) result (made d net.new) }
{
    if !has_room_for(net, turns) {
        return Err(Broken::Rule {
            rule: TOO_MANY_TURNS,
            byte,
        });
    }
    net.turns += turns as u32;
    Ok(())
}

// Adds the numbers of elements of one connector.
fn push_numbers(
    alloc: Global,
    directory: &Directory<'_>,
    numbers: &mut List<u32>,
    path: &[Step],
    name: &[u8],
    rows: &[List<u32>],
) -> Result<(), OutOfMemory>
    requires { AllStand directory.now.names (map (sides.element path.now name.now) rows.now) }
    ensures { OnOk result (map (slice_get directory.now.names) numbers.new ≡ map (slice_get directory.now.names) numbers.old ++ map Some (map (sides.element path.now name.now) rows.now)) }
{
    for i in 0..rows.len() {
        numbers.push(directory.number(alloc, path, name, rows[i].items())?)?;
    }
    Ok(())
}

// The numbers of the elements of pieces.
fn numbers_of(
    alloc: Global,
    directory: &Directory<'_>,
    name: &[u8],
    pieces: &[Piece],
) -> Result<List<u32>, OutOfMemory>
    requires { AllStand directory.now.names (sides.all_elements name.now pieces.now) }
    ensures { IfOk result (λ ns. AreNumbers directory.now.names ns (sides.all_elements name.now pieces.now)) }
{
    let mut numbers = List::new(alloc);
    for i in 0..pieces.len() {
        let piece = &pieces[i];
        let path = piece.path.steps.items();
        push_numbers(
            alloc,
            directory,
            &mut numbers,
            path,
            name,
            piece.indices.items(),
        )?;
    }
    Ok(numbers)
}

// The lesser of two lengths.
fn shorter(left: usize, right: usize) -> usize
    ensures { result ≡ min left right }
{
    if left < right { left } else { right }
}

// The wires between the numbers at the same places.
#[tactic(auto, using(crate::proofs::Wires::raw_next, crate::proofs::Wires::raw_end))]
fn wires_between(
    alloc: Global,
    scope: u32,
    left: &[u32],
    right: &[u32],
) -> Result<List<RawWire>, OutOfMemory>
    ensures { IfOk result (λ wires. wires ≡ seen_of.raw_pairs scope left.now right.now) }
{
    let mut wires = List::new(alloc);
    let count = shorter(left.len(), right.len());
    for i in 0..count {
        wires.push(RawWire {
            scope,
            left: left[i],
            right: right[i],
        })?;
    }
    Ok(wires)
}

// Whether so many more wires aren't too many.
fn has_room(net: &Net, count: usize) -> bool
    ensures { result ≡ nat_le (length net.now.wires + count) WIRES }
{
    count <= MOST_WIRES as usize && net.wires.items().len() <= MOST_WIRES as usize - count
}

// Adds these wires.
fn join(wires: &mut List<RawWire>, more: List<RawWire>) -> Result<(), OutOfMemory>
    ensures { OnOk result (wires.new ≡ wires.old ++ more) }
{
    for wire in more.into_vec() {
        wires.push(wire)?;
    }
    Ok(())
}

/// Adds the wires of an occurrence: C47.
pub fn add_wires(
    alloc: Global,
    directory: &Directory<'_>,
    net: &mut Net,
    scope: Scope<'_>,
    byte: u32,
    left: Side,
    right: Side,
) -> Result<(), Broken>
    requires scope { slice_get directory.now.paths scope.number ≡ Some scope.path.now }
    requires left { AllStand directory.now.names (sides.elements left) }
    requires right { AllStand directory.now.names (sides.elements right) }
    ensures { Takes (seen (scope_seen scope.entry)) step (made directory.now net.old) (event.Wires (spot (scope_seen scope.entry) byte) (pairs scope.entry.path.now (sides.elements left) (sides.elements right))) result (made directory.now net.new) }
{
    let first = numbers_of(alloc, directory, left.name.bytes(), left.pieces.items())?;
    let second = numbers_of(alloc, directory, right.name.bytes(), right.pieces.items())?;
    let wires = wires_between(alloc, scope.number, first.items(), second.items())?;
    if has_room(net, wires.items().len()) {
        join(&mut net.wires, wires)?;
        return Ok(());
    }
    Err(Broken::Rule {
        rule: TOO_MANY_WIRES,
        byte,
    })
}
