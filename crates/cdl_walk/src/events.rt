// What comes at the stations of instances and connectors.
ghost use Rattle.std.specs.Prelude.{◌≡◌, ◌≤◌, ◌<◌, ◌+◌, OnOk, length};
ghost use Rattle.cdl_stations.specs.Runs.{Takes};
ghost use Rattle.cdl_walk.specs.Events as event;
ghost use Rattle.cdl_walk.specs.Events.{step};
ghost use Rattle.cdl_walk.specs.Faults.{named, seen};
ghost use Rattle.cdl_walk.specs.inner.Numbers.{AreNumbers};
ghost use Rattle.cdl_walk.specs.Places.{here};
ghost use Rattle.cdl_walk.specs.Stations as spec;

use crate::elements::own;
use crate::paths::{broken_at, broken_in, copy_path};
use crate::place::Place;
use crate::walked::{Content, Instance, KindInstance, Point, WalkFault, Walked};
use cdl_classes::ClassId;
use cdl_kinds::{Kind, Params};
use cdl_source::rules::TOO_MANY_OR_TOO_DEEP;
use cdl_source::{List, MOST_ELEMENTS, MOST_INSTANCES, MOST_STEPS};
use std::alloc::Global;

/// No instances and no elements.
pub fn nothing(alloc: Global) -> Walked
    ensures { result ≡ event.nothing }
{
    Walked {
        instances: List::new(alloc),
        elements: List::new(alloc),
    }
}

// Whether the instance here has too many steps or would be one too many.
fn is_too_much(place: &Place<'_>, walked: &Walked) -> bool
    ensures { result ≡ event.is_too_much (here place.now).steps walked.now }
{
    place.path.steps.items().len() > MOST_STEPS
        || walked.instances.items().len() >= MOST_INSTANCES as usize
}

/// That an instance of a kind begins here: C20.
pub fn begins(alloc: Global, place: &Place<'_>, walked: &Walked) -> Result<(), WalkFault>
    ensures few { OnOk result (length place.now.path.steps ≤ MOST_STEPS) }
    ensures room { OnOk result (length walked.now.instances < MOST_INSTANCES) }
    ensures takes { Takes seen step walked.now (spec.begins (here place.now)) result walked.now }
{
    if is_too_much(place, walked) {
        return Err(broken_at(alloc, &place.path, TOO_MANY_OR_TOO_DEEP));
    }
    Ok(())
}

// The number of the instance that the one here is a part of.
#[tactic(auto, using(crate::proofs::Numbering::parent_is))]
fn parent_here(place: &Place<'_>, walked: &Walked) -> Option<u32>
    requires { AreNumbers place.now.numbers.items (length place.now.path.steps) place.now.path.steps walked.now.instances }
    ensures { result ≡ event.parent_of walked.now.instances place.now.path.steps }
{
    place.numbers.last().copied()
}

// The number of the instance here.
#[tactic(auto, using(crate::proofs::Numbering::owner_is))]
fn number_here(place: &Place<'_>, walked: &Walked) -> u32
    requires { AreNumbers place.now.numbers.items (length place.now.path.steps + 1) place.now.path.steps walked.now.instances }
    ensures { result ≡ event.owner_of walked.now.instances place.now.path.steps }
{
    place.numbers.last().copied().unwrap_or(0)
}

// Adds an instance here.
fn add(
    alloc: Global,
    place: &Place<'_>,
    content: Content,
    walked: &mut Walked,
) -> Result<(), WalkFault>
    requires { AreNumbers place.now.numbers.items (length place.now.path.steps) place.now.path.steps walked.old.instances }
    ensures { OnOk result (walked.new ≡ event.with_instance walked.old place.now.path.steps content) }
{
    let path = copy_path(alloc, &place.path)?;
    let parent = parent_here(place, walked);
    walked.instances.push(Instance {
        path,
        parent,
        content,
    })?;
    Ok(())
}

/// That an instance of a declared block comes here: C20.
pub fn opens(
    alloc: Global,
    place: &Place<'_>,
    class: ClassId,
    walked: &mut Walked,
) -> Result<(), WalkFault>
    requires { AreNumbers place.now.numbers.items (length place.now.path.steps) place.now.path.steps walked.old.instances }
    ensures few { OnOk result (length place.now.path.steps ≤ MOST_STEPS) }
    ensures room { OnOk result (length walked.old.instances < MOST_INSTANCES) }
    ensures takes { Takes seen step walked.old (spec.opens (here place.now) class) result walked.new }
{
    if is_too_much(place, walked) {
        return Err(broken_at(alloc, &place.path, TOO_MANY_OR_TOO_DEEP));
    }
    match add(alloc, place, Content::Block(class), walked) {
        Ok(()) => Ok(()),
        Err(_) => Err(WalkFault::OutOfMemory),
    }
}

// Whether these elements would be too many.
fn are_too_many(walked: &Walked, points: &List<Point>) -> bool
    ensures { result ≡ event.are_too_many walked.now points.now }
{
    let room = MOST_ELEMENTS as usize;
    points.items().len() > room || walked.elements.items().len() > room - points.items().len()
}

/// What an instance of a kind is, with its ports: C20.
pub fn stands(
    alloc: Global,
    place: &Place<'_>,
    kind: Kind,
    instance: KindInstance,
    walked: &mut Walked,
) -> Result<(), WalkFault>
    requires numbers { AreNumbers place.now.numbers.items (length place.now.path.steps) place.now.path.steps walked.old.instances }
    requires room { length walked.old.instances < MOST_INSTANCES }
    ensures { Takes seen step walked.old (event.Stands place.now.path.steps kind instance.params instance.points) result walked.new }
{
    if are_too_many(walked, &instance.points) {
        return Err(broken_at(alloc, &place.path, TOO_MANY_OR_TOO_DEEP));
    }
    let number = walked.instances.items().len() as u32;
    let KindInstance { params, points } = instance;
    match add(alloc, place, Content::Elementary { kind, params }, walked) {
        Ok(()) => {}
        Err(_) => return Err(WalkFault::OutOfMemory),
    }
    match own(&mut walked.elements, number, points) {
        Ok(()) => Ok(()),
        Err(_) => Err(WalkFault::OutOfMemory),
    }
}

/// The elements of a connector of this name in the instance here: C20.
pub fn adds(
    alloc: Global,
    place: &Place<'_>,
    name: &[u8],
    points: List<Point>,
    walked: &mut Walked,
) -> Result<(), WalkFault>
    requires { AreNumbers place.now.numbers.items (length place.now.path.steps + 1) place.now.path.steps walked.old.instances }
    ensures takes { Takes seen step walked.old (event.Adds (named place.now.path.steps name.now) place.now.path.steps points) result walked.new }
    ensures instances { OnOk result (walked.new.instances ≡ walked.old.instances) }
{
    if are_too_many(walked, &points) {
        return Err(broken_in(alloc, &place.path, name, TOO_MANY_OR_TOO_DEEP));
    }
    let number = number_here(place, walked);
    match own(&mut walked.elements, number, points) {
        Ok(()) => Ok(()),
        Err(_) => Err(WalkFault::OutOfMemory),
    }
}
