// The walk.
ghost use Rattle.std.specs.Prelude.{◌≡◌, ◌≤◌, ◌<◌, ◌+◌, IfOk, OnOk, length};
ghost use Rattle.cdl_stations.specs.Runs.{Takes, Runs};
ghost use Rattle.cdl_scopes.specs.Classes.{declared};
ghost use Rattle.cdl_values.specs.Values.{items_of as size_of};
ghost use Rattle.cdl_items.specs.declared.role.Role.TheVariants as role;
ghost use Rattle.cdl_walk.specs.declared.walked.Walked.{Walked as WalkedOf};
ghost use Rattle.cdl_walk.specs.Elements.{indices_at as indices_of};
ghost use Rattle.cdl_walk.specs.Events.{step};
ghost use Rattle.cdl_scopes.specs.Lookup.{item_name};
ghost use Rattle.cdl_walk.specs.Faults.{Tells, at, named, seen};
ghost use Rattle.cdl_walk.specs.Instances.{AreAll};
ghost use Rattle.cdl_walk.specs.Judges.{Judges, NoneFails};
ghost use Rattle.cdl_walk.specs.inner.Numbers.{AreNumbers, IsDeeper};
ghost use Rattle.cdl_walk.specs.Places.{here, entered};
ghost use Rattle.cdl_walk.specs.Stations as spec;

use crate::blocks::kind_of;
use crate::elements::{count_of, indices_at};
use crate::events::{adds, begins, nothing, opens, stands};
use crate::paths::fault_in;
use crate::place::{Place, at_root, enter, enter_class, leave, leave_class};
use crate::stations::{component_of, connector_of, value_of};
use crate::walked::{WalkFault, Walked};
use cdl_classes::ClassId;
use cdl_items::{Part, Role, items_of, role_of};
use cdl_kinds::Kind;
use cdl_params::Elaborator;
use cdl_source::{List, MOST_ELEMENTS, MOST_INSTANCES, MOST_STEPS};
use cdl_tree::Item;
use cdl_values::ValueType;
use std::alloc::Global;

// A parameter or constant.
fn pass_value(
    alloc: Global,
    e: &mut Elaborator<'_>,
    place: &Place<'_>,
    item: &Item,
) -> Result<(), WalkFault>
    ensures kept { e.new ≡ e.old }
    ensures takes { (w : WalkedOf) → Takes seen step w (spec.item_event e.old (here place.now) item.now role.Value) result w }
{
    match value_of(e, place, item) {
        Ok(_) => Ok(()),
        Err(fault) => Err(fault_in(alloc, &place.path, item.name.text.bytes(), fault)),
    }
}

// A connector.
fn pass_connector(
    alloc: Global,
    e: &mut Elaborator<'_>,
    place: &Place<'_>,
    item: &Item,
    value_type: ValueType,
    input: bool,
    walked: &mut Walked,
) -> Result<(), WalkFault>
    requires { AreNumbers place.now.numbers.items (length place.now.path.steps + 1) place.now.path.steps walked.old.instances }
    ensures kept { e.new ≡ e.old }
    ensures takes { Takes seen step walked.old (spec.item_event e.old (here place.now) item.now (role.Connector value_type input)) result walked.new }
    ensures instances { OnOk result (walked.new.instances ≡ walked.old.instances) }
{
    let name = item.name.text.bytes();
    match connector_of(alloc, e, place, item, value_type, input) {
        Ok(points) => adds(alloc, place, name, points, walked),
        Err(fault) => Err(fault_in(alloc, &place.path, name, fault)),
    }
}

// The sizes of a component.
fn sizes_of(
    alloc: Global,
    e: &mut Elaborator<'_>,
    place: &Place<'_>,
    item: &Item,
    part: Part,
) -> Result<List<u32>, WalkFault>
    ensures kept { e.new ≡ e.old }
    ensures tells { Tells (at (named (here place.now).steps (item_name item.now)) (spec.component_station e.old (here place.now) item.now part)) result }
    ensures few { IfOk result (λ sizes. length sizes ≤ 2) }
{
    match component_of(alloc, e, place, item, part) {
        Ok(sizes) => Ok(sizes),
        Err(fault) => Err(fault_in(alloc, &place.path, item.name.text.bytes(), fault)),
    }
}

// What an instance of a kind is.
fn settle_kind(
    alloc: Global,
    e: &mut Elaborator<'_>,
    place: &Place<'_>,
    kind: Kind,
    walked: &mut Walked,
) -> Result<(), WalkFault>
    requires numbers { AreNumbers place.now.numbers.items (length place.now.path.steps) place.now.path.steps walked.old.instances }
    requires room { length walked.old.instances < MOST_INSTANCES }
    ensures kept { e.new ≡ e.old }
    ensures takes { Takes seen step walked.old (spec.stands (here place.now) kind (spec.block_station e.old (here place.now) kind)) result walked.new }
{
    match kind_of(alloc, e, place, kind) {
        Ok(instance) => stands(alloc, place, kind, instance, walked),
        Err(fault) => Err(fault),
    }
}

// An instance of a kind.
fn kind_instance(
    alloc: Global,
    e: &mut Elaborator<'_>,
    place: &Place<'_>,
    kind: Kind,
    walked: &mut Walked,
) -> Result<(), WalkFault>
    requires { AreNumbers place.now.numbers.items (length place.now.path.steps) place.now.path.steps walked.old.instances }
    ensures kept { e.new ≡ e.old }
    ensures deeper { OnOk result (IsDeeper (length place.now.path.steps) walked.old.instances walked.new.instances) }
    ensures runs { Runs seen step (spec.InKind e.old (here place.now) kind) walked.old result walked.new }
{
    match begins(alloc, place, walked) {
        Ok(()) => {}
        Err(fault) => return Err(fault),
    }
    settle_kind(alloc, e, place, kind, walked)
}

/// An instance of a declared block.
#[cycle(walk)]
pub fn block<'a>(
    alloc: Global,
    e: &mut Elaborator<'a>,
    place: &mut Place<'a>,
    class: ClassId,
    walked: &mut Walked,
) -> Result<(), WalkFault>
    requires { AreNumbers place.old.numbers.items (length place.old.path.steps) place.old.path.steps walked.old.instances }
    ensures kept { e.new ≡ e.old }
    ensures same { OnOk result (here place.new ≡ here place.old) }
    ensures numbers { OnOk result (place.new.numbers.items ≡ place.old.numbers.items) }
    ensures deeper { OnOk result (IsDeeper (length place.old.path.steps) walked.old.instances walked.new.instances) }
    ensures runs { Runs seen step (spec.InBlock e.old (here place.old) class) walked.old result walked.new }
{
    let number = walked.instances.items().len();
    match opens(alloc, place, class, walked) {
        Ok(()) => {}
        Err(fault) => return Err(fault),
    }
    match enter_class(place, class, number as u32) {
        Ok(()) => {}
        Err(_) => return Err(WalkFault::OutOfMemory),
    }
    let table = e.table();
    let items = items_of(table, class);
    for i in 0..items.len() {
        let Ok(number) = u32::try_from(i) else {
            return Err(WalkFault::OutOfMemory);
        };
        let item = &items[i];
        let role = role_of(table, class, number, item);
        match pass_item(alloc, e, place, item, role, walked) {
            Ok(()) => {}
            Err(fault) => return Err(fault),
        }
    }
    leave_class(place);
    Ok(())
}

/// An item of a declared block.
#[cycle(walk)]
pub fn pass_item<'a>(
    alloc: Global,
    e: &mut Elaborator<'a>,
    place: &mut Place<'a>,
    item: &'a Item,
    role: Role,
    walked: &mut Walked,
) -> Result<(), WalkFault>
    requires few { length place.old.path.steps ≤ MOST_STEPS }
    requires numbers { AreNumbers place.old.numbers.items (length place.old.path.steps + 1) place.old.path.steps walked.old.instances }
    ensures kept { e.new ≡ e.old }
    ensures same { OnOk result (here place.new ≡ here place.old) }
    ensures numbers { OnOk result (place.new.numbers.items ≡ place.old.numbers.items) }
    ensures deeper { OnOk result (IsDeeper (length place.old.path.steps + 1) walked.old.instances walked.new.instances) }
    ensures runs { Runs seen step (spec.InItem e.old (here place.old) item.now role) walked.old result walked.new }
{
    match role {
        Role::Value => pass_value(alloc, e, place, item),
        Role::Connector { value_type, input } => {
            pass_connector(alloc, e, place, item, value_type, input, walked)
        }
        Role::Component(part) => component(alloc, e, place, item, part, walked),
        Role::Other => Ok(()),
    }
}

/// A component of a declared block.
#[cycle(walk)]
pub fn component<'a>(
    alloc: Global,
    e: &mut Elaborator<'a>,
    place: &mut Place<'a>,
    item: &'a Item,
    part: Part,
    walked: &mut Walked,
) -> Result<(), WalkFault>
    requires few { length place.old.path.steps ≤ MOST_STEPS }
    requires numbers { AreNumbers place.old.numbers.items (length place.old.path.steps + 1) place.old.path.steps walked.old.instances }
    ensures kept { e.new ≡ e.old }
    ensures same { OnOk result (here place.new ≡ here place.old) }
    ensures numbers { OnOk result (place.new.numbers.items ≡ place.old.numbers.items) }
    ensures deeper { OnOk result (IsDeeper (length place.old.path.steps + 1) walked.old.instances walked.new.instances) }
    ensures runs { Runs seen step (spec.InItem e.old (here place.old) item.now (role.Component part)) walked.old result walked.new }
{
    let sizes = match sizes_of(alloc, e, place, item, part) {
        Ok(sizes) => sizes,
        Err(fault) => return Err(fault),
    };
    for x in 0..count_of(sizes.items()) {
        match element(alloc, e, place, item, part, sizes.items(), x, walked) {
            Ok(()) => {}
            Err(fault) => return Err(fault),
        }
    }
    Ok(())
}

/// The element of that number of a component.
#[cycle(walk)]
pub fn element<'a>(
    alloc: Global,
    e: &mut Elaborator<'a>,
    place: &mut Place<'a>,
    item: &'a Item,
    part: Part,
    sizes: &[u32],
    x: usize,
    walked: &mut Walked,
) -> Result<(), WalkFault>
    requires few { length place.old.path.steps ≤ MOST_STEPS }
    requires numbers { AreNumbers place.old.numbers.items (length place.old.path.steps + 1) place.old.path.steps walked.old.instances }
    requires sizes { length sizes.now ≤ 2 }
    requires within { x < size_of sizes.now }
    ensures kept { e.new ≡ e.old }
    ensures same { OnOk result (here place.new ≡ here place.old) }
    ensures numbers { OnOk result (place.new.numbers.items ≡ place.old.numbers.items) }
    ensures deeper { OnOk result (IsDeeper (length place.old.path.steps + 1) walked.old.instances walked.new.instances) }
    ensures runs { Runs seen step (spec.InPart e.old (entered (here place.old) item.now (indices_of sizes.now x)) part) walked.old result walked.new }
{
    let indices = match indices_at(alloc, sizes, x) {
        Ok(indices) => indices,
        Err(_) => return Err(WalkFault::OutOfMemory),
    };
    match enter(alloc, place, item, indices) {
        Ok(()) => {}
        Err(_) => return Err(WalkFault::OutOfMemory),
    }
    match instance(alloc, e, place, part, walked) {
        Ok(()) => {}
        Err(fault) => return Err(fault),
    }
    leave(place);
    Ok(())
}

/// An instance of a declared block or of a kind.
#[cycle(walk)]
pub fn instance<'a>(
    alloc: Global,
    e: &mut Elaborator<'a>,
    place: &mut Place<'a>,
    part: Part,
    walked: &mut Walked,
) -> Result<(), WalkFault>
    requires { AreNumbers place.old.numbers.items (length place.old.path.steps) place.old.path.steps walked.old.instances }
    ensures kept { e.new ≡ e.old }
    ensures same { OnOk result (here place.new ≡ here place.old) }
    ensures numbers { OnOk result (place.new.numbers.items ≡ place.old.numbers.items) }
    ensures deeper { OnOk result (IsDeeper (length place.old.path.steps) walked.old.instances walked.new.instances) }
    ensures runs { Runs seen step (spec.InPart e.old (here place.old) part) walked.old result walked.new }
{
    match part {
        Part::Block(class) => block(alloc, e, place, class, walked),
        Part::Kind(kind) => kind_instance(alloc, e, place, kind, walked),
    }
}

/// The instances of the model in preorder, and the elements in the order of the walk; else the first broken rule, at its path. C20 to C32 and
/// C38 are tested here, with conditions, sizes and values as the parameters give them.
pub fn walk(alloc: Global, e: &mut Elaborator<'_>) -> Result<Walked, WalkFault>
    ensures kept { e.new ≡ e.old }
    ensures judges { Judges (spec.InModel e.old) result }
    ensures fine { OnOk result (NoneFails (spec.InModel e.old)) }
    ensures few { IfOk result (λ w. (length w.instances ≤ MOST_INSTANCES) × (length w.elements ≤ MOST_ELEMENTS)) }
    ensures all { IfOk result (AreAll e.old) }
{
    let root = e.root();
    let mut place = at_root(alloc);
    let mut walked = nothing(alloc);
    match block(alloc, e, &mut place, root, &mut walked) {
        Ok(()) => Ok(walked),
        Err(fault) => Err(fault),
    }
}
