// Where the walk stands.
ghost use Rattle.std.specs.Prelude.{◌≡◌, ◌++◌, ◌∷◌, [], ℕ, List, OnOk};
ghost use Rattle.cdl_walk.specs.Places.{Here, here, start, entered, inside};
ghost use Rattle.cdl_tree.specs.declared.class.Item.{Item as ItemOf};
ghost use Rattle.cdl_classes.specs.declared.found.ClassId.{ClassId as ClassOf};

use cdl_classes::ClassId;
use cdl_paths::{Path, Step};
use cdl_source::{List, OutOfMemory};
use cdl_tree::Item;
use std::alloc::Global;

/// Where the walk stands: the path of an instance, the declarations of its steps, and the declared blocks of which the instances from
/// the root to it are, with their numbers.
#[derive(Drop)]
pub struct Place<'a> {
    pub path: Path,
    pub components: Vec<&'a Item>,
    pub classes: Vec<ClassId>,
    pub numbers: Vec<u32>,
}

/// At the root.
pub fn at_root<'a>(alloc: Global) -> Place<'a>
    ensures here { here result ≡ start }
    ensures numbers { result.numbers.items ≡ [] }
{
    Place {
        path: Path {
            steps: List::new(alloc),
        },
        components: Vec::new(alloc),
        classes: Vec::new(alloc),
        numbers: Vec::new(alloc),
    }
}

/// Goes into an element of a component.
pub fn enter<'a>(
    alloc: Global,
    place: &mut Place<'a>,
    item: &'a Item,
    indices: List<u32>,
) -> Result<(), OutOfMemory>
    ensures here { OnOk result (here place.new ≡ entered (here place.old) item.now indices) }
    ensures numbers { place.new.numbers.items ≡ place.old.numbers.items }
{
    let name = item.name.text.copy(alloc)?;
    place.path.steps.push(Step { name, indices })?;
    match place.components.push(item) {
        Ok(()) => Ok(()),
        Err(_) => Err(OutOfMemory),
    }
}

/// Comes back out of it.
pub fn leave(place: &mut Place<'_>)
    ensures here { (h : Here) (item : ItemOf) (indices : List ℕ) → here place.old ≡ entered h item indices → here place.new ≡ h }
    ensures numbers { place.new.numbers.items ≡ place.old.numbers.items }
{
    place.path.steps.pop();
    place.components.pop();
}

/// Goes to the items of an instance of this number, which is one of a declared block.
pub fn enter_class(place: &mut Place<'_>, class: ClassId, number: u32) -> Result<(), OutOfMemory>
    ensures here { OnOk result (here place.new ≡ inside (here place.old) class) }
    ensures numbers { OnOk result (place.new.numbers.items ≡ place.old.numbers.items ++ number ∷ []) }
{
    if place.classes.push(class).is_err() {
        return Err(OutOfMemory);
    }
    match place.numbers.push(number) {
        Ok(()) => Ok(()),
        Err(_) => Err(OutOfMemory),
    }
}

/// Leaves them.
pub fn leave_class(place: &mut Place<'_>)
    ensures here { (h : Here) (class : ClassOf) → here place.old ≡ inside h class → here place.new ≡ h }
    ensures numbers { (ns : List ℕ) (number : ℕ) → place.old.numbers.items ≡ ns ++ number ∷ [] → place.new.numbers.items ≡ ns }
{
    place.classes.pop();
    place.numbers.pop();
}
