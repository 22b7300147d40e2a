// Names that are declared twice, C10.
ghost use Rattle.std.specs.Prelude.{◌≡◌, ◌<◌, ◌++◌, ◌∷◌, [], ℕ, List, Option, Some, None, Vec, IfOk, length, map, slice_get, slice_set, unwrap_or, if◌then◌else◌};
ghost use Rattle.std.specs.List.{list_any, filter};
ghost use Rattle.std.specs.Str.{bytes_eq};
ghost use Rattle.std.specs.declared.alloc.Global.{Global as GlobalOf};
ghost use Rattle.std.specs.BTreeMap.{BTreeMap as BTreeMapOf};
ghost use Rattle.cdl_source.specs.declared.place.Place.{Place as PlaceOf};
ghost use Rattle.cdl_scopes.specs.Classes.{Declared, Full, declared, full};
ghost use Rattle.cdl_scopes.specs.Entries.{entry};
ghost use Rattle.cdl_scopes.specs.Lookup.{first_named, first_of};
ghost use Rattle.cdl_classes.specs.inner.Marks.{Marks, mark_from, and_later};
ghost use Rattle.cdl_classes.specs.Places as places;
ghost use Rattle.cdl_classes.specs.Places.{least};
ghost use Rattle.cdl_classes.specs.Rules as spec;

use crate::free_names::place_of;
use crate::places::{latest, sooner, soonest};
use cdl_scopes::{ClassSort, DeclaredClasses, Scope, index_name, sort_of};
use cdl_source::{OutOfMemory, Place};
use cdl_tree::{Ident, Item};
use std::alloc::Global;
use std::collections::BTreeMap;

// The first place so far of each declared full name: of one that a class has, by the number of the first class that has it; of any
// other constant, by the number of the first class that has its package's name, and its own name.
#[derive(Drop)]
struct FirstPlaces {
    classes: Vec<Option<Place>>,
    constants: Vec<BTreeMap<Vec<u8>, Place>>,
}

// No places, for so many classes.
fn no_places(alloc: Global, count: usize) -> Result<FirstPlaces, OutOfMemory>
    ensures { IfOk result (λ p. (ds : List Declared) → count ≡ length ds → Marks ds p.classes.items p.constants.items []) }
{
    let mut classes = Vec::new(alloc);
    let mut constants = Vec::new(alloc);
    for _ in 0..count {
        classes.push(None)?;
        constants.push(BTreeMap::new(alloc))?;
    }
    Ok(FirstPlaces { classes, constants })
}

// The first of a place that may be known and this one.
fn first_with(known: Option<Place>, place: Place) -> Place
    ensures { Some result ≡ places.sooner known place }
{
    match known {
        Some(known) => soonest(known, place),
        None => place,
    }
}

// The first place so far, and the later one of two places of one name.
fn with_later(first: Option<Place>, known: Option<Place>, place: Place) -> Option<Place>
    ensures { result ≡ and_later first known place }
{
    match known {
        Some(known) => sooner(first, latest(known, place)),
        None => first,
    }
}

// The first place of the name of this class, where one is known.
fn place_at(classes: &[Option<Place>], index: usize) -> Option<Place>
    ensures { result ≡ unwrap_or (slice_get classes.now index) None }
{
    match classes.get(index) {
        Some(known) => *known,
        None => None,
    }
}

// Takes this as the first place of the name of this class.
fn set_place(classes: &mut Vec<Option<Place>>, index: usize, place: Place)
    requires { index < length classes.old.items }
    ensures { classes.new.items ≡ slice_set classes.old.items index (Some place) }
{
    classes[index] = Some(place);
}

// Notes the place of a full name that this class is the first to have, and gives the first place before.
fn note_class(classes: &mut Vec<Option<Place>>, class: u32, place: Place) -> Option<Place>
    ensures { (ds : List Declared) (constants : List (BTreeMapOf (Vec ℕ GlobalOf) PlaceOf)) (ns : List spec.Named) (q : Full) → Marks ds classes.old.items constants ns → first_of q ds ≡ Some class
        → Marks ds classes.new.items constants (ns ++ (record { full = q; at = place }) ∷ []) × (result ≡ mark_from q None ns) }
{
    let index = class as usize;
    if index >= classes.len() {
        return None;
    }
    let known = place_at(classes.as_slice(), index);
    set_place(classes, index, first_with(known, place));
    known
}

// Notes the place of a constant whose full name no class has, and gives the first place before. This class is the first to have the
// name of its package.
fn note_constant(
    alloc: Global,
    constants: &mut Vec<BTreeMap<Vec<u8>, Place>>,
    owner: u32,
    part: &[u8],
    place: Place,
) -> Result<Option<Place>, OutOfMemory>
    ensures { IfOk result (λ known. (ds : List Declared) (classes : List (Option PlaceOf)) (ns : List spec.Named) (q : Full) → Marks ds classes constants.old.items ns
        → first_of q ds ≡ Some owner → first_of (q ++ part.now ∷ []) ds ≡ None
        → Marks ds classes constants.new.items (ns ++ (record { full = q ++ part.now ∷ []; at = place }) ∷ []) × (known ≡ mark_from (q ++ part.now ∷ []) None ns)) }
{
    let index = owner as usize;
    if index >= constants.len() {
        return Ok(None);
    }
    let map = &mut constants[index];
    let known = map.get(part).copied();
    let key = Vec::from_slice(alloc, part)?;
    map.insert(key, first_with(known, place))?;
    Ok(known)
}

// Notes the place of a constant of this package, and gives the first place of its full name before.
fn note_name(
    alloc: Global,
    classes: &DeclaredClasses,
    places: &mut FirstPlaces,
    class: u32,
    owner: u32,
    part: &[u8],
    place: Place,
) -> Result<Option<Place>, OutOfMemory>
    ensures { IfOk result (λ known. (ns : List spec.Named) (d : Declared) → Marks (declared classes.now) places.old.classes.items places.old.constants.items ns
        → slice_get (declared classes.now) class ≡ Some d → first_of (full d) (declared classes.now) ≡ Some owner
        → Marks (declared classes.now) places.new.classes.items places.new.constants.items (ns ++ (record { full = full d ++ part.now ∷ []; at = place }) ∷ [])
        × (known ≡ mark_from (full d ++ part.now ∷ []) None ns)) }
{
    match classes.first_within(Scope::Of(class), part) {
        Some(first) => Ok(note_class(&mut places.classes, first, place)),
        None => note_constant(alloc, &mut places.constants, owner, part, place),
    }
}

// Whether an earlier one of these names is the same: the first place so far, and this one then.
fn again(
    alloc: Global,
    seen: &mut BTreeMap<Vec<u8>, usize>,
    number: usize,
    file: u32,
    ident: &Ident,
    first: Option<Place>,
) -> Result<Option<Place>, OutOfMemory>
    ensures { IfOk result (λ r. (names : List (List ℕ)) → number ≡ length names → ((x : List ℕ) → entry seen.old x ≡ first_named x names)
        → ((x : List ℕ) → entry seen.new x ≡ first_named x (names ++ ident.now.text ∷ []))
        × (r ≡ least first (if list_any (bytes_eq ident.now.text) names then spec.place file ident.now ∷ [] else []))) }
{
    let is_again = seen.contains_key(ident.text.bytes());
    index_name(alloc, seen, ident.text.bytes(), number)?;
    if is_again {
        Ok(sooner(first, place_of(file, ident)))
    } else {
        Ok(first)
    }
}

// The first place so far, and those of items that have the name of an earlier one.
fn again_items(
    alloc: Global,
    file: u32,
    items: &[Item],
    first: Option<Place>,
) -> Result<Option<Place>, OutOfMemory>
    ensures { IfOk result (λ r. r ≡ least first (spec.again_from file [] (map spec.name_ident items.now))) }
{
    let mut seen = BTreeMap::new(alloc);
    let mut first = first;
    for (i, item) in items.iter().enumerate() {
        first = again(alloc, &mut seen, i, file, &item.name, first)?;
    }
    Ok(first)
}

// The same of literals.
fn again_literals(
    alloc: Global,
    file: u32,
    literals: &[Ident],
    first: Option<Place>,
) -> Result<Option<Place>, OutOfMemory>
    ensures { IfOk result (λ r. r ≡ least first (spec.again_from file [] literals.now)) }
{
    let mut seen = BTreeMap::new(alloc);
    let mut first = first;
    for (i, literal) in literals.iter().enumerate() {
        first = again(alloc, &mut seen, i, file, literal, first)?;
    }
    Ok(first)
}

// The first place so far, and those of the constants of a package.
fn mark_constants(
    alloc: Global,
    classes: &DeclaredClasses,
    places: &mut FirstPlaces,
    class: u32,
    owner: u32,
    file: u32,
    items: &[Item],
    first: Option<Place>,
) -> Result<Option<Place>, OutOfMemory>
    ensures { IfOk result (λ r. (ns : List spec.Named) (d : Declared) → Marks (declared classes.now) places.old.classes.items places.old.constants.items ns
        → slice_get (declared classes.now) class ≡ Some d → first_of (full d) (declared classes.now) ≡ Some owner → file ≡ d.file
        → Marks (declared classes.now) places.new.classes.items places.new.constants.items (ns ++ map (spec.constant_named d) items.now) × (r ≡ least first (spec.twice_from ns (map (spec.constant_named d) items.now)))) }
{
    let mut first = first;
    for item in items {
        let place = place_of(file, &item.name);
        let known = note_name(
            alloc,
            classes,
            places,
            class,
            owner,
            item.name.text.bytes(),
            place,
        )?;
        first = with_later(first, known, place);
    }
    Ok(first)
}

// The first place so far, and those of the full names in a class.
fn mark_class(
    alloc: Global,
    classes: &DeclaredClasses,
    places: &mut FirstPlaces,
    class: u32,
    first: Option<Place>,
) -> Result<Option<Place>, OutOfMemory>
    requires { class < length (declared classes.now) }
    ensures { IfOk result (λ r. (ns : List spec.Named) (d : Declared) → Marks (declared classes.now) places.old.classes.items places.old.constants.items ns
        → slice_get (declared classes.now) class ≡ Some d
        → Marks (declared classes.now) places.new.classes.items places.new.constants.items (ns ++ spec.named_in d) × (r ≡ least first (spec.twice_from ns (spec.named_in d)))) }
{
    let tree = classes.tree(class);
    let file = classes.file(class);
    let name = tree.name();
    let Some(owner) = classes.first_within(Scope::Around(class), name.text.bytes()) else {
        return Ok(first);
    };
    let place = place_of(file, name);
    let known = note_class(&mut places.classes, owner, place);
    let first = with_later(first, known, place);
    match sort_of(tree) {
        ClassSort::Package => mark_constants(
            alloc,
            classes,
            places,
            class,
            owner,
            file,
            tree.items(),
            first,
        ),
        ClassSort::Block => Ok(first),
        ClassSort::Enumeration => Ok(first),
    }
}

// The first place so far, and those of the items of a block or the literals of an enumeration.
fn again_class(
    alloc: Global,
    classes: &DeclaredClasses,
    class: u32,
    first: Option<Place>,
) -> Result<Option<Place>, OutOfMemory>
    requires { class < length (declared classes.now) }
    ensures { IfOk result (λ r. (d : Declared) → slice_get (declared classes.now) class ≡ Some d → r ≡ least first (spec.again_in d)) }
{
    let tree = classes.tree(class);
    let file = classes.file(class);
    match sort_of(tree) {
        ClassSort::Block => again_items(alloc, file, tree.items(), first),
        ClassSort::Enumeration => again_literals(alloc, file, tree.literals(), first),
        ClassSort::Package => Ok(first),
    }
}

// The first place of a full name that is declared twice.
fn first_full(alloc: Global, classes: &DeclaredClasses) -> Result<Option<Place>, OutOfMemory>
    ensures { IfOk result (λ r. r ≡ least None (spec.twice_from [] (spec.named_of (declared classes.now)))) }
{
    let mut places = no_places(alloc, classes.len())?;
    let mut first = None;
    for class in 0..classes.len() as u32 {
        first = mark_class(alloc, classes, &mut places, class, first)?;
    }
    Ok(first)
}

// The first place of a name that is declared twice.
pub fn first_twice(alloc: Global, classes: &DeclaredClasses) -> Result<Option<Place>, OutOfMemory>
    ensures { IfOk result (λ r. r ≡ least None (spec.broken_10 (declared classes.now))) }
{
    let mut first = first_full(alloc, classes)?;
    for class in 0..classes.len() as u32 {
        first = again_class(alloc, classes, class, first)?;
    }
    Ok(first)
}
