// Names that are not free, C11.
ghost use Rattle.std.specs.Prelude.{◌≡◌, ◌<◌, List, Some, None, length, map, slice_get};
ghost use Rattle.cdl_scopes.specs.Classes.{Declared, Full, declared, full};
ghost use Rattle.cdl_scopes.specs.Table.{scope_name};
ghost use Rattle.cdl_classes.specs.Places.{least};
ghost use Rattle.cdl_classes.specs.Rules as spec;

use crate::places::sooner;
use cdl_scopes::{ClassSort, DeclaredClasses, Scope, scalar_named, sort_of};
use cdl_source::Place;
use cdl_tree::{Ident, Item};

// The place of an identifier.
pub fn place_of(file: u32, ident: &Ident) -> Place
    ensures { result ≡ spec.place file ident.now }
{
    Place {
        file,
        byte: ident.span.start,
    }
}

// The first place so far, and this one where something is broken there.
fn with_broken(first: Option<Place>, broken: bool, place: Place) -> Option<Place>
    ensures { result ≡ least first (spec.if_broken broken place) }
{
    if broken { sooner(first, place) } else { first }
}

// Whether the full name of this identifier in this scope may not be that of a package, or of something else.
fn is_taken(classes: &DeclaredClasses, is_package: bool, scope: Scope, part: &[u8]) -> bool
    ensures { (q : Full) → scope_name (declared classes.now) scope ≡ Some q → result ≡ spec.is_taken (declared classes.now) is_package q part.now }
{
    if classes.is_in_library(scope, part) {
        return true;
    }
    if is_package {
        return scalar_named(part).is_some();
    }
    if classes.is_needed(scope, part) {
        return true;
    }
    scalar_named(part).is_some()
}

// The first place so far, and those of the constants of a package whose full names may not be.
fn with_constants(
    classes: &DeclaredClasses,
    class: u32,
    file: u32,
    items: &[Item],
    first: Option<Place>,
) -> Option<Place>
    ensures { (d : Declared) → slice_get (declared classes.now) class ≡ Some d → result ≡ least first (spec.taken_constants (declared classes.now) file (full d) items.now) }
{
    let mut first = first;
    for item in items {
        first = with_broken(
            first,
            is_taken(classes, false, Scope::Of(class), item.name.text.bytes()),
            place_of(file, &item.name),
        );
    }
    first
}

// The first place so far, and those of the items that are named as a type.
fn with_items(file: u32, items: &[Item], first: Option<Place>) -> Option<Place>
    ensures { result ≡ least first (spec.type_names file (map spec.name_ident items.now)) }
{
    let mut first = first;
    for item in items {
        first = with_broken(
            first,
            scalar_named(item.name.text.bytes()).is_some(),
            place_of(file, &item.name),
        );
    }
    first
}

// The first place so far, and those of the literals that are named as a type.
fn with_literals(file: u32, literals: &[Ident], first: Option<Place>) -> Option<Place>
    ensures { result ≡ least first (spec.type_names file literals.now) }
{
    let mut first = first;
    for literal in literals {
        first = with_broken(
            first,
            scalar_named(literal.text.bytes()).is_some(),
            place_of(file, literal),
        );
    }
    first
}

// The first place so far, and those in a class.
fn with_class(classes: &DeclaredClasses, class: u32, first: Option<Place>) -> Option<Place>
    requires { class < length (declared classes.now) }
    ensures { (d : Declared) → slice_get (declared classes.now) class ≡ Some d → result ≡ least first (spec.taken_in (declared classes.now) d) }
{
    let tree = classes.tree(class);
    let file = classes.file(class);
    let name = tree.name();
    let place = place_of(file, name);
    let scope = Scope::Around(class);
    match sort_of(tree) {
        ClassSort::Package => {
            let first = with_broken(
                first,
                is_taken(classes, true, scope, name.text.bytes()),
                place,
            );
            with_constants(classes, class, file, tree.items(), first)
        }
        ClassSort::Block => {
            let first = with_broken(
                first,
                is_taken(classes, false, scope, name.text.bytes()),
                place,
            );
            with_items(file, tree.items(), first)
        }
        ClassSort::Enumeration => {
            let first = with_broken(
                first,
                is_taken(classes, false, scope, name.text.bytes()),
                place,
            );
            with_literals(file, tree.literals(), first)
        }
    }
}

// The first place of a name that is not free.
pub fn first_taken(classes: &DeclaredClasses) -> Option<Place>
    ensures { result ≡ least None (spec.broken_11 (declared classes.now)) }
{
    let mut first = None;
    for class in 0..classes.len() as u32 {
        first = with_class(classes, class, first);
    }
    first
}
