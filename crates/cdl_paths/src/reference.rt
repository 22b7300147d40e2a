// What a name refers to in an expression.
ghost use Rattle.std.specs.Prelude.{◌≡◌, option_map, option_and_then, slice_get};
ghost use Rattle.cdl_scopes.specs.Classes.{declared, parts_of};
ghost use Rattle.cdl_paths.specs.Members.{declaration};
ghost use Rattle.cdl_paths.specs.References as spec;

use crate::member::{Member, is_parameter, member_of};
use crate::path::Local;
use cdl_classes::{ClassId, ClassSort, ClassTable, ValueFound};
use cdl_scopes::sort_of;
use cdl_tree::{Item, Name};

/// What a name refers to.
#[derive(Clone, Copy, Debug, PartialEq, Eq)]
pub enum Reference {
    /// A local of this value.
    Local(i32),
    /// The parameter or constant of that name of the class itself.
    Own,
    /// A constant of a declared package, counted from 0.
    Constant { package: ClassId, item: u32 },
    /// A literal of a declared enumeration, counted from 1.
    Literal { class: ClassId, ordinal: u32 },
    /// Nothing that has a value, which is C27.
    Unknown,
}

// What the last local of this name is worth.
fn last_local(locals: &[Local], name: &[u8]) -> Option<i32>
    ensures { result ≡ spec.last_local name.now locals.now }
{
    let mut last = None;
    for local in locals {
        if local.name.bytes() == name {
            last = Some(local.value);
        }
    }
    last
}

// The item of this name beside an expression of the class.
fn own_item<'t>(table: &'t ClassTable, class: ClassId, name: &[u8]) -> Option<Member<'t>>
    ensures { option_map (λ m. declaration m.item.now m.class) result ≡ spec.own_item (declared table.now) class.index name.now }
{
    if class.index as usize >= table.len() {
        return None;
    }
    match sort_of(table.tree(class)) {
        ClassSort::Block => member_of(table, class, name),
        ClassSort::Package | ClassSort::Enumeration => None,
    }
}

// A value name that is looked up from the class.
fn looked_up(table: &ClassTable, class: ClassId, name: &Name) -> Reference
    ensures { result ≡ spec.looked_up (declared table.now) class.index (parts_of name.now) }
{
    if class.index as usize >= table.len() {
        return Reference::Unknown;
    }
    match table.resolve_value(class, name) {
        Some(ValueFound::Constant { package, item }) => Reference::Constant { package, item },
        Some(ValueFound::Literal { class, ordinal }) => Reference::Literal { class, ordinal },
        None => Reference::Unknown,
    }
}

// What the name of an item refers to beside it.
fn own_reference(item: &Item) -> Reference
    ensures { result ≡ spec.own_reference item.now }
{
    if is_parameter(item) {
        Reference::Own
    } else {
        Reference::Unknown
    }
}

// A name of one identifier that is no local.
fn declared_name(table: &ClassTable, class: ClassId, part: &[u8], name: &Name) -> Reference
    ensures { result ≡ spec.own_value (spec.own_item (declared table.now) class.index part.now) (spec.looked_up (declared table.now) class.index (parts_of name.now)) }
{
    match own_item(table, class, part) {
        Some(member) => own_reference(member.item),
        None => looked_up(table, class, name),
    }
}

/// What a name refers to in a class, with these locals. A name of one identifier is the last local of that name, else the item of the
/// class, else a value name that is looked up. A dotted name whose first identifier is a local or an item of the class refers to
/// nothing; any other is looked up.
pub fn refer(table: &ClassTable, class: ClassId, locals: &[Local], name: &Name) -> Reference
    ensures { result ≡ spec.refers (declared table.now) class.index locals.now (parts_of name.now) }
{
    match name.parts.items() {
        [] => Reference::Unknown,
        [part] => match last_local(locals, part.text.bytes()) {
            Some(value) => Reference::Local(value),
            None => declared_name(table, class, part.text.bytes(), name),
        },
        [first, ..] => {
            let part = first.text.bytes();
            if last_local(locals, part).is_some() || own_item(table, class, part).is_some() {
                Reference::Unknown
            } else {
                looked_up(table, class, name)
            }
        }
    }
}
