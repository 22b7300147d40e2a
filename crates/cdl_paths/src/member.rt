// The items of classes, and what stands at a path.
ghost use Rattle.std.specs.Prelude.{◌≡◌, option_map};
ghost use Rattle.cdl_scopes.specs.Classes.{declared};
ghost use Rattle.cdl_paths.specs.Members as spec;

use crate::path::Step;
use cdl_classes::{ClassId, ClassTable, Found};
use cdl_tree::{Item, Prefix};

/// An item of a declared class, and what its class name means.
#[derive(Clone, Copy)]
pub struct Member<'t> {
    pub item: &'t Item,
    pub class: Found,
}

/// The first item of this name in a class. None: there is none, or no class of this number.
pub fn member_of<'t>(table: &'t ClassTable, class: ClassId, name: &[u8]) -> Option<Member<'t>>
    ensures { option_map (λ m. spec.declaration m.item.now m.class) result ≡ spec.member (declared table.now) class.index name.now }
{
    if class.index as usize >= table.len() {
        return None;
    }
    let number = table.item(class, name)?;
    let item = table.tree(class).items().get(number as usize)?;
    Some(Member {
        item,
        class: table.item_class(class, number),
    })
}

// The item of this name in what a class name means.
pub fn inside<'t>(table: &'t ClassTable, site: Found, name: &[u8]) -> Option<Member<'t>>
    ensures { option_map (λ m. spec.declaration m.item.now m.class) result ≡ spec.inside (declared table.now) site name.now }
{
    match site {
        Found::Class(class) => member_of(table, class, name),
        _ => None,
    }
}

/// What stands behind these steps from a first one: a declared class or a kind. None: an item has no such name.
pub fn site(table: &ClassTable, first: Found, steps: &[Step]) -> Option<Found>
    ensures { result ≡ spec.site (declared table.now) first steps.now }
{
    let mut site = first;
    for step in steps {
        match inside(table, site, step.name.bytes()) {
            Some(member) => site = member.class,
            None => return None,
        }
    }
    Some(site)
}

/// Whether an item is a parameter or a constant.
pub fn is_parameter(item: &Item) -> bool
    ensures { result ≡ spec.is_parameter item.now }
{
    match item.prefix {
        Prefix::Plain => false,
        Prefix::Parameter | Prefix::Constant => true,
    }
}
