// What the items of a block are.
ghost use Rattle.std.specs.Prelude.{◌≡◌};
ghost use Rattle.cdl_scopes.specs.Classes.{declared};
ghost use Rattle.cdl_items.specs.Roles as spec;

use cdl_classes::{ClassId, ClassTable, Found};
use cdl_kinds::Kind;
use cdl_tree::{Item, Prefix};
use cdl_values::ValueType;

/// What a component is of: a declared block, or a kind.
#[derive(Clone, Copy)]
pub enum Part {
    Block(ClassId),
    Kind(Kind),
}

/// What an item of a block is.
#[derive(Clone, Copy)]
pub enum Role {
    /// A parameter or a constant.
    Value,
    /// A connector, with the type of its values and whether it is an input.
    Connector { value_type: ValueType, input: bool },
    Component(Part),
    /// None of these, which no item of a table of classes is.
    Other,
}

// What a class name makes of an item without `parameter` and `constant`.
fn plain_role(class: Option<Found>) -> Role
    ensures { result ≡ spec.plain_role class }
{
    match class {
        Some(Found::Class(class)) => Role::Component(Part::Block(class)),
        Some(Found::Kind(kind)) => Role::Component(Part::Kind(kind)),
        Some(Found::Connector { value_type, input }) => Role::Connector { value_type, input },
        _ => Role::Other,
    }
}

/// The items of a class; a class that isn't declared has none.
pub fn items_of(table: &ClassTable, class: ClassId) -> &[Item]
    ensures { result.now ≡ spec.items_of (declared table.now) class.index }
{
    if class.index as usize >= table.len() {
        return &[];
    }
    table.tree(class).items()
}

// What the class name of an item means.
fn class_of(table: &ClassTable, class: ClassId, number: u32) -> Option<Found>
    ensures { result ≡ spec.class_at (declared table.now) class.index number }
{
    if class.index as usize >= table.len() {
        return None;
    }
    if number as usize >= table.tree(class).items().len() {
        return None;
    }
    Some(table.item_class(class, number))
}

/// What the item of this number is in its block.
pub fn role_of(table: &ClassTable, class: ClassId, number: u32, item: &Item) -> Role
    ensures { result ≡ spec.role_of (declared table.now) class.index number item.now }
{
    match item.prefix {
        Prefix::Parameter | Prefix::Constant => Role::Value,
        Prefix::Plain => plain_role(class_of(table, class, number)),
    }
}
