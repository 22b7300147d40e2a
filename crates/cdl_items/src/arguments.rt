// The arguments of declarations, C22 and C23.
ghost use Rattle.std.specs.Prelude.{◌≡◌, []};
ghost use Rattle.cdl_scopes.specs.Classes.{declared};
ghost use Rattle.cdl_items.specs.Arguments as spec;

use crate::role::{Part, Role, items_of, role_of};
use cdl_classes::ClassTable;
use cdl_kinds::{Group, Kind, Parameter, input_groups, output_groups, parameters};
use cdl_source::rules::{MODIFIED_TWICE, NOTHING_TO_MODIFY};
use cdl_tree::Modifier;

/// What arguments modify: the items of a block, the parameters and ports of a kind, or attributes.
#[derive(Clone, Copy)]
pub enum Target {
    Part(Part),
    Attributes,
}

/// What an argument modifies.
#[derive(Clone, Copy)]
pub enum Modified {
    /// A parameter or a constant.
    Value,
    Connector,
    Component(Part),
    Attribute,
}

// Whether this is one of the attributes.
fn is_attribute(name: &[u8]) -> bool
    ensures { result ≡ spec.is_attribute name.now }
{
    name == b"quantity".as_slice()
        || name == b"unit".as_slice()
        || name == b"displayUnit".as_slice()
        || name == b"min".as_slice()
        || name == b"max".as_slice()
        || name == b"start".as_slice()
        || name == b"fixed".as_slice()
        || name == b"nominal".as_slice()
}

// Whether a parameter has this name.
fn has_parameter(rows: &[Parameter], name: &[u8]) -> bool
    ensures { result ≡ spec.has_parameter rows.now name.now }
{
    rows.iter().any(|row| row.name.as_bytes() == name)
}

// Whether ports have this name.
fn has_group(groups: &[Group], name: &[u8]) -> bool
    ensures { result ≡ spec.has_group groups.now name.now }
{
    groups.iter().any(|group| group.name.as_bytes() == name)
}

// What an argument of this name modifies among the parameters and ports of a kind.
#[tactic(auto, using(crate::proofs::ArgumentLaws::parameter_named, crate::proofs::ArgumentLaws::port_named))]
fn modified_in_kind(kind: Kind, name: &[u8]) -> Option<Modified>
    ensures { result ≡ spec.modified_in_kind kind name.now }
{
    if has_parameter(parameters(kind), name) {
        return Some(Modified::Value);
    }
    if has_group(input_groups(kind), name) || has_group(output_groups(kind), name) {
        return Some(Modified::Connector);
    }
    None
}

// What an argument modifies in an item.
fn modified_item(role: Role) -> Option<Modified>
    ensures { result ≡ spec.modified_item role }
{
    match role {
        Role::Value => Some(Modified::Value),
        Role::Connector { .. } => Some(Modified::Connector),
        Role::Component(part) => Some(Modified::Component(part)),
        Role::Other => None,
    }
}

// What an argument of this name modifies.
fn find_modified(table: &ClassTable, target: Target, name: &[u8]) -> Option<Modified>
    ensures { result ≡ spec.modified (declared table.now) target name.now }
{
    match target {
        Target::Part(Part::Block(class)) => {
            if class.index as usize >= table.len() {
                return None;
            }
            let number = table.item(class, name)?;
            let item = items_of(table, class).get(number as usize)?;
            modified_item(role_of(table, class, number, item))
        }
        Target::Part(Part::Kind(kind)) => modified_in_kind(kind, name),
        Target::Attributes => {
            if is_attribute(name) {
                Some(Modified::Attribute)
            } else {
                None
            }
        }
    }
}

// Whether an argument has a form for what it modifies: with or without a value, and with or without a list of its own.
fn has_form(modified: Modified, has_value: bool, has_list: bool) -> bool
    ensures { result ≡ spec.has_form modified has_value has_list }
{
    match modified {
        Modified::Value => true,
        Modified::Connector | Modified::Component(_) => !has_value,
        Modified::Attribute => has_value && !has_list,
    }
}

// What the list of an argument modifies.
fn inner(modified: Modified) -> Target
    ensures { result ≡ spec.inner modified }
{
    match modified {
        Modified::Component(part) => Target::Part(part),
        Modified::Value | Modified::Connector | Modified::Attribute => Target::Attributes,
    }
}

// Whether one of the arguments has this name.
fn is_named(name: &[u8], args: &[Modifier]) -> bool
    ensures { result ≡ spec.is_named name.now args.now }
{
    args.iter().any(|arg| arg.name.text.bytes() == name)
}

/// The rule that an argument of this target breaks first, itself or in its list; `again` says whether its name stood before it.
#[cycle(arguments)]
#[tactic(auto, using(crate::proofs::ArgumentLaws::argument_is))]
pub fn broken_argument(
    table: &ClassTable,
    target: Target,
    arg: &Modifier,
    again: bool,
) -> Option<u32>
    ensures { result ≡ spec.argument_rule (declared table.now) arg.now target again }
{
    let Some(modified) = find_modified(table, target, arg.name.text.bytes()) else {
        return Some(NOTHING_TO_MODIFY);
    };
    if !has_form(modified, arg.value.is_some(), arg.args.is_some()) {
        return Some(NOTHING_TO_MODIFY);
    }
    if again {
        return Some(MODIFIED_TWICE);
    }
    match &arg.args {
        Some(args) => broken_arguments(table, inner(modified), args.items()),
        None => None,
    }
}

/// The rule that the arguments of a declaration or of an argument break first: C22, C23. The arguments count in the order of the text, one
/// before those in its list.
#[cycle(arguments)]
#[tactic(auto, using(crate::proofs::ArgumentLaws::no_rule))]
pub fn broken_arguments(table: &ClassTable, target: Target, args: &[Modifier]) -> Option<u32>
    ensures { result ≡ spec.arguments_rule (declared table.now) target [] args.now }
{
    for i in 0..args.len() {
        let arg = &args[i];
        let again = is_named(arg.name.text.bytes(), &args[..i]);
        match broken_argument(table, target, arg, again) {
            Some(rule) => return Some(rule),
            None => {}
        }
    }
    None
}
