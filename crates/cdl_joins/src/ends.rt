// What the ends of connect statements name.
ghost use Rattle.std.specs.Prelude.{◌≡◌, map, option_map};
ghost use Rattle.cdl_kinds.specs.Groups.{group_row};
ghost use Rattle.cdl_scopes.specs.Classes.{declared};
ghost use Rattle.cdl_worth.specs.Units.{group_named as group_in};
ghost use Rattle.cdl_joins.specs.Ends as spec;
ghost use Rattle.cdl_joins.specs.inner.Seen.{connector_seen, member_seen, end_seen};

use cdl_classes::{ClassId, ClassTable};
use cdl_kinds::{Group, Kind, input_groups, output_groups};
use cdl_tree::{Item, Part as Name, Ref, Sub};
use cdl_walk::{Part, Role, items_of, role_of};

/// A connector of a declared block, or the ports of one name of a kind.
#[derive(Clone, Copy)]
pub enum Connector<'t> {
    OfBlock(&'t Item),
    OfKind { kind: Kind, group: Group },
}

/// A component and its subscripts.
#[derive(Clone, Copy)]
pub struct Component<'t> {
    pub item: &'t Item,
    pub subs: &'t [Sub],
}

/// An end of a connect statement: the component that it goes through, where it goes through one; then its connector, and subscripts.
#[derive(Clone, Copy)]
pub struct End<'t> {
    pub component: Option<Component<'t>>,
    pub connector: Connector<'t>,
    pub subs: &'t [Sub],
}

/// An item of a block, and what it is there.
#[derive(Clone, Copy)]
struct Member<'t> {
    item: &'t Item,
    role: Role,
}

/// The name of a connector.
pub fn connector_name<'t>(connector: Connector<'t>) -> &'t [u8]
    ensures { result.now ≡ spec.connector_name (connector_seen connector.entry) }
{
    match connector {
        Connector::OfBlock(item) => item.name.text.bytes(),
        Connector::OfKind { group, .. } => group.name.as_bytes(),
    }
}

// The first item of this name in a block.
fn member_named<'t>(table: &'t ClassTable, class: ClassId, name: &[u8]) -> Option<Member<'t>>
    ensures { option_map member_seen result ≡ spec.member_named (declared table.now) class name.now }
{
    if class.index as usize >= table.len() {
        return None;
    }
    let number = table.item(class, name)?;
    let item = items_of(table, class).get(number as usize)?;
    Some(Member {
        item,
        role: role_of(table, class, number, item),
    })
}

// The ports of this name.
fn group_named(groups: &[Group], name: &[u8]) -> Option<Group>
    ensures { option_map group_row result ≡ group_in name.now (map group_row groups.now) }
{
    for group in groups {
        if group.name.as_bytes() == name {
            return Some(*group);
        }
    }
    None
}

// The ports of this name of a kind.
fn ports_named<'t>(kind: Kind, name: &[u8]) -> Option<Connector<'t>>
    ensures { option_map connector_seen result ≡ spec.ports_named kind name.now }
{
    match group_named(input_groups(kind), name) {
        Some(group) => Some(Connector::OfKind { kind, group }),
        None => match group_named(output_groups(kind), name) {
            Some(group) => Some(Connector::OfKind { kind, group }),
            None => None,
        },
    }
}

// An item as a connector.
fn connector_of<'t>(item: &'t Item, role: Role) -> Option<Connector<'t>>
    ensures { option_map connector_seen result ≡ spec.connector_of item.now role }
{
    match role {
        Role::Connector { .. } => Some(Connector::OfBlock(item)),
        Role::Value | Role::Component(_) | Role::Other => None,
    }
}

// The connector of this name of a declared block or of a kind.
fn connector_named<'t>(table: &'t ClassTable, part: Part, name: &[u8]) -> Option<Connector<'t>>
    ensures { option_map connector_seen result ≡ spec.connector_named (declared table.now) part name.now }
{
    match part {
        Part::Block(class) => match member_named(table, class, name) {
            Some(member) => connector_of(member.item, member.role),
            None => None,
        },
        Part::Kind(kind) => ports_named(kind, name),
    }
}

// An own connector of a block.
fn own_end<'t>(table: &'t ClassTable, class: ClassId, own: &'t Name) -> Option<End<'t>>
    ensures { option_map end_seen result ≡ spec.own_end (declared table.now) class own.now }
{
    match connector_named(table, Part::Block(class), own.name.text.bytes()) {
        Some(connector) => Some(End {
            component: None,
            connector,
            subs: own.subs.items(),
        }),
        None => None,
    }
}

// A connector of a component.
fn end_through<'t>(
    table: &'t ClassTable,
    item: &'t Item,
    role: Role,
    subs: &'t [Sub],
    inner: &'t Name,
) -> Option<End<'t>>
    ensures { option_map end_seen result ≡ spec.end_through (declared table.now) item.now role subs.now inner.now }
{
    let Role::Component(part) = role else {
        return None;
    };
    match connector_named(table, part, inner.name.text.bytes()) {
        Some(connector) => Some(End {
            component: Some(Component { item, subs }),
            connector,
            subs: inner.subs.items(),
        }),
        None => None,
    }
}

/// An own connector of a block, or a component of it and a connector of that. None: it is neither.
pub fn end_of<'t>(table: &'t ClassTable, class: ClassId, end: &'t Ref) -> Option<End<'t>>
    ensures { option_map end_seen result ≡ spec.end_of (declared table.now) class end.now.parts }
{
    match end.parts.items() {
        [own] => own_end(table, class, own),
        [outer, inner] => match member_named(table, class, outer.name.text.bytes()) {
            Some(member) => {
                end_through(table, member.item, member.role, outer.subs.items(), inner)
            }
            None => None,
        },
        _ => None,
    }
}
