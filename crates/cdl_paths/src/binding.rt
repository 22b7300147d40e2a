// What binds a parameter.
ghost use Rattle.std.specs.Prelude.{◌≡◌, ◌≤◌, length, option_map, IfSome};
ghost use Rattle.cdl_kinds.specs.Parameters.{parameters as parameters_of, parameter_row};
ghost use Rattle.cdl_scopes.specs.Classes.{declared};
ghost use Rattle.cdl_paths.specs.Bindings as spec;

use crate::member::inside;
use crate::modifier::given;
use crate::path::Step;
use cdl_classes::{ClassTable, Found};
use cdl_kinds::{Kind, Parameter, Preset, parameters};
use cdl_tree::{Expr, Modifier};

/// An expression that gives a value. It is evaluated at the path of so many steps, and handed out over the steps from there on, of
/// which the first has these arguments.
#[derive(Clone, Copy)]
pub struct Giver<'t> {
    pub steps: usize,
    pub args: &'t [Modifier],
    pub value: &'t Expr,
}

/// What binds a parameter: an expression, or what its kind presets.
#[derive(Clone, Copy)]
pub enum Binding<'t> {
    Text(Giver<'t>),
    Kind(Preset),
}

/// The parameter of this name of a kind.
pub fn row_named(kind: Kind, name: &[u8]) -> Option<&'static Parameter>
    ensures { option_map (λ r. parameter_row r.now) result ≡ spec.row_named name.now (parameters_of kind) }
{
    for row in parameters(kind) {
        if row.name.as_bytes() == name {
            return Some(row);
        }
    }
    None
}

// What a parameter's own declaration binds it to.
fn own<'t>(table: &'t ClassTable, site: Found, steps: usize, name: &[u8]) -> Option<Binding<'t>>
    ensures { option_map spec.bound result ≡ spec.own (declared table.now) site steps name.now }
{
    match site {
        Found::Class(_) => {
            let value = inside(table, site, name)?.item.value.as_ref()?;
            let args: &[Modifier] = &[];
            Some(Binding::Text(Giver { steps, args, value }))
        }
        Found::Kind(kind) => Some(Binding::Kind(row_named(kind, name)?.preset)),
        _ => None,
    }
}

/// What binds the parameter of this name of the instance behind these steps from a first class: the first step whose arguments give
/// it a value, else its own declaration or the default of its kind. None: nothing does.
pub fn binding_of<'t>(
    table: &'t ClassTable,
    first: Found,
    steps: &[Step],
    name: &[u8],
) -> Option<Binding<'t>>
    ensures { option_map spec.bound result ≡ spec.binding_of (declared table.now) first 0 steps.now name.now }
{
    let mut site = first;
    for (i, step) in steps.iter().enumerate() {
        let member = inside(table, site, step.name.bytes())?;
        let args = member.item.args.items();
        if let Some(value) = given(args, &steps[i + 1..], name) {
            let steps = i;
            return Some(Binding::Text(Giver { steps, args, value }));
        }
        site = member.class;
    }
    own(table, site, steps.len(), name)
}
