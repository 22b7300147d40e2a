// What arguments give.
ghost use Rattle.std.specs.Prelude.{◌≡◌, option_map, IfOk};
ghost use Rattle.cdl_paths.specs.Modifiers as spec;

use crate::path::Step;
use cdl_source::{List, OutOfMemory};
use cdl_tree::{Expr, Modifier};
use std::alloc::Global;

// The first argument of this name.
fn first<'t>(args: &'t [Modifier], name: &[u8]) -> Option<&'t Modifier>
    ensures { option_map (λ m. m.now) result ≡ spec.first name.now args.now }
{
    for arg in args {
        if arg.name.text.bytes() == name {
            return Some(arg);
        }
    }
    None
}

// The arguments of an argument.
fn args_of(arg: &Modifier) -> &[Modifier]
    ensures { result.now ≡ spec.args_of arg.now }
{
    match &arg.args {
        Some(args) => args.items(),
        None => &[],
    }
}

// What arguments give the parameter of this name behind these steps.
pub fn given<'t>(args: &'t [Modifier], steps: &[Step], name: &[u8]) -> Option<&'t Expr>
    ensures { option_map (λ e. e.now) result ≡ spec.given args.now steps.now name.now }
{
    let mut args = args;
    for step in steps {
        match first(args, step.name.bytes()) {
            Some(arg) => args = args_of(arg),
            None => return None,
        }
    }
    match first(args, name) {
        Some(arg) => arg.value.as_ref(),
        None => None,
    }
}

// Whether there is an argument, and it is given with `each`.
fn is_each(arg: Option<&Modifier>) -> bool
    ensures { result ≡ spec.is_each (option_map (λ m. m.now) arg.entry) }
{
    match arg {
        Some(arg) => arg.each,
        None => false,
    }
}

// The arguments of an argument, where there is one.
fn args_in(arg: Option<&Modifier>) -> &[Modifier]
    ensures { result.now ≡ spec.args_in (option_map (λ m. m.now) arg.entry) }
{
    match arg {
        Some(arg) => args_of(arg),
        None => &[],
    }
}

/// For a step with these arguments, and for each of the steps behind it, whether it is left out where a value is handed out: the
/// next name, and at the end this one, was given with `each` in its arguments.
pub fn eaches(
    alloc: Global,
    args: &[Modifier],
    steps: &[Step],
    name: &[u8],
) -> Result<List<bool>, OutOfMemory>
    ensures { IfOk result (λ outs. outs ≡ spec.eaches args.now steps.now name.now) }
{
    let mut outs = List::new(alloc);
    let mut args = args;
    for step in steps {
        let arg = first(args, step.name.bytes());
        outs.push(is_each(arg))?;
        args = args_in(arg);
    }
    outs.push(is_each(first(args, name)))?;
    Ok(outs)
}
