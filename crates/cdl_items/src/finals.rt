// Arguments that modify what is final, C24.
ghost use Rattle.std.specs.Prelude.{◌≡◌, option_map};
ghost use Rattle.cdl_paths.specs.Modifiers.{args_of, first as first_of};
ghost use Rattle.cdl_items.specs.Finals as spec;
ghost use Rattle.cdl_items.specs.Declarations.{items};

use cdl_tree::{Item, Modifier, Prefix};

/// What is modified, by its name in its component.
#[derive(Clone, Copy)]
pub enum Own<'n> {
    /// A parameter or constant.
    Value(&'n [u8]),
    /// The unit of a connector.
    Unit(&'n [u8]),
}

// The first argument of this name.
fn first<'t>(args: &'t [Modifier], name: &[u8]) -> Option<&'t Modifier>
    ensures { option_map (λ m. m.now) result ≡ first_of name.now args.now }
{
    for arg in args {
        if arg.name.text.bytes() == name {
            return Some(arg);
        }
    }
    None
}

// The arguments of an argument.
fn inner_args(arg: &Modifier) -> &[Modifier]
    ensures { result.now ≡ args_of arg.now }
{
    match &arg.args {
        Some(args) => args.items(),
        None => &[],
    }
}

// Whether the first argument of this name has a value.
fn gives_value(args: &[Modifier], name: &[u8]) -> bool
    ensures { result ≡ spec.gives_value args.now name.now }
{
    match first(args, name) {
        Some(arg) => arg.value.is_some(),
        None => false,
    }
}

// Whether the first argument of this name is final.
fn seals_value(args: &[Modifier], name: &[u8]) -> bool
    ensures { result ≡ spec.seals_value args.now name.now }
{
    match first(args, name) {
        Some(arg) => arg.is_final,
        None => false,
    }
}

// Whether the arguments give a value to what stands in the same component.
fn gives_own(args: &[Modifier], own: Own<'_>) -> bool
    ensures { result ≡ spec.gives_own args.now (spec.own_of own.entry) }
{
    match own {
        Own::Value(name) => gives_value(args, name),
        Own::Unit(name) => match first(args, name) {
            Some(arg) => gives_value(inner_args(arg), b"unit".as_slice()),
            None => false,
        },
    }
}

// Whether one of the arguments that lead to it is final.
fn seals_own(args: &[Modifier], own: Own<'_>) -> bool
    ensures { result ≡ spec.seals_own args.now (spec.own_of own.entry) }
{
    match own {
        Own::Value(name) => seals_value(args, name),
        Own::Unit(name) => match first(args, name) {
            Some(arg) => arg.is_final || seals_value(inner_args(arg), b"unit".as_slice()),
            None => false,
        },
    }
}

// Whether the arguments give a value to what stands behind these components.
fn gives(args: &[Modifier], inner: &[&Item], own: Own<'_>) -> bool
    ensures { result ≡ spec.gives args.now (items inner.now) (spec.own_of own.entry) }
{
    match inner {
        [] => gives_own(args, own),
        [next, rest @ ..] => match first(args, next.name.text.bytes()) {
            Some(arg) => gives(inner_args(arg), rest, own),
            None => false,
        },
    }
}

// Whether one of the arguments that lead there is final.
fn seals(args: &[Modifier], inner: &[&Item], own: Own<'_>) -> bool
    ensures { result ≡ spec.seals args.now (items inner.now) (spec.own_of own.entry) }
{
    match inner {
        [] => seals_own(args, own),
        [next, rest @ ..] => match first(args, next.name.text.bytes()) {
            Some(arg) => arg.is_final || seals(inner_args(arg), rest, own),
            None => false,
        },
    }
}

// Whether one of these components is declared final, or has a final argument that leads there.
fn is_sealed(components: &[&Item], own: Own<'_>) -> bool
    ensures { result ≡ spec.is_sealed (items components.now) (spec.own_of own.entry) }
{
    match components {
        [] => false,
        [item, inner @ ..] => {
            item.is_final || seals(item.args.items(), inner, own) || is_sealed(inner, own)
        }
    }
}

/// Whether an argument of one of these components, from the root on, gives a value to what is final nearer to it: C24. `own_final` says
/// whether its own declaration is final.
pub fn modifies_final(components: &[&Item], own: Own<'_>, own_final: bool) -> bool
    ensures { result ≡ spec.modifies_final (items components.now) (spec.own_of own.entry) own_final }
{
    match components {
        [] => false,
        [item, inner @ ..] => {
            (gives(item.args.items(), inner, own) && (own_final || is_sealed(inner, own)))
                || modifies_final(inner, own, own_final)
        }
    }
}

/// Whether a parameter is declared final; a constant always is.
pub fn value_is_final(item: &Item) -> bool
    ensures { result ≡ spec.value_is_final item.now }
{
    let constant = match item.prefix {
        Prefix::Constant => true,
        Prefix::Plain | Prefix::Parameter => false,
    };
    item.is_final || constant
}

/// Whether a connector is declared final, or its own argument `unit` is.
pub fn unit_is_final(item: &Item) -> bool
    ensures { result ≡ spec.unit_is_final item.now }
{
    item.is_final || seals_value(item.args.items(), b"unit".as_slice())
}
