// Full names, numbered from 0, the top, in the order in which they come up.
ghost use Rattle.std.specs.Prelude.{◌≡◌, ◌++◌, ◌∷◌, ◌<◌, [], List, ℕ, Some, OnOk, IfOk, length, map, slice_get};
ghost use Rattle.cdl_scopes.specs.Classes.{Full, text_of, within_of};
ghost use Rattle.cdl_scopes.specs.inner.Numbered.{Numbers, Names, Grown, WithinAdded, child};

use cdl_tree::{Ident, Name};
use std::alloc::{AllocError, Global};
use std::collections::BTreeMap;

/// The number of the top.
pub const TOP: usize = 0;

/// A full name: the number of the scope around it, and the numbers of the names in it.
#[derive(Drop)]
pub struct Node {
    pub parent: usize,
    pub children: BTreeMap<Vec<u8>, usize>,
}

impl Node {
    /// The number of the name of this identifier in this scope.
    pub fn child(&self, part: &[u8]) -> Option<usize>
        ensures { result ≡ child self.now part.now }
    {
        self.children.get(part).copied()
    }
}

pub fn no_names(alloc: Global) -> Result<Vec<Node>, AllocError>
    ensures { IfOk result (λ nodes. Numbers nodes.items ([] ∷ [])) }
{
    let mut nodes = Vec::new(alloc);
    nodes.push(Node {
        parent: 0,
        children: BTreeMap::new(alloc),
    })?;
    Ok(nodes)
}

// Adds a name that this scope does not have.
fn add_name(
    alloc: Global,
    nodes: &mut Vec<Node>,
    scope: usize,
    part: &[u8],
) -> Result<(), AllocError>
    requires { scope < length nodes.old.items }
    ensures { OnOk result ((paths : List Full) (q : Full) → Numbers nodes.old.items paths → slice_get paths scope ≡ Some q
        → ((m : ℕ) → slice_get paths m ≡ Some (q ++ part.now ∷ []) → ⊥) → Numbers nodes.new.items (paths ++ (q ++ part.now ∷ []) ∷ [])) }
{
    let number = nodes.len();
    let key = Vec::from_slice(alloc, part)?;
    nodes.push(Node {
        parent: scope,
        children: BTreeMap::new(alloc),
    })?;
    let around = &mut nodes[scope];
    around.children.insert(key, number)?;
    Ok(())
}

/// The number of the name of this identifier in this scope, which gets the next number where it has none. Where no scope has this
/// number, nothing is added.
pub fn number_name(
    alloc: Global,
    nodes: &mut Vec<Node>,
    scope: usize,
    part: &[u8],
) -> Result<usize, AllocError>
    ensures { IfOk result (λ n. (whole : List Full) (q : Full) (h : Names nodes.old.items whole) → slice_get h.paths scope ≡ Some q
        → Grown h.paths nodes.new.items (whole ++ (q ++ part.now ∷ []) ∷ []) n (q ++ part.now ∷ [])) }
{
    if scope >= nodes.len() {
        return Ok(scope);
    }
    if let Some(number) = nodes[scope].child(part) {
        return Ok(number);
    }
    let number = nodes.len();
    add_name(alloc, nodes, scope, part)?;
    Ok(number)
}

/// The number of the package behind `within`, the top where there is none.
pub fn number_within(
    alloc: Global,
    nodes: &mut Vec<Node>,
    within: &Option<Name>,
) -> Result<usize, AllocError>
    ensures { IfOk result (λ n. (whole : List Full) (h : Names nodes.old.items whole) → WithinAdded h.paths nodes.new.items whole n (within_of within.now)) }
{
    match within {
        None => Ok(TOP),
        Some(name) => number_parts(alloc, nodes, name.parts.items()),
    }
}

fn number_parts(alloc: Global, nodes: &mut Vec<Node>, parts: &[Ident]) -> Result<usize, AllocError>
    ensures { IfOk result (λ n. (whole : List Full) (h : Names nodes.old.items whole) → WithinAdded h.paths nodes.new.items whole n (map text_of parts.now)) }
{
    let mut scope = TOP;
    for part in parts {
        scope = number_name(alloc, nodes, scope, part.text.bytes())?;
    }
    Ok(scope)
}
