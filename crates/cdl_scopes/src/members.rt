// The names in a class.
ghost use Rattle.std.specs.Prelude.{◌≡◌, ◌++◌, ◌∷◌, [], ◌+◌, ◌≤◌, ◌<◌, List, ℕ, IfOk, OnOk, cond, length, map};
ghost use Rattle.std.specs.Str.{bytes_eq};
ghost use Rattle.cdl_scopes.specs.Lookup.{first_named, item_name, member_names};
ghost use Rattle.cdl_scopes.specs.Entries.{entry};

use cdl_tree::{ClassTree, Ident, Item};
use std::alloc::{AllocError, Global};
use std::collections::BTreeMap;

/// Gives the name this number, unless it has one.
pub fn index_name(
    alloc: Global,
    first: &mut BTreeMap<Vec<u8>, usize>,
    name: &[u8],
    number: usize,
) -> Result<(), AllocError>
    ensures { OnOk result ((names : List (List ℕ)) → number ≡ length names → ((x : List ℕ) → entry first.old x ≡ first_named x names)
        → (x : List ℕ) → entry first.new x ≡ first_named x (names ++ name.now ∷ [])) }
{
    if first.contains_key(name) {
        return Ok(());
    }
    let key = Vec::from_slice(alloc, name)?;
    first.insert(key, number)?;
    Ok(())
}

/// The names of the items of a block or the constants of a package, or the literals of an enumeration, each with the number of
/// its first.
pub fn members(alloc: Global, tree: &ClassTree) -> Result<BTreeMap<Vec<u8>, usize>, AllocError>
    ensures { IfOk result (λ m. (x : List ℕ) → entry m x ≡ first_named x (member_names tree.now)) }
{
    let mut first = BTreeMap::new(alloc);
    let items = tree.items();
    let literals = tree.literals();
    for (i, item) in items.iter().enumerate() {
        index_name(alloc, &mut first, item.name.text.bytes(), i)?;
    }
    for (i, literal) in literals.iter().enumerate() {
        index_name(alloc, &mut first, literal.text.bytes(), items.len() + i)?;
    }
    Ok(first)
}
