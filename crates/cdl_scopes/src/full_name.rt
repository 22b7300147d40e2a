// Full names as a command tells them: identifiers with points between them.
ghost use Rattle.std.specs.Prelude.{◌≡◌, ◌++◌, ◌∷◌, [], ℕ, List, Some, IfSome, IfNone, slice_get};
ghost use Rattle.cdl_tree.specs.declared.class.FileTree.{FileTree as FileTreeOf};
ghost use Rattle.cdl_scopes.specs.Classes.{Full, declared};
ghost use Rattle.cdl_scopes.specs.Lookup.{library};
ghost use Rattle.cdl_scopes.specs.inner.Gathered.{IsGathered};
ghost use Rattle.cdl_scopes.specs.Classes.{cut};

use crate::gather::Classes;
use crate::lookup::node_at;
use crate::names::TOP;

/// The number of the name of this identifier in a scope.
pub fn name_in(all: &Classes, scope: usize, part: &[u8]) -> Option<usize>
    ensures some { IfSome result (λ n. (files : List FileTreeOf) (h : IsGathered files all.now library (declared files)) (q : Full) → slice_get h.names.paths scope ≡ Some q
        → slice_get h.names.paths n ≡ Some (q ++ part.now ∷ [])) }
    ensures none { IfNone result ((files : List FileTreeOf) (h : IsGathered files all.now library (declared files)) (q : Full) → slice_get h.names.paths scope ≡ Some q
        → (m : ℕ) → slice_get h.names.paths m ≡ Some (q ++ part.now ∷ []) → ⊥) }
{
    match node_at(all, scope) {
        Some(node) => node.child(part),
        None => None,
    }
}

/// The number of a full name.
pub fn name_at(all: &Classes, path: &[u8]) -> Option<usize>
    ensures some { IfSome result (λ n. (files : List FileTreeOf) (h : IsGathered files all.now library (declared files)) → slice_get h.names.paths n ≡ Some (cut path.now)) }
    ensures none { IfNone result ((files : List FileTreeOf) (h : IsGathered files all.now library (declared files)) (m : ℕ) → slice_get h.names.paths m ≡ Some (cut path.now) → ⊥) }
{
    let mut scope = TOP;
    let mut start = 0;
    for i in 0..path.len() {
        if path[i] == b'.' {
            match name_in(all, scope, &path[start..i]) {
                Some(name) => scope = name,
                None => return None,
            }
            start = i + 1;
        }
    }
    match name_in(all, scope, &path[start..]) {
        Some(name) => Some(name),
        None => None,
    }
}
