// What is known of a name in a scope of a declared class.
ghost use Rattle.std.specs.Prelude.{◌≡◌, ◌<◌, ◌++◌, ◌∷◌, [], ℕ, List, true, false, Some, None, IfSome, length, slice_get};
ghost use Rattle.cdl_tree.specs.declared.class.FileTree.{FileTree as FileTreeOf};
ghost use Rattle.cdl_scopes.specs.Classes.{Full, declared};
ghost use Rattle.cdl_scopes.specs.Lookup as spec;
ghost use Rattle.cdl_scopes.specs.inner.Gathered.{IsGathered};
ghost use Rattle.cdl_scopes.specs.inner.Numbered.{IsNumber, child};
ghost use Rattle.cdl_scopes.specs.inner.Outwards.{AreInLibrary};
ghost use Rattle.cdl_scopes.specs.Table.{scope_name};

use crate::full_name::name_in;
use crate::gather::Classes;
use crate::lookup::{class_at, first_at, node_at};
use crate::names::Node;
use crate::scopes::is_marked;

/// A scope of the declared class of this number: the package around it, or the class itself.
#[derive(Clone, Copy, Debug, PartialEq, Eq)]
pub enum Scope {
    Around(u32),
    Of(u32),
}

/// The number of a scope.
pub fn scope_number(all: &Classes, scope: Scope) -> Option<usize>
    ensures { (files : List FileTreeOf) (h : IsGathered files all.now spec.library (declared files)) (q : Full) → scope_name (declared files) scope ≡ Some q
        → IsNumber h.names.paths q result }
{
    match scope {
        Scope::Around(class) => match class_at(all, class as usize) {
            Some(kept) => Some(kept.outer),
            None => None,
        },
        Scope::Of(class) => match class_at(all, class as usize) {
            Some(kept) => Some(kept.name),
            None => None,
        },
    }
}

/// The number of the first declared class of this name in a scope.
pub fn first_in(all: &Classes, scope: usize, part: &[u8]) -> Option<usize>
    ensures within { IfSome result (λ i. (files : List FileTreeOf) → IsGathered files all.now spec.library (declared files) → i < length (declared files)) }
    ensures found { (files : List FileTreeOf) (h : IsGathered files all.now spec.library (declared files)) (q : Full) → slice_get h.names.paths scope ≡ Some q
        → result ≡ spec.first_of (q ++ part.now ∷ []) (declared files) }
{
    match name_in(all, scope, part) {
        Some(name) => first_at(all, name),
        None => None,
    }
}

/// Whether this name in a scope is one of the library's packages or lies under one.
pub fn library_in(all: &Classes, library: &[bool], scope: usize, part: &[u8]) -> bool
    ensures { (files : List FileTreeOf) (h : IsGathered files all.now spec.library (declared files)) (q : Full) → AreInLibrary files all.now library.now → slice_get h.names.paths scope ≡ Some q
        → result ≡ spec.in_library (q ++ part.now ∷ []) }
{
    let Some(node) = node_at(all, scope) else {
        return false;
    };
    match node.child(part) {
        Some(name) => is_marked(library, name),
        None => is_marked(library, scope),
    }
}

// Whether a scope has names in it.
fn has_names(node: &Node) -> bool
    ensures some { result ≡ true → (x : List ℕ) × (m : ℕ) × (child node.now x ≡ Some m) }
    ensures none { result ≡ false → (x : List ℕ) → child node.now x ≡ None }
{
    !node.children.is_empty()
}

// Whether a package must exist at the name of this number.
fn is_needed(all: &Classes, name: usize) -> bool
    ensures { (files : List FileTreeOf) (h : IsGathered files all.now spec.library (declared files)) (q : Full) → slice_get h.names.paths name ≡ Some q
        → result ≡ spec.is_needed (declared files) q }
{
    match node_at(all, name) {
        Some(node) => has_names(node),
        None => false,
    }
}

/// Whether a package must exist at this name in a scope.
pub fn needed_in(all: &Classes, scope: usize, part: &[u8]) -> bool
    ensures { (files : List FileTreeOf) (h : IsGathered files all.now spec.library (declared files)) (q : Full) → slice_get h.names.paths scope ≡ Some q
        → result ≡ spec.is_needed (declared files) (q ++ part.now ∷ []) }
{
    match name_in(all, scope, part) {
        Some(name) => is_needed(all, name),
        None => false,
    }
}
