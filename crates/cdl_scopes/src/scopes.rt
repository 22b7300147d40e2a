// What is kept of each scope: whether it lies in the library, and where a name that it lacks is sought next. Scopes that have but one
// name, where neither they nor it are a class, are passed over at once, so a long `within` costs its length once.
ghost use Rattle.std.specs.Prelude.{◌≡◌, ◌<◌, ◌||◌, ℕ, List, false, Some, None, IfOk, IfSome, OnOk, length, nat_eq, slice_get, unwrap_or, if◌then◌else◌};
ghost use Rattle.std.specs.Option.{option_or};
ghost use Rattle.std.specs.Str.{bytes_eq};
ghost use Rattle.cdl_tree.specs.declared.class.FileTree.{FileTree as FileTreeOf};
ghost use Rattle.cdl_scopes.specs.Classes.{Full, declared};
ghost use Rattle.cdl_scopes.specs.Lookup as spec;
ghost use Rattle.cdl_scopes.specs.declared.lookup.Sought.{Sought as SoughtOf};
ghost use Rattle.cdl_scopes.specs.inner.Gathered.{IsGathered};
ghost use Rattle.cdl_scopes.specs.Entries.{entry};
ghost use Rattle.cdl_scopes.specs.inner.Numbered.{child};
ghost use Rattle.cdl_scopes.specs.inner.Outwards.{AreInLibrary, AreOutwards, Passes, next_for};

use crate::gather::Classes;
use crate::lookup::{first_at, node_at};
use crate::names::{Node, TOP};
use cdl_source::OutOfMemory;
use cdl_tree::FileTree;
use std::alloc::Global;
use std::collections::BTreeMap;

/// Where a name is sought that a scope lacks: the scope that has it in the row that is passed over, else the scope behind that row.
#[derive(Drop)]
pub struct Outwards {
    pub row: BTreeMap<Vec<u8>, usize>,
    pub next: usize,
}

impl Outwards {
    /// The scope at which this name is sought next.
    pub fn next_for(&self, part: &[u8]) -> usize
        ensures { result ≡ next_for self.now part.now }
    {
        match self.row.get(part) {
            Some(scope) => *scope,
            None => self.next,
        }
    }
}

// The one name in a scope that has no other, and its number.
fn only_name(node: &Node) -> Option<(&[u8], usize)>
    ensures { IfSome result (λ c. (x : List ℕ) → bytes_eq x c.0.now ≡ false → child node.now x ≡ None) }
{
    if node.children.len() != 1 {
        return None;
    }
    match node.children.first_key_value() {
        Some((name, number)) => Some((name.as_slice(), *number)),
        None => None,
    }
}

// The one name in a scope that has no other, where neither that name nor the scope is a class, and the scope isn't the top.
fn bare_name(all: &Classes, scope: usize) -> Option<&[u8]>
    ensures within { IfSome result (λ name. (0 < scope) × (scope < length all.now.nodes.items)) }
    ensures lacks { IfSome result (λ name. (files : List FileTreeOf) (h : IsGathered files all.now spec.library (declared files)) (q : Full) → slice_get h.names.paths scope ≡ Some q → spec.in_library q ≡ false
        → (sought : SoughtOf) (x : List ℕ) → bytes_eq x name.now ≡ false → spec.has (declared files) sought q x ≡ None) }
{
    if scope == TOP {
        return None;
    }
    let Some(node) = node_at(all, scope) else {
        return None;
    };
    let Some((name, number)) = only_name(node) else {
        return None;
    };
    if first_at(all, scope).is_some() || first_at(all, number).is_some() {
        return None;
    }
    Some(name)
}

// Gives the name this scope, unless it has one.
fn note_scope(
    alloc: Global,
    row: &mut BTreeMap<Vec<u8>, usize>,
    name: &[u8],
    scope: usize,
) -> Result<(), OutOfMemory>
    ensures { OnOk result ((x : List ℕ) → entry row.new x ≡ option_or (entry row.old x) (if bytes_eq x name.now then Some scope else None)) }
{
    if row.contains_key(name) {
        return Ok(());
    }
    let key = Vec::from_slice(alloc, name)?;
    row.insert(key, scope)?;
    Ok(())
}

// Where a name is sought that this scope lacks. From a bare scope it is the scope around it.
fn outwards_of(
    alloc: Global,
    files: &[FileTree],
    all: &Classes,
    scope: usize,
) -> Result<Outwards, OutOfMemory>
    requires gathered { IsGathered files.now all.now spec.library (declared files.now) }
    requires within { scope < length all.now.nodes.items }
    ensures lower { IfOk result (λ o. (x : List ℕ) → 0 < scope → next_for o x < scope) }
    ensures passes { IfOk result (λ o. (h : IsGathered files.now all.now spec.library (declared files.now)) (q : Full) → slice_get h.names.paths scope ≡ Some q → 0 < scope → spec.in_library q ≡ false
        → Passes (declared files.now) h.names.paths q o) }
{
    let mut row = BTreeMap::new(alloc);
    let mut next = all.nodes[scope].parent;
    if bare_name(all, scope).is_some() {
        return Ok(Outwards { row, next });
    }
    while let Some(name) = bare_name(all, next) {
        note_scope(alloc, &mut row, name, next)?;
        next = all.nodes[next].parent;
    }
    Ok(Outwards { row, next })
}

/// Where the names are sought that each scope lacks.
pub fn all_outwards(
    alloc: Global,
    files: &[FileTree],
    all: &Classes,
) -> Result<Vec<Outwards>, OutOfMemory>
    requires { IsGathered files.now all.now spec.library (declared files.now) }
    ensures { IfOk result (λ os. AreOutwards files.now all.now os.items) }
{
    let mut each = Vec::new(alloc);
    for scope in 0..all.nodes.len() {
        each.push(outwards_of(alloc, files, all, scope)?)?;
    }
    Ok(each)
}

/// What is kept of the scope of this number, false where nothing is.
pub fn is_marked(known: &[bool], scope: usize) -> bool
    ensures { result ≡ unwrap_or (slice_get known.now scope) false }
{
    match known.get(scope) {
        Some(flag) => *flag,
        None => false,
    }
}

// Whether the scope of this number is one of the library's packages or lies under one, where that is known of the scope around it.
fn is_in_library(all: &Classes, known: &[bool], scope: usize, parent: usize) -> bool
    ensures { result ≡ (nat_eq scope all.now.cdl || (nat_eq scope all.now.modelica || unwrap_or (slice_get known.now parent) false)) }
{
    scope == all.cdl || (scope == all.modelica || is_marked(known, parent))
}

/// Whether each scope is one of the library's packages or lies under one.
pub fn in_library(
    alloc: Global,
    files: &[FileTree],
    all: &Classes,
) -> Result<Vec<bool>, OutOfMemory>
    requires { IsGathered files.now all.now spec.library (declared files.now) }
    ensures { IfOk result (λ flags. AreInLibrary files.now all.now flags.items) }
{
    let mut known = Vec::new(alloc);
    for (scope, node) in all.nodes.iter().enumerate() {
        let flag = is_in_library(all, known.as_slice(), scope, node.parent);
        known.push(flag)?;
    }
    Ok(known)
}
