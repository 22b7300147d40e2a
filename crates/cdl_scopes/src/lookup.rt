// Look-up of names.
ghost use Rattle.std.specs.Prelude.{◌≡◌, ◌++◌, ◌∷◌, ◌<◌, [], ℕ, List, true, false, Option, Some, None, IfSome, IfNone, length, map, option_map, nat_eq, slice_get};
ghost use Rattle.std.specs.Str.{bytes_eq};
ghost use Rattle.indexmap.specs.IndexMap.{get};
ghost use Rattle.cdl_tree.specs.declared.class.ClassTree.{ClassTree as ClassTreeOf};
ghost use Rattle.cdl_tree.specs.declared.class.FileTree.{FileTree as FileTreeOf};
ghost use Rattle.cdl_tree.specs.Parts.{classes_of};
ghost use Rattle.cdl_scopes.specs.Classes.{Full, Declared, declared, same_full, text_of};
ghost use Rattle.cdl_scopes.specs.inner.Gathered.{tree_at};
ghost use Rattle.cdl_scopes.specs.inner.Known.{Known, Finds, Scoped, IsOver, IsOwn, means};
ghost use Rattle.cdl_scopes.specs.Lookup as spec;
ghost use Rattle.cdl_scopes.specs.declared.lookup.Sought.{Sought};
ghost use Rattle.cdl_scopes.specs.Entries.{entry};
ghost use Rattle.cdl_scopes.specs.inner.Outwards.{AreOutwards};
ghost use Rattle.cdl_scopes.specs.declared.lookup.ClassSort.TheVariants as sort;

use crate::gather::{Class, Classes};
use crate::names::{Node, TOP};
use crate::scopes::Outwards;
use cdl_tree::{ClassTree, FileTree, Ident};
use cdl_values::ValueType;

/// What a declared class is.
#[derive(Clone, Copy, Debug, PartialEq, Eq)]
pub enum ClassSort {
    Block,
    Package,
    Enumeration,
}

/// What a name is to mean: a class, or a constant or literal.
#[derive(Clone, Copy, Debug, PartialEq, Eq)]
pub enum Sought {
    Class,
    Value,
}

/// What a name stands for: a declared class, a package that is not declared, by the number of its name, a name below a package of
/// the library, a type, a constant or a literal.
#[derive(Clone, Copy)]
pub enum Standing<'n> {
    Class(usize),
    Package(usize),
    Cdl(&'n [Ident]),
    Modelica(&'n [Ident]),
    Type(ValueType),
    Constant { package: usize, item: usize },
    Literal { class: usize, place: usize },
}

/// What the class is.
#[tactic(auto, unfolding(crate::specs::Lookup::sort_of))]
pub fn sort_of(tree: &ClassTree) -> ClassSort
    ensures { result ≡ spec.sort_of tree.now }
{
    match tree {
        ClassTree::Block { .. } => ClassSort::Block,
        ClassTree::Package { .. } => ClassSort::Package,
        ClassTree::Enumeration { .. } => ClassSort::Enumeration,
    }
}

// The class at this place in a package.
fn class_in(tree: &ClassTree, place: usize) -> &ClassTree
    requires { place < length (classes_of tree.now) }
    ensures { slice_get (classes_of tree.now) place ≡ Some result.now }
{
    &tree.classes()[place]
}

/// The declaration of a class.
pub fn tree_of<'f>(files: &'f [FileTree], class: &Class) -> &'f ClassTree
    requires { (c : ClassTreeOf) × (tree_at files.now class.now.file class.now.top class.now.steps.items ≡ Some c) }
    ensures { tree_at files.now class.now.file class.now.top class.now.steps.items ≡ Some result.now }
{
    let mut tree = &files[class.file as usize].classes.items()[class.top];
    for step in &class.steps {
        tree = class_in(tree, *step);
    }
    tree
}

/// The type of this name.
pub fn scalar_named(name: &[u8]) -> Option<ValueType>
    ensures { result ≡ spec.scalar_named name.now }
{
    if name == b"Real".as_slice() {
        Some(ValueType::Real)
    } else if name == b"Integer".as_slice() {
        Some(ValueType::Integer)
    } else if name == b"Boolean".as_slice() {
        Some(ValueType::Boolean)
    } else if name == b"String".as_slice() {
        Some(ValueType::Str)
    } else {
        None
    }
}

/// The declared class of this number.
pub fn class_at(all: &Classes, number: usize) -> Option<&Class>
    ensures some { IfSome result (λ c. slice_get all.now.list.items number ≡ Some c.now) }
    ensures none { IfNone result (slice_get all.now.list.items number ≡ None) }
{
    all.list.get(number)
}

/// The names in the scope of this number.
pub fn node_at(all: &Classes, scope: usize) -> Option<&Node>
    ensures some { IfSome result (λ n. slice_get all.now.nodes.items scope ≡ Some n.now) }
    ensures none { IfNone result (slice_get all.now.nodes.items scope ≡ None) }
{
    all.nodes.get(scope)
}

/// The number of the first class of the name of this number.
pub fn first_at(all: &Classes, name: usize) -> Option<usize>
    ensures { result ≡ get nat_eq all.now.by_name name }
{
    all.by_name.get(&name).copied()
}

// The class or package of the name of this number.
fn standing_at<'n>(all: &Classes, name: usize) -> Standing<'n>
    ensures over { IsOver result }
    ensures found { (files : List FileTreeOf) (h : Known files all.now) (q : Full) → slice_get h.gathered.names.paths name ≡ Some q
        → Finds h.gathered.names.paths (Some result) (spec.stands (declared files) q) }
{
    match first_at(all, name) {
        Some(class) => Standing::Class(class),
        None => Standing::Package(name),
    }
}

// The class or package of this name in a package, which is none of the library's.
fn inside<'n>(all: &Classes, scope: usize, part: &[u8]) -> Option<Standing<'n>>
    ensures over { IfSome result IsOver }
    ensures found { (files : List FileTreeOf) (h : Known files all.now) (q : Full) → slice_get h.gathered.names.paths scope ≡ Some q
        → same_full q spec.cdl_name ≡ false → same_full q spec.modelica_name ≡ false → Finds h.gathered.names.paths result (spec.inside (declared files) q part.now) }
{
    let Some(node) = node_at(all, scope) else {
        return None;
    };
    match node.child(part) {
        Some(name) => Some(standing_at(all, name)),
        None => None,
    }
}

// The constant of this name in the class of a name, where that is a package: the package and the place of the constant.
fn constant(files: &[FileTree], all: &Classes, scope: usize, part: &[u8]) -> Option<(usize, usize)>
    requires { Known files.now all.now }
    ensures { (h : Known files.now all.now) (q : Full) → slice_get h.gathered.names.paths scope ≡ Some q
        → option_map (λ p. spec.a_constant p.0 p.1) result ≡ spec.constant_at (declared files.now) q part.now }
{
    let Some(number) = first_at(all, scope) else {
        return None;
    };
    let Some(class) = class_at(all, number) else {
        return None;
    };
    match sort_of(tree_of(files, class)) {
        ClassSort::Package => match class.members.get(part) {
            Some(item) => Some((number, *item)),
            None => None,
        },
        ClassSort::Block => None,
        ClassSort::Enumeration => None,
    }
}

// What a package has of this name.
fn member<'n>(
    files: &[FileTree],
    all: &Classes,
    sought: Sought,
    scope: usize,
    part: &[u8],
) -> Option<Standing<'n>>
    requires { Known files.now all.now }
    ensures over { IfSome result IsOver }
    ensures found { (h : Known files.now all.now) (q : Full) → slice_get h.gathered.names.paths scope ≡ Some q → same_full q spec.cdl_name ≡ false → same_full q spec.modelica_name ≡ false
        → Finds h.gathered.names.paths result (spec.member (declared files.now) sought q part.now) }
{
    match sought {
        Sought::Class => inside(all, scope, part),
        Sought::Value => match constant(files, all, scope, part) {
            Some((package, item)) => Some(Standing::Constant { package, item }),
            None => inside(all, scope, part),
        },
    }
}

// What a scope has of this name.
fn has<'n>(
    files: &[FileTree],
    all: &Classes,
    sought: Sought,
    scope: usize,
    part: &[u8],
) -> Option<Standing<'n>>
    requires { Known files.now all.now }
    ensures over { IfSome result IsOver }
    ensures found { (h : Known files.now all.now) (q : Full) → slice_get h.gathered.names.paths scope ≡ Some q → same_full q spec.cdl_name ≡ false → same_full q spec.modelica_name ≡ false
        → Finds h.gathered.names.paths result (spec.has (declared files.now) sought q part.now) }
{
    if scope == TOP {
        if let Some(kind) = scalar_named(part) {
            return Some(Standing::Type(kind));
        }
    }
    member(files, all, sought, scope, part)
}

// The first scope outwards that has the name.
fn seek<'n>(
    files: &[FileTree],
    all: &Classes,
    outwards: &[Outwards],
    sought: Sought,
    outer: usize,
    part: &[u8],
) -> Option<Standing<'n>>
    requires scoped { Scoped files.now all.now outer }
    requires outwards { AreOutwards files.now all.now outwards.now }
    ensures over { IfSome result IsOver }
    ensures found { (h : Known files.now all.now) (q : Full) → slice_get h.gathered.names.paths outer ≡ Some q → spec.in_library q ≡ false
        → Finds h.gathered.names.paths result (spec.seek (declared files.now) sought q (length q) part.now) }
{
    let mut scope = outer;
    while scope != TOP {
        if let Some(found) = has(files, all, sought, scope, part) {
            return Some(found);
        }
        scope = outwards[scope].next_for(part);
    }
    has(files, all, sought, TOP, part)
}

// What is found inside what was found.
fn enters<'n>(
    files: &[FileTree],
    all: &Classes,
    sought: Sought,
    found: Standing<'n>,
    part: &[u8],
) -> Option<Standing<'n>>
    requires { Known files.now all.now }
    ensures over { IfSome result IsOver }
    ensures found { (h : Known files.now all.now) (e : spec.Entity) → means h.gathered.names.paths found.entry ≡ Some e → IsOwn e
        → Finds h.gathered.names.paths result (spec.enters (declared files.now) sought e part.now) }
{
    match found {
        Standing::Package(name) => member(files, all, sought, name, part),
        Standing::Class(number) => class_enters(files, all, sought, number, part),
        Standing::Cdl(_)
        | Standing::Modelica(_)
        | Standing::Type(_)
        | Standing::Constant { .. }
        | Standing::Literal { .. } => None,
    }
}

// What is found inside a class.
fn class_enters<'n>(
    files: &[FileTree],
    all: &Classes,
    sought: Sought,
    number: usize,
    part: &[u8],
) -> Option<Standing<'n>>
    requires { Known files.now all.now }
    ensures over { IfSome result IsOver }
    ensures found { (h : Known files.now all.now) → Finds h.gathered.names.paths result (spec.enters (declared files.now) sought (spec.a_class number) part.now) }
{
    let Some(class) = class_at(all, number) else {
        return None;
    };
    match sort_of(tree_of(files, class)) {
        ClassSort::Package => member(files, all, sought, class.name, part),
        ClassSort::Enumeration => literal(class, sought, number, part),
        ClassSort::Block => None,
    }
}

// The literal of this name in an enumeration.
fn literal<'n>(class: &Class, sought: Sought, number: usize, part: &[u8]) -> Option<Standing<'n>>
    ensures over { IfSome result IsOver }
    ensures found { (paths : List Full) (d : Declared) → entry class.now.members part.now ≡ spec.first_named part.now (spec.member_names d.tree)
        → Finds paths result (spec.class_enters [] sought number d sort.Enumeration part.now) }
{
    match sought {
        Sought::Class => None,
        Sought::Value => match class.members.get(part) {
            Some(place) => Some(Standing::Literal {
                class: number,
                place: *place,
            }),
            None => None,
        },
    }
}

// A name below a package of the library, where that was found.
fn below<'n>(all: &Classes, found: Standing<'n>, rest: &'n [Ident]) -> Option<Standing<'n>>
    requires { 0 < length rest.now }
    ensures some { IfSome result (λ s. (files : List FileTreeOf) (h : Known files all.now) (sought : Sought) (e : spec.Entity) → means h.gathered.names.paths found.entry ≡ Some e
        → Finds h.gathered.names.paths (Some s) (spec.leads (declared files) sought e (map text_of rest.now))) }
    ensures none { IfNone result ((files : List FileTreeOf) (h : Known files all.now) (e : spec.Entity) → IsOver found.entry → means h.gathered.names.paths found.entry ≡ Some e → IsOwn e) }
{
    match found {
        Standing::Package(name) => {
            if name == all.cdl {
                Some(Standing::Cdl(rest))
            } else if name == all.modelica {
                Some(Standing::Modelica(rest))
            } else {
                None
            }
        }
        _ => None,
    }
}

// What the rest of a name leads to.
fn leads<'n>(
    files: &[FileTree],
    all: &Classes,
    sought: Sought,
    first: Standing<'n>,
    rest: &'n [Ident],
) -> Option<Standing<'n>>
    requires known { Known files.now all.now }
    requires over { IsOver first }
    ensures { (h : Known files.now all.now) (e : spec.Entity) → means h.gathered.names.paths first.entry ≡ Some e
        → Finds h.gathered.names.paths result (spec.leads (declared files.now) sought e (map text_of rest.now)) }
{
    let mut found = first;
    for i in 0..rest.len() {
        if let Some(end) = below(all, found, &rest[i..]) {
            return Some(end);
        }
        match enters(files, all, sought, found, rest[i].text.bytes()) {
            Some(next) => found = next,
            None => return None,
        }
    }
    Some(found)
}

/// What a name means in the classes of a package.
pub fn lookup<'n>(
    files: &[FileTree],
    all: &Classes,
    outwards: &[Outwards],
    sought: Sought,
    outer: usize,
    name: &'n [Ident],
) -> Option<Standing<'n>>
    requires scoped { Scoped files.now all.now outer }
    requires outwards { AreOutwards files.now all.now outwards.now }
    ensures { (h : Known files.now all.now) (q : Full) → slice_get h.gathered.names.paths outer ≡ Some q → spec.in_library q ≡ false
        → Finds h.gathered.names.paths result (spec.lookup (declared files.now) sought q (map text_of name.now)) }
{
    let [first, rest @ ..] = name else {
        return None;
    };
    match seek(files, all, outwards, sought, outer, first.text.bytes()) {
        Some(found) => leads(files, all, sought, found, rest),
        None => None,
    }
}

/// What a name means in a class.
pub fn meaning_of<'n>(
    files: &[FileTree],
    all: &Classes,
    outwards: &[Outwards],
    sought: Sought,
    number: usize,
    name: &'n [Ident],
) -> Option<Standing<'n>>
    requires known { Known files.now all.now }
    requires outwards { AreOutwards files.now all.now outwards.now }
    requires declared { number < length (declared files.now) }
    ensures { (h : Known files.now all.now) → Finds h.gathered.names.paths result (spec.meaning (declared files.now) sought number (map text_of name.now)) }
{
    let Some(class) = class_at(all, number) else {
        return None;
    };
    match sort_of(tree_of(files, class)) {
        ClassSort::Package => lookup(files, all, outwards, sought, class.name, name),
        ClassSort::Block => lookup(files, all, outwards, sought, class.outer, name),
        ClassSort::Enumeration => lookup(files, all, outwards, sought, class.outer, name),
    }
}
