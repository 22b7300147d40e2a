// The declared classes, gathered from the trees of the files.
ghost use Rattle.std.specs.Prelude.{◌≡◌, ◌++◌, ◌∷◌, ◌<◌, ◌≤◌, [], List, ℕ, Some, None, IfOk, OnOk, length, slice_get, nat_eq, if◌then◌else◌};
ghost use Rattle.cdl_source.specs.declared.limits.TheConstants.{MOST_MODELS};
ghost use Rattle.std.specs.Option.{option_or};
ghost use Rattle.indexmap.specs.IndexMap.{get};
ghost use Rattle.cdl_tree.specs.declared.class.FileTree.{FileTree as FileTreeOf};
ghost use Rattle.cdl_tree.specs.declared.class.ClassTree.{ClassTree as ClassTreeOf};
ghost use Rattle.cdl_tree.specs.Parts.{classes_of};
ghost use Rattle.cdl_scopes.specs.Classes.{Declared, Full, full, declared, declared_in, declared_all, name_of, within_of};
ghost use Rattle.cdl_scopes.specs.Lookup.{library};
ghost use Rattle.cdl_scopes.specs.inner.Gathered.{After, AfterAt, IsGathered, tree_at};

use crate::members::members;
use crate::names::{Node, TOP, no_names, number_name, number_within};
use cdl_source::OutOfMemory;
use cdl_tree::{ClassTree, FileTree};
use indexmap::IndexMap;
use std::alloc::Global;
use std::collections::BTreeMap;

/// A declared class: its file, the places of its declaration among the classes of the file, then in each package in turn, the
/// numbers of the names of the package around it and of itself, and its members by name.
#[derive(Drop)]
pub struct Class {
    pub file: u32,
    pub top: usize,
    pub steps: Vec<usize>,
    pub outer: usize,
    pub name: usize,
    pub members: BTreeMap<Vec<u8>, usize>,
}

/// The declared classes in their order, the names that they need, and the first class of each name; and the numbers of the names
/// `Buildings.Controls.OBC.CDL` and `Modelica`.
#[derive(Drop)]
pub struct Classes {
    pub cdl: usize,
    pub modelica: usize,
    pub nodes: Vec<Node>,
    pub list: Vec<Class>,
    pub by_name: IndexMap<usize, usize>,
}

// Takes the class as that of its name, unless there is one.
fn index_class(
    by_name: &mut IndexMap<usize, usize>,
    name: usize,
    number: usize,
) -> Result<(), OutOfMemory>
    ensures { OnOk result ((n : ℕ) → get nat_eq by_name.new n ≡ option_or (get nat_eq by_name.old n) (if nat_eq n name then Some number else None)) }
{
    if by_name.contains_key(&name) {
        return Ok(());
    }
    by_name.insert(name, number)?;
    Ok(())
}

// Adds a class without those in it, and gives the number of its name.
fn add_class(
    alloc: Global,
    all: &mut Classes,
    file: u32,
    top: usize,
    steps: &[usize],
    outer: usize,
    tree: &ClassTree,
) -> Result<usize, OutOfMemory>
    ensures { IfOk result (λ n. (files : List FileTreeOf) (extra : List Full) (ds : List Declared) (q : Full) (h : IsGathered files all.old extra ds)
        → slice_get h.names.paths outer ≡ Some q → tree_at files file top steps.now ≡ Some tree.now
        → AfterAt files h.names.paths all.new extra (ds ++ (record { file = file; outer = q; tree = tree.now }) ∷ []) n (q ++ name_of tree.now ∷ [])) }
{
    let name = number_name(alloc, &mut all.nodes, outer, tree.name().text.bytes())?;
    let number = all.list.len();
    index_class(&mut all.by_name, name, number)?;
    let members = members(alloc, tree)?;
    let steps = Vec::from_slice(alloc, steps)?;
    all.list.push(Class {
        file,
        top,
        steps,
        outer,
        name,
        members,
    })?;
    Ok(name)
}

// Adds a class, and then those in it.
#[cycle(gather)]
#[tactic(auto, unfolding(cdl_tree::specs::Parts::classes_of))]
fn gather(
    alloc: Global,
    all: &mut Classes,
    file: u32,
    top: usize,
    steps: &[usize],
    outer: usize,
    tree: &ClassTree,
) -> Result<(), OutOfMemory>
    ensures { OnOk result ((files : List FileTreeOf) (extra : List Full) (ds : List Declared) (q : Full) (h : IsGathered files all.old extra ds)
        → slice_get h.names.paths outer ≡ Some q → tree_at files file top steps.now ≡ Some tree.now
        → After files h.names.paths all.new extra (ds ++ declared_in file q tree.now)) }
{
    let name = add_class(alloc, all, file, top, steps, outer, tree)?;
    match tree {
        ClassTree::Package { classes, .. } => gather_all(
            alloc,
            all,
            file,
            top,
            steps,
            name,
            classes.items(),
        ),
        ClassTree::Block { .. } | ClassTree::Enumeration { .. } => Ok(()),
    }
}

// Adds the classes in a package.
#[cycle(gather)]
fn gather_all(
    alloc: Global,
    all: &mut Classes,
    file: u32,
    top: usize,
    steps: &[usize],
    outer: usize,
    classes: &[ClassTree],
) -> Result<(), OutOfMemory>
    ensures { OnOk result ((files : List FileTreeOf) (extra : List Full) (ds : List Declared) (q : Full) (h : IsGathered files all.old extra ds)
        → slice_get h.names.paths outer ≡ Some q → (tree : ClassTreeOf) → tree_at files file top steps.now ≡ Some tree → classes_of tree ≡ classes.now
        → After files h.names.paths all.new extra (ds ++ declared_all file q classes.now)) }
{
    let mut i = 0;
    for class in classes {
        let mut place = Vec::from_slice(alloc, steps)?;
        place.push(i)?;
        gather(alloc, all, file, top, place.as_slice(), outer, class)?;
        i += 1;
    }
    Ok(())
}

// No classes, and the names of the library.
fn no_classes(alloc: Global) -> Result<Classes, OutOfMemory>
    ensures { IfOk result (λ all. (files : List FileTreeOf) → IsGathered files all library []) }
{
    let mut nodes = no_names(alloc)?;
    let buildings = number_name(alloc, &mut nodes, TOP, b"Buildings")?;
    let controls = number_name(alloc, &mut nodes, buildings, b"Controls")?;
    let obc = number_name(alloc, &mut nodes, controls, b"OBC")?;
    let cdl = number_name(alloc, &mut nodes, obc, b"CDL")?;
    let modelica = number_name(alloc, &mut nodes, TOP, b"Modelica")?;
    Ok(Classes {
        cdl,
        modelica,
        nodes,
        list: Vec::new(alloc),
        by_name: IndexMap::new(alloc),
    })
}

// Adds the classes of a file.
fn gather_file(
    alloc: Global,
    all: &mut Classes,
    file: u32,
    tree: &FileTree,
) -> Result<(), OutOfMemory>
    ensures { OnOk result ((files : List FileTreeOf) (ds : List Declared) (h : IsGathered files all.old library ds) → slice_get files file ≡ Some tree.now
        → After files h.names.paths all.new library (ds ++ declared_all file (within_of tree.now.within) tree.now.classes)) }
{
    let classes = tree.classes.items();
    if classes.is_empty() {
        return Ok(());
    }
    let outer = number_within(alloc, &mut all.nodes, &tree.within)?;
    let mut top = 0;
    for class in classes {
        gather(alloc, all, file, top, &[], outer, class)?;
        top += 1;
    }
    Ok(())
}

/// The classes of all files.
pub fn gather_files(alloc: Global, files: &[FileTree]) -> Result<Classes, OutOfMemory>
    requires { length files.now ≤ MOST_MODELS }
    ensures { IfOk result (λ all. IsGathered files.now all library (declared files.now)) }
{
    let mut all = no_classes(alloc)?;
    let mut file = 0;
    for tree in files {
        gather_file(alloc, &mut all, file, tree)?;
        file += 1;
    }
    Ok(all)
}
