// The declared classes of files, before the rules on their items are looked at.
ghost use Rattle.std.specs.Prelude.{◌≡◌, ◌<◌, ◌≤◌, ◌^◌, [], IfErr, IfOk, List, None, Some, length, nat_lt, slice_get, option_map, option_and_then, if◌then◌else◌};
ghost use Rattle.cdl_source.specs.declared.limits.TheConstants.{MOST_MODELS};
ghost use Rattle.cdl_tree.specs.Parts.{items_of};
ghost use Rattle.cdl_scopes.specs.Classes.{cut, declared, parts_of};
ghost use Rattle.cdl_scopes.specs.Lookup.{Entity, meaning};
ghost use Rattle.cdl_scopes.specs.Table.{Tells};
ghost use Rattle.cdl_scopes.specs.declared.lookup.Sought.TheVariants as sought;
ghost use Rattle.cdl_classes.specs.Found.{found_of, value_of};
ghost use Rattle.cdl_classes.specs.Rules.{broken_10, broken_11};
ghost use Rattle.cdl_classes.specs.Table.{block_of, item_of};
ghost use Rattle.cdl_classes.specs.Verdict.{Refuses};

use crate::duplicates::first_twice;
use crate::found::{ClassId, Found, ValueFound, cdl_found, modelica_found};
use crate::free_names::first_taken;
use crate::table::ClassFault;
use cdl_scopes::{ClassSort, DeclaredClasses, Meaning, Sought, sort_of};
use cdl_source::List;
use cdl_source::rules::{DECLARED_TWICE, NAME_NOT_FREE};
use cdl_tree::{ClassTree, FileTree, Name};
use std::alloc::Global;
use std::marker::Model;

/// The declared classes of files, whose names are declared once and free. Contracts see them as the trees of the files.
#[derive(Drop)]
pub struct Declarations {
    classes: DeclaredClasses,
}

impl Model for Declarations {
    ghost use Rattle.std.specs.Prelude.{List};
    ghost use Rattle.cdl_tree.specs.declared.class.FileTree.{FileTree as FileTreeOf};
    ghost use Rattle.cdl_scopes.specs.Classes.{declared};
    ghost use Rattle.cdl_scopes.specs.Lookup.{IsFree};
    ghost use Rattle.cdl_tree.specs.contracts.class.ClassTree as tree;
    ghost use Rattle.std.specs.Coded.{codes};

    ghost Value = { List FileTreeOf };

    ghost coded = { Prim.hlevel (codes, tree.the_row.coded) };

    ghost view = { λ t. t.classes };

    ghost invariant = { λ t. IsFree (declared t.classes) };
}

// What a class name stands for.
fn found(meaning: Meaning<'_>) -> Option<Found>
    ensures { (e : Entity) → Tells meaning.entry e → result ≡ found_of e }
{
    match meaning {
        Meaning::Class(index) => Some(Found::Class(ClassId { index })),
        Meaning::Package => Some(Found::Package),
        Meaning::Cdl(below) => Some(cdl_found(below)),
        Meaning::Modelica(below) => Some(modelica_found(below)),
        Meaning::Type(value_type) => Some(Found::Scalar(value_type)),
        Meaning::Constant { .. } | Meaning::Literal { .. } => None,
    }
}

// What a value name stands for.
fn value_found(meaning: Meaning<'_>) -> Option<ValueFound>
    ensures { (e : Entity) → Tells meaning.entry e → result ≡ value_of e }
{
    match meaning {
        Meaning::Constant { package, item } => Some(ValueFound::Constant {
            package: ClassId { index: package },
            item,
        }),
        Meaning::Literal { class, ordinal } => Some(ValueFound::Literal {
            class: ClassId { index: class },
            ordinal,
        }),
        _ => None,
    }
}

// The number of a member, where it is one of the items.
fn item_number(number: usize, tree: &ClassTree) -> Option<u32>
    requires { length (items_of tree.now) < 2 ^ 32 }
    ensures { result ≡ (if nat_lt number (length (items_of tree.now)) then Some number else None) }
{
    if number < tree.items().len() {
        Some(number as u32)
    } else {
        None
    }
}

impl Declarations {
    /// The declared classes of these files, where none has a name that is declared already or isn't free.
    pub fn of(alloc: Global, files: List<FileTree>) -> Result<Declarations, ClassFault>
        requires { length files ≤ MOST_MODELS }
        ensures ok { IfOk result (λ d. (d ≡ files) × ((broken_10 (declared files) ≡ []) × (broken_11 (declared files) ≡ []))) }
        ensures err { IfErr result (Refuses files) }
    {
        let classes = match DeclaredClasses::of(alloc, files) {
            Ok(classes) => classes,
            Err(_) => return Err(ClassFault::OutOfMemory),
        };
        match first_twice(alloc, &classes) {
            Ok(None) => {}
            Ok(Some(place)) => return Err(ClassFault::Rule {
                rule: DECLARED_TWICE,
                place,
            }),
            Err(_) => return Err(ClassFault::OutOfMemory),
        }
        if let Some(place) = first_taken(&classes) {
            return Err(ClassFault::Rule {
                rule: NAME_NOT_FREE,
                place,
            });
        }
        Ok(Declarations { classes })
    }

    /// How many classes are declared.
    pub fn len(&self) -> usize
        ensures count { result ≡ length (declared self.now) }
        ensures small { result < 2 ^ 32 }
    {
        self.classes.len()
    }

    /// The declaration of a class.
    pub fn tree(&self, class: ClassId) -> &ClassTree
        requires { class.index < length (declared self.now) }
        ensures { option_map (λ d. d.tree) (slice_get (declared self.now) class.index) ≡ Some result.now }
    {
        self.classes.tree(class.index)
    }

    /// The number of a class's file.
    pub fn file(&self, class: ClassId) -> u32
        requires { class.index < length (declared self.now) }
        ensures { option_map (λ d. d.file) (slice_get (declared self.now) class.index) ≡ Some result }
    {
        self.classes.file(class.index)
    }

    /// The number of the first item of this name in a class.
    pub fn item(&self, class: ClassId, name: &[u8]) -> Option<u32>
        requires { class.index < length (declared self.now) }
        ensures { result ≡ item_of (declared self.now) class.index name.now }
    {
        match self.classes.member(class.index, name) {
            Some(number) => item_number(number, self.classes.tree(class.index)),
            None => None,
        }
    }

    /// The declared block of this full name.
    pub fn root(&self, name: &str) -> Option<ClassId>
        ensures { result ≡ block_of (declared self.now) (cut name.now) }
    {
        let Some(index) = self.classes.first(name) else {
            return None;
        };
        match sort_of(self.classes.tree(index)) {
            ClassSort::Block => Some(ClassId { index }),
            ClassSort::Package => None,
            ClassSort::Enumeration => None,
        }
    }

    /// What a class name means in a class, or that it isn't found.
    pub fn resolve(&self, scope: ClassId, name: &Name) -> Option<Found>
        requires { scope.index < length (declared self.now) }
        ensures { result ≡ option_and_then found_of (meaning (declared self.now) sought.Class scope.index (parts_of name.now)) }
    {
        match self
            .classes
            .meaning(Sought::Class, scope.index, name.parts.items())
        {
            Some(meaning) => found(meaning),
            None => None,
        }
    }

    /// What a value name means in a class, or that it isn't found.
    pub fn resolve_value(&self, scope: ClassId, name: &Name) -> Option<ValueFound>
        requires { scope.index < length (declared self.now) }
        ensures { result ≡ option_and_then value_of (meaning (declared self.now) sought.Value scope.index (parts_of name.now)) }
    {
        match self
            .classes
            .meaning(Sought::Value, scope.index, name.parts.items())
        {
            Some(meaning) => value_found(meaning),
            None => None,
        }
    }
}
