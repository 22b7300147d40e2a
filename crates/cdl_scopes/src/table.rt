// The declared classes of files, and what their names mean.
ghost use Rattle.std.specs.Prelude.{◌≡◌, ◌<◌, ◌≤◌, ◌^◌, ◌++◌, ◌∷◌, [], ℕ, IfOk, IfSome, IfNone, List, None, Some, length, map, slice_get, option_map};
ghost use Rattle.cdl_source.specs.declared.limits.TheConstants.{MOST_MODELS};
ghost use Rattle.cdl_tree.specs.Parts.{items_of};
ghost use Rattle.cdl_scopes.specs.Classes.{Full, cut, declared, text_of};
ghost use Rattle.cdl_scopes.specs.Lookup as spec;
ghost use Rattle.cdl_scopes.specs.inner.Known.{IsSmall, means};
ghost use Rattle.cdl_scopes.specs.Table.{Tells, member_of, scope_name};

use crate::count::count_names;
use crate::full_name::name_at;
use crate::gather::{Classes, gather_files};
use crate::in_scope::{Scope, first_in, library_in, needed_in, scope_number};
use crate::lookup::{Sought, Standing, first_at, meaning_of, tree_of};
use crate::scopes::{Outwards, all_outwards, in_library};
use cdl_source::{List, OutOfMemory};
use cdl_tree::{ClassTree, FileTree, Ident};
use cdl_values::ValueType;
use std::alloc::Global;
use std::marker::Model;

/// The declared classes of files. Contracts see them as the trees of the files. The classes are numbered from 0, by file, then in
/// the order of the text.
#[derive(Drop)]
pub struct DeclaredClasses {
    files: List<FileTree>,
    classes: Classes,
    library: Vec<bool>,
    outwards: Vec<Outwards>,
}

impl Model for DeclaredClasses {
    ghost use Rattle.std.specs.Prelude.{List};
    ghost use Rattle.cdl_tree.specs.declared.class.FileTree.{FileTree as FileTreeOf};
    ghost use Rattle.cdl_scopes.specs.inner.Kept.{AreKept};
    ghost use Rattle.cdl_tree.specs.contracts.class.ClassTree as tree;
    ghost use Rattle.std.specs.Coded.{codes};

    ghost Value = { List FileTreeOf };

    ghost coded = { Prim.hlevel (codes, tree.the_row.coded) };

    ghost view = { λ t. t.files };

    ghost invariant = { λ t. AreKept t.files t.classes t.outwards.items t.library.items };
}

/// What a name stands for.
#[derive(Clone, Copy)]
pub enum Meaning<'n> {
    /// The declared class of this number.
    Class(u32),
    /// A package that exists and is not declared.
    Package,
    /// A name below `Buildings.Controls.OBC.CDL`.
    Cdl(&'n [Ident]),
    /// A name below `Modelica`.
    Modelica(&'n [Ident]),
    /// Real, Integer, Boolean or String.
    Type(ValueType),
    /// A constant of the package of this number, counted from 0.
    Constant { package: u32, item: u32 },
    /// A literal of the enumeration of this number, counted from 1.
    Literal { class: u32, ordinal: u32 },
}

// What callers see of what a name stands for.
fn meaning_from<'n>(standing: Standing<'n>) -> Meaning<'n>
    requires { IsSmall standing }
    ensures { (paths : List Full) (e : spec.Entity) → means paths standing.entry ≡ Some e → Tells result e }
{
    match standing {
        Standing::Class(number) => Meaning::Class(number as u32),
        Standing::Package(_) => Meaning::Package,
        Standing::Cdl(below) => Meaning::Cdl(below),
        Standing::Modelica(below) => Meaning::Modelica(below),
        Standing::Type(value_type) => Meaning::Type(value_type),
        Standing::Constant { package, item } => Meaning::Constant {
            package: package as u32,
            item: item as u32,
        },
        Standing::Literal { class, place } => Meaning::Literal {
            class: class as u32,
            ordinal: place as u32 + 1,
        },
    }
}

impl DeclaredClasses {
    /// The declared classes of these files. `OutOfMemory` comes too where 2^32 names or more are declared, which texts of the
    /// allowed sizes never do.
    pub fn of(alloc: Global, files: List<FileTree>) -> Result<DeclaredClasses, OutOfMemory>
        requires { length files ≤ MOST_MODELS }
        ensures { IfOk result (λ classes. classes ≡ files) }
    {
        let classes = gather_files(alloc, files.items())?;
        match count_names(files.items(), &classes) {
            Some(_) => {}
            None => return Err(OutOfMemory),
        }
        let library = in_library(alloc, files.items(), &classes)?;
        let outwards = all_outwards(alloc, files.items(), &classes)?;
        Ok(DeclaredClasses {
            files,
            classes,
            library,
            outwards,
        })
    }

    /// How many classes are declared.
    pub fn len(&self) -> usize
        ensures count { result ≡ length (declared self.now) }
        ensures small { result < 2 ^ 32 }
    {
        self.classes.list.len()
    }

    /// The declaration of a class. Its items are fewer than 2^32.
    pub fn tree(&self, class: u32) -> &ClassTree
        requires { class < length (declared self.now) }
        ensures tree { option_map (λ d. d.tree) (slice_get (declared self.now) class) ≡ Some result.now }
        ensures few { length (items_of result.now) < 2 ^ 32 }
    {
        tree_of(self.files.items(), &self.classes.list[class as usize])
    }

    /// The number of a class's file, counted from 0.
    pub fn file(&self, class: u32) -> u32
        requires { class < length (declared self.now) }
        ensures { option_map (λ d. d.file) (slice_get (declared self.now) class) ≡ Some result }
    {
        self.classes.list[class as usize].file
    }

    /// The number of the first member of this name in a class: of the items of a block, the constants of a package or the literals
    /// of an enumeration, counted from 0.
    pub fn member(&self, class: u32, name: &[u8]) -> Option<usize>
        requires { class < length (declared self.now) }
        ensures { result ≡ member_of (declared self.now) class name.now }
    {
        self.classes.list[class as usize].members.get(name).copied()
    }

    /// The number of the first declared class of this full name: identifiers with points between them.
    pub fn first(&self, name: &str) -> Option<u32>
        ensures { result ≡ spec.first_of (cut name.now) (declared self.now) }
    {
        let Some(full) = name_at(&self.classes, name.as_bytes()) else {
            return None;
        };
        match first_at(&self.classes, full) {
            Some(number) => Some(number as u32),
            None => None,
        }
    }

    /// The number of the first declared class of this name in a scope of a declared class.
    pub fn first_within(&self, scope: Scope, part: &[u8]) -> Option<u32>
        ensures { (q : Full) → scope_name (declared self.now) scope ≡ Some q → result ≡ spec.first_of (q ++ part.now ∷ []) (declared self.now) }
    {
        let Some(number) = scope_number(&self.classes, scope) else {
            return None;
        };
        match first_in(&self.classes, number, part) {
            Some(first) => Some(first as u32),
            None => None,
        }
    }

    /// Whether this name in a scope of a declared class is one of the library's packages or lies under one.
    pub fn is_in_library(&self, scope: Scope, part: &[u8]) -> bool
        ensures { (q : Full) → scope_name (declared self.now) scope ≡ Some q → result ≡ spec.in_library (q ++ part.now ∷ []) }
    {
        match scope_number(&self.classes, scope) {
            Some(number) => library_in(&self.classes, self.library.as_slice(), number, part),
            None => false,
        }
    }

    /// Whether a package must exist at this name in a scope of a declared class: the library or a declared class lies in it.
    pub fn is_needed(&self, scope: Scope, part: &[u8]) -> bool
        ensures { (q : Full) → scope_name (declared self.now) scope ≡ Some q → result ≡ spec.is_needed (declared self.now) (q ++ part.now ∷ []) }
    {
        match scope_number(&self.classes, scope) {
            Some(number) => needed_in(&self.classes, number, part),
            None => false,
        }
    }

    /// What a name means in a class, where no class lies in the library, or that it isn't found.
    pub fn meaning<'n>(&self, sought: Sought, class: u32, name: &'n [Ident]) -> Option<Meaning<'n>>
        requires free { spec.IsFree (declared self.now) }
        requires declared { class < length (declared self.now) }
        ensures some { IfSome result (λ m. (e : spec.Entity) × (spec.meaning (declared self.now) sought class (map text_of name.now) ≡ Some e) × Tells m e) }
        ensures none { IfNone result (spec.meaning (declared self.now) sought class (map text_of name.now) ≡ None) }
    {
        match meaning_of(
            self.files.items(),
            &self.classes,
            self.outwards.as_slice(),
            sought,
            class as usize,
            name,
        ) {
            Some(standing) => Some(meaning_from(standing)),
            None => None,
        }
    }
}
