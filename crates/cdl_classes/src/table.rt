// The table of the declared classes, which keep the rules on classes.
ghost use Rattle.std.specs.Prelude.{◌≡◌, ◌<◌, ◌≤◌, ◌^◌, IfOk, IfErr, IfSome, List, None, Some, true, length, slice_get, option_map, option_and_then};
ghost use Rattle.cdl_source.specs.declared.limits.TheConstants.{MOST_MODELS};
ghost use Rattle.std.specs.List.{list_all};
ghost use Rattle.cdl_tree.specs.declared.class.Item.{Item as ItemOf};
ghost use Rattle.cdl_tree.specs.FormedFiles.{formed_class, formed_file};
ghost use Rattle.cdl_scopes.specs.Classes.{declared, parts_of};
ghost use Rattle.cdl_scopes.specs.Lookup.{meaning};
ghost use Rattle.cdl_classes.specs.Found.{found_of, value_of};
ghost use Rattle.cdl_classes.specs.Rules.{IsKnown, class_of};
ghost use Rattle.cdl_classes.specs.Table.{IsOf, IsValue, block_of, item_of, items_at};
ghost use Rattle.cdl_scopes.specs.Classes.{cut};
ghost use Rattle.cdl_classes.specs.Verdict.{IsUnbroken, Refuses};
ghost use Rattle.cdl_scopes.specs.declared.lookup.ClassSort.TheVariants as sort;
ghost use Rattle.cdl_scopes.specs.declared.lookup.Sought.TheVariants as sought;

use crate::declarations::Declarations;
use crate::found::{ClassId, Found, ValueFound};
use crate::item_classes::{Asked, first_item, item_classes};
use cdl_source::rules::{NAME_NOT_FOUND, NOT_SUPPORTED};
use cdl_source::{List, OutOfMemory, Place};
use cdl_tree::{ClassTree, FileTree, Name};
use std::alloc::Global;
use std::marker::Model;

/// The declared classes of files that keep the rules on classes. Contracts see it as the trees of the files.
#[derive(Drop)]
pub struct ClassTable {
    declarations: Declarations,
    item_classes: Vec<Vec<Option<Found>>>,
}

impl Model for ClassTable {
    ghost use Rattle.std.specs.Prelude.{List};
    ghost use Rattle.cdl_tree.specs.declared.class.FileTree.{FileTree as FileTreeOf};
    ghost use Rattle.cdl_classes.specs.inner.Kept.{IsTable};
    ghost use Rattle.cdl_tree.specs.contracts.class.ClassTree as tree;
    ghost use Rattle.std.specs.Coded.{codes};

    ghost Value = { List FileTreeOf };

    ghost coded = { Prim.hlevel (codes, tree.the_row.coded) };

    ghost view = { λ t. t.declarations };

    ghost invariant = { λ t. IsTable t.declarations t.item_classes.items };
}

/// Why there is no table.
#[derive(Clone, Copy, Debug, PartialEq, Eq)]
pub enum ClassFault {
    /// This rule is broken first, at this place. The rules count in the order of their numbers, the places by file, then by byte.
    /// 10: a name is declared twice; the later identifier.
    /// 11: a name isn't free; that identifier.
    /// 12: the class name of an item isn't found; its first byte.
    /// 13: an item isn't supported; the first byte of its class name.
    Rule { rule: u32, place: Place },
    OutOfMemory,
}

impl From<OutOfMemory> for ClassFault {
    ghost use Rattle.std.specs.Prelude.{◌≡◌};
    ghost use Rattle.cdl_classes.specs.declared.table.ClassFault.TheVariants.{OutOfMemory as no_memory};

    ghost from_gives = { λ _ e. e ≡ no_memory };

    fn from(_: OutOfMemory) -> Self {
        ClassFault::OutOfMemory
    }
}

impl ClassTable {
    /// The table of the classes that these files declare, which are formed as those of texts are. `Rule` comes exactly where a rule on classes is broken, memory aside, and
    /// names the first: 10, a name declared twice; 11, a name that isn't free; 12, a class name that isn't found; 13, an item that
    /// isn't supported; of one rule the first place by file, then by byte. `OutOfMemory` comes too where 2^32 names or more are
    /// declared, which texts of the allowed sizes never do. A refused list of files is dropped.
    pub fn build(alloc: Global, files: List<FileTree>) -> Result<ClassTable, ClassFault>
        requires few { length files ≤ MOST_MODELS }
        requires formed { list_all formed_file files ≡ true }
        ensures ok { IfOk result (λ table. (table ≡ files) × IsUnbroken (declared files)) }
        ensures err { IfErr result (Refuses files) }
    {
        let declarations = match Declarations::of(alloc, files) {
            Ok(declarations) => declarations,
            Err(fault) => return Err(fault),
        };
        let item_classes = match item_classes(alloc, &declarations) {
            Ok(rows) => rows,
            Err(_) => return Err(ClassFault::OutOfMemory),
        };
        if let Some(place) = first_item(&declarations, Asked::Found, item_classes.as_slice()) {
            return Err(ClassFault::Rule {
                rule: NAME_NOT_FOUND,
                place,
            });
        }
        if let Some(place) = first_item(&declarations, Asked::Supported, item_classes.as_slice()) {
            return Err(ClassFault::Rule {
                rule: NOT_SUPPORTED,
                place,
            });
        }
        Ok(ClassTable {
            declarations,
            item_classes,
        })
    }

    /// How many classes are declared. They keep the rules on classes, and the files are formed.
    pub fn len(&self) -> usize
        ensures count { result ≡ length (declared self.now) }
        ensures small { result < 2 ^ 32 }
        ensures unbroken { IsUnbroken (declared self.now) }
        ensures formed { list_all formed_file self.now ≡ true }
    {
        let _ = &self.item_classes;
        self.declarations.len()
    }

    /// The declaration of a class, which is formed. It takes no memory.
    pub fn tree(&self, class: ClassId) -> &ClassTree
        requires { class.index < length (declared self.now) }
        ensures tree { option_map (λ d. d.tree) (slice_get (declared self.now) class.index) ≡ Some result.now }
        ensures formed { formed_class result.now ≡ true }
    {
        let _ = &self.item_classes;
        self.declarations.tree(class)
    }

    /// The number of a class's file, counted from 0. It takes no memory.
    pub fn file(&self, class: ClassId) -> u32
        requires { class.index < length (declared self.now) }
        ensures { option_map (λ d. d.file) (slice_get (declared self.now) class.index) ≡ Some result }
    {
        self.declarations.file(class)
    }

    /// The number of the first item of this name in a class: of a block's items or a package's constants, counted from 0. None where
    /// there is none. It takes no memory.
    pub fn item(&self, class: ClassId, name: &[u8]) -> Option<u32>
        requires { class.index < length (declared self.now) }
        ensures { result ≡ item_of (declared self.now) class.index name.now }
    {
        self.declarations.item(class, name)
    }

    /// What the class name of the item of this number means in its class. It is known since the table was built, and takes no memory.
    pub fn item_class(&self, class: ClassId, item: u32) -> Found
        requires declared { class.index < length (declared self.now) }
        requires item { IfSome (items_at (declared self.now) class.index) (λ items. item < length items) }
        ensures { (x : ItemOf) → option_and_then (λ items. slice_get items item) (items_at (declared self.now) class.index) ≡ Some x
            → class_of (declared self.now) class.index x ≡ Some result }
    {
        match self.item_classes[class.index as usize][item as usize] {
            Some(found) => found,
            None => Found::Unsupported,
        }
    }

    /// The declared block of this full name: identifiers with points between them. None where rule C14 is broken. It takes no memory.
    pub fn root(&self, name: &str) -> Option<ClassId>
        ensures block { result ≡ block_of (declared self.now) (cut name.now) }
        ensures known { IfSome result (IsOf (declared self.now) sort.Block) }
    {
        self.declarations.root(name)
    }

    /// What a class name means in a class, or that it isn't found: the first scope outwards that has the first identifier is taken,
    /// and each further identifier is found inside what was found. The scopes are the packages around the class, from the innermost
    /// outwards, where a package is the innermost of its own scopes, and last the top, which has the types too. It takes no memory.
    pub fn resolve(&self, scope: ClassId, name: &Name) -> Option<Found>
        requires { scope.index < length (declared self.now) }
        ensures meaning { result ≡ option_and_then found_of (meaning (declared self.now) sought.Class scope.index (parts_of name.now)) }
        ensures known { IsKnown (declared self.now) result }
    {
        let _ = &self.item_classes;
        self.declarations.resolve(scope, name)
    }

    /// What a value name means in a class, or that it isn't found. It is looked up as a class name is, but a package, as a scope too,
    /// also has its declared constants, and an enumeration has its literals. It takes no memory.
    pub fn resolve_value(&self, scope: ClassId, name: &Name) -> Option<ValueFound>
        requires { scope.index < length (declared self.now) }
        ensures meaning { result ≡ option_and_then value_of (meaning (declared self.now) sought.Value scope.index (parts_of name.now)) }
        ensures known { IfSome result (IsValue (declared self.now)) }
    {
        let _ = &self.item_classes;
        self.declarations.resolve_value(scope, name)
    }
}
