// How many names are declared.
ghost use Rattle.std.specs.Prelude.{◌≡◌, ◌<◌, ◌+◌, ◌^◌, List, Some, IfSome, length};
ghost use Rattle.cdl_tree.specs.declared.class.ClassTree.{ClassTree as ClassTreeOf};
ghost use Rattle.cdl_scopes.specs.Classes.{Full, Declared, declared};
ghost use Rattle.cdl_scopes.specs.Lookup.{library};
ghost use Rattle.cdl_scopes.specs.inner.Gathered.{IsGathered, IsShown, tree_at};
ghost use Rattle.cdl_scopes.specs.inner.Kept.{name_count, names_in};

use crate::gather::{Class, Classes};
use crate::lookup::tree_of;
use cdl_tree::FileTree;

// So many more, where a number can tell.
fn more(count: u32, names: usize) -> Option<u32>
    ensures number { IfSome result (λ n. n ≡ count + names) }
    ensures few { IfSome result (λ n. n < 2 ^ 32) }
{
    match u32::try_from(names) {
        Ok(names) => count.checked_add(names),
        Err(_) => None,
    }
}

fn with_class(files: &[FileTree], class: &Class, count: u32) -> Option<u32>
    requires { (c : ClassTreeOf) × (tree_at files.now class.now.file class.now.top class.now.steps.items ≡ Some c) }
    ensures few { IfSome result (λ n. n < 2 ^ 32) }
    ensures number { IfSome result (λ n. (paths : List Full) (d : Declared) → IsShown paths files.now class.now d → n ≡ count + names_in d) }
{
    let tree = tree_of(files, class);
    let Some(count) = more(count, 1) else {
        return None;
    };
    let Some(count) = more(count, tree.items().len()) else {
        return None;
    };
    match more(count, tree.literals().len()) {
        Some(count) => Some(count),
        None => None,
    }
}

/// How many names are declared, where a number can tell: each class, and the names in it. Texts of the allowed sizes declare fewer.
pub fn count_names(files: &[FileTree], all: &Classes) -> Option<u32>
    requires { IsGathered files.now all.now library (declared files.now) }
    ensures number { IfSome result (λ n. n ≡ name_count files.now) }
    ensures few { IfSome result (λ n. n < 2 ^ 32) }
{
    let mut count = 0;
    for class in &all.list {
        match with_class(files, class, count) {
            Some(more) => count = more,
            None => return None,
        }
    }
    Some(count)
}
