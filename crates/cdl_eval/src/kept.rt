// The values of parameters that are kept.
ghost use Rattle.std.specs.Prelude.{◌≡◌, ◌≤◌, All, List, IfOk, IfSome, IsTrue, Ok};
ghost use Rattle.cdl_scopes.specs.Classes.{Declared};
ghost use Rattle.cdl_worth.specs.Values.{value as value_of};
ghost use Rattle.cdl_eval.specs.Kept.{IsKept, classes, given as given_of, kept as kept_of};

use crate::place::{copy_steps, same_steps};
use crate::shared::Shared;
use cdl_classes::{ClassId, ClassTable};
use cdl_paths::Step;
use cdl_source::{List, OutOfMemory, Text};
use cdl_values::Array;
use cdl_worth::more_links_change_nothing;
use std::alloc::Global;
use std::collections::BTreeMap;
use std::marker::Model;

/// The value of a parameter at a place, or that of the expression that is given to it, and the links with which it was found.
#[derive(Drop)]
pub struct Entry {
    pub is_given: bool,
    pub links: u32,
    pub start: ClassId,
    pub steps: List<Step>,
    pub name: Text,
    pub value: Shared,
}

impl Entry {
    // Whether it is what was found of this parameter, with so many links or fewer.
    fn serves(
        &self,
        is_given: bool,
        links: u32,
        start: ClassId,
        steps: &[Step],
        name: &[u8],
    ) -> bool
        ensures { IsTrue result → (self.now.is_given ≡ is_given) × (self.now.links ≤ links) × (self.now.start.index ≡ start.index) × (self.now.steps ≡ steps.now) × (self.now.name ≡ name.now) }
    {
        self.is_given == is_given
            && self.links <= links
            && self.start.index == start.index
            && self.name.bytes() == name
            && same_steps(self.steps.items(), steps)
    }
}

// What was kept of a parameter under this number.
fn serving<'e>(
    entries: &'e [Entry],
    number: usize,
    is_given: bool,
    links: u32,
    start: ClassId,
    steps: &[Step],
    name: &[u8],
) -> Option<&'e Shared>
    ensures { (ds : List Declared) → All (IsKept ds) entries.now → IfSome result (λ v. kept_of is_given ds links start.index steps.now name.now ≡ Ok v.now) }
{
    more_links_change_nothing();
    if number >= entries.len() {
        return None;
    }
    let entry = &entries[number];
    if entry.serves(is_given, links, start, steps, name) {
        Some(&entry.value)
    } else {
        None
    }
}

// Adds the bytes of a number.
fn push_number(text: &mut Vec<u8>, number: u32) -> Result<(), OutOfMemory> {
    for byte in number.to_le_bytes() {
        text.push(byte)?;
    }
    Ok(())
}

// Adds bytes.
fn push_bytes(text: &mut Vec<u8>, bytes: &[u8]) -> Result<(), OutOfMemory> {
    for byte in bytes {
        text.push(*byte)?;
    }
    Ok(())
}

// A text of a place and a name. Entries are looked up by it, and compared with what is asked for.
fn text_of(
    alloc: Global,
    is_given: bool,
    start: ClassId,
    steps: &[Step],
    name: &[u8],
) -> Result<Vec<u8>, OutOfMemory> {
    let mut text = Vec::new(alloc);
    text.push(is_given as u8)?;
    push_number(&mut text, start.index)?;
    for step in steps {
        push_bytes(&mut text, step.name.bytes())?;
        for index in step.indices.items() {
            text.push(b'[')?;
            push_number(&mut text, *index)?;
        }
        text.push(b'.')?;
    }
    push_bytes(&mut text, name)?;
    Ok(text)
}

/// The classes of a model with a root, and values of their parameters that were found. Contracts see the files and the root: what was
/// found before plays no part.
#[derive(Drop)]
pub struct Store<'a> {
    alloc: Global,
    table: &'a ClassTable,
    root: ClassId,
    kept: Vec<Entry>,
    // where an entry stands, by the text of its place and name
    numbers: BTreeMap<Vec<u8>, usize>,
}

impl<'a> Model for Store<'a> {
    ghost use Rattle.std.specs.List.{All as AllOf};
    ghost use Rattle.cdl_scopes.specs.Classes.{declared as declared_of};
    ghost use Rattle.cdl_eval.specs.Kept.{IsKept as IsKeptOf, Model as ModelOf};
    ghost use Rattle.cdl_tree.specs.contracts.class.ClassTree as tree;
    ghost use Rattle.std.specs.Coded.{codes};

    ghost Value = { ModelOf };

    ghost coded = { Prim.hlevel (codes, tree.the_row.coded) };

    ghost view = { λ e. record { files = e.table.now; root = e.root.index } };

    ghost invariant = { λ e. AllOf (IsKeptOf (declared_of e.table.now)) e.kept.items };
}

impl<'a> Store<'a> {
    /// The classes, with a declared block as the root, and no values yet. It takes no memory.
    pub fn new(alloc: Global, table: &'a ClassTable, root: ClassId) -> Store<'a>
        ensures files { result.files ≡ table.now }
        ensures root { result.root ≡ root.index }
    {
        Store {
            alloc,
            table,
            root,
            kept: Vec::new(alloc),
            numbers: BTreeMap::new(alloc),
        }
    }

    /// The classes. It takes no memory.
    pub fn table(&self) -> &'a ClassTable
        ensures { result.now ≡ self.now.files }
    {
        self.table
    }

    /// The root. It takes no memory.
    pub fn root(&self) -> ClassId
        ensures { result.index ≡ self.now.root }
    {
        self.root
    }

    /// Where memory comes from.
    pub fn alloc(&self) -> Global {
        self.alloc
    }

    // What was kept of a parameter, if it was found with so many links or fewer.
    fn find(
        &self,
        is_given: bool,
        links: u32,
        start: ClassId,
        steps: &[Step],
        name: &[u8],
    ) -> Result<Option<Shared>, OutOfMemory>
        ensures { IfOk result (λ found. IfSome found (λ v. kept_of is_given (classes self.now) links start.index steps.now name.now ≡ Ok v)) }
    {
        let text = text_of(self.alloc, is_given, start, steps, name)?;
        let Some(number) = self.numbers.get(text.as_slice()) else {
            return Ok(None);
        };
        let entries = self.kept.as_slice();
        match serving(entries, *number, is_given, links, start, steps, name) {
            Some(value) => Ok(Some(value.share()?)),
            None => Ok(None),
        }
    }

    // Keeps what was found of a parameter with so many links.
    fn insert(
        &mut self,
        is_given: bool,
        links: u32,
        start: ClassId,
        steps: &[Step],
        name: &[u8],
        value: Shared,
    ) -> Result<(), OutOfMemory>
        requires { kept_of is_given (classes self.old) links start.index steps.now name.now ≡ Ok value }
        ensures { self.new ≡ self.old }
    {
        let text = text_of(self.alloc, is_given, start, steps, name)?;
        let entry = Entry {
            is_given,
            links,
            start,
            steps: copy_steps(self.alloc, steps)?,
            name: Text::from_bytes(self.alloc, name)?,
            value,
        };
        let number = self.kept.len();
        self.kept.push(entry)?;
        self.numbers.insert(text, number)?;
        Ok(())
    }

    /// The value of a parameter, if it was found with so many links or fewer.
    pub fn known(
        &self,
        links: u32,
        start: ClassId,
        steps: &[Step],
        name: &[u8],
    ) -> Result<Option<Array>, OutOfMemory>
        ensures { IfOk result (λ found. IfSome found (λ v. value_of (classes self.now) links start.index steps.now name.now ≡ Ok v)) }
    {
        match self.find(false, links, start, steps, name)? {
            Some(value) => Ok(Some(value.array().copy(self.alloc)?)),
            None => Ok(None),
        }
    }

    /// Keeps the value of a parameter that was found with so many links.
    pub fn keep(
        &mut self,
        links: u32,
        start: ClassId,
        steps: &[Step],
        name: &[u8],
        value: &Array,
    ) -> Result<(), OutOfMemory>
        requires { value_of (classes self.old) links start.index steps.now name.now ≡ Ok value.now }
        ensures { self.new ≡ self.old }
    {
        let value = Shared::new(self.alloc, value.copy(self.alloc)?)?;
        self.insert(false, links, start, steps, name, value)
    }

    /// The value of the expression that is given to a parameter, if it was found with so many links or fewer.
    pub fn known_given(
        &self,
        links: u32,
        start: ClassId,
        steps: &[Step],
        name: &[u8],
    ) -> Result<Option<Shared>, OutOfMemory>
        ensures { IfOk result (λ found. IfSome found (λ v. given_of (classes self.now) links start.index steps.now name.now ≡ Ok v)) }
    {
        self.find(true, links, start, steps, name)
    }

    /// Keeps the value of the expression that is given to a parameter, which was found with so many links.
    pub fn keep_given(
        &mut self,
        links: u32,
        start: ClassId,
        steps: &[Step],
        name: &[u8],
        value: &Shared,
    ) -> Result<(), OutOfMemory>
        requires { given_of (classes self.old) links start.index steps.now name.now ≡ Ok value.now }
        ensures { self.new ≡ self.old }
    {
        self.insert(true, links, start, steps, name, value.share()?)
    }
}
