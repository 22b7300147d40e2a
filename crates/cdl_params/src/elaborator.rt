// An elaborator.
ghost use Rattle.std.specs.Prelude.{◌≡◌, ◌≤◌, IfOk, length};
ghost use Rattle.cdl_source.specs.declared.limits.TheConstants.{MOST_LINKS as LINKS};
ghost use Rattle.cdl_array.specs.Outcomes.{Answers};
ghost use Rattle.cdl_worth.specs.Units.{unit as unit_of};
ghost use Rattle.cdl_worth.specs.Values as worth;
ghost use Rattle.cdl_eval.specs.Kept.{classes};

use crate::calls::{dims, evaluate, present, unit, value};
use cdl_array::EvalFault;
use cdl_classes::{ClassId, ClassTable};
use cdl_eval::Store;
use cdl_paths::{Local, Step};
use cdl_source::List;
use cdl_tree::{Expr, Item};
use cdl_values::Array;
use std::alloc::Global;
use std::marker::Model;

/// The classes of a model with a root, and what their parameters are worth. Contracts see the files and the root: what was asked
/// before plays no part.
#[derive(Drop)]
pub struct Elaborator<'a> {
    store: Store<'a>,
}

impl<'a> Model for Elaborator<'a> {
    ghost use Rattle.cdl_eval.specs.Kept.{Model as ModelOf};
    ghost use Rattle.cdl_tree.specs.contracts.class.ClassTree as tree;
    ghost use Rattle.std.specs.Coded.{codes};

    ghost Value = { ModelOf };

    ghost coded = { Prim.hlevel (codes, tree.the_row.coded) };

    ghost view = { λ e. e.store };
}

impl<'a> Elaborator<'a> {
    /// An elaborator of the classes, with a declared block as the root. It takes no memory.
    pub fn new(alloc: Global, table: &'a ClassTable, root: ClassId) -> Elaborator<'a>
        ensures files { result.files ≡ table.now }
        ensures root { result.root ≡ root.index }
    {
        Elaborator {
            store: Store::new(alloc, table, root),
        }
    }

    /// The classes. It takes no memory.
    pub fn table(&self) -> &'a ClassTable
        ensures { result.now ≡ self.now.files }
    {
        self.store.table()
    }

    /// The root. It takes no memory.
    pub fn root(&self) -> ClassId
        ensures { result.index ≡ self.now.root }
    {
        self.store.root()
    }

    /// The value of the parameter or constant of this name of the class or kind behind these steps from the root, as the outermost
    /// giver gives it: evaluated at the giver's own place, handed out over the arrays of components from there on, and of the
    /// declared type and shape. `Rule` names the first rule that is broken, with at most 64 links: C25 to C31.
    pub fn value(&mut self, steps: &[Step], name: &[u8]) -> Result<Array, EvalFault>
        ensures same { self.new ≡ self.old }
        ensures answers { Answers (worth.value (classes self.old) LINKS self.old.root steps.now name.now) result }
    {
        value(&mut self.store, steps, name)
    }

    /// The value of an expression in the class behind these steps, where the indices of loops are worth so much. `Rule` names the
    /// first rule that is broken, from the left: C25 to C31.
    pub fn evaluate(
        &mut self,
        steps: &[Step],
        locals: &[Local],
        expr: &Expr,
    ) -> Result<Array, EvalFault>
        ensures same { self.new ≡ self.old }
        ensures answers { Answers (worth.evaluate (classes self.old) LINKS self.old.root steps.now locals.now expr.now) result }
    {
        evaluate(&mut self.store, steps, locals, expr)
    }

    /// The sizes of an item that the class behind these steps declares: none, one or two, and at most 65,536 items together. `Rule`
    /// names the first rule that is broken, from the left: those of expressions, C25 where there are more, C26 where one is no
    /// Integer, C28 where they are too large.
    pub fn dims(&mut self, steps: &[Step], item: &Item) -> Result<List<u32>, EvalFault>
        ensures same { self.new ≡ self.old }
        ensures answers { Answers (worth.dims (classes self.old) LINKS self.old.root steps.now item.now) result }
        ensures few { IfOk result (λ sizes. length sizes ≤ 2) }
    {
        dims(&mut self.store, steps, item)
    }

    /// The units of the elements of a connector of the class or kind behind these steps, in its shape: what the outermost `unit = e`
    /// gives it, handed out over the arrays of components and the connector itself, where a text serves every element; without one
    /// each is the empty text. `Rule` names the first rule that is broken: those of the sizes and of expressions, C25 for another
    /// shape, C26 for another type, C38 for more than 64 bytes; C27 where there is no such connector.
    pub fn unit(&mut self, steps: &[Step], name: &[u8]) -> Result<Array, EvalFault>
        ensures same { self.new ≡ self.old }
        ensures answers { Answers (unit_of (classes self.old) LINKS self.old.root steps.now name.now) result }
    {
        unit(&mut self.store, steps, name)
    }

    /// Whether an item that the class behind these steps declares is there: it has no condition, or one that holds. `Rule` names the
    /// first rule that is broken: those of expressions, and C26 where the condition is no Boolean.
    pub fn present(&mut self, steps: &[Step], item: &Item) -> Result<bool, EvalFault>
        ensures same { self.new ≡ self.old }
        ensures answers { Answers (worth.present (classes self.old) LINKS self.old.root steps.now item.now) result }
    {
        present(&mut self.store, steps, item)
    }
}
