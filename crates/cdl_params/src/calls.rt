// What callers ask, with all links.
ghost use Rattle.std.specs.Prelude.{◌≡◌, ◌≤◌, IfOk, length};
ghost use Rattle.cdl_source.specs.declared.limits.TheConstants.{MOST_LINKS as LINKS};
ghost use Rattle.cdl_array.specs.Outcomes.{Answers};
ghost use Rattle.cdl_worth.specs.Units.{unit as unit_of};
ghost use Rattle.cdl_worth.specs.Values as worth;
ghost use Rattle.cdl_eval.specs.Kept.{classes};

use crate::value::{Valuation, linked};
use cdl_array::{EvalFault, condition};
use cdl_eval::{Evaluator, Place, Store};
use cdl_paths::{Local, Step};
use cdl_source::{List, MOST_LINKS};
use cdl_tree::{Expr, Item};
use cdl_values::Array;

/// The value of a parameter or constant.
pub fn value(store: &mut Store<'_>, steps: &[Step], name: &[u8]) -> Result<Array, EvalFault>
    ensures same { store.new ≡ store.old }
    ensures answers { Answers (worth.value (classes store.old) LINKS store.old.root steps.now name.now) result }
{
    let root = store.root();
    linked(store, MOST_LINKS, root, steps, name)
}

/// The value of an expression.
#[tactic(auto, using(crate::proofs::Telling::same_worth))]
pub fn evaluate(
    store: &mut Store<'_>,
    steps: &[Step],
    locals: &[Local],
    expr: &Expr,
) -> Result<Array, EvalFault>
    ensures same { store.new ≡ store.old }
    ensures answers { Answers (worth.evaluate (classes store.old) LINKS store.old.root steps.now locals.now expr.now) result }
{
    let evaluator = Evaluator {
        alloc: store.alloc(),
        table: store.table(),
        link: linked,
    };
    let place = Place {
        links: MOST_LINKS,
        start: store.root(),
        steps,
    };
    evaluator.eval(store, &place, locals, expr)
}

/// The sizes of an item.
#[tactic(auto, using(crate::proofs::Telling::same_dims))]
pub fn dims(store: &mut Store<'_>, steps: &[Step], item: &Item) -> Result<List<u32>, EvalFault>
    ensures same { store.new ≡ store.old }
    ensures answers { Answers (worth.dims (classes store.old) LINKS store.old.root steps.now item.now) result }
    ensures few { IfOk result (λ sizes. length sizes ≤ 2) }
{
    let evaluator = Evaluator {
        alloc: store.alloc(),
        table: store.table(),
        link: linked,
    };
    let place = Place {
        links: MOST_LINKS,
        start: store.root(),
        steps,
    };
    evaluator.sizes(store, &place, item.dims.items())
}

/// The units of a connector.
#[tactic(auto, using(crate::proofs::Telling::same_unit))]
pub fn unit(store: &mut Store<'_>, steps: &[Step], name: &[u8]) -> Result<Array, EvalFault>
    ensures same { store.new ≡ store.old }
    ensures answers { Answers (unit_of (classes store.old) LINKS store.old.root steps.now name.now) result }
{
    let evaluator = Evaluator {
        alloc: store.alloc(),
        table: store.table(),
        link: linked,
    };
    let place = Place {
        links: MOST_LINKS,
        start: store.root(),
        steps,
    };
    Valuation { evaluator }.unit(store, &place, name)
}

/// Whether an item is there.
#[tactic(auto, unfolding(cdl_worth::specs::Values::present))]
pub fn present(store: &mut Store<'_>, steps: &[Step], item: &Item) -> Result<bool, EvalFault>
    ensures same { store.new ≡ store.old }
    ensures answers { Answers (worth.present (classes store.old) LINKS store.old.root steps.now item.now) result }
{
    match &item.condition {
        Some(test) => match evaluate(store, steps, &[], test) {
            Ok(test) => condition(&test),
            Err(fault) => Err(fault),
        },
        None => Ok(true),
    }
}
