// The elements in the order of their instances.
ghost use Rattle.std.specs.Prelude.{IfOk};
ghost use Rattle.std.specs.List.Sorted.{IsNonDecreasingBy, IsPermutation, IsStableByKey};
ghost use Rattle.std.specs.Ordering.{nat_cmp};

use crate::walked::Element;
use cdl_source::{List, OutOfMemory};

/// The elements in the order of their instances. Those of one instance stay in the order in which they stood.
pub fn by_instance(elements: List<Element>) -> Result<List<Element>, OutOfMemory>
    ensures permutation { IfOk result (λ sorted. IsPermutation elements sorted) }
    ensures sorted { IfOk result (λ sorted. IsNonDecreasingBy (λ e. e.instance) sorted) }
    ensures stable { IfOk result (λ sorted. IsStableByKey (λ e. e.instance) nat_cmp elements sorted) }
{
    let mut items = elements.into_vec();
    match items.sort_by_key(|element| element.instance) {
        Ok(()) => Ok(List::from_vec(items)),
        Err(_) => Err(OutOfMemory),
    }
}
