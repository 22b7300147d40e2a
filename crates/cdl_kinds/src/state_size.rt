// How many words a state has.
ghost use Rattle.std.specs.Prelude.{◌≡◌};
ghost use Rattle.cdl_kinds.specs.StateWords.{state_words};

use crate::kind::Kind;
use crate::params::Params;
use crate::table::kind_row;

// How many words the state of a block has.
#[derive(Clone, Copy, Drop)]
pub enum StateSize {
    // So many.
    Words(u32),
    // So many, and one for each of the n samples that the first parameter allows.
    Samples(u32),
}

/// How many words the state of a block of the kind with these parameters has.
pub fn state_words(kind: Kind, params: &Params) -> usize
    ensures { result ≡ state_words kind params.now }
{
    match kind_row(kind).state {
        StateSize::Words(count) => count as usize,
        StateSize::Samples(count) => params.size() + count as usize,
    }
}
