//! Whether words are those of a state, as the blocks with a memory need it.
ghost use Rattle.std.specs.Prelude.{◌≡◌, ◌<◌, ◌↔◌, IsTrue, length, [], ◌∷◌};
ghost use Rattle.cdl_values.specs.declared.value.ValueType.TheVariants.{Boolean, Integer, Real};
ghost use Rattle.cdl_values.specs.History.{AreValues, IsValue, booleans, integers, typed, word};
ghost use Rattle.cdl_kinds.specs.States.{IsTimeUpTo};

use cdl_source::{LARGEST_INTEGER, LARGEST_REAL};
use cdl_values::words::read;

/// Whether the word is a Boolean.
pub fn is_boolean(w: i64) -> bool
    ensures { IsTrue result ↔ IsValue Boolean w }
{
    w == 0 || w == 1
}

/// Whether the word is an Integer.
pub fn is_integer(w: i64) -> bool
    ensures { IsTrue result ↔ IsValue Integer w }
{
    w.unsigned_abs() <= LARGEST_INTEGER as u64
}

/// Whether the word is a Real.
pub fn is_real(w: i64) -> bool
    ensures { IsTrue result ↔ IsValue Real w }
{
    w.unsigned_abs() <= LARGEST_REAL
}

/// Whether the word is that of a time that is not after the last, or -1 for none.
pub fn is_time(w: i64, last: i64) -> bool
    ensures { IsTrue result ↔ IsTimeUpTo last w }
{
    -1 <= w && w <= last
}

/// Whether the one word is a Boolean.
#[tactic(auto, using(crate::proofs::ValueStates::one_boolean_state))]
pub fn holds_boolean(words: &[i64]) -> bool
    requires { length words.now ≡ 1 }
    ensures { IsTrue result ↔ AreValues (booleans 1) words.now }
{
    is_boolean_at(words, 0)
}

/// Whether the one word is an Integer.
#[tactic(auto, using(crate::proofs::ValueStates::one_integer_state))]
pub fn holds_integer(words: &[i64]) -> bool
    requires { length words.now ≡ 1 }
    ensures { IsTrue result ↔ AreValues (integers 1) words.now }
{
    is_integer_at(words, 0)
}

/// Whether both words are Booleans.
#[tactic(auto, using(crate::proofs::ValueStates::two_booleans_state))]
pub fn holds_booleans(words: &[i64]) -> bool
    requires { length words.now ≡ 2 }
    ensures { IsTrue result ↔ AreValues (booleans 2) words.now }
{
    is_boolean_at(words, 0) && is_boolean_at(words, 1)
}

/// Whether the word in that place is a Boolean.
pub fn is_boolean_at(words: &[i64], i: usize) -> bool
    requires { i < length words.now }
    ensures { IsTrue result ↔ IsValue Boolean (word words.now i) }
{
    is_boolean(read(words, i))
}

fn is_integer_at(words: &[i64], i: usize) -> bool
    requires { i < length words.now }
    ensures { IsTrue result ↔ IsValue Integer (word words.now i) }
{
    is_integer(read(words, i))
}

/// Whether the word in that place is a Real.
pub fn is_real_at(words: &[i64], i: usize) -> bool
    requires { i < length words.now }
    ensures { IsTrue result ↔ IsValue Real (word words.now i) }
{
    is_real(read(words, i))
}

/// Whether the three words are an Integer and two Booleans.
#[tactic(auto, using(crate::proofs::ValueStates::count_state))]
pub fn holds_count(words: &[i64]) -> bool
    requires { length words.now ≡ 3 }
    ensures { IsTrue result ↔ AreValues (typed (Integer ∷ Boolean ∷ Boolean ∷ [])) words.now }
{
    is_integer_at(words, 0) && is_boolean_at(words, 1) && is_boolean_at(words, 2)
}

/// Whether the two words are a Boolean and a Real.
#[tactic(auto, using(crate::proofs::ValueStates::sample_state))]
pub fn holds_sample(words: &[i64]) -> bool
    requires { length words.now ≡ 2 }
    ensures { IsTrue result ↔ AreValues (typed (Boolean ∷ Real ∷ [])) words.now }
{
    is_boolean_at(words, 0) && is_real_at(words, 1)
}

/// Whether the three words are two Booleans and a Real.
#[tactic(auto, using(crate::proofs::ValueStates::begun_sample_state))]
pub fn holds_begun_sample(words: &[i64]) -> bool
    requires { length words.now ≡ 3 }
    ensures { IsTrue result ↔ AreValues (typed (Boolean ∷ Boolean ∷ Real ∷ [])) words.now }
{
    is_boolean_at(words, 0) && is_boolean_at(words, 1) && is_real_at(words, 2)
}
