//! Words read and written, as the blocks of all kinds need them.
ghost use Rattle.std.specs.Prelude.{◌≡◌, ℕ, ◌<◌, ℤ, [], ◌∷◌, length, MatchResult, OnErr, Some, None};
ghost use Rattle.std.specs.List.{list_all, list_any};
ghost use Rattle.cdl_decimal.specs.Near.{InRange};
ghost use Rattle.cdl_values.specs.History.{bit, integer, is_on, one, word};

use cdl_decimal::Real;
use cdl_source::LARGEST_INTEGER;

/// There is no value: a result is out of the range of its type, or not defined.
#[derive(Clone, Copy, Debug, PartialEq, Eq, Drop)]
pub struct NoValue;

/// The word of a Boolean.
pub fn bit(b: bool) -> i64
    ensures { result ≡ bit b }
{
    if b { 1 } else { 0 }
}

// Whether the word is that of true.
fn is_one(w: i64) -> bool
    ensures { result ≡ is_on w }
{
    w == 1
}

/// The Boolean of the word in that place.
pub fn is_on(words: &[i64], i: usize) -> bool
    requires { i < length words.now }
    ensures { result ≡ is_on (word words.now i) }
{
    words[i] == 1
}

/// The word in that place.
pub fn read(words: &[i64], i: usize) -> i64
    requires { i < length words.now }
    ensures { result ≡ word words.now i }
{
    words[i]
}

/// The Real of the word in that place.
pub fn read_real(words: &[i64], i: usize) -> Real
    requires within { i < length words.now }
    requires range { InRange (word words.now i) }
    ensures { result ≡ word words.now i }
{
    match Real::from_count(words[i]) {
        Some(x) => x,
        None => unreachable!(),
    }
}

/// Whether each word is that of true.
pub fn all_on(words: &[i64]) -> bool
    ensures { result ≡ list_all is_on words.now }
{
    words.iter().all(|w| is_one(*w))
}

/// Whether at least one word is that of true.
pub fn any_on(words: &[i64]) -> bool
    ensures { result ≡ list_any is_on words.now }
{
    words.iter().any(|w| is_one(*w))
}

/// The one word becomes this.
#[tactic(auto, using(crate::proofs::Writes::set_one))]
pub fn put_one(words: &mut [i64], a: i64)
    requires { length words.old ≡ 1 }
    ensures { words.new ≡ a ∷ [] }
{
    words[0] = a;
}

/// The two words become these.
#[tactic(auto, using(crate::proofs::Writes::set_two))]
pub fn put_two(words: &mut [i64], a: i64, b: i64)
    requires { length words.old ≡ 2 }
    ensures { words.new ≡ a ∷ b ∷ [] }
{
    words[0] = a;
    words[1] = b;
}

/// The three words become these.
#[tactic(auto, using(crate::proofs::Writes::set_three))]
pub fn put_three(words: &mut [i64], a: i64, b: i64, c: i64)
    requires { length words.old ≡ 3 }
    ensures { words.new ≡ a ∷ b ∷ c ∷ [] }
{
    words[0] = a;
    words[1] = b;
    words[2] = c;
}

// The greatest magnitude of an Integer.
const INTEGER_LIMIT: i64 = LARGEST_INTEGER as i64;

/// The one word becomes this Integer. NoValue: it is out of range, and the word stays.
pub fn put_integer(words: &mut [i64], z: i64) -> Result<(), NoValue>
    requires { length words.old ≡ 1 }
    ensures value { MatchResult result (λ _. integer z ≡ Some words.new) (λ _. integer z ≡ None) }
    ensures stays { OnErr result (words.new ≡ words.old) }
{
    if -INTEGER_LIMIT <= z && z <= INTEGER_LIMIT {
        put_one(words, z);
        Ok(())
    } else {
        Err(NoValue)
    }
}

/// The one word becomes this Real. NoValue: there is none, and the word stays.
pub fn put_real(words: &mut [i64], x: Option<Real>) -> Result<(), NoValue>
    requires { length words.old ≡ 1 }
    ensures value { MatchResult result (λ _. one x ≡ Some words.new) (λ _. one x ≡ None) }
    ensures stays { OnErr result (words.new ≡ words.old) }
{
    match x {
        Some(x) => {
            put_one(words, x.count());
            Ok(())
        }
        None => Err(NoValue),
    }
}
