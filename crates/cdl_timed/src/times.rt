// Times and runs in state words.
ghost use Rattle.std.specs.Prelude.{◌≡◌, ◌≤ℤ◌, [], ◌∷◌, length, pos};
ghost use Rattle.cdl_values.specs.declared.value.ValueType.TheVariants.{Boolean, Real as RealType};
ghost use Rattle.cdl_decimal.specs.Near.{InRange};
ghost use Rattle.cdl_values.specs.History.{AreValues, IsTime, bit, typed};
ghost use Rattle.cdl_kinds.specs.Meaning.Timers.{elapsed, run_length, timed};
ghost use Rattle.cdl_kinds.specs.States.{time_word};
ghost use Rattle.cdl_timed.specs.Runs.{IsRun, run_next, time_of};

use cdl_decimal::Real;
use cdl_values::words::{bit, put_one, put_two};

/// The time of the word; none for -1.
pub fn read_time(word: i64) -> Option<i64>
    ensures { result ≡ time_of word }
{
    if word < 0 { None } else { Some(word) }
}

/// The word of the time; -1 for none.
pub fn time_word(time: Option<i64>) -> i64
    ensures { result ≡ time_word time }
{
    match time {
        Some(time) => time,
        None => -1,
    }
}

/// From one time to a later one, in millionths of a second.
pub fn elapsed(begin: i64, now: i64) -> i64
    requires begin { pos 0 ≤ℤ begin }
    requires order { begin ≤ℤ now }
    requires now { IsTime now }
    ensures value { result ≡ elapsed begin now }
    ensures range { InRange result }
    ensures positive { pos 0 ≤ℤ result }
{
    (now - begin) * 1000
}

/// When the run of true inputs began that this tick ends, from when the one before began.
pub fn run_next(since: Option<i64>, now: i64, on: bool) -> Option<i64>
    requires now { IsTime now }
    requires run { IsRun now since }
    ensures value { result ≡ run_next since now on }
    ensures run { IsRun now result }
{
    match since {
        Some(begin) if on => Some(begin),
        None if on => Some(now),
        _ => None,
    }
}

/// How long a run lasts, in millionths of a second; 0 where there is none.
pub fn run_length(since: Option<i64>, now: i64) -> i64
    requires now { IsTime now }
    requires run { IsRun now since }
    ensures value { result ≡ run_length since now }
    ensures range { InRange result }
{
    match since {
        Some(begin) => elapsed(begin, now),
        None => 0,
    }
}

/// The two words become how long something lasted, and whether it is at least a time and this is true besides.
#[tactic(auto, using(crate::proofs::RunStates::timed_typed))]
pub fn put_timed(words: &mut [i64], lasted: i64, time: Real, on: bool)
    requires words { length words.old ≡ 2 }
    requires range { InRange lasted }
    ensures value { words.new ≡ timed time on lasted }
    ensures typed { AreValues (typed (RealType ∷ Boolean ∷ [])) words.new }
{
    put_two(words, lasted, bit(on && time.count() <= lasted));
}

/// The one word becomes that of a Boolean.
pub fn put_flag(words: &mut [i64], b: bool)
    requires { length words.old ≡ 1 }
    ensures { words.new ≡ bit b ∷ [] }
{
    put_one(words, bit(b));
}

/// The four words become these.
pub fn put_four(words: &mut [i64], a: i64, b: i64, c: i64, d: i64)
    requires { length words.old ≡ 4 }
    ensures { words.new ≡ a ∷ b ∷ c ∷ d ∷ [] }
{
    words.copy_from_slice(&[a, b, c, d]);
}
