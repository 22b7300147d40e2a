// The conditions of the kinds on their parameters.
ghost use Rattle.std.specs.Prelude.{◌≡◌, ◌<◌, map, length, MatchResult, IfOk, IfSome, Some, None, not, position};
ghost use Rattle.cdl_kinds.specs.Conditions.{Fits, Keeps, conditions, first_broken, holds, is_count, is_positive, is_share, is_window, not_negative};

use crate::kind::Kind;
use crate::params::{KindFault, Params, integer_at, real_at};
use crate::table::kind_row;
use cdl_source::List;
use cdl_values::Array;

// What is asked of the values of parameters, which are named by their numbers, counted from 0.
#[derive(Clone, Copy, Drop)]
pub enum Condition {
    // An Integer from 1 to 256.
    Count(usize),
    // An Integer from 1 to 1024.
    Window(usize),
    // A Real that is 0 or more.
    NotNegative(usize),
    // A Real above 0.
    Positive(usize),
    // A Real above 0 and below 1.
    Share(usize),
    // The first Real is below the second.
    Below(usize, usize),
}

// From 1 to 256.
fn is_count(z: i32) -> bool
    ensures { result ≡ is_count z }
{
    1 <= z && z <= 256
}

// From 1 to 1024.
fn is_window(z: i32) -> bool
    ensures { result ≡ is_window z }
{
    1 <= z && z <= 1024
}

fn not_negative(count: i64) -> bool
    ensures { result ≡ not_negative count }
{
    0 <= count
}

fn is_positive(count: i64) -> bool
    ensures { result ≡ is_positive count }
{
    0 < count
}

// Above 0 and below 1, in millionths.
fn is_share(count: i64) -> bool
    ensures { result ≡ is_share count }
{
    0 < count && count < 1_000_000
}

// Whether the values keep the condition.
fn holds(condition: Condition, values: &[Array]) -> bool
    ensures { result ≡ holds values.now condition }
{
    match condition {
        Condition::Count(i) => is_count(integer_at(values, i)),
        Condition::Window(i) => is_window(integer_at(values, i)),
        Condition::NotNegative(i) => not_negative(real_at(values, i)),
        Condition::Positive(i) => is_positive(real_at(values, i)),
        Condition::Share(i) => is_share(real_at(values, i)),
        Condition::Below(i, j) => real_at(values, i) < real_at(values, j),
    }
}

// The index of the first condition that the values break.
fn first_false(conditions: &[Condition], values: &[Array]) -> Option<usize>
    ensures place { result ≡ position (λ condition. not (holds values.now condition)) conditions.now }
    ensures within { IfSome result (λ i. i < length conditions.now) }
{
    conditions
        .iter()
        .position(|condition| !holds(*condition, values))
}

// The number of the first condition that the values break, counted from 1.
#[tactic(auto, using(crate::proofs::Positions::position_map))]
fn first_broken(conditions: &[Condition], values: &[Array]) -> Option<u32>
    requires { length conditions.now < 16 }
    ensures { result ≡ first_broken (map (holds values.now) conditions.now) }
{
    match first_false(conditions, values) {
        Some(i) => Some(i as u32 + 1),
        None => None,
    }
}

// The number of the first condition of the kind that these values break.
fn broken(kind: Kind, values: &[Array]) -> Option<u32>
    ensures { result ≡ first_broken (conditions kind values.now) }
{
    first_broken(kind_row(kind).conditions, values)
}

/// Tests the conditions of the kind, in the order of the table, and takes the values as its parameters.
/// There is one value for each parameter, in the order of the table, of its type and shape.
/// The fault is the first condition that is broken, and hands the values back.
pub fn check(kind: Kind, values: List<Array>) -> Result<Params, KindFault>
    requires { Fits kind values }
    ensures ok { MatchResult result (λ params. params ≡ values) (λ fault. fault.values ≡ values) }
    ensures keeps { IfOk result (λ params. Keeps kind params) }
    ensures first { MatchResult result (λ _. first_broken (conditions kind values) ≡ None) (λ fault. first_broken (conditions kind values) ≡ Some fault.condition) }
{
    match broken(kind, values.items()) {
        None => Ok(Params::keep(values)),
        Some(condition) => Err(KindFault { condition, values }),
    }
}
