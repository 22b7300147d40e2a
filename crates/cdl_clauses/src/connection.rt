// Connect statements.
ghost use Rattle.cdl_reading.specs.Gives.{Gives};
ghost use Rattle.cdl_clauses.specs.Declarations as spec;

use crate::declaration::tail;
use cdl_expressions::expr;
use cdl_reading::{Cursor, Fault, list};
use cdl_source::List;
use cdl_tree::{Connect, Part, Ref, Sub, Terminal};
use std::alloc::Global;

// sub = ":" | expr [ ":" expr ]
#[tactic(auto, unfolding(crate::specs::Declarations::sub_of))]
fn sub(alloc: Global, tokens: &mut Cursor<'_>, most: usize) -> Result<Sub, Fault>
    ensures { Gives (spec.sub_of most tokens.old) result tokens.new }
{
    if tokens.eat(Terminal::Colon) {
        return Ok(Sub::All);
    }
    let low = expr(alloc, tokens, most)?;
    if !tokens.eat(Terminal::Colon) {
        return Ok(Sub::One(low));
    }
    let high = expr(alloc, tokens, most)?;
    Ok(Sub::Range(low, high))
}

// sub { "," sub }
#[tactic(auto, unfolding(crate::specs::Declarations::sub_list))]
fn sub_list(alloc: Global, tokens: &mut Cursor<'_>, most: usize) -> Result<List<Sub>, Fault>
    ensures { Gives (spec.sub_list most tokens.old) result tokens.new }
{
    let sub = |tokens: &mut Cursor<'_>| sub(alloc, tokens, most);
    list(tokens, Terminal::Comma, most, &sub, List::new(alloc))
}

// [ "[" sub { "," sub } "]" ]
#[tactic(auto, unfolding(crate::specs::Declarations::subs))]
fn subs(alloc: Global, tokens: &mut Cursor<'_>, most: usize) -> Result<List<Sub>, Fault>
    ensures { Gives (spec.subs most tokens.old) result tokens.new }
{
    if !tokens.eat(Terminal::OpenBracket) {
        return Ok(List::new(alloc));
    }
    let found = sub_list(alloc, tokens, most)?;
    tokens.expect(Terminal::CloseBracket)?;
    Ok(found)
}

// part = IDENT [ "[" sub { "," sub } "]" ]
#[tactic(auto, unfolding(crate::specs::Declarations::part))]
fn part(alloc: Global, tokens: &mut Cursor<'_>, most: usize) -> Result<Part, Fault>
    ensures { Gives (spec.part most tokens.old) result tokens.new }
{
    let name = tokens.ident(alloc)?;
    let subs = subs(alloc, tokens, most)?;
    Ok(Part { name, subs })
}

// ref = part { "." part }
#[tactic(auto, unfolding(crate::specs::Declarations::reference))]
fn reference(alloc: Global, tokens: &mut Cursor<'_>, most: usize) -> Result<List<Part>, Fault>
    ensures { Gives (spec.reference most tokens.old) result tokens.new }
{
    let part = |tokens: &mut Cursor<'_>| part(alloc, tokens, most);
    list(tokens, Terminal::Period, most, &part, List::new(alloc))
}

/// `connect = "connect" "(" ref "," ref ")" tail ";"`
#[tactic(auto, unfolding(crate::specs::Declarations::connect, cdl_reading::specs::Reading::made, cdl_tree::specs::Trees::the_connect))]
pub(crate) fn connect(alloc: Global, tokens: &mut Cursor<'_>, most: usize) -> Result<Connect, Fault>
    ensures { Gives (spec.connect most tokens.old) result tokens.new }
{
    let start = tokens.here();
    tokens.expect(Terminal::Connect)?;
    tokens.expect(Terminal::Open)?;
    let left = reference(alloc, tokens, most)?;
    tokens.expect(Terminal::Comma)?;
    let right = reference(alloc, tokens, most)?;
    tokens.expect(Terminal::Close)?;
    tail(tokens, most)?;
    tokens.expect(Terminal::Semicolon)?;
    let span = tokens.span_since(&start);
    Ok(Connect {
        left: Ref { parts: left },
        right: Ref { parts: right },
        span,
    })
}
