// Statements. The rules of loops take the parser of statements as a parameter.
ghost use Rattle.std.specs.Prelude.{◌≡◌, List, []};
ghost use Rattle.cdl_reading.specs.Gives.{Gives, Nests};
ghost use Rattle.cdl_clauses.specs.Statements as spec;

use crate::connection::connect;
use crate::declaration::note_clause;
use cdl_expressions::expr;
use cdl_reading::{Cursor, Fault};
use cdl_source::List;
use cdl_tree::{Expr, Ident, Loop, Statement, Terminal};
use std::alloc::Global;

/// What stands before the body of a loop.
#[derive(Drop)]
pub(crate) struct LoopHead {
    pub(crate) index: Ident,
    pub(crate) low: Expr,
    pub(crate) high: Expr,
}

// "for" IDENT "in" expr ":" expr "loop"
#[tactic(auto, unfolding(crate::specs::Statements::loop_head))]
fn loop_head(alloc: Global, tokens: &mut Cursor<'_>, most: usize) -> Result<LoopHead, Fault>
    ensures { Gives (spec.loop_head most tokens.old) result tokens.new }
{
    tokens.expect(Terminal::For)?;
    let index = tokens.ident(alloc)?;
    tokens.expect(Terminal::In)?;
    let low = expr(alloc, tokens, most)?;
    tokens.expect(Terminal::Colon)?;
    let high = expr(alloc, tokens, most)?;
    tokens.expect(Terminal::Loop)?;
    Ok(LoopHead { index, low, high })
}

fn begins_statement(terminal: Terminal) -> bool
    ensures { result ≡ spec.begins_statement terminal }
{
    match terminal {
        Terminal::Connect | Terminal::For => true,
        _ => false,
    }
}

/// Reads the productions of statements.
#[derive(Clone, Copy)]
pub(crate) struct Statements<F> {
    alloc: Global,
    /// How deep loops may still nest, and how long lists are.
    depth: usize,
    whole: F,
}

impl<F: Fn(Global, &mut Cursor<'_>, usize) -> Result<Statement, Fault>> Statements<F> {
    fn whole(&self, tokens: &mut Cursor<'_>) -> Result<Statement, Fault>
        requires { Nests spec.statement self.now.depth (F.pre self.now.whole) (F.post self.now.whole) }
        ensures { Gives (spec.statement self.now.depth tokens.old) result tokens.new }
    {
        (self.whole)(self.alloc, tokens, self.depth)
    }

    // { statement }
    fn body(&self, tokens: &mut Cursor<'_>) -> Result<List<Statement>, Fault>
        requires { Nests spec.statement self.now.depth (F.pre self.now.whole) (F.post self.now.whole) }
        ensures { Gives (spec.body self.now.depth (spec.statement self.now.depth) tokens.old) result tokens.new }
    {
        let mut found = List::new(self.alloc);
        for _turn in 0..self.depth {
            if !begins_statement(tokens.peek()) {
                return Ok(found);
            }
            found.push(self.whole(tokens)?)?;
        }
        Ok(found)
    }

    // "for" IDENT "in" expr ":" expr "loop" { statement } "end" "for" ";"
    #[tactic(auto, unfolding(crate::specs::Statements::a_loop, cdl_reading::specs::Reading::made, cdl_tree::specs::Trees::the_loop))]
    fn a_loop(&self, tokens: &mut Cursor<'_>) -> Result<Loop, Fault>
        requires { Nests spec.statement self.now.depth (F.pre self.now.whole) (F.post self.now.whole) }
        ensures { Gives (spec.a_loop self.now.depth (spec.statement self.now.depth) tokens.old) result tokens.new }
    {
        let start = tokens.here();
        let LoopHead { index, low, high } = loop_head(self.alloc, tokens, self.depth)?;
        let body = self.body(tokens)?;
        tokens.expect(Terminal::End)?;
        tokens.expect(Terminal::For)?;
        tokens.expect(Terminal::Semicolon)?;
        let span = tokens.span_since(&start);
        Ok(Loop {
            index,
            low,
            high,
            body,
            span,
        })
    }

    /// `connect | loop`
    #[tactic(auto, unfolding(crate::specs::Statements::any_statement))]
    pub(crate) fn any(&self, tokens: &mut Cursor<'_>) -> Result<Statement, Fault>
        requires { Nests spec.statement self.now.depth (F.pre self.now.whole) (F.post self.now.whole) }
        ensures { Gives (spec.any_statement self.now.depth (spec.statement self.now.depth) tokens.old) result tokens.new }
    {
        if tokens.sees(Terminal::Connect) {
            let connect = connect(self.alloc, tokens, self.depth)?;
            Ok(Statement::Connect(connect))
        } else {
            let turns = self.a_loop(tokens)?;
            Ok(Statement::Loop(turns))
        }
    }
}

// A statement in which loops nest no deeper than `depth`.
fn statement(alloc: Global, tokens: &mut Cursor<'_>, depth: usize) -> Result<Statement, Fault>
    ensures { Gives (spec.statement depth tokens.old) result tokens.new }
{
    if depth == 0 {
        return Err(Fault::Syntax);
    }
    Statements {
        alloc,
        depth: depth - 1,
        whole: statement,
    }
    .any(tokens)
}

fn begins_equation(terminal: Terminal) -> bool
    ensures { result ≡ spec.begins_equation terminal }
{
    match terminal {
        Terminal::Connect | Terminal::For | Terminal::Annotation => true,
        _ => false,
    }
}

// statement | note ";", behind the statements that are found
#[tactic(auto, unfolding(crate::specs::Statements::equation))]
fn equation(
    alloc: Global,
    tokens: &mut Cursor<'_>,
    most: usize,
    mut found: List<Statement>,
) -> Result<List<Statement>, Fault>
    ensures { Gives (spec.equation most found tokens.old) result tokens.new }
{
    if tokens.sees(Terminal::Annotation) {
        note_clause(tokens, most)?;
        Ok(found)
    } else {
        found.push(statement(alloc, tokens, most)?)?;
        Ok(found)
    }
}

// { statement | note ";" }
fn equations(alloc: Global, tokens: &mut Cursor<'_>, most: usize) -> Result<List<Statement>, Fault>
    ensures { Gives (spec.equations_from most most [] tokens.old) result tokens.new }
{
    let mut found = List::new(alloc);
    for _turn in 0..most {
        if !begins_equation(tokens.peek()) {
            return Ok(found);
        }
        found = equation(alloc, tokens, most, found)?;
    }
    Ok(found)
}

/// `[ "equation" { statement | note ";" } ]`
#[tactic(auto, unfolding(crate::specs::Statements::equation_part))]
pub fn equation_part(
    alloc: Global,
    tokens: &mut Cursor<'_>,
    most: usize,
) -> Result<List<Statement>, Fault>
    ensures { Gives (spec.equation_part most tokens.old) result tokens.new }
{
    if tokens.eat(Terminal::Equation) {
        equations(alloc, tokens, most)
    } else {
        Ok(List::new(alloc))
    }
}
