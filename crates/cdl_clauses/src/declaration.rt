// Annotations and declarations. No list has more than `most` parts: the count of tokens is enough.
ghost use Rattle.std.specs.Prelude.{◌≡◌, List, [], Ok as Success};
ghost use Rattle.cdl_tree.specs.Grammar as grammar;
ghost use Rattle.cdl_tree.specs.Trees as trees;
ghost use Rattle.cdl_reading.specs.Gives.{Gives};
ghost use Rattle.cdl_clauses.specs.Declarations as spec;

use cdl_expressions::{expr, name, optional, optional_args, text};
use cdl_reading::{Cursor, Fault, list};
use cdl_source::List;
use cdl_tree::{Dim, Item, Modifier, Name, Prefix, Terminal};
use std::alloc::Global;

// What closes a bracket.
fn partner(terminal: Terminal) -> Option<Terminal>
    ensures { result ≡ grammar.partner terminal }
{
    match terminal {
        Terminal::Open => Some(Terminal::Close),
        Terminal::OpenBracket => Some(Terminal::CloseBracket),
        Terminal::OpenBrace => Some(Terminal::CloseBrace),
        _ => None,
    }
}

fn is_plain(terminal: Terminal) -> bool
    ensures { result ≡ grammar.is_plain terminal }
{
    match terminal {
        Terminal::Open
        | Terminal::Close
        | Terminal::OpenBracket
        | Terminal::CloseBracket
        | Terminal::OpenBrace
        | Terminal::CloseBrace
        | Terminal::Nothing => false,
        _ => true,
    }
}

// A token that is no bracket.
#[tactic(auto, unfolding(crate::specs::Declarations::plain))]
fn plain(tokens: &mut Cursor<'_>) -> Result<(), Fault>
    ensures { Gives (spec.plain tokens.old) result tokens.new }
{
    if !is_plain(tokens.peek()) {
        return Err(Fault::Syntax);
    }
    tokens.skip();
    Ok(())
}

// No closing bracket and not the end.
fn begins_balanced(terminal: Terminal) -> bool
    ensures { result ≡ spec.begins_balanced terminal }
{
    match terminal {
        Terminal::Close | Terminal::CloseBracket | Terminal::CloseBrace | Terminal::Nothing =>
            false,
        _ => true,
    }
}

// Balanced tokens whose brackets nest no deeper than `depth`.
#[cycle(balanced)]
fn balanced(tokens: &mut Cursor<'_>, depth: usize) -> Result<(), Fault>
    ensures { Gives (spec.balanced depth tokens.old) result tokens.new }
{
    if depth == 0 {
        return Ok(());
    }
    balanced_parts(tokens, depth - 1, depth)
}

// At most so many parts, with brackets inside that nest no deeper than `depth`.
#[cycle(balanced)]
fn balanced_parts(tokens: &mut Cursor<'_>, depth: usize, turns: usize) -> Result<(), Fault>
    ensures { Gives (spec.balanced_from (spec.balanced depth) turns tokens.old) result tokens.new }
{
    for _turn in 0..turns {
        if !begins_balanced(tokens.peek()) {
            return Ok(());
        }
        balanced_part(tokens, depth)?;
    }
    Ok(())
}

// A token, or brackets and what they enclose.
#[cycle(balanced)]
#[tactic(auto, unfolding(crate::specs::Declarations::balanced_part))]
fn balanced_part(tokens: &mut Cursor<'_>, depth: usize) -> Result<(), Fault>
    ensures { Gives (spec.balanced_part (spec.balanced depth) tokens.old) result tokens.new }
{
    match partner(tokens.peek()) {
        Some(closer) => {
            tokens.skip();
            balanced(tokens, depth)?;
            tokens.expect(closer)
        }
        None => plain(tokens),
    }
}

// note = "annotation" "(" balanced ")"
#[tactic(auto, unfolding(crate::specs::Declarations::note))]
fn note(tokens: &mut Cursor<'_>, most: usize) -> Result<(), Fault>
    ensures { Gives (spec.note most tokens.old) result tokens.new }
{
    tokens.expect(Terminal::Annotation)?;
    tokens.expect(Terminal::Open)?;
    balanced(tokens, most)?;
    tokens.expect(Terminal::Close)
}

/// `note ";"`
#[tactic(auto, unfolding(crate::specs::Declarations::note_clause))]
pub fn note_clause(tokens: &mut Cursor<'_>, most: usize) -> Result<(), Fault>
    ensures { Gives (spec.note_clause most tokens.old) result tokens.new }
{
    note(tokens, most)?;
    tokens.expect(Terminal::Semicolon)
}

/// `tail = text [ note ]`
#[tactic(auto, unfolding(crate::specs::Declarations::tail))]
pub fn tail(tokens: &mut Cursor<'_>, most: usize) -> Result<(), Fault>
    ensures { Gives (spec.tail most tokens.old) result tokens.new }
{
    text(tokens, most)?;
    if tokens.sees(Terminal::Annotation) {
        note(tokens, most)
    } else {
        Ok(())
    }
}

// No list of arguments is an empty one in the tree of a declaration.
fn listed(alloc: Global, args: Option<List<Modifier>>) -> List<Modifier>
    ensures { result ≡ trees.listed args }
{
    match args {
        Some(args) => args,
        None => List::new(alloc),
    }
}

// dim = ":" | expr
#[tactic(auto, unfolding(crate::specs::Declarations::dim_of))]
fn dim(alloc: Global, tokens: &mut Cursor<'_>, most: usize) -> Result<Dim, Fault>
    ensures { Gives (spec.dim_of most tokens.old) result tokens.new }
{
    if tokens.eat(Terminal::Colon) {
        return Ok(Dim::Any);
    }
    let size = expr(alloc, tokens, most)?;
    Ok(Dim::Size(size))
}

// dim { "," dim }
#[tactic(auto, unfolding(crate::specs::Declarations::dim_list))]
fn dim_list(alloc: Global, tokens: &mut Cursor<'_>, most: usize) -> Result<List<Dim>, Fault>
    ensures { Gives (spec.dim_list most tokens.old) result tokens.new }
{
    let dim = |tokens: &mut Cursor<'_>| dim(alloc, tokens, most);
    list(tokens, Terminal::Comma, most, &dim, List::new(alloc))
}

// [ "[" dim { "," dim } "]" ]
#[tactic(auto, unfolding(crate::specs::Declarations::dims))]
fn dims(alloc: Global, tokens: &mut Cursor<'_>, most: usize) -> Result<List<Dim>, Fault>
    ensures { Gives (spec.dims most tokens.old) result tokens.new }
{
    if !tokens.eat(Terminal::OpenBracket) {
        return Ok(List::new(alloc));
    }
    let found = dim_list(alloc, tokens, most)?;
    tokens.expect(Terminal::CloseBracket)?;
    Ok(found)
}

/// What stands before the declarations of a clause.
#[derive(Drop)]
pub(crate) struct Head {
    is_final: bool,
    prefix: Prefix,
    class: Name,
}

// decl = IDENT [ "[" dim { "," dim } "]" ] [ args ] [ "=" expr ] [ "if" expr ] tail
#[tactic(auto, unfolding(crate::specs::Declarations::decl, cdl_reading::specs::Reading::made, cdl_tree::specs::Trees::the_item))]
fn decl(alloc: Global, tokens: &mut Cursor<'_>, most: usize, head: &Head) -> Result<Item, Fault>
    ensures { Gives (spec.decl most (record { is_final = head.now.is_final; prefix = head.now.prefix; class = head.now.class }) tokens.old) result tokens.new }
{
    let start = tokens.here();
    let name = tokens.ident(alloc)?;
    let dims = dims(alloc, tokens, most)?;
    let args = optional_args(alloc, tokens, most)?;
    let value = optional(alloc, tokens, Terminal::Equals, most)?;
    let condition = optional(alloc, tokens, Terminal::If, most)?;
    tail(tokens, most)?;
    let class = head.class.copy(alloc)?;
    let span = tokens.span_since(&start);
    Ok(Item {
        prefix: head.prefix,
        is_final: head.is_final,
        class,
        name,
        dims,
        args: listed(alloc, args),
        value,
        condition,
        span,
    })
}

// decl { "," decl }, behind the items that are found
fn decls(
    alloc: Global,
    tokens: &mut Cursor<'_>,
    most: usize,
    head: &Head,
    mut found: List<Item>,
) -> Result<List<Item>, Fault>
    ensures { Gives (spec.decls most (record { is_final = head.now.is_final; prefix = head.now.prefix; class = head.now.class }) found tokens.old) result tokens.new }
{
    found.push(decl(alloc, tokens, most, head)?)?;
    for _turn in 0..most {
        if !tokens.eat(Terminal::Comma) {
            return Ok(found);
        }
        found.push(decl(alloc, tokens, most, head)?)?;
    }
    Ok(found)
}

// [ "parameter" | "constant" ]
#[tactic(auto, unfolding(crate::specs::Declarations::prefix_of))]
fn prefix(tokens: &mut Cursor<'_>) -> Prefix
    ensures { spec.prefix_of tokens.old ≡ Success (result, tokens.new) }
{
    if tokens.eat(Terminal::Parameter) {
        return Prefix::Parameter;
    }
    if tokens.eat(Terminal::Constant) {
        return Prefix::Constant;
    }
    Prefix::Plain
}

/// `clause = [ "final" ] [ "parameter" | "constant" ] name decl { "," decl } ";"`: its items, behind those that are found.
#[tactic(auto, unfolding(crate::specs::Declarations::clause))]
pub fn clause(
    alloc: Global,
    tokens: &mut Cursor<'_>,
    most: usize,
    found: List<Item>,
) -> Result<List<Item>, Fault>
    ensures { Gives (spec.clause most found tokens.old) result tokens.new }
{
    let is_final = tokens.eat(Terminal::Final);
    let prefix = prefix(tokens);
    let parts = name(alloc, tokens, most)?;
    let head = Head {
        is_final,
        prefix,
        class: Name { parts },
    };
    let items = decls(alloc, tokens, most, &head, found)?;
    tokens.expect(Terminal::Semicolon)?;
    Ok(items)
}

/// `constant = [ "final" ] "constant" name decl { "," decl } ";"`: its items, behind those that are found.
#[tactic(auto, unfolding(crate::specs::Declarations::constant))]
pub fn constant(
    alloc: Global,
    tokens: &mut Cursor<'_>,
    most: usize,
    found: List<Item>,
) -> Result<List<Item>, Fault>
    ensures { Gives (spec.constant most found tokens.old) result tokens.new }
{
    let is_final = tokens.eat(Terminal::Final);
    tokens.expect(Terminal::Constant)?;
    let parts = name(alloc, tokens, most)?;
    let head = Head {
        is_final,
        prefix: Prefix::Constant,
        class: Name { parts },
    };
    let items = decls(alloc, tokens, most, &head, found)?;
    tokens.expect(Terminal::Semicolon)?;
    Ok(items)
}
