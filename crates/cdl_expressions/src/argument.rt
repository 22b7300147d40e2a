// Texts and arguments. No list has more than `most` parts: the count of tokens is enough.
ghost use Rattle.std.specs.Prelude.{◌≡◌, List, []};
ghost use Rattle.cdl_reading.specs.Gives.{Gives, Nests};
ghost use Rattle.cdl_expressions.specs.Arguments as spec;

use crate::expression::expr;
use cdl_reading::{Cursor, Fault};
use cdl_source::List;
use cdl_tree::{Expr, Modifier, Terminal};
use std::alloc::Global;

// { "+" STRING }
fn strings(tokens: &mut Cursor<'_>, most: usize) -> Result<(), Fault>
    ensures { Gives (spec.strings_from most tokens.old) result tokens.new }
{
    for _turn in 0..most {
        if !tokens.eat(Terminal::Plus) {
            return Ok(());
        }
        tokens.expect(Terminal::Str)?;
    }
    Ok(())
}

/// `text = [ STRING { "+" STRING } ]`, with at most `most` strings behind the first. It makes nothing. `Syntax` where no string
/// stands behind a `+`, with the cursor there.
#[tactic(auto, unfolding(crate::specs::Arguments::text_of))]
pub fn text(tokens: &mut Cursor<'_>, most: usize) -> Result<(), Fault>
    ensures { Gives (spec.text_of most tokens.old) result tokens.new }
{
    if tokens.eat(Terminal::Str) {
        strings(tokens, most)
    } else {
        Ok(())
    }
}

/// An expression behind a token of this terminal, or `None` where that does not stand. In the expression expressions nest no
/// deeper than `most`, and errors are those of `expr`.
#[tactic(auto, unfolding(crate::specs::Arguments::optional))]
pub fn optional(
    alloc: Global,
    tokens: &mut Cursor<'_>,
    terminal: Terminal,
    most: usize,
) -> Result<Option<Expr>, Fault>
    ensures { Gives (spec.optional terminal most tokens.old) result tokens.new }
{
    if !tokens.eat(terminal) {
        return Ok(None);
    }
    let value = expr(alloc, tokens, most)?;
    Ok(Some(value))
}

/// Reads the productions of arguments.
#[derive(Clone, Copy)]
pub(crate) struct Arguments<F> {
    alloc: Global,
    /// How deep arguments may still nest, and how long lists are.
    depth: usize,
    whole: F,
}

impl<F: Fn(Global, &mut Cursor<'_>, usize) -> Result<List<Modifier>, Fault>> Arguments<F> {
    fn whole(&self, tokens: &mut Cursor<'_>) -> Result<List<Modifier>, Fault>
        requires { Nests spec.args self.now.depth (F.pre self.now.whole) (F.post self.now.whole) }
        ensures { Gives (spec.args self.now.depth tokens.old) result tokens.new }
    {
        (self.whole)(self.alloc, tokens, self.depth)
    }

    // [ args ]
    #[tactic(auto, unfolding(crate::specs::Arguments::optional_args))]
    fn optional(&self, tokens: &mut Cursor<'_>) -> Result<Option<List<Modifier>>, Fault>
        requires { Nests spec.args self.now.depth (F.pre self.now.whole) (F.post self.now.whole) }
        ensures { Gives (spec.optional_args (spec.args self.now.depth) tokens.old) result tokens.new }
    {
        if !tokens.sees(Terminal::Open) {
            return Ok(None);
        }
        let args = self.whole(tokens)?;
        Ok(Some(args))
    }

    // arg = [ "each" ] [ "final" ] IDENT [ args ] [ "=" expr ] text
    #[tactic(auto, unfolding(crate::specs::Arguments::arg, cdl_reading::specs::Reading::made, cdl_tree::specs::Trees::the_modifier))]
    fn arg(&self, tokens: &mut Cursor<'_>) -> Result<Modifier, Fault>
        requires { Nests spec.args self.now.depth (F.pre self.now.whole) (F.post self.now.whole) }
        ensures { Gives (spec.arg self.now.depth (spec.args self.now.depth) tokens.old) result tokens.new }
    {
        let start = tokens.here();
        let each = tokens.eat(Terminal::Each);
        let is_final = tokens.eat(Terminal::Final);
        let name = tokens.ident(self.alloc)?;
        let args = self.optional(tokens)?;
        let value = optional(self.alloc, tokens, Terminal::Equals, self.depth)?;
        text(tokens, self.depth)?;
        let span = tokens.span_since(&start);
        Ok(Modifier {
            each,
            is_final,
            name,
            args,
            value,
            span,
        })
    }

    // arg { "," arg }
    fn list(&self, tokens: &mut Cursor<'_>) -> Result<List<Modifier>, Fault>
        requires { Nests spec.args self.now.depth (F.pre self.now.whole) (F.post self.now.whole) }
        ensures { Gives (spec.arg_list self.now.depth (spec.args self.now.depth) tokens.old) result tokens.new }
    {
        let mut found = List::new(self.alloc);
        found.push(self.arg(tokens)?)?;
        for _turn in 0..self.depth {
            if !tokens.eat(Terminal::Comma) {
                return Ok(found);
            }
            found.push(self.arg(tokens)?)?;
        }
        Ok(found)
    }

    // args = "(" [ arg { "," arg } ] ")"
    #[tactic(auto, unfolding(crate::specs::Arguments::arguments))]
    pub(crate) fn arguments(&self, tokens: &mut Cursor<'_>) -> Result<List<Modifier>, Fault>
        requires { Nests spec.args self.now.depth (F.pre self.now.whole) (F.post self.now.whole) }
        ensures { Gives (spec.arguments self.now.depth (spec.args self.now.depth) tokens.old) result tokens.new }
    {
        tokens.expect(Terminal::Open)?;
        if tokens.eat(Terminal::Close) {
            return Ok(List::new(self.alloc));
        }
        let found = self.list(tokens)?;
        tokens.expect(Terminal::Close)?;
        Ok(found)
    }
}

// Arguments that nest no deeper than `depth`.
fn args(alloc: Global, tokens: &mut Cursor<'_>, depth: usize) -> Result<List<Modifier>, Fault>
    ensures { Gives (spec.args depth tokens.old) result tokens.new }
{
    if depth == 0 {
        return Err(Fault::Syntax);
    }
    Arguments {
        alloc,
        depth: depth - 1,
        whole: args,
    }
    .arguments(tokens)
}

/// `[ args ]`: the arguments between parentheses, or `None` where no parenthesis opens. Arguments and the expressions in them nest
/// no deeper than `most`, and no list has more than `most` parts behind its first. `Syntax` where the tokens go on with none, with
/// the cursor at the token that is refused; `OutOfMemory` where no memory was left.
#[tactic(auto, unfolding(crate::specs::Arguments::optional_args))]
pub fn optional_args(
    alloc: Global,
    tokens: &mut Cursor<'_>,
    most: usize,
) -> Result<Option<List<Modifier>>, Fault>
    ensures { Gives (spec.optional_args (spec.args most) tokens.old) result tokens.new }
{
    if !tokens.sees(Terminal::Open) {
        return Ok(None);
    }
    let found = args(alloc, tokens, most)?;
    Ok(Some(found))
}
