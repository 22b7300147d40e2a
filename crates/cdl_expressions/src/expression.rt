// Names and expressions. The rules that hold expressions take the parser of expressions as a parameter, so that each is
// proved by itself.
ghost use Rattle.std.specs.Prelude.{◌≡◌, List, [], ◌∷◌, IfOk, OnErr, Err as Error, Ok as Success};
ghost use Rattle.cdl_tree.specs.Trees as trees;
ghost use Rattle.cdl_tree.specs.declared.expr.Node.TheVariants as node;
ghost use Rattle.cdl_reading.specs.declared.cursor.Fault.TheVariants as fault;
ghost use Rattle.cdl_reading.specs.Gives.{Gives, Nests};
ghost use Rattle.cdl_reading.specs.Reading as reading;
ghost use Rattle.cdl_expressions.specs.Expressions as spec;

use cdl_reading::{Cursor, Fault, list, list_behind};
use cdl_source::List;
use cdl_tree::{Expr, Ident, Name, Node, Op, Terminal};
use sqlite_items::Boxed;
use std::alloc::Global;

fn disjunction(terminal: Terminal) -> Option<Op>
    ensures { result ≡ spec.disjunction terminal }
{
    match terminal {
        Terminal::Or => Some(Op::Or),
        _ => None,
    }
}

fn conjunction(terminal: Terminal) -> Option<Op>
    ensures { result ≡ spec.conjunction terminal }
{
    match terminal {
        Terminal::And => Some(Op::And),
        _ => None,
    }
}

fn comparison(terminal: Terminal) -> Option<Op>
    ensures { result ≡ trees.comparison terminal }
{
    match terminal {
        Terminal::Less => Some(Op::Less),
        Terminal::LessEqual => Some(Op::LessEqual),
        Terminal::Greater => Some(Op::Greater),
        Terminal::GreaterEqual => Some(Op::GreaterEqual),
        Terminal::EqualEqual => Some(Op::Equal),
        Terminal::NotEqual => Some(Op::NotEqual),
        _ => None,
    }
}

fn sign(terminal: Terminal) -> Option<Op>
    ensures { result ≡ trees.sign terminal }
{
    match terminal {
        Terminal::Plus => Some(Op::Plus),
        Terminal::Minus => Some(Op::Minus),
        _ => None,
    }
}

fn factor(terminal: Terminal) -> Option<Op>
    ensures { result ≡ trees.factor terminal }
{
    match terminal {
        Terminal::Star => Some(Op::Times),
        Terminal::Slash => Some(Op::Divide),
        _ => None,
    }
}

/// The identifiers of `name = IDENT { "." IDENT }`, at most `most` behind the first. `Syntax` where no identifier
/// stands there or behind a period, with the cursor there; `OutOfMemory` where no memory was left.
#[tactic(auto, unfolding(crate::specs::Expressions::name))]
pub fn name(alloc: Global, tokens: &mut Cursor<'_>, most: usize) -> Result<List<Ident>, Fault>
    ensures { Gives (spec.name most tokens.old) result tokens.new }
{
    let ident = |tokens: &mut Cursor<'_>| tokens.ident(alloc);
    list(tokens, Terminal::Period, most, &ident, List::new(alloc))
}

// The identifiers of a name, of which the first is read.
fn parts(
    alloc: Global,
    tokens: &mut Cursor<'_>,
    most: usize,
    first: Ident,
) -> Result<List<Ident>, Fault>
    ensures { Gives (reading.list_from Terminal.Period reading.ident most (first ∷ []) tokens.old) result tokens.new }
{
    let mut parts = List::new(alloc);
    parts.push(first)?;
    let ident = |tokens: &mut Cursor<'_>| tokens.ident(alloc);
    list_behind(tokens, Terminal::Period, most, &ident, parts)
}

/// Reads the productions of expressions.
#[derive(Clone, Copy)]
pub(crate) struct Grammar<F> {
    alloc: Global,
    /// How deep expressions may still nest, and how long lists are.
    depth: usize,
    whole: F,
}

impl<F: Fn(Global, &mut Cursor<'_>, usize) -> Result<Expr, Fault>> Grammar<F> {
    fn whole(&self, tokens: &mut Cursor<'_>) -> Result<Expr, Fault>
        requires { Nests spec.expr self.now.depth (F.pre self.now.whole) (F.post self.now.whole) }
        ensures { Gives (spec.expr self.now.depth tokens.old) result tokens.new }
    {
        (self.whole)(self.alloc, tokens, self.depth)
    }

    // expr { "," expr }
    fn exprs(&self, tokens: &mut Cursor<'_>) -> Result<List<Expr>, Fault>
        requires { Nests spec.expr self.now.depth (F.pre self.now.whole) (F.post self.now.whole) }
        ensures { Gives (spec.exprs self.now.depth (spec.expr self.now.depth) tokens.old) result tokens.new }
    {
        let mut found = List::new(self.alloc);
        found.push(self.whole(tokens)?)?;
        for _turn in 0..self.depth {
            if !tokens.eat(Terminal::Comma) {
                return Ok(found);
            }
            found.push(self.whole(tokens)?)?;
        }
        Ok(found)
    }

    #[tactic(auto, unfolding(crate::specs::Expressions::integer, cdl_reading::specs::Reading::made))]
    fn integer(&self, tokens: &mut Cursor<'_>) -> Result<Expr, Fault>
        ensures { Gives (spec.integer self.now.depth (spec.expr self.now.depth) tokens.old) result tokens.new }
    {
        let start = tokens.here();
        let value = tokens.integer()?;
        Ok(tokens.made(Node::Integer(value), &start))
    }

    #[tactic(auto, unfolding(crate::specs::Expressions::real, cdl_reading::specs::Reading::made))]
    fn real(&self, tokens: &mut Cursor<'_>) -> Result<Expr, Fault>
        ensures { Gives (spec.real self.now.depth (spec.expr self.now.depth) tokens.old) result tokens.new }
    {
        let start = tokens.here();
        let value = tokens.real()?;
        Ok(tokens.made(Node::Real(value), &start))
    }

    #[tactic(auto, unfolding(crate::specs::Expressions::string, cdl_reading::specs::Reading::made), using(cdl_reading::proofs::Strings::gives_string))]
    fn string(&self, tokens: &mut Cursor<'_>) -> Result<Expr, Fault>
        ensures { Gives (spec.string self.now.depth (spec.expr self.now.depth) tokens.old) result tokens.new }
    {
        let start = tokens.here();
        let text = tokens.string(self.alloc)?;
        Ok(tokens.made(Node::Str(text), &start))
    }

    #[tactic(auto, unfolding(crate::specs::Expressions::true_word, cdl_reading::specs::Reading::made))]
    fn true_word(&self, tokens: &mut Cursor<'_>) -> Result<Expr, Fault>
        ensures { Gives (spec.true_word self.now.depth (spec.expr self.now.depth) tokens.old) result tokens.new }
    {
        let start = tokens.here();
        tokens.expect(Terminal::True)?;
        Ok(tokens.made(Node::Boolean(true), &start))
    }

    #[tactic(auto, unfolding(crate::specs::Expressions::false_word, cdl_reading::specs::Reading::made))]
    fn false_word(&self, tokens: &mut Cursor<'_>) -> Result<Expr, Fault>
        ensures { Gives (spec.false_word self.now.depth (spec.expr self.now.depth) tokens.old) result tokens.new }
    {
        let start = tokens.here();
        tokens.expect(Terminal::False)?;
        Ok(tokens.made(Node::Boolean(false), &start))
    }

    // "(" expr ")"
    #[tactic(auto, unfolding(crate::specs::Expressions::paren))]
    fn paren(&self, tokens: &mut Cursor<'_>) -> Result<Expr, Fault>
        requires { Nests spec.expr self.now.depth (F.pre self.now.whole) (F.post self.now.whole) }
        ensures { Gives (spec.paren self.now.depth (spec.expr self.now.depth) tokens.old) result tokens.new }
    {
        tokens.expect(Terminal::Open)?;
        let found = self.whole(tokens)?;
        tokens.expect(Terminal::Close)?;
        Ok(found)
    }

    // "{" expr { "," expr } "}"
    #[tactic(auto, unfolding(crate::specs::Expressions::array, cdl_reading::specs::Reading::made))]
    fn array(&self, tokens: &mut Cursor<'_>) -> Result<Expr, Fault>
        requires { Nests spec.expr self.now.depth (F.pre self.now.whole) (F.post self.now.whole) }
        ensures { Gives (spec.array self.now.depth (spec.expr self.now.depth) tokens.old) result tokens.new }
    {
        let start = tokens.here();
        tokens.expect(Terminal::OpenBrace)?;
        let found = self.exprs(tokens)?;
        tokens.expect(Terminal::CloseBrace)?;
        Ok(tokens.made(Node::Array(found), &start))
    }

    // [ expr { "," expr } ] ")"
    #[tactic(auto, unfolding(crate::specs::Expressions::operands))]
    fn operands(&self, tokens: &mut Cursor<'_>) -> Result<List<Expr>, Fault>
        requires { Nests spec.expr self.now.depth (F.pre self.now.whole) (F.post self.now.whole) }
        ensures { Gives (spec.operands self.now.depth (spec.expr self.now.depth) tokens.old) result tokens.new }
    {
        if tokens.eat(Terminal::Close) {
            return Ok(List::new(self.alloc));
        }
        let found = self.exprs(tokens)?;
        tokens.expect(Terminal::Close)?;
        Ok(found)
    }

    // [ "[" expr { "," expr } "]" ]
    #[tactic(auto, unfolding(crate::specs::Expressions::subscripts))]
    fn subscripts(&self, tokens: &mut Cursor<'_>) -> Result<List<Expr>, Fault>
        requires { Nests spec.expr self.now.depth (F.pre self.now.whole) (F.post self.now.whole) }
        ensures { Gives (spec.subscripts self.now.depth (spec.expr self.now.depth) tokens.old) result tokens.new }
    {
        if !tokens.eat(Terminal::OpenBracket) {
            return Ok(List::new(self.alloc));
        }
        let found = self.exprs(tokens)?;
        tokens.expect(Terminal::CloseBracket)?;
        Ok(found)
    }

    // A call behind its function and the parenthesis.
    #[tactic(auto, unfolding(crate::specs::Expressions::call, cdl_reading::specs::Reading::made))]
    fn call(
        &self,
        tokens: &mut Cursor<'_>,
        function: Ident,
        start: &Cursor<'_>,
    ) -> Result<Expr, Fault>
        requires { Nests spec.expr self.now.depth (F.pre self.now.whole) (F.post self.now.whole) }
        ensures { Gives (spec.call self.now.depth (spec.expr self.now.depth) function start.now tokens.old) result tokens.new }
    {
        let args = self.operands(tokens)?;
        Ok(tokens.made(Node::Call { function, args }, start))
    }

    // A name and its subscripts, behind its first part.
    #[tactic(auto, unfolding(crate::specs::Expressions::refer, cdl_reading::specs::Reading::made))]
    fn refer(
        &self,
        tokens: &mut Cursor<'_>,
        first: Ident,
        start: &Cursor<'_>,
    ) -> Result<Expr, Fault>
        requires { Nests spec.expr self.now.depth (F.pre self.now.whole) (F.post self.now.whole) }
        ensures { Gives (spec.refer self.now.depth (spec.expr self.now.depth) first start.now tokens.old) result tokens.new }
    {
        let parts = parts(self.alloc, tokens, self.depth, first)?;
        let subs = self.subscripts(tokens)?;
        let name = Name { parts };
        Ok(tokens.made(Node::Refer { name, subs }, start))
    }

    // A call or a name.
    #[tactic(auto, unfolding(crate::specs::Expressions::named))]
    fn named(&self, tokens: &mut Cursor<'_>) -> Result<Expr, Fault>
        requires { Nests spec.expr self.now.depth (F.pre self.now.whole) (F.post self.now.whole) }
        ensures { Gives (spec.named self.now.depth (spec.expr self.now.depth) tokens.old) result tokens.new }
    {
        let start = tokens.here();
        let first = tokens.ident(self.alloc)?;
        if tokens.eat(Terminal::Open) {
            self.call(tokens, first, &start)
        } else {
            self.refer(tokens, first, &start)
        }
    }

    #[tactic(auto, unfolding(crate::specs::Expressions::prim))]
    fn prim(&self, tokens: &mut Cursor<'_>) -> Result<Expr, Fault>
        requires { Nests spec.expr self.now.depth (F.pre self.now.whole) (F.post self.now.whole) }
        ensures { Gives (spec.prim self.now.depth (spec.expr self.now.depth) tokens.old) result tokens.new }
    {
        match tokens.peek() {
            Terminal::Integer => self.integer(tokens),
            Terminal::Real => self.real(tokens),
            Terminal::Str => self.string(tokens),
            Terminal::True => self.true_word(tokens),
            Terminal::False => self.false_word(tokens),
            Terminal::Open => self.paren(tokens),
            Terminal::OpenBrace => self.array(tokens),
            Terminal::Identifier => self.named(tokens),
            _ => Err(Fault::Syntax),
        }
    }

    #[tactic(auto, unfolding(cdl_reading::specs::Reading::made))]
    fn unary(
        &self,
        tokens: &Cursor<'_>,
        op: Op,
        inner: Expr,
        start: &Cursor<'_>,
    ) -> Result<Expr, Fault>
        ensures ok { IfOk result (λ e. reading.made (trees.tree (node.Unary op inner)) start.now tokens.now ≡ Success (e, tokens.now)) }
        ensures err { OnErr result (result ≡ Error fault.OutOfMemory) }
    {
        let inner = Boxed::new(self.alloc, inner)?;
        Ok(tokens.made(Node::Unary(op, inner), start))
    }

    #[tactic(auto, unfolding(cdl_reading::specs::Reading::made))]
    fn binary(
        &self,
        tokens: &Cursor<'_>,
        op: Op,
        left: Expr,
        right: Expr,
        start: &Cursor<'_>,
    ) -> Result<Expr, Fault>
        ensures ok { IfOk result (λ e. reading.made (trees.tree (node.Binary op left right)) start.now tokens.now ≡ Success (e, tokens.now)) }
        ensures err { OnErr result (result ≡ Error fault.OutOfMemory) }
    {
        let left = Boxed::new(self.alloc, left)?;
        let right = Boxed::new(self.alloc, right)?;
        Ok(tokens.made(Node::Binary(op, left, right), start))
    }

    // term = prim { ( "*" | "/" ) prim }
    fn term(&self, tokens: &mut Cursor<'_>) -> Result<Expr, Fault>
        requires { Nests spec.expr self.now.depth (F.pre self.now.whole) (F.post self.now.whole) }
        ensures { Gives (spec.term self.now.depth (spec.expr self.now.depth) tokens.old) result tokens.new }
    {
        let start = tokens.here();
        let mut left = self.prim(tokens)?;
        for _turn in 0..self.depth {
            let Some(op) = factor(tokens.peek()) else {
                return Ok(left);
            };
            tokens.skip();
            let right = self.prim(tokens)?;
            left = self.binary(tokens, op, left, right, &start)?;
        }
        Ok(left)
    }

    // [ "+" | "-" ] term
    #[tactic(auto, unfolding(crate::specs::Expressions::signed))]
    fn signed(&self, tokens: &mut Cursor<'_>) -> Result<Expr, Fault>
        requires { Nests spec.expr self.now.depth (F.pre self.now.whole) (F.post self.now.whole) }
        ensures { Gives (spec.signed self.now.depth (spec.expr self.now.depth) tokens.old) result tokens.new }
    {
        let start = tokens.here();
        let Some(op) = sign(tokens.peek()) else {
            return self.term(tokens);
        };
        tokens.skip();
        let inner = self.term(tokens)?;
        self.unary(tokens, op, inner, &start)
    }

    // sum = [ "+" | "-" ] term { ( "+" | "-" ) term }
    fn sum(&self, tokens: &mut Cursor<'_>) -> Result<Expr, Fault>
        requires { Nests spec.expr self.now.depth (F.pre self.now.whole) (F.post self.now.whole) }
        ensures { Gives (spec.sum self.now.depth (spec.expr self.now.depth) tokens.old) result tokens.new }
    {
        let start = tokens.here();
        let mut left = self.signed(tokens)?;
        for _turn in 0..self.depth {
            let Some(op) = sign(tokens.peek()) else {
                return Ok(left);
            };
            tokens.skip();
            let right = self.term(tokens)?;
            left = self.binary(tokens, op, left, right, &start)?;
        }
        Ok(left)
    }

    // rel = sum [ ( "<" | "<=" | ">" | ">=" | "==" | "<>" ) sum ]
    #[tactic(auto, unfolding(crate::specs::Expressions::rel))]
    fn rel(&self, tokens: &mut Cursor<'_>) -> Result<Expr, Fault>
        requires { Nests spec.expr self.now.depth (F.pre self.now.whole) (F.post self.now.whole) }
        ensures { Gives (spec.rel self.now.depth (spec.expr self.now.depth) tokens.old) result tokens.new }
    {
        let start = tokens.here();
        let left = self.sum(tokens)?;
        let Some(op) = comparison(tokens.peek()) else {
            return Ok(left);
        };
        tokens.skip();
        let right = self.sum(tokens)?;
        self.binary(tokens, op, left, right, &start)
    }

    // lnot = [ "not" ] rel
    #[tactic(auto, unfolding(crate::specs::Expressions::lnot))]
    fn lnot(&self, tokens: &mut Cursor<'_>) -> Result<Expr, Fault>
        requires { Nests spec.expr self.now.depth (F.pre self.now.whole) (F.post self.now.whole) }
        ensures { Gives (spec.lnot self.now.depth (spec.expr self.now.depth) tokens.old) result tokens.new }
    {
        let start = tokens.here();
        if !tokens.eat(Terminal::Not) {
            return self.rel(tokens);
        }
        let inner = self.rel(tokens)?;
        self.unary(tokens, Op::Not, inner, &start)
    }

    // land = lnot { "and" lnot }
    fn land(&self, tokens: &mut Cursor<'_>) -> Result<Expr, Fault>
        requires { Nests spec.expr self.now.depth (F.pre self.now.whole) (F.post self.now.whole) }
        ensures { Gives (spec.land self.now.depth (spec.expr self.now.depth) tokens.old) result tokens.new }
    {
        let start = tokens.here();
        let mut left = self.lnot(tokens)?;
        for _turn in 0..self.depth {
            let Some(op) = conjunction(tokens.peek()) else {
                return Ok(left);
            };
            tokens.skip();
            let right = self.lnot(tokens)?;
            left = self.binary(tokens, op, left, right, &start)?;
        }
        Ok(left)
    }

    // lor = land { "or" land }
    fn lor(&self, tokens: &mut Cursor<'_>) -> Result<Expr, Fault>
        requires { Nests spec.expr self.now.depth (F.pre self.now.whole) (F.post self.now.whole) }
        ensures { Gives (spec.lor self.now.depth (spec.expr self.now.depth) tokens.old) result tokens.new }
    {
        let start = tokens.here();
        let mut left = self.land(tokens)?;
        for _turn in 0..self.depth {
            let Some(op) = disjunction(tokens.peek()) else {
                return Ok(left);
            };
            tokens.skip();
            let right = self.land(tokens)?;
            left = self.binary(tokens, op, left, right, &start)?;
        }
        Ok(left)
    }

    #[tactic(auto, unfolding(cdl_reading::specs::Reading::made))]
    fn if_node(
        &self,
        tokens: &Cursor<'_>,
        condition: Expr,
        holds: Expr,
        fails: Expr,
        start: &Cursor<'_>,
    ) -> Result<Expr, Fault>
        ensures ok { IfOk result (λ e. reading.made (trees.tree (node.If condition holds fails)) start.now tokens.now ≡ Success (e, tokens.now)) }
        ensures err { OnErr result (result ≡ Error fault.OutOfMemory) }
    {
        let condition = Boxed::new(self.alloc, condition)?;
        let holds = Boxed::new(self.alloc, holds)?;
        let fails = Boxed::new(self.alloc, fails)?;
        Ok(tokens.made(Node::If(condition, holds, fails), start))
    }

    // { "elseif" expr "then" expr } "else" expr, with at most so many parts
    #[cycle(otherwise)]
    fn otherwise(&self, tokens: &mut Cursor<'_>, turns: usize) -> Result<Expr, Fault>
        requires { Nests spec.expr self.now.depth (F.pre self.now.whole) (F.post self.now.whole) }
        ensures { Gives (spec.otherwise self.now.depth (spec.expr self.now.depth) turns tokens.old) result tokens.new }
    {
        if turns == 0 {
            return Err(Fault::Syntax);
        }
        self.next(tokens, turns - 1)
    }

    #[cycle(otherwise)]
    #[tactic(auto, unfolding(crate::specs::Expressions::otherwise_by))]
    fn next(&self, tokens: &mut Cursor<'_>, turns: usize) -> Result<Expr, Fault>
        requires { Nests spec.expr self.now.depth (F.pre self.now.whole) (F.post self.now.whole) }
        ensures { Gives (spec.otherwise_by self.now.depth (spec.expr self.now.depth) (spec.otherwise self.now.depth (spec.expr self.now.depth) turns) tokens.old) result tokens.new }
    {
        let start = tokens.here();
        if tokens.eat(Terminal::ElseIf) {
            return self.choice(tokens, turns, &start);
        }
        tokens.expect(Terminal::Else)?;
        self.whole(tokens)
    }

    // expr "then" expr and what stands behind, where `start` is the word before
    #[cycle(otherwise)]
    #[tactic(auto, unfolding(crate::specs::Expressions::choice))]
    fn choice(
        &self,
        tokens: &mut Cursor<'_>,
        turns: usize,
        start: &Cursor<'_>,
    ) -> Result<Expr, Fault>
        requires { Nests spec.expr self.now.depth (F.pre self.now.whole) (F.post self.now.whole) }
        ensures { Gives (spec.choice self.now.depth (spec.expr self.now.depth) (spec.otherwise self.now.depth (spec.expr self.now.depth) turns) start.now tokens.old) result tokens.new }
    {
        let condition = self.whole(tokens)?;
        tokens.expect(Terminal::Then)?;
        let holds = self.whole(tokens)?;
        let fails = self.otherwise(tokens, turns)?;
        self.if_node(tokens, condition, holds, fails, start)
    }

    // expr = "if" expr "then" expr { "elseif" expr "then" expr } "else" expr | lor
    #[tactic(auto, unfolding(crate::specs::Expressions::conditional))]
    pub(crate) fn conditional(&self, tokens: &mut Cursor<'_>) -> Result<Expr, Fault>
        requires { Nests spec.expr self.now.depth (F.pre self.now.whole) (F.post self.now.whole) }
        ensures { Gives (spec.conditional self.now.depth (spec.expr self.now.depth) tokens.old) result tokens.new }
    {
        let start = tokens.here();
        if tokens.eat(Terminal::If) {
            self.choice(tokens, self.depth, &start)
        } else {
            self.lor(tokens)
        }
    }
}

/// An expression, with the span of its tokens. Expressions nest no deeper in it than `depth`, and no list or row of operators has
/// more than `depth` parts behind its first: the count of tokens is always enough. `Syntax` where the tokens go on with none, with
/// the cursor at the token that is refused; `OutOfMemory` where no memory was left. The stack grows with the nesting and with the
/// operators.
pub fn expr(alloc: Global, tokens: &mut Cursor<'_>, depth: usize) -> Result<Expr, Fault>
    ensures { Gives (spec.expr depth tokens.old) result tokens.new }
{
    if depth == 0 {
        return Err(Fault::Syntax);
    }
    Grammar {
        alloc,
        depth: depth - 1,
        whole: expr,
    }
    .conditional(tokens)
}
