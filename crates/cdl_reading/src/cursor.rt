// A place among the tokens, from which the rules read on.
ghost use Rattle.std.specs.Prelude.{◌≡◌, length, Option};
ghost use Rattle.cdl_lex.specs.TokenList.{LiesWithin};
ghost use Rattle.cdl_tree.specs.Terminals as lexemes;
ghost use Rattle.cdl_tree.specs.Words as words;
ghost use Rattle.cdl_tree.specs.Trees as trees;
ghost use Rattle.cdl_tree.specs.Literals as literals;
ghost use Rattle.cdl_reading.specs.Gives.{Gives, GivesMeaning};
ghost use Rattle.cdl_reading.specs.Reading as spec;
ghost use Rattle.cdl_reading.specs.Reading.{word_of};

use cdl_decimal::Real;
use cdl_lex::Tokens;
use cdl_source::{OutOfMemory, Span, Text, Token};
use cdl_tree::{Expr, Ident, Node, Terminal, integer, string, terminal_of};
use std::alloc::{AllocError, Global};
use std::marker::Model;

/// Why a rule stopped.
#[derive(Clone, Copy)]
pub enum Fault {
    /// No memory was left for a tree.
    OutOfMemory,
    /// The token at which the cursor stands.
    Syntax,
}

impl From<OutOfMemory> for Fault {
    ghost use Rattle.std.specs.Prelude.{◌≡◌};
    ghost use Rattle.cdl_reading.specs.declared.cursor.Fault.TheVariants.{OutOfMemory};

    ghost from_gives = { λ _ e. e ≡ OutOfMemory };

    fn from(_: OutOfMemory) -> Fault {
        Fault::OutOfMemory
    }
}

impl From<AllocError> for Fault {
    ghost use Rattle.std.specs.Prelude.{◌≡◌};
    ghost use Rattle.cdl_reading.specs.declared.cursor.Fault.TheVariants.{OutOfMemory};

    ghost from_gives = { λ _ e. e ≡ OutOfMemory };

    fn from(_: AllocError) -> Fault {
        Fault::OutOfMemory
    }
}

/// A place among tokens, which contracts see as the tokens from there on.
#[derive(Drop)]
pub struct Cursor<'a> {
    tokens: &'a Tokens,
    at: usize,
}

impl<'a> Model for Cursor<'a> {
    ghost use Rattle.cdl_tree.specs.Words.{Word};

    ghost Value = { Word };

    ghost use Rattle.cdl_reading.specs.Ahead.{rest_of, IsAmong};

    ghost view = { rest_of };

    ghost invariant = { IsAmong };
}

// A token's text.
fn text_of(tokens: &Tokens, token: Token) -> &[u8]
    requires { LiesWithin tokens.now.bytes token }
    ensures { result.now ≡ lexemes.text_of tokens.now.bytes token }
{
    &tokens.bytes()[token.span.start as usize..token.span.end as usize]
}

impl<'a> Cursor<'a> {
    /// Before the first token.
    pub fn new(tokens: &'a Tokens) -> Cursor<'a>
        ensures { result ≡ word_of tokens.now }
    {
        Cursor { tokens, at: 0 }
    }

    /// The terminal of the next token, `Nothing` behind the last one.
    pub fn peek(&self) -> Terminal
        ensures { result ≡ spec.terminal self.now }
    {
        if self.at == self.tokens.len() {
            return Terminal::Nothing;
        }
        let token = self.tokens.token(self.at);
        terminal_of(token.sort, text_of(self.tokens, token))
    }

    /// The text of the next token, nothing behind the last one.
    fn text(&self) -> &[u8]
        ensures { result.now ≡ spec.text self.now }
    {
        if self.at == self.tokens.len() {
            return &[];
        }
        text_of(self.tokens, self.tokens.token(self.at))
    }

    /// The span of the next token.
    fn span(&self) -> Span
        ensures { result ≡ spec.span self.now }
    {
        if self.at == self.tokens.len() {
            return Span { start: 0, end: 0 };
        }
        self.tokens.token(self.at).span
    }

    /// Whether a token of this terminal is next.
    #[tactic(auto, unfolding(crate::specs::Reading::sees, cdl_tree::specs::Words::same_terminal))]
    pub fn sees(&self, terminal: Terminal) -> bool
        ensures { result ≡ spec.sees terminal self.now }
    {
        self.peek() == terminal
    }

    /// Goes past the next token, where there is one.
    pub fn skip(&mut self)
        ensures { self.new ≡ spec.next self.old }
    {
        if self.at < self.tokens.len() {
            self.at += 1;
        }
    }

    /// Takes a token of this terminal, if one is next, and says so.
    #[tactic(auto, unfolding(crate::specs::Reading::after))]
    pub fn eat(&mut self, terminal: Terminal) -> bool
        ensures found { result ≡ spec.sees terminal self.old }
        ensures after { self.new ≡ spec.after terminal self.old }
    {
        let found = self.sees(terminal);
        if found {
            self.skip();
        }
        found
    }

    /// Takes a token of this terminal. `Syntax` where another is next, which stays next.
    #[tactic(auto, unfolding(crate::specs::Reading::expect))]
    pub fn expect(&mut self, terminal: Terminal) -> Result<(), Fault>
        ensures { Gives (spec.expect terminal self.old) result self.new }
    {
        if self.sees(terminal) {
            self.skip();
            Ok(())
        } else {
            Err(Fault::Syntax)
        }
    }

    /// Takes nothing: `Syntax` where a token is left.
    #[tactic(auto, unfolding(crate::specs::Reading::expect_end))]
    pub fn expect_end(&self) -> Result<(), Fault>
        ensures { Gives (spec.expect_end self.now) result self.now }
    {
        if self.left() == 0 {
            Ok(())
        } else {
            Err(Fault::Syntax)
        }
    }

    /// Takes an identifier, with its span. `Syntax` where another token is next, which stays next.
    #[tactic(auto, unfolding(crate::specs::Reading::ident))]
    pub fn ident(&mut self, alloc: Global) -> Result<Ident, Fault>
        ensures { Gives (spec.ident self.old) result self.new }
    {
        if !self.sees(Terminal::Identifier) {
            return Err(Fault::Syntax);
        }
        let mut text = Text::new(alloc);
        text.push(self.text())?;
        let span = self.span();
        self.skip();
        Ok(Ident { text, span })
    }

    /// Takes a whole number. `Syntax` where another token is next or the number is above 2,147,483,647; the token stays next.
    #[tactic(auto, unfolding(crate::specs::Reading::literal))]
    pub fn integer(&mut self) -> Result<i32, Fault>
        ensures { Gives (spec.literal Terminal.Integer literals.integer_of self.old) result self.new }
    {
        if !self.sees(Terminal::Integer) {
            return Err(Fault::Syntax);
        }
        let Some(value) = integer(self.text()) else {
            return Err(Fault::Syntax);
        };
        self.skip();
        Ok(value)
    }

    /// Takes another number, as its count of millionths. `Syntax` where another token is next or the number is not read as a
    /// `Real`; the token stays next.
    #[tactic(auto, unfolding(crate::specs::Reading::literal))]
    pub fn real(&mut self) -> Result<Real, Fault>
        ensures { Gives (spec.literal Terminal.Real spec.real_of self.old) result self.new }
    {
        if !self.sees(Terminal::Real) {
            return Err(Fault::Syntax);
        }
        let Ok(value) = cdl_decimal::parse(self.text()) else {
            return Err(Fault::Syntax);
        };
        self.skip();
        Ok(value)
    }

    /// Takes a string: the bytes that it means. `Syntax` where another token is next or the string is none; the token stays next.
    pub fn string(&mut self, alloc: Global) -> Result<Text, Fault>
        ensures { GivesMeaning Terminal.Str literals.IsString self.old result self.new }
    {
        if !self.sees(Terminal::Str) {
            return Err(Fault::Syntax);
        }
        let Some(value) = string(alloc, self.text())? else {
            return Err(Fault::Syntax);
        };
        self.skip();
        Ok(value)
    }

    /// The same place, to tell later what was read from here on.
    pub fn here(&self) -> Cursor<'a>
        ensures { result ≡ self.now }
    {
        Cursor {
            tokens: self.tokens,
            at: self.at,
        }
    }

    /// Where the tokens that were read since `start` stand, from the first byte of the first to behind the last one's last; from 0 to
    /// 0 where none was read.
    pub fn span_since(&self, start: &Cursor<'_>) -> Span
        ensures { result ≡ words.span_of (spec.since start.now self.now) }
    {
        let end = start.tokens.len().saturating_sub(self.left());
        if end <= start.at {
            return Span { start: 0, end: 0 };
        }
        let first = start.tokens.token(start.at);
        let last = start.tokens.token(end - 1);
        Span {
            start: first.span.start,
            end: last.span.end,
        }
    }

    /// The expression of this node, over the tokens that were read since `start`.
    #[tactic(auto, unfolding(cdl_tree::specs::Trees::tree))]
    pub fn made(&self, node: Node, start: &Cursor<'_>) -> Expr
        ensures { result ≡ trees.tree node (spec.since start.now self.now) }
    {
        Expr {
            node,
            span: self.span_since(start),
        }
    }

    /// How many tokens are left.
    pub fn left(&self) -> usize
        ensures { result ≡ length self.now }
    {
        self.tokens.len() - self.at
    }
}
