// A text with its tokens.
ghost use Rattle.std.specs.Prelude.{◌≡◌, ◌≤◌, ◌<◌, Some, length, slice_get};
ghost use Rattle.cdl_source.specs.declared.limits.TheConstants.{LONGEST_MODEL};
ghost use Rattle.std.specs.Str.{IsUtf8};
ghost use Rattle.cdl_lex.specs.TokenList.{LiesWithin};
ghost use Rattle.cdl_lex.specs.Texts.{IsSpelled, FitsLimits, AreTokens};

use cdl_source::{List, Text, Token};
use std::marker::Model;

/// The bytes of a file, and their tokens in order. A token's span begins at its first byte and ends behind its last one, both
/// counted from 0, and its text is that slice of the bytes.
#[derive(Debug, Drop)]
pub struct Tokens {
    file: u32,
    bytes: Text,
    items: List<Token>,
}

impl Model for Tokens {
    ghost use Rattle.cdl_lex.specs.TokenList.{TokenList};
    ghost use Rattle.cdl_lex.specs.Texts.{AreTokens};

    ghost Value = { TokenList };

    ghost view = { λ t. record { file = t.file; bytes = t.bytes; items = t.items } };

    ghost invariant = { λ t. AreTokens t.bytes t.items };
}

impl Tokens {
    pub(crate) fn new(file: u32, bytes: Text, items: List<Token>) -> Tokens
        requires { AreTokens bytes items }
        ensures { result ≡ record { file = file; bytes = bytes; items = items } }
    {
        Tokens { file, bytes, items }
    }

    /// How many tokens there are: at most as many as bytes. The text breaks none of C1 to C6, and splits into them.
    pub fn len(&self) -> usize
        ensures len { result ≡ length self.now.items }
        ensures tokens { AreTokens self.now.bytes self.now.items }
    {
        self.items.items().len()
    }

    /// The number of the file, as `lex` was given it.
    pub fn file(&self) -> u32
        ensures { result ≡ self.now.file }
    {
        self.file
    }

    /// All bytes of the text, lent: at most `LONGEST_MODEL`, and UTF-8.
    pub fn bytes(&self) -> &[u8]
        ensures bytes { result.now ≡ self.now.bytes }
        ensures limit { length result.now ≤ LONGEST_MODEL }
        ensures utf8 { IsUtf8 result.now }
    {
        self.bytes.bytes()
    }

    /// The token of this number, counted from 0. It lies within the bytes, its text is a spelling of its sort, and a literal or an
    /// identifier is within its limits.
    pub fn token(&self, i: usize) -> Token
        requires { i < length self.now.items }
        ensures token { slice_get self.now.items i ≡ Some result }
        ensures within { LiesWithin self.now.bytes result }
        ensures spelled { IsSpelled self.now.bytes result }
        ensures fits { FitsLimits self.now.bytes result }
    {
        self.items.items()[i]
    }
}
