// The blank, comment or token with which bytes begin.
ghost use Rattle.std.specs.Prelude.{◌≡◌, ◌<◌, ◌≤◌, true, false, length, slice_index, IfSome, IfNone, Some, None};
ghost use Rattle.cdl_source.specs.Identifiers.{is_initial, is_digit};
ghost use Rattle.cdl_lex.specs.Spellings as spec;
ghost use Rattle.cdl_lex.specs.Splits.{NothingBegins};
ghost use Rattle.cdl_lex.specs.Steps as steps;
ghost use Rattle.cdl_lex.specs.Steps.{IsPiece};

use crate::byte_set::ByteSet;
use crate::sizes::{block_size, inside_size, tail_size};
use cdl_source::{TokenSort, is_keyword};

/// A gap of so many bytes, or a token.
#[derive(Clone, Copy)]
pub(crate) struct Piece {
    pub(crate) sort: Option<TokenSort>,
    pub(crate) size: usize,
}

fn gap(size: usize) -> Piece
    ensures { result ≡ record { sort = None; size = size } }
{
    Piece { sort: None, size }
}

fn token(sort: TokenSort, size: usize) -> Piece
    ensures { result ≡ record { sort = Some sort; size = size } }
{
    Piece {
        sort: Some(sort),
        size,
    }
}

fn word_sort(word: &[u8]) -> TokenSort
    ensures { result ≡ steps.word_sort word.now }
{
    if is_keyword(word) {
        TokenSort::Keyword
    } else {
        TokenSort::Identifier
    }
}

// The identifier or keyword that begins the bytes.
fn word(rest: &[u8]) -> Piece
    requires some { 0 < length rest.now }
    requires initial { is_initial (slice_index rest.now 0) ≡ true }
    ensures { IsPiece rest.now result }
{
    let size = 1 + ByteSet::Word.prefix(&rest[1..]);
    token(word_sort(&rest[..size]), size)
}

// The number that begins the bytes.
fn number(rest: &[u8]) -> Piece
    requires some { 0 < length rest.now }
    requires digit { is_digit (slice_index rest.now 0) ≡ true }
    ensures { IsPiece rest.now result }
{
    let whole = ByteSet::Digit.prefix(rest);
    let tail = tail_size(&rest[whole..]);
    let sort = if tail == 0 {
        TokenSort::Integer
    } else {
        TokenSort::Real
    };
    token(sort, whole + tail)
}

// The string that begins the bytes, where it is closed.
fn string(rest: &[u8]) -> Option<Piece>
    requires some { 0 < length rest.now }
    requires quote { slice_index rest.now 0 ≡ 34 }
    ensures piece { IfSome result (IsPiece rest.now) }
    ensures none { IfNone result (NothingBegins rest.now) }
{
    match inside_size(&rest[1..]) {
        Some(size) => Some(token(TokenSort::Str, 1 + size)),
        None => None,
    }
}

// The comment or the symbol that begins the bytes with a slash, where a comment is closed.
fn slash(rest: &[u8]) -> Option<Piece>
    requires some { 0 < length rest.now }
    requires slash { slice_index rest.now 0 ≡ 47 }
    ensures piece { IfSome result (IsPiece rest.now) }
    ensures none { IfNone result (NothingBegins rest.now) }
{
    if rest.len() > 1 && rest[1] == b'/' {
        Some(gap(2 + ByteSet::Inner.prefix(&rest[2..])))
    } else if rest.len() > 1 && rest[1] == b'*' {
        match block_size(&rest[2..]) {
            Some(size) => Some(gap(2 + size)),
            None => None,
        }
    } else {
        Some(token(TokenSort::Symbol, 1))
    }
}

const SYMBOLS: [u8; 18] = *b"()[]{};,.:=+-*/^<>";

fn is_symbol(byte: u8) -> bool
    ensures { result ≡ spec.is_symbol byte }
{
    SYMBOLS.contains(&byte)
}

fn is_pair(first: u8, second: u8) -> bool
    ensures { result ≡ spec.is_pair first second }
{
    match first {
        b'<' => second == b'=' || second == b'>',
        b'>' | b'=' => second == b'=',
        _ => false,
    }
}

// The symbol that begins the bytes, if one does.
fn symbol(rest: &[u8]) -> Option<Piece>
    requires some { 0 < length rest.now }
    requires other { steps.IsSign (slice_index rest.now 0) }
    ensures piece { IfSome result (IsPiece rest.now) }
    ensures none { IfNone result (NothingBegins rest.now) }
{
    if !is_symbol(rest[0]) {
        None
    } else if rest.len() > 1 && is_pair(rest[0], rest[1]) {
        Some(token(TokenSort::Symbol, 2))
    } else {
        Some(token(TokenSort::Symbol, 1))
    }
}

// What begins the bytes: a blank, a comment or a token, if one does.
#[tactic(auto, using(crate::proofs::Pieces::piece_some, crate::proofs::Pieces::piece_within))]
pub(crate) fn piece_at(rest: &[u8]) -> Option<Piece>
    requires { 0 < length rest.now }
    ensures piece { IfSome result (IsPiece rest.now) }
    ensures none { IfNone result (NothingBegins rest.now) }
    ensures some { IfSome result (λ p. 0 < p.size) }
    ensures within { IfSome result (λ p. p.size ≤ length rest.now) }
{
    let first = rest[0];
    if ByteSet::Blank.has(first) {
        Some(gap(1))
    } else if ByteSet::Initial.has(first) {
        Some(word(rest))
    } else if ByteSet::Digit.has(first) {
        Some(number(rest))
    } else if first == b'"' {
        string(rest)
    } else if first == b'/' {
        slash(rest)
    } else {
        symbol(rest)
    }
}
