// A text split into gaps and tokens.
ghost use Rattle.std.specs.Prelude.{◌≡◌, ◌+◌, ◌++◌, ◌^◌, ◌<◌, ◌≤◌, length, IfOk, OnOk};
ghost use Rattle.cdl_lex.specs.Splits as spec;
ghost use Rattle.cdl_lex.specs.Steps.{IsSplit, listed};

use crate::piece::{Piece, piece_at};
use cdl_source::{List, OutOfMemory, Span, Token};
use std::alloc::Global;

/// How far a text splits.
#[derive(Drop)]
pub(crate) enum Splitting {
    /// To its end, into these tokens.
    Whole(List<Token>),
    /// To this byte, where nothing begins.
    Stuck(usize),
}

const MARK: [u8; 3] = [0xef, 0xbb, 0xbf];

// The size of the byte order mark, if the text begins with one.
fn mark_size(bytes: &[u8]) -> usize
    ensures size { result ≡ spec.mark bytes.now }
    ensures within { result ≤ length bytes.now }
{
    if bytes.starts_with(&MARK) {
        MARK.len()
    } else {
        0
    }
}

// Adds the token, if the piece is one.
fn keep(found: &mut List<Token>, at: usize, piece: Piece) -> Result<(), OutOfMemory>
    requires fits { at + piece.size < 2 ^ 32 }
    ensures ok { OnOk result (found.new ≡ found.old ++ listed at piece.sort piece.size) }
{
    match piece.sort {
        Some(sort) => {
            let span = Span {
                start: at as u32,
                end: (at + piece.size) as u32,
            };
            found.push(Token { sort, span })
        }
        None => Ok(()),
    }
}

// The tokens of the text, or the byte at which nothing begins.
pub(crate) fn split(alloc: Global, bytes: &[u8]) -> Result<Splitting, OutOfMemory>
    requires { length bytes.now < 2 ^ 32 }
    ensures { IfOk result (IsSplit bytes.now) }
{
    let mut found = List::new(alloc);
    let mut at = mark_size(bytes);
    while at < bytes.len() {
        let Some(piece) = piece_at(&bytes[at..]) else {
            return Ok(Splitting::Stuck(at));
        };
        keep(&mut found, at, piece)?;
        at += piece.size;
    }
    Ok(Splitting::Whole(found))
}
