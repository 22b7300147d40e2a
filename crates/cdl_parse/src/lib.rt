//! The trees of files: the grammar's one tree of a list of tokens, or the exact place at which no sentence goes on.
#![tactic(auto)]

ghost use Rattle.std.specs.Prelude.{◌≡◌, ◌≤◌, true, length, IfOk, IfErr};
ghost use Rattle.cdl_parse.specs.declared.ParseFault.TheVariants.{Rule};
ghost use Rattle.cdl_tree.specs.declared.class.FileTree.{FileTree as Tree};
ghost use Rattle.cdl_tree.specs.FormedFiles.{formed_file};
ghost use Rattle.cdl_reading.specs.Reading.{word_of};
ghost use Rattle.cdl_parse.specs.Names.{names_of_file};
ghost use Rattle.cdl_parse.specs.Verdict.{Closes, IsTree, IsRefused, begin_of};

mod class;
mod closed;
mod file;
mod law;

use crate::closed::ClosedFile;
use crate::file::whole_file;
use cdl_lex::Tokens;
use cdl_reading::{Cursor, Fault};
use cdl_source::Place;
use cdl_source::rules::{SYNTAX, WRONG_END_NAME};
use cdl_tree::FileTree;
pub use law::{one_tree, one_verdict};
use std::alloc::Global;

/// Why tokens have no tree.
#[derive(Clone, Copy, Debug, PartialEq, Eq)]
pub enum ParseFault {
    /// The tokens break the rule of this number, at this place.
    Rule { rule: u32, place: Place },
    /// No memory was left for the tree.
    OutOfMemory,
}

/// The tree of the tokens of a file, where they are a sentence of the grammar (docs/LANGUAGE.md) and each identifier behind
/// an `end` is that of its class. There is one.
///
/// Tokens that are no sentence are refused by C7. Its place is the first byte of the first token behind the longest
/// front of the tokens that begins a sentence, or the end of the file where all of them begin one. A sentence in which an
/// identifier behind an `end` is not that of its block or package is refused by C8, at the first byte of the first such
/// identifier. The time is linear in the number of tokens. The stack grows with the nesting of the text and with the
/// operators of one expression, which C5 and C6 bound.
pub fn parse(alloc: Global, tokens: &Tokens) -> Result<FileTree, ParseFault>
    // The tree that is given derives the tokens, and the identifiers behind `end` are right.
    ensures found { IfOk result (λ tree. Closes (word_of tokens.now) tree) }
    // It is formed: its identifiers are identifiers, its literals are not negative and fit, its strings are UTF-8, and so on.
    ensures formed { IfOk result (λ tree. formed_file tree ≡ true) }
    // It has at most as many names as there are tokens.
    ensures few { IfOk result (λ tree. names_of_file tree ≤ length tokens.now.items) }
    // A tree that derives the tokens, with right identifiers behind `end`, is the one that is given, unless memory fails.
    ensures only { (tree : Tree) → Closes (word_of tokens.now) tree → IsTree tree result }
    // Tokens that are refused are no sentence, and the place is exact; or the first wrong identifier is named.
    ensures refused { IfErr result (IsRefused tokens.now) }
{
    let mut cursor = Cursor::new(tokens);
    match whole_file(alloc, &mut cursor, tokens.len()) {
        Ok(ClosedFile { tree, wrong }) => match wrong {
            None => Ok(tree),
            Some(byte) => Err(broken(tokens, WRONG_END_NAME, byte)),
        },
        Err(Fault::Syntax) => {
            let before = tokens.len().saturating_sub(cursor.left());
            Err(broken(tokens, SYNTAX, begin(tokens, before)))
        }
        Err(Fault::OutOfMemory) => Err(ParseFault::OutOfMemory),
    }
}

// Where the token of this number begins, or the end of the file.
fn begin(tokens: &Tokens, number: usize) -> u32
    ensures { result ≡ begin_of tokens.now.bytes tokens.now.items number }
{
    if number < tokens.len() {
        tokens.token(number).span.start
    } else {
        tokens.bytes().len() as u32
    }
}

fn broken(tokens: &Tokens, rule: u32, byte: u32) -> ParseFault
    ensures { result ≡ Rule rule (record { file = tokens.now.file; byte = byte }) }
{
    ParseFault::Rule {
        rule,
        place: Place {
            file: tokens.file(),
            byte,
        },
    }
}
