// Files.
ghost use Rattle.std.specs.Prelude.{◌≡◌};
ghost use Rattle.cdl_reading.specs.Gives.{Gives};
ghost use Rattle.cdl_parse.specs.Classes as spec;

use crate::class::file_class;
use crate::closed::{ClosedFile, FileParts};
use cdl_expressions::name;
use cdl_reading::{Cursor, Fault};
use cdl_source::List;
use cdl_tree::{FileTree, Name, Terminal};
use std::alloc::Global;

// [ name ] ";"
#[tactic(auto, unfolding(crate::specs::Classes::within_name))]
fn within_name(alloc: Global, tokens: &mut Cursor<'_>, most: usize) -> Result<Option<Name>, Fault>
    ensures { Gives (spec.within_name most tokens.old) result tokens.new }
{
    if tokens.eat(Terminal::Semicolon) {
        return Ok(None);
    }
    let parts = name(alloc, tokens, most)?;
    tokens.expect(Terminal::Semicolon)?;
    Ok(Some(Name { parts }))
}

// [ "within" [ name ] ";" ]
#[tactic(auto, unfolding(crate::specs::Classes::within))]
fn within(alloc: Global, tokens: &mut Cursor<'_>, most: usize) -> Result<Option<Name>, Fault>
    ensures { Gives (spec.within most tokens.old) result tokens.new }
{
    if tokens.eat(Terminal::Within) {
        within_name(alloc, tokens, most)
    } else {
        Ok(None)
    }
}

fn begins_class(terminal: Terminal) -> bool
    ensures { result ≡ spec.begins_class terminal }
{
    match terminal {
        Terminal::Block | Terminal::Package | Terminal::Type => true,
        _ => false,
    }
}

// class ";" { class ";" }
fn classes(alloc: Global, tokens: &mut Cursor<'_>, most: usize) -> Result<FileParts, Fault>
    ensures { Gives (spec.file_classes most tokens.old) result tokens.new }
{
    let none = FileParts {
        classes: List::new(alloc),
        wrong: None,
    };
    let mut found = file_class(alloc, tokens, most, none)?;
    for _turn in 0..most {
        if !begins_class(tokens.peek()) {
            return Ok(found);
        }
        found = file_class(alloc, tokens, most, found)?;
    }
    Ok(found)
}

// file = [ "within" [ name ] ";" ] class ";" { class ";" }
#[tactic(auto, unfolding(crate::specs::Classes::file))]
fn file(alloc: Global, tokens: &mut Cursor<'_>, most: usize) -> Result<ClosedFile, Fault>
    ensures { Gives (spec.file most tokens.old) result tokens.new }
{
    let within = within(alloc, tokens, most)?;
    let FileParts { classes, wrong } = classes(alloc, tokens, most)?;
    let tree = FileTree { within, classes };
    Ok(ClosedFile { tree, wrong })
}

/// A file and nothing behind it.
#[tactic(auto, unfolding(crate::specs::Classes::whole_file))]
pub(crate) fn whole_file(
    alloc: Global,
    tokens: &mut Cursor<'_>,
    most: usize,
) -> Result<ClosedFile, Fault>
    ensures { Gives (spec.whole_file most tokens.old) result tokens.new }
{
    let file = file(alloc, tokens, most)?;
    tokens.expect_end()?;
    Ok(file)
}
