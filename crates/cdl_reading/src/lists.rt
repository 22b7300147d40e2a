// Lists, each item of which one rule reads.
ghost use Rattle.std.specs.Prelude.{◌≡◌};
ghost use Rattle.cdl_reading.specs.Gives.{Gives, ReadsAs};
ghost use Rattle.cdl_reading.specs.Reading as spec;
ghost use Rattle.cdl_reading.specs.Reading.{Parser};

use crate::cursor::{Cursor, Fault};
use cdl_source::List;
use cdl_tree::Terminal;

// The item that comes next.
fn next<T, F: Fn(&mut Cursor<'_>) -> Result<T, Fault>>(
    tokens: &mut Cursor<'_>,
    item: &F,
) -> Result<T, Fault>
    ghost rule: { Parser T }
    requires { ReadsAs rule (F.pre item.now) (F.post item.now) }
    ensures { Gives (rule tokens.old) result tokens.new }
{
    item(tokens)
}

/// `{ separator item }`, with at most `most` items, each of which `item` reads: they are put behind those that are found. Errors
/// are those of `item`, and `OutOfMemory` where no memory was left for the list.
pub fn list_behind<T: Drop, F: Fn(&mut Cursor<'_>) -> Result<T, Fault>>(
    tokens: &mut Cursor<'_>,
    separator: Terminal,
    most: usize,
    item: &F,
    mut found: List<T>,
) -> Result<List<T>, Fault>
    ghost rule: { Parser T }
    requires { ReadsAs rule (F.pre item.now) (F.post item.now) }
    ensures { Gives (spec.list_from separator rule most found tokens.old) result tokens.new }
{
    for _turn in 0..most {
        if !tokens.eat(separator) {
            return Ok(found);
        }
        found.push(next(tokens, item)?)?;
    }
    Ok(found)
}

/// `item { separator item }`, with at most `most` items behind the first, each of which `item` reads: they are put behind those
/// that are found. Errors are those of `item`, and `OutOfMemory` where no memory was left for the list.
#[tactic(auto, unfolding(crate::specs::Reading::list))]
pub fn list<T: Drop, F: Fn(&mut Cursor<'_>) -> Result<T, Fault>>(
    tokens: &mut Cursor<'_>,
    separator: Terminal,
    most: usize,
    item: &F,
    mut found: List<T>,
) -> Result<List<T>, Fault>
    ghost rule: { Parser T }
    requires { ReadsAs rule (F.pre item.now) (F.post item.now) }
    ensures { Gives (spec.list separator rule most found tokens.old) result tokens.new }
{
    found.push(next(tokens, item)?)?;
    list_behind(tokens, separator, most, item, found)
}
