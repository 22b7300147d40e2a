// Models of texts.
ghost use Rattle.std.specs.Prelude.{◌≡◌, true, IfOk, OnOk};
ghost use Rattle.std.specs.List.{list_all};
ghost use Rattle.cdl_tree.specs.FormedFiles.{formed_file};

use cdl_classes::ClassTable;
use cdl_lex::lex;
use cdl_parse::parse;
use cdl_source::{List, Text};
use cdl_tree::FileTree;
use std::alloc::Global;
use std::test::Fail;

// The full name that a short word stands for.
fn full_name(word: &str) -> &str {
    match word {
        "BO" => "Buildings.Controls.OBC.CDL.Interfaces.BooleanOutput",
        "II" => "Buildings.Controls.OBC.CDL.Interfaces.IntegerInput",
        "IO" => "Buildings.Controls.OBC.CDL.Interfaces.IntegerOutput",
        "RI" => "Buildings.Controls.OBC.CDL.Interfaces.RealInput",
        "RO" => "Buildings.Controls.OBC.CDL.Interfaces.RealOutput",
        _ => word,
    }
}

// A text whose short words are written in full.
pub fn in_full(alloc: Global, words: &str) -> Result<String, Fail> {
    let mut text = String::new(alloc);
    for word in words.split(' ') {
        if word.starts_with("CDL.") {
            text.push_str("Buildings.Controls.OBC.")?;
        }
        text.push_str(full_name(word))?;
        text.push_str(" ")?;
    }
    Ok(text)
}

fn add_tree(alloc: Global, trees: &mut List<FileTree>, file: u32, words: &str) -> Result<(), Fail>
    requires { list_all formed_file trees.old ≡ true }
    ensures { OnOk result (list_all formed_file trees.new ≡ true) }
{
    let words = in_full(alloc, words)?;
    let text = Text::from_bytes(alloc, words.as_bytes())?;
    let tokens = lex(alloc, file, text.bytes())?;
    trees.push(parse(alloc, &tokens)?)?;
    Ok(())
}

fn trees(alloc: Global, texts: &str) -> Result<List<FileTree>, Fail>
    ensures { IfOk result (λ trees. list_all formed_file trees ≡ true) }
{
    let mut trees = List::new(alloc);
    let mut file: u32 = 0;
    for words in texts.split('|') {
        add_tree(alloc, &mut trees, file, words)?;
        file = file.saturating_add(1);
    }
    Ok(trees)
}

// The classes of texts with `|` between files.
pub fn table(alloc: Global, texts: &str) -> Result<ClassTable, Fail> {
    let trees = trees(alloc, texts)?;
    if trees.items().len() > 64 {
        return Err("too many files".into());
    }
    match ClassTable::build(alloc, trees) {
        Ok(table) => Ok(table),
        Err(fault) => Err(fault)?,
    }
}
