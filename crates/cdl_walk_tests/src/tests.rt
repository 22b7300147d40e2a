// What the walk answers for texts.
ghost use Rattle.std.specs.Prelude.{◌≡◌, true, IfOk, OnOk};
ghost use Rattle.std.specs.List.{list_all};
ghost use Rattle.cdl_tree.specs.FormedFiles.{formed_file};

use crate::cases::{CASES, COUNTS, TOO_LARGE};
use crate::shown::show;
use cdl_classes::ClassTable;
use cdl_lex::lex;
use cdl_params::Elaborator;
use cdl_parse::parse;
use cdl_source::{List, Text};
use cdl_tree::FileTree;
use cdl_walk::walk;
use std::alloc::Global;
use std::test::Fail;

// The full name that a short word stands for.
fn full_name(word: &str) -> &str {
    match word {
        "BI" => "Buildings.Controls.OBC.CDL.Interfaces.BooleanInput",
        "BO" => "Buildings.Controls.OBC.CDL.Interfaces.BooleanOutput",
        "II" => "Buildings.Controls.OBC.CDL.Interfaces.IntegerInput",
        "IO" => "Buildings.Controls.OBC.CDL.Interfaces.IntegerOutput",
        "RI" => "Buildings.Controls.OBC.CDL.Interfaces.RealInput",
        "RO" => "Buildings.Controls.OBC.CDL.Interfaces.RealOutput",
        _ => word,
    }
}

// A text whose short words are written in full.
fn in_full(alloc: Global, words: &str) -> Result<String, Fail> {
    let mut text = String::new(alloc);
    for word in words.split(' ') {
        if word.starts_with("CDL.") {
            text.push_str("Buildings.Controls.OBC.")?;
        }
        text.push_str(full_name(word))?;
        text.push_str(" ")?;
    }
    Ok(text)
}

fn add_tree(alloc: Global, trees: &mut List<FileTree>, file: u32, words: &str) -> Result<(), Fail>
    requires { list_all formed_file trees.old ≡ true }
    ensures { OnOk result (list_all formed_file trees.new ≡ true) }
{
    let words = in_full(alloc, words)?;
    let text = Text::from_bytes(alloc, words.as_bytes())?;
    let tokens = lex(alloc, file, text.bytes())?;
    trees.push(parse(alloc, &tokens)?)?;
    Ok(())
}

fn trees(alloc: Global, texts: &str) -> Result<List<FileTree>, Fail>
    ensures { IfOk result (λ trees. list_all formed_file trees ≡ true) }
{
    let mut trees = List::new(alloc);
    let mut file: u32 = 0;
    for words in texts.split('|') {
        add_tree(alloc, &mut trees, file, words)?;
        file = file.saturating_add(1);
    }
    Ok(trees)
}

fn table(alloc: Global, texts: &str) -> Result<ClassTable, Fail> {
    let trees = trees(alloc, texts)?;
    if trees.items().len() > 64 {
        return Err("too many files".into());
    }
    match ClassTable::build(alloc, trees) {
        Ok(table) => Ok(table),
        Err(fault) => Err(fault)?,
    }
}

// What the walk of the block M answers.
fn answer(alloc: Global, texts: &str) -> Result<String, Fail> {
    let table = table(alloc, texts)?;
    let root = table.root("M").ok_or("no root")?;
    let mut elaborator = Elaborator::new(alloc, &table, root);
    show(alloc, walk(alloc, &mut elaborator))
}

#[test]
fn the_walk_finds_what_stands_or_the_first_broken_rule(rt: HostRuntime) -> Result<(), Fail> {
    for row in CASES.lines() {
        let (texts, want) = row.split_once(" ? ").ok_or("no answer")?;
        let answer = answer(rt.alloc(), texts)?;
        assert!(rt; answer.as_str() == want, "{texts}: {answer}, not {want}");
    }
    Ok(())
}

#[test]
fn the_walk_ends_at_what_is_too_large(rt: HostRuntime) -> Result<(), Fail> {
    for row in TOO_LARGE.lines() {
        let (texts, want) = row.split_once(" ? ").ok_or("no answer")?;
        let answer = answer(rt.alloc(), texts)?;
        assert!(rt; answer.as_str() == want, "{texts}: {answer}, not {want}");
    }
    Ok(())
}

// How many instances and elements the walk of the block M finds.
fn counts(alloc: Global, texts: &str) -> Result<String, Fail> {
    let table = table(alloc, texts)?;
    let root = table.root("M").ok_or("no root")?;
    let mut elaborator = Elaborator::new(alloc, &table, root);
    match walk(alloc, &mut elaborator) {
        Ok(walked) => {
            let instances = walked.instances.items().len();
            let elements = walked.elements.items().len();
            Ok(format!(in alloc; "{instances} {elements}")?)
        }
        Err(_) => Err("a rule is broken".into()),
    }
}

#[test]
fn models_are_as_large_as_they_may_be(rt: HostRuntime) -> Result<(), Fail> {
    for row in COUNTS.lines() {
        let (texts, want) = row.split_once(" ? ").ok_or("no answer")?;
        let answer = counts(rt.alloc(), texts)?;
        assert!(rt; answer.as_str() == want, "{texts}: {answer}, not {want}");
    }
    Ok(())
}

// Blocks B1 to Bn, of which each but the first has the one before as a component, and a block M with the last of them.
fn nest(alloc: Global, count: u32) -> Result<String, Fail> {
    let mut text = String::from_str(alloc, "block B1 end B1;")?;
    for i in 1..count {
        let block = format!(in alloc; " block B{} B{i} b; end B{};", i + 1, i + 1)?;
        text.push_str(block.as_str())?;
    }
    let root = format!(in alloc; " block M B{count} b; end M;")?;
    text.push_str(root.as_str())?;
    Ok(text)
}

#[test]
fn a_path_has_at_most_16_steps(rt: HostRuntime) -> Result<(), Fail> {
    let fine = answer(rt.alloc(), nest(rt.alloc(), 16)?.as_str())?;
    assert!(rt; fine.as_str().ends_with("b ;"), "{fine}");
    let deep = answer(rt.alloc(), nest(rt.alloc(), 17)?.as_str())?;
    assert!(rt; deep.as_str().ends_with("b:C20"), "{deep}");
    Ok(())
}

// A block with so many parameters, and a component that gives each of them a value, and at the end one of them again.
fn many_arguments(alloc: Global, count: u32, again: u32) -> Result<String, Fail> {
    let mut block = String::from_str(alloc, "block A")?;
    let mut arguments = String::new(alloc);
    for i in 0..count {
        let parameter = format!(in alloc; " parameter Integer k{i};")?;
        block.push_str(parameter.as_str())?;
        let argument = format!(in alloc; "k{i} = {i}, ")?;
        arguments.push_str(argument.as_str())?;
    }
    let rest = format!(in alloc; " end A; block M A a({arguments}k{again} = 1); end M;")?;
    block.push_str(rest.as_str())?;
    Ok(block)
}

#[test]
fn one_of_1000_arguments_stands_twice(rt: HostRuntime) -> Result<(), Fail> {
    let twice = answer(rt.alloc(), many_arguments(rt.alloc(), 1000, 999)?.as_str())?;
    assert!(rt; twice.as_str() == "#a:C23", "{twice}");
    let other = answer(rt.alloc(), many_arguments(rt.alloc(), 1000, 1000)?.as_str())?;
    assert!(rt; other.as_str() == "#a:C22", "{other}");
    Ok(())
}
