// What parameters and expressions of texts are worth.
ghost use Rattle.std.specs.Prelude.{◌≡◌, true, IfOk, OnOk};
ghost use Rattle.std.specs.List.{list_all};
ghost use Rattle.cdl_tree.specs.FormedFiles.{formed_file};

use crate::cases::CASES;
use crate::shown::{show, show_fault, show_sizes};
use cdl_classes::{ClassId, ClassTable, Found};
use cdl_lex::lex;
use cdl_params::{Elaborator, EvalFault, Local, Step};
use cdl_parse::parse;
use cdl_paths::{member_of, site};
use cdl_source::{List, Text};
use cdl_tree::{FileTree, Item};
use cdl_values::Array;
use std::alloc::Global;
use std::test::Fail;

fn bytes(alloc: Global, words: &str) -> Result<Text, Fail> {
    Ok(Text::from_bytes(alloc, words.as_bytes())?)
}

fn add_tree(alloc: Global, trees: &mut List<FileTree>, file: u32, words: &str) -> Result<(), Fail>
    requires { list_all formed_file trees.old ≡ true }
    ensures { OnOk result (list_all formed_file trees.new ≡ true) }
{
    let text = bytes(alloc, words)?;
    let tokens = lex(alloc, file, text.bytes())?;
    trees.push(parse(alloc, &tokens)?)?;
    Ok(())
}

fn trees(alloc: Global, texts: &str) -> Result<List<FileTree>, Fail>
    ensures { IfOk result (λ trees. list_all formed_file trees ≡ true) }
{
    let mut trees = List::new(alloc);
    let mut file: u32 = 0;
    for words in texts.split('|') {
        add_tree(alloc, &mut trees, file, words)?;
        file = file.saturating_add(1);
    }
    Ok(trees)
}

fn table(alloc: Global, texts: &str) -> Result<ClassTable, Fail> {
    let trees = trees(alloc, texts)?;
    if trees.items().len() > 64 {
        return Err("too many files".into());
    }
    match ClassTable::build(alloc, trees) {
        Ok(table) => Ok(table),
        Err(fault) => Err(fault)?,
    }
}

// A name, and indices in brackets behind it.
fn step(alloc: Global, words: &str) -> Result<Step, Fail> {
    let (name, listed) = words.split_once('[').unwrap_or((words, ""));
    let mut indices = List::new(alloc);
    for index in listed.trim_end_matches(']').split(',') {
        if !index.is_empty() {
            indices.push(index.parse::<u32>()?)?;
        }
    }
    Ok(Step {
        name: bytes(alloc, name)?,
        indices,
    })
}

fn steps(alloc: Global, words: &str) -> Result<List<Step>, Fail> {
    let mut steps = List::new(alloc);
    for word in words.split('.') {
        if !word.is_empty() {
            steps.push(step(alloc, word)?)?;
        }
    }
    Ok(steps)
}

// Names with values.
fn locals(alloc: Global, words: &str) -> Result<List<Local>, Fail> {
    let mut locals = List::new(alloc);
    for word in words.split(',') {
        if let Some((name, value)) = word.split_once('=') {
            locals.push(Local {
                name: bytes(alloc, name)?,
                value: value.parse::<i32>()?,
            })?;
        }
    }
    Ok(locals)
}

// The item of this name at a path.
fn item_at<'t>(
    table: &'t ClassTable,
    root: ClassId,
    steps: &[Step],
    name: &str,
) -> Result<&'t Item, Fail> {
    match site(table, Found::Class(root), steps) {
        Some(Found::Class(class)) => match member_of(table, class, name.as_bytes()) {
            Some(member) => Ok(member.item),
            None => Err("no item".into()),
        },
        _ => Err("no class".into()),
    }
}

fn shown(alloc: Global, answer: Result<Array, EvalFault>) -> Result<String, Fail> {
    match answer {
        Ok(array) => Ok(show(alloc, &array)?),
        Err(fault) => Ok(show_fault(alloc, fault)?),
    }
}

fn shown_sizes(alloc: Global, answer: Result<List<u32>, EvalFault>) -> Result<String, Fail> {
    match answer {
        Ok(sizes) => Ok(show_sizes(alloc, sizes.items())?),
        Err(fault) => Ok(show_fault(alloc, fault)?),
    }
}

fn shown_presence(alloc: Global, answer: Result<bool, EvalFault>) -> Result<String, Fail> {
    match answer {
        Ok(there) => Ok(String::from_str(alloc, if there { "yes" } else { "no" })?),
        Err(fault) => Ok(show_fault(alloc, fault)?),
    }
}

// The answer to a question.
fn answer(
    alloc: Global,
    elaborator: &mut Elaborator<'_>,
    asked: &str,
    path: &str,
    name: &str,
) -> Result<String, Fail> {
    let steps = steps(alloc, path)?;
    if asked == "value" {
        return shown(alloc, elaborator.value(steps.items(), name.as_bytes()));
    }
    if asked == "unit" {
        return shown(alloc, elaborator.unit(steps.items(), name.as_bytes()));
    }
    let (name, given) = name.split_once(':').unwrap_or((name, ""));
    let item = item_at(elaborator.table(), elaborator.root(), steps.items(), name)?;
    match asked {
        "dims" => shown_sizes(alloc, elaborator.dims(steps.items(), item)),
        "present" => shown_presence(alloc, elaborator.present(steps.items(), item)),
        _ => {
            let locals = locals(alloc, given)?;
            let expr = item.value.as_ref().ok_or("no expression")?;
            shown(
                alloc,
                elaborator.evaluate(steps.items(), locals.items(), expr),
            )
        }
    }
}

fn is_answered(
    alloc: Global,
    elaborator: &mut Elaborator<'_>,
    question: &str,
) -> Result<bool, Fail> {
    let mut cells = question.split('/');
    let asked = cells.next().ok_or("no sort")?;
    let path = cells.next().ok_or("no path")?;
    let name = cells.next().ok_or("no name")?;
    let want = cells.next().ok_or("no answer")?;
    let answer = answer(alloc, elaborator, asked, path, name)?;
    Ok(answer.as_str() == want)
}

#[test]
fn parameters_are_worth_what_their_givers_say(rt: HostRuntime) -> Result<(), Fail> {
    for row in CASES.lines() {
        let (texts, questions) = row.split_once('?').ok_or("no questions")?;
        let table = table(rt.alloc(), texts)?;
        let root = table.root("M").ok_or("no root")?;
        let mut elaborator = Elaborator::new(rt.alloc(), &table, root);
        for question in questions.split_whitespace() {
            assert!(rt;
                is_answered(rt.alloc(), &mut elaborator, question)?,
                "{question} of {texts}"
            );
        }
        // asked again, in an order that finds everything kept
        for question in questions.split_whitespace() {
            assert!(rt;
                is_answered(rt.alloc(), &mut elaborator, question)?,
                "again {question} of {texts}"
            );
        }
    }
    Ok(())
}

// A block with parameters a0 to a70, of which each but the first is made of the one before, and arrays of so many instances.
fn chain(alloc: Global, turn: &str, sizes: &str) -> Result<String, Fail> {
    let mut text = String::from_str(
        alloc,
        "block N parameter Integer k; end N; block M parameter Integer a0 = 1;",
    )?;
    let mut last: u32 = 0;
    for i in 1..71u32 {
        let before = format!(in alloc; "a{last}")?;
        let declared = format!(in alloc; " parameter Integer a{i} = ")?;
        text.push_str(declared.as_str())?;
        for part in turn.split('~') {
            if part == "a" {
                text.push_str(before.as_str())?;
            } else {
                text.push_str(part)?;
            }
        }
        text.push_str(";")?;
        last = i;
    }
    text.push_str(sizes)?;
    text.push_str(" end M;")?;
    Ok(text)
}

const ARRAYS: &str = " N n[a63](k = {a64}); N o[a64](k = {1}); N p[1](k = {a63});";

// Each row is a chain, and questions to one elaborator in this order.
const CHAINS: &str = "\
    ~a ? value//a64/I:1 value//a65/C29 value//a64/I:1 value//a66/C29 value//a0/I:1\n\
    ~a ? value//a65/C29 value//a64/I:1 value//a65/C29 value//a63/I:1 value//a70/C29\n\
    ~a ? value//a1/I:1 value//a2/I:1 value//a30/I:1 value//a64/I:1 value//a65/C29\n\
    ~a ? value/n[1]/k/C29 value/o[1]/k/C29 value/p[1]/k/I:1 dims//n/1 dims//o/C29\n\
    max(~a~, ~a~) ? value//a64/I:1 value//a65/C29 value//a64/I:1\n\
    ~a~ + 0 * ~a ? value//a65/C29 value//a64/I:1\n\
    if ~a~ > 0 then ~a~ else ~a ? value//a64/I:1 value//a65/C29";

#[test]
fn chains_end_at_64_links_in_any_order(rt: HostRuntime) -> Result<(), Fail> {
    for row in CHAINS.lines() {
        let (turn, questions) = row.split_once(" ?").ok_or("no questions")?;
        let texts = chain(rt.alloc(), turn, ARRAYS)?;
        let table = table(rt.alloc(), texts.as_str())?;
        let root = table.root("M").ok_or("no root")?;
        let mut elaborator = Elaborator::new(rt.alloc(), &table, root);
        for question in questions.split_whitespace() {
            assert!(rt;
                is_answered(rt.alloc(), &mut elaborator, question)?,
                "{question} of {turn}"
            );
        }
    }
    Ok(())
}

// A literal of 4,096 sums, handed out over an array of as many instances.
fn handed_out(alloc: Global) -> Result<String, Fail> {
    let mut text = String::from_str(
        alloc,
        "block N parameter Integer k; end N; block M parameter Integer t[256] = fill(1, 256); N n[4096](k = {sum(t)",
    )?;
    for _ in 1..4096u32 {
        text.push_str(", sum(t)")?;
    }
    text.push_str("}); end M;")?;
    Ok(text)
}

// It would take minutes if the literal were evaluated for each instance.
#[test]
fn a_literal_is_evaluated_once_for_an_array(rt: HostRuntime) -> Result<(), Fail> {
    let texts = handed_out(rt.alloc())?;
    let table = table(rt.alloc(), texts.as_str())?;
    let root = table.root("M").ok_or("no root")?;
    let mut elaborator = Elaborator::new(rt.alloc(), &table, root);
    for i in 1..4097u32 {
        let question = format!(in rt.alloc(); "value/n[{i}]/k/I:256")?;
        assert!(rt;
            is_answered(rt.alloc(), &mut elaborator, question.as_str())?,
            "{question}"
        );
    }
    Ok(())
}
