// Wires and faults of statements, as texts.
use crate::models::in_full;
use cdl_connect::RawWire;
use cdl_paths::Path;
use cdl_source::{List, Place};
use cdl_statements::StatementFault;
use cdl_walk::{Element, Instance, Walked, path_text};
use std::alloc::Global;
use std::test::Fail;

fn push_bytes(text: &mut String, bytes: &[u8]) -> Result<(), Fail> {
    for byte in bytes {
        text.push(*byte as char)?;
    }
    Ok(())
}

fn push_path(alloc: Global, text: &mut String, path: &Path) -> Result<(), Fail> {
    let words = path_text(alloc, path.steps.items())?;
    push_bytes(text, words.bytes())
}

fn instance_at(walked: &Walked, number: u32) -> Result<&Instance, Fail> {
    Ok(
        walked
            .instances
            .items()
            .get(number as usize)
            .ok_or("no instance")?,
    )
}

fn element_at(walked: &Walked, number: u32) -> Result<&Element, Fail> {
    Ok(
        walked
            .elements
            .items()
            .get(number as usize)
            .ok_or("no element")?,
    )
}

// The path of its instance and its name, its indices in brackets.
fn push_element(
    alloc: Global,
    text: &mut String,
    walked: &Walked,
    number: u32,
) -> Result<(), Fail> {
    let element = element_at(walked, number)?;
    let instance = instance_at(walked, element.instance)?;
    push_path(alloc, text, &instance.path)?;
    if !instance.path.steps.items().is_empty() {
        text.push_str(".")?;
    }
    push_bytes(text, element.point.name.bytes())?;
    for (i, index) in element.point.indices.items().iter().enumerate() {
        let index = format!(in alloc; "{}{index}", if i == 0 { "[" } else { "," })?;
        text.push_str(index.as_str())?;
    }
    if !element.point.indices.items().is_empty() {
        text.push_str("]")?;
    }
    Ok(())
}

fn push_wire(
    alloc: Global,
    text: &mut String,
    walked: &Walked,
    wire: &RawWire,
) -> Result<(), Fail> {
    if !text.as_str().is_empty() {
        text.push_str(" ")?;
    }
    push_path(alloc, text, &instance_at(walked, wire.scope)?.path)?;
    text.push_str(":")?;
    push_element(alloc, text, walked, wire.left)?;
    text.push_str("=")?;
    push_element(alloc, text, walked, wire.right)
}

// What stands at a place of these texts, up to a semicolon.
fn push_place(alloc: Global, text: &mut String, texts: &str, place: Place) -> Result<(), Fail> {
    let words = texts.split('|').nth(place.file as usize).ok_or("no file")?;
    let words = in_full(alloc, words)?;
    for byte in words.as_bytes().iter().skip(place.byte as usize) {
        if *byte == b';' {
            return Ok(());
        }
        text.push(*byte as char)?;
    }
    Ok(())
}

// The path of the instance, the number of the rule, and the statement.
fn show_fault(alloc: Global, texts: &str, fault: StatementFault) -> Result<String, Fail> {
    match fault {
        StatementFault::Rule { rule, path, place } => {
            let mut text = String::new(alloc);
            push_path(alloc, &mut text, &path)?;
            let rule = format!(in alloc; ":C{rule} ")?;
            text.push_str(rule.as_str())?;
            push_place(alloc, &mut text, texts, place)?;
            Ok(text)
        }
        StatementFault::OutOfMemory => Ok(String::from_str(alloc, "no memory")?),
    }
}

// Each wire as its scope, a colon and its two ends, with spaces between them, and `none` where there is none; or the path of the
// instance, the number of the rule that is broken first, and the statement that breaks it.
pub fn show_wires(
    alloc: Global,
    texts: &str,
    walked: &Walked,
    wires: Result<List<RawWire>, StatementFault>,
) -> Result<String, Fail> {
    match wires {
        Ok(wires) => {
            let mut text = String::new(alloc);
            for wire in wires.items() {
                push_wire(alloc, &mut text, walked, wire)?;
            }
            if wires.items().is_empty() {
                text.push_str("none")?;
            }
            Ok(text)
        }
        Err(fault) => show_fault(alloc, texts, fault),
    }
}

// How many wires there are, or the same of a broken rule.
pub fn show_count(
    alloc: Global,
    texts: &str,
    wires: Result<List<RawWire>, StatementFault>,
) -> Result<String, Fail> {
    match wires {
        Ok(wires) => Ok(format!(in alloc; "{} wires", wires.items().len())?),
        Err(fault) => show_fault(alloc, texts, fault),
    }
}
