// What the walk finds, as texts.
use cdl_paths::Path;
use cdl_walk::{Element, Instance, WalkFault, Walked, by_instance, path_text};
use std::alloc::Global;
use std::test::Fail;

fn push_bytes(text: &mut String, bytes: &[u8]) -> Result<(), Fail> {
    for byte in bytes {
        text.push(*byte as char)?;
    }
    Ok(())
}

fn push_path(alloc: Global, text: &mut String, path: &Path) -> Result<(), Fail> {
    let words = path_text(alloc, path.steps.items())?;
    push_bytes(text, words.bytes())
}

// The path of its instance and its name, its indices in brackets, and its unit behind a colon.
fn push_element(
    alloc: Global,
    text: &mut String,
    instances: &[Instance],
    element: &Element,
) -> Result<(), Fail> {
    let instance = instances
        .get(element.instance as usize)
        .ok_or("no instance")?;
    push_path(alloc, text, &instance.path)?;
    if !instance.path.steps.items().is_empty() {
        text.push_str(".")?;
    }
    push_bytes(text, element.point.name.bytes())?;
    for (i, index) in element.point.indices.items().iter().enumerate() {
        let index = format!(in alloc; "{}{index}", if i == 0 { "[" } else { "," })?;
        text.push_str(index.as_str())?;
    }
    if !element.point.indices.items().is_empty() {
        text.push_str("]")?;
    }
    if !element.point.unit.bytes().is_empty() {
        text.push_str(":")?;
        push_bytes(text, element.point.unit.bytes())?;
    }
    Ok(())
}

// The paths of the instances, a semicolon, and the elements in the order of their instances, with spaces between them.
fn show_walked(alloc: Global, walked: Walked) -> Result<String, Fail> {
    let mut text = String::new(alloc);
    for instance in walked.instances.items() {
        push_path(alloc, &mut text, &instance.path)?;
        text.push_str(" ")?;
    }
    text.push_str(";")?;
    let elements = by_instance(walked.elements)?;
    for element in elements.items() {
        text.push_str(" ")?;
        push_element(alloc, &mut text, walked.instances.items(), element)?;
    }
    Ok(text)
}

// That, or the path and the number of the rule that is broken first.
pub fn show(alloc: Global, answer: Result<Walked, WalkFault>) -> Result<String, Fail> {
    match answer {
        Ok(walked) => show_walked(alloc, walked),
        Err(WalkFault::Rule { rule, path }) => {
            let mut text = String::new(alloc);
            push_path(alloc, &mut text, &path)?;
            let rule = format!(in alloc; ":C{rule}")?;
            text.push_str(rule.as_str())?;
            Ok(text)
        }
        Err(WalkFault::OutOfMemory) => Ok(String::from_str(alloc, "no memory")?),
    }
}
