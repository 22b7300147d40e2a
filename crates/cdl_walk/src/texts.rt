// The texts of paths.
ghost use Rattle.std.specs.Prelude.{◌≡◌, ◌++◌, IfOk, OnOk, decimal};
ghost use Rattle.cdl_walk.specs.Texts as spec;

use cdl_paths::Step;
use cdl_source::{OutOfMemory, Text};
use itoa::Buffer;
use std::alloc::Global;

fn push_number(text: &mut Text, n: u32) -> Result<(), OutOfMemory>
    ensures { OnOk result (text.new ≡ text.old ++ decimal n) }
{
    let mut digits = Buffer::new();
    text.push(digits.format(n).as_bytes())
}

// Adds further indices, each behind a comma.
fn push_more_indices(text: &mut Text, indices: &[u32]) -> Result<(), OutOfMemory>
    ensures { OnOk result (text.new ≡ text.old ++ spec.more_indices indices.now) }
{
    let [index, more @ ..] = indices else {
        return Ok(());
    };
    text.push(b",")?;
    push_number(text, *index)?;
    push_more_indices(text, more)
}

// Adds the name of a step, and its indices in brackets where it has some.
fn push_step(text: &mut Text, step: &Step) -> Result<(), OutOfMemory>
    ensures { OnOk result (text.new ≡ text.old ++ spec.step_text step.now) }
{
    text.push(step.name.bytes())?;
    let [index, more @ ..] = step.indices.items() else {
        return Ok(());
    };
    text.push(b"[")?;
    push_number(text, *index)?;
    push_more_indices(text, more)?;
    text.push(b"]")
}

/// The text of a step: its name, and its indices in brackets where it has some, as `a[2]`.
pub fn step_text(alloc: Global, step: &Step) -> Result<Text, OutOfMemory>
    ensures { IfOk result (λ text. text ≡ spec.step_text step.now) }
{
    let mut text = Text::from_bytes(alloc, b"")?;
    push_step(&mut text, step)?;
    Ok(text)
}

// Adds further steps, each behind a point.
fn push_more_steps(text: &mut Text, steps: &[Step]) -> Result<(), OutOfMemory>
    ensures { OnOk result (text.new ≡ text.old ++ spec.more_steps steps.now) }
{
    let [step, more @ ..] = steps else {
        return Ok(());
    };
    text.push(b".")?;
    push_step(text, step)?;
    push_more_steps(text, more)
}

/// The text of a path: `#` at the root, else its steps with points between them, and indices in brackets, as `#a[2].b`.
pub fn path_text(alloc: Global, steps: &[Step]) -> Result<Text, OutOfMemory>
    ensures { IfOk result (λ text. text ≡ spec.path_text steps.now) }
{
    let mut text = Text::from_bytes(alloc, b"#")?;
    let [step, more @ ..] = steps else {
        return Ok(text);
    };
    push_step(&mut text, step)?;
    push_more_steps(&mut text, more)?;
    Ok(text)
}
