// Reading the models of a job.
ghost use Rattle.std.specs.Prelude.{◌≡◌, ◌≤◌, ◌<◌, ◌+◌, ◌-◌, ◌^◌, IfOk, IfErr, OnOk, length, map, string_bytes};
ghost use Rattle.std.specs.Io.KnownBytes.{IsAtEnd};
ghost use Rattle.cdl_source.specs.Causes.{Rose};
ghost use Rattle.cdl_source.specs.Outside.{IsNextDue, due_after, DueBeginsWith};
ghost use Rattle.cdl_command.specs.inner.Reads as spec;
ghost use Rattle.cdl_command.specs.inner.Stops.{FaultIsAnswered, Stops};
ghost use Rattle.cdl_command.specs.Texts.{Holds, HasTree};

use crate::stop::{Stop, refusal_at};
use cdl_job::Spot;
use cdl_lex::{LexFault, lex};
use cdl_parse::{ParseFault, parse};
use cdl_source::rules::MODEL_TOO_LONG;
use cdl_source::{
    Files, LONGEST_MODEL, List, MOST_MODELS, OutOfMemory, Place, ReadError, Text, read_whole,
};
use cdl_tree::FileTree;
use std::alloc::Global;

/// A model: its text and its tree.
#[derive(Drop)]
pub(crate) struct Model {
    pub(crate) text: Text,
    pub(crate) tree: FileTree,
}

/// The texts of models, and their trees, in the order of work.
#[derive(Drop)]
pub(crate) struct Models {
    pub(crate) texts: List<Text>,
    pub(crate) trees: List<FileTree>,
}

// A broken rule at a place of this text.
fn refused(rule: u32, place: Place, text: &[u8]) -> Stop
    requires { length text.now ≤ LONGEST_MODEL }
    ensures { result ≡ Stop.Refused (spec.at_place rule place text.now) }
{
    Stop::Refused(refusal_at(rule, Spot::Source(place), place.byte, text))
}

/// The tree of the text of this file.
fn tree_of(alloc: Global, file: u32, bytes: &[u8]) -> Result<FileTree, Stop>
    requires { length bytes.now ≤ LONGEST_MODEL }
    ensures ok { IfOk result (HasTree bytes.now) }
    ensures err { IfErr result (Stops ⊥ (spec.RefusesBytes file bytes.now)) }
{
    let tokens = match lex(alloc, file, bytes) {
        Ok(tokens) => tokens,
        Err(LexFault::OutOfMemory) => return Err(Stop::OutOfMemory),
        Err(LexFault::Rule { rule, place }) => return Err(refused(rule, place, bytes)),
    };
    match parse(alloc, &tokens) {
        Ok(tree) => Ok(tree),
        Err(ParseFault::OutOfMemory) => Err(Stop::OutOfMemory),
        Err(ParseFault::Rule { rule, place }) => Err(refused(rule, place, bytes)),
    }
}

// What a model that was not read whole is answered with.
fn not_whole(e: ReadError, file: u32) -> Stop
    requires head { spec.IsShortHead e }
    ensures { result ≡ spec.stop_of e file }
{
    match e {
        ReadError::Failed => Stop::ReadFault,
        ReadError::TooLarge { head } => {
            let place = Place {
                file,
                byte: LONGEST_MODEL as u32,
            };
            refused(MODEL_TOO_LONG, place, head.bytes())
        }
        ReadError::OutOfMemory => Stop::OutOfMemory,
    }
}

/// Reads the model of this number.
fn read_model<F: Files>(alloc: Global, files: &mut F, name: &str, file: u32) -> Result<Model, Stop>
    requires room { F.begun files.old < 2 ^ 64 - 1 }
    requires next { IsNextDue (F.due files.old) name.now }
    ensures begun { F.begun files.new ≡ F.begun files.old + 1 }
    ensures due { F.due files.new ≡ due_after (F.due files.old) }
    ensures contents { F.contents files.new ≡ F.contents files.old }
    ensures later { F.faults files.old ≤ F.faults files.new }
    ensures holds { IfOk result (λ m. Holds (F.contents files.old) name.now m.text) }
    ensures tree { IfOk result (λ m. HasTree m.text m.tree) }
    ensures end { OnOk result (IsAtEnd (F.rest files.new)) }
    ensures err { IfErr result (Stops (Rose (F.faults files.old) (F.faults files.new)) (spec.RefusesText (F.contents files.old) name.now file)) }
    ensures kept { OnOk result (F.faults files.new ≡ F.faults files.old) }
    ensures answered { IfErr result (FaultIsAnswered (F.faults files.old) (F.faults files.new)) }
{
    let text = match read_whole(alloc, files, name, LONGEST_MODEL) {
        Ok(text) => text,
        Err(e) => return Err(not_whole(e, file)),
    };
    let tree = tree_of(alloc, file, text.bytes())?;
    Ok(Model { text, tree })
}

/// Reads the models of these names, each only where those before it break no rule of texts.
pub(crate) fn read_models<F: Files>(
    alloc: Global,
    files: &mut F,
    names: &[String],
) -> Result<Models, Stop>
    requires few { length names.now ≤ MOST_MODELS }
    requires room { F.begun files.old ≤ 2 ^ 32 }
    requires due { DueBeginsWith (F.due files.old) (map string_bytes names.now) }
    ensures contents { F.contents files.new ≡ F.contents files.old }
    ensures later { F.faults files.old ≤ F.faults files.new }
    ensures ok { IfOk result (spec.AreModels (F.contents files.old) (map string_bytes names.now)) }
    ensures begun { OnOk result (F.begun files.new ≡ F.begun files.old + length names.now) }
    ensures due { OnOk result (F.due files.new ≡ spec.due_behind (length names.now) (F.due files.old)) }
    ensures end { OnOk result (0 < length names.now → IsAtEnd (F.rest files.new)) }
    ensures err { IfErr result (spec.StopsInTexts (F.contents files.old) (map string_bytes names.now) (F.begun files.old) (F.begun files.new) (Rose (F.faults files.old) (F.faults files.new))) }
    ensures kept { OnOk result (F.faults files.new ≡ F.faults files.old) }
    ensures answered { IfErr result (FaultIsAnswered (F.faults files.old) (F.faults files.new)) }
{
    let mut models = Models {
        texts: List::new(alloc),
        trees: List::new(alloc),
    };
    for i in 0..names.len() {
        let Model { text, tree } = read_model(alloc, files, names[i].as_str(), i as u32)?;
        models.texts.push(text)?;
        models.trees.push(tree)?;
    }
    Ok(models)
}
