// From a class and the names of its models to a plan, or the rule that is broken first.
ghost use Rattle.std.specs.Prelude.{◌≡◌, ◌≤◌, ◌<◌, ◌+◌, ◌^◌, IfErr, IfOk, OnOk, Some, length, map, string_bytes};
ghost use Rattle.std.specs.Io.KnownBytes.{IsAtEnd};
ghost use Rattle.cdl_source.specs.Causes.{Rose};
ghost use Rattle.cdl_source.specs.Outside.{DueBeginsWith};
ghost use Rattle.cdl_scopes.specs.Classes.{cut, declared};
ghost use Rattle.cdl_classes.specs.Table.{block_of};
ghost use Rattle.cdl_classes.specs.Verdict.{IsUnbroken};
ghost use Rattle.cdl_expand.specs.Expanded.{IsNetOfModel};
ghost use Rattle.cdl_command.specs.Answer.{sequence};
ghost use Rattle.cdl_command.specs.Texts.{HaveTrees};
ghost use Rattle.cdl_command.specs.inner.Plans as spec;
ghost use Rattle.cdl_command.specs.inner.Plans.{Halts, HasNet, IsNetOf, RefusesClasses, RefusesElements, RefusesModel, RefusesRoot, model_of};
ghost use Rattle.cdl_command.specs.inner.Reads.{AreShort, due_behind};
ghost use Rattle.cdl_command.specs.inner.Stops.{FaultIsAnswered, Stops};
ghost use Rattle.cdl_command.specs.Breaks.{spot_of};

use crate::stop::{Stop, refusal_in, refusal_of, refused_root};
use crate::texts::{Models, read_models};
use cdl_check::{CheckFault, NetSpot, check};
use cdl_classes::{ClassFault, ClassId, ClassTable};
use cdl_connect::Net;
use cdl_expand::{ExpandFault, expand};
use cdl_job::Spot;
use cdl_model::{model_is_a_network, net_is_model, rules_are_the_nets};
use cdl_params::Elaborator;
use cdl_schedule::Plan;
use cdl_source::rules::NO_SUCH_BLOCK;
use cdl_source::{Files, List, MOST_MODELS, Text};
use cdl_tree::FileTree;
use std::alloc::Global;

// The classes of the models with these texts and these trees.
fn classes_of(alloc: Global, texts: &[Text], trees: List<FileTree>) -> Result<ClassTable, Stop>
    requires few { length trees ≤ MOST_MODELS }
    requires have { HaveTrees texts.now trees }
    ensures same { IfOk result (λ classes. classes ≡ trees) }
    ensures unbroken { OnOk result (IsUnbroken (declared trees)) }
    ensures err { IfErr result (Stops ⊥ (RefusesClasses texts.now trees)) }
{
    match ClassTable::build(alloc, trees) {
        Ok(classes) => Ok(classes),
        Err(ClassFault::Rule { rule, place }) => Err(Stop::Refused(refusal_in(
            rule,
            Spot::Source(place),
            place,
            texts,
        ))),
        Err(ClassFault::OutOfMemory) => Err(Stop::OutOfMemory),
    }
}

// The declared block of a class name.
fn root_of(alloc: Global, classes: &ClassTable, class: &str) -> Result<ClassId, Stop>
    ensures ok { IfOk result (λ root. block_of (declared classes.now) (cut class.now) ≡ Some root) }
    ensures err { IfErr result (Stops ⊥ (RefusesRoot class.now classes.now)) }
{
    match classes.root(class) {
        Some(root) => Ok(root),
        None => Err(refused_root(alloc, NO_SUCH_BLOCK)),
    }
}

// What a model without a net is answered with.
fn expand_stop(fault: ExpandFault, texts: &[Text]) -> Stop
    requires { AreShort texts.now }
    ensures { result ≡ spec.expand_stop fault texts.now }
{
    match fault {
        ExpandFault::Instance { rule, path } => {
            Stop::Refused(refusal_of(rule, Spot::Path(path)))
        }
        ExpandFault::Statement { rule, path, place } => {
            let spot = Spot::Statement { path, place };
            Stop::Refused(refusal_in(rule, spot, place, texts))
        }
        ExpandFault::OutOfMemory => Stop::OutOfMemory,
    }
}

// The net of the model of these texts.
fn net_of(alloc: Global, texts: &[Text], classes: &ClassTable, root: ClassId) -> Result<Net, Stop>
    requires { AreShort texts.now }
    ensures ok { IfOk result (IsNetOfModel (model_of classes.now root)) }
    ensures err { IfErr result (Stops ⊥ (RefusesElements texts.now (model_of classes.now root))) }
{
    let mut elaborator = Elaborator::new(alloc, classes, root);
    match expand(alloc, &mut elaborator) {
        Ok(net) => Ok(net),
        Err(fault) => Err(expand_stop(fault, texts)),
    }
}

fn spot_of(place: NetSpot) -> Spot
    ensures { result ≡ spot_of place }
{
    match place {
        NetSpot::Wire { left, right } => Spot::Wire { left, right },
        NetSpot::Path(path) => Spot::Path(path),
    }
}

// What a net without a plan is answered with.
fn check_stop(fault: CheckFault) -> Stop
    ensures { result ≡ spec.check_stop fault }
{
    match fault {
        CheckFault::Rule { rule, spot } => Stop::Refused(refusal_of(rule, spot_of(spot))),
        CheckFault::OutOfMemory => Stop::OutOfMemory,
    }
}

// The plan of the net of the model of these texts.
fn model_plan(
    alloc: Global,
    texts: &[Text],
    classes: &ClassTable,
    root: ClassId,
) -> Result<Plan, Stop>
    requires { AreShort texts.now }
    ensures ok { IfOk result (λ plan. IsNetOf (model_of classes.now root) plan.net) }
    ensures err { IfErr result (Stops ⊥ (RefusesModel texts.now (model_of classes.now root))) }
{
    let net = net_of(alloc, texts, classes, root)?;
    net_is_model();
    model_is_a_network();
    rules_are_the_nets();
    match check(alloc, net) {
        Ok(plan) => Ok(plan),
        Err(fault) => Err(check_stop(fault)),
    }
}

/// Reads the models, and makes the plan of the class in them.
pub(crate) fn plan_of<F: Files>(
    alloc: Global,
    class: &str,
    models: &[String],
    files: &mut F,
) -> Result<Plan, Stop>
    requires few { length models.now ≤ MOST_MODELS }
    requires room { F.begun files.old ≤ 2 ^ 32 }
    requires due { DueBeginsWith (F.due files.old) (map string_bytes models.now) }
    ensures contents { F.contents files.new ≡ F.contents files.old }
    ensures later { F.faults files.old ≤ F.faults files.new }
    ensures ok { IfOk result (λ plan. HasNet (F.contents files.old) (sequence class.now (map string_bytes models.now)) plan.net) }
    ensures begun { OnOk result (F.begun files.new ≡ F.begun files.old + length models.now) }
    ensures due { OnOk result (F.due files.new ≡ due_behind (length models.now) (F.due files.old)) }
    ensures end { OnOk result (0 < length models.now → IsAtEnd (F.rest files.new)) }
    ensures err { IfErr result (Halts (F.contents files.old) (sequence class.now (map string_bytes models.now)) (F.begun files.old) (F.begun files.new) (Rose (F.faults files.old) (F.faults files.new))) }
    ensures kept { OnOk result (F.faults files.new ≡ F.faults files.old) }
    ensures answered { IfErr result (FaultIsAnswered (F.faults files.old) (F.faults files.new)) }
{
    let Models { texts, trees } = read_models(alloc, files, models)?;
    let classes = classes_of(alloc, texts.items(), trees)?;
    let root = root_of(alloc, &classes, class)?;
    model_plan(alloc, texts.items(), &classes, root)
}
