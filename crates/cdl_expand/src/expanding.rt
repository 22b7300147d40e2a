// The net of a model.
ghost use Rattle.std.specs.Prelude.{◌≡◌, true, List, Err, IfErr, IfOk};
ghost use Rattle.std.specs.List.{list_all};
ghost use Rattle.cdl_tree.specs.FormedFiles.{formed_file};
ghost use Rattle.cdl_params.specs.Kept.{Model};
ghost use Rattle.cdl_walk.specs.declared.walked.Instance.{Instance};
ghost use Rattle.cdl_walk.specs.Judges.{Judges as WalkJudges};
ghost use Rattle.cdl_walk.specs.Stations as station;
ghost use Rattle.cdl_model.specs.Apart.{NamesApart};
ghost use Rattle.cdl_statements.specs.Judges.{Judges};
ghost use Rattle.cdl_statements.specs.Stations as statement;
ghost use Rattle.cdl_expand.specs.Expanded.{AreInstances, HasInstances, IsNetOfModel, Refuses};
ghost use Rattle.cdl_expand.specs.inner.Ordered.{AreJoined, HaveUnits, IsOrdered};

use crate::fault::ExpandFault;
use crate::parts::numbered_net;
use cdl_classes::declared_classes_are_formed;
use cdl_connect::{Net, RawWire};
use cdl_model::{declared_names_are_apart, parts_are_one};
use cdl_params::Elaborator;
use cdl_source::List;
use cdl_statements::{StatementFault, statements};
use cdl_walk::{WalkFault, Walked, by_instance, path_text, walk};
use cdl_worth::texts_are_utf8;
use std::alloc::Global;

// The files of the table are formed and keep the rules on classes; so no name is declared twice in a class, and units are texts.
fn classes_are_kept(e: &Elaborator<'_>)
    ensures names { NamesApart e.now }
    ensures formed { list_all formed_file e.now.files ≡ true }
    ensures units { HaveUnits e.now }
{
    declared_names_are_apart();
    declared_classes_are_formed();
    texts_are_utf8();
    let _classes = e.table().len();
}

// What is told of the rule that the walk names.
fn instance_refusal(alloc: Global, fault: WalkFault) -> ExpandFault
    ensures { (w : Model) → WalkJudges (station.InModel w) (Err fault) → Refuses w result }
{
    match fault {
        WalkFault::Rule { rule, path } => match path_text(alloc, path.steps.items()) {
            Ok(path) => ExpandFault::Instance { rule, path },
            Err(_) => ExpandFault::OutOfMemory,
        },
        WalkFault::OutOfMemory => ExpandFault::OutOfMemory,
    }
}

// What is told of the rule that a statement breaks.
fn statement_refusal(alloc: Global, fault: StatementFault) -> ExpandFault
    ensures { (w : Model) (xs : List Instance) → HasInstances w → AreInstances w xs → Judges (statement.InModel w xs) (Err fault) → Refuses w result }
{
    match fault {
        StatementFault::Rule { rule, path, place } => {
            match path_text(alloc, path.steps.items()) {
                Ok(path) => ExpandFault::Statement { rule, path, place },
                Err(_) => ExpandFault::OutOfMemory,
            }
        }
        StatementFault::OutOfMemory => ExpandFault::OutOfMemory,
    }
}

// What the walk finds, with the elements by instance.
fn walk_in_order(alloc: Global, e: &mut Elaborator<'_>) -> Result<Walked, ExpandFault>
    ensures kept { e.new ≡ e.old }
    ensures ordered { IfOk result (IsOrdered e.old) }
    ensures refused { IfErr result (Refuses e.old) }
{
    let walked = match walk(alloc, e) {
        Ok(walked) => walked,
        Err(fault) => return Err(instance_refusal(alloc, fault)),
    };
    let elements = by_instance(walked.elements)?;
    Ok(Walked {
        instances: walked.instances,
        elements,
    })
}

// The wires between the numbers of what the walk found.
fn join(
    alloc: Global,
    e: &mut Elaborator<'_>,
    walked: &Walked,
) -> Result<List<RawWire>, ExpandFault>
    requires { IsOrdered e.old walked.now }
    ensures kept { e.new ≡ e.old }
    ensures joined { IfOk result (AreJoined e.old walked.now) }
    ensures refused { IfErr result (Refuses e.old) }
{
    match statements(alloc, e, walked.instances.items(), walked.elements.items()) {
        Ok(wires) => Ok(wires),
        Err(fault) => Err(statement_refusal(alloc, fault)),
    }
}

/// The net of a model; else the first broken rule of C20 to C32, C38, C39, C40, C41, C42 and C47, those of instances before those of
/// statements. Each instance, element, turn and wire costs a look-up by name or a few.
pub fn expand(alloc: Global, e: &mut Elaborator<'_>) -> Result<Net, ExpandFault>
    ensures kept { e.new ≡ e.old }
    ensures net { IfOk result (IsNetOfModel e.old) }
    ensures refused { IfErr result (Refuses e.old) }
{
    parts_are_one();
    classes_are_kept(e);
    let walked = walk_in_order(alloc, e)?;
    let wires = join(alloc, e, &walked)?;
    let net = numbered_net(alloc, walked, wires)?;
    Ok(net)
}
