// The statements of a model, as their loops run.
ghost use Rattle.std.specs.Prelude.{◌≡◌, IfOk, OnOk, slice_get, Some};
ghost use Rattle.cdl_stations.specs.Runs.{Takes, Runs};
ghost use Rattle.cdl_scopes.specs.Classes.{declared};
ghost use Rattle.cdl_statements.specs.Complete.{IsUnfolded};
ghost use Rattle.cdl_statements.specs.Directory.{Directory as DirectoryOf, directory as directory_of};
ghost use Rattle.cdl_statements.specs.Events as event;
ghost use Rattle.cdl_statements.specs.Events.{step};
ghost use Rattle.cdl_statements.specs.inner.Seen.{IsInstance, IsListed, IsScope, made, scope_seen, seen, tells};
ghost use Rattle.cdl_statements.specs.Judges.{Judges, StandForAll};
ghost use Rattle.cdl_statements.specs.Places as place;
ghost use Rattle.cdl_statements.specs.Stations as spec;
ghost use Rattle.cdl_joins.specs.Verdicts.{bounds as bounds_of};

use crate::directory::Directory;
use crate::fault::{Broken, StatementFault};
use crate::net::{Net, Scope, add_turns, add_wires, nothing};
use cdl_classes::{ClassId, ClassTable};
use cdl_connect::RawWire;
use cdl_joins::{Site, Verdict, bounds, enter, judge, leave, path_of, turns, value_in};
use cdl_params::Elaborator;
use cdl_paths::{Local, Step};
use cdl_source::rules::WRONG_SUBSCRIPT;
use cdl_source::{List, Place};
use cdl_tree::{Connect, Loop, Statement};
use cdl_walk::{Content, Element, Instance};
use std::alloc::Global;

// An occurrence of a connect statement.
fn occurrence(
    alloc: Global,
    e: &mut Elaborator<'_>,
    directory: &Directory<'_>,
    scope: Scope<'_>,
    locals: &[Local],
    connect: &Connect,
    net: &mut Net,
) -> Result<(), Broken>
    requires { IsScope e.old directory.now scope.number scope.path.now scope.class }
    ensures kept { e.new ≡ e.old }
    ensures takes { Takes (seen (scope_seen scope.entry)) step (made directory.now net.old) (event.occurrence e.old (scope_seen scope.entry) locals.now connect.now) result (made directory.now net.new) }
{
    let site = Site {
        path: scope.path,
        locals,
    };
    let found = judge(alloc, e, site, scope.class, connect)?;
    match found {
        Verdict::Breaks(rule) => Err(Broken::Rule {
            rule,
            byte: connect.span.start,
        }),
        Verdict::Dropped => Ok(()),
        Verdict::Joins(left, right) => {
            add_wires(
                alloc,
                directory,
                net,
                scope,
                connect.span.start,
                left,
                right,
            )
        }
    }
}

// C41 and C39 of a head with these bounds.
fn count_head(
    scope: Scope<'_>,
    byte: u32,
    bounds: Option<(i32, i32)>,
    net: &mut Net,
) -> Result<(i32, i32), Broken>
    ensures bounds { IfOk result (λ b. bounds ≡ Some b) }
    ensures takes { (d : DirectoryOf) → Takes (seen (scope_seen scope.entry)) step (made d net.old) (event.headed (place.spot (scope_seen scope.entry) byte) bounds) result (made d net.new) }
{
    let Some((low, high)) = bounds else {
        return Err(Broken::Rule {
            rule: WRONG_SUBSCRIPT,
            byte,
        });
    };
    match add_turns(net, scope, byte, turns(low, high)) {
        Ok(()) => Ok((low, high)),
        Err(broken) => Err(broken),
    }
}

// The bounds of a loop, and C41 and C39 of its head.
fn head(
    e: &mut Elaborator<'_>,
    scope: Scope<'_>,
    locals: &[Local],
    head: &Loop,
    net: &mut Net,
) -> Result<(i32, i32), Broken>
    ensures kept { e.new ≡ e.old }
    ensures bounds { IfOk result (λ b. bounds_of e.old scope.entry.path.now locals.now head.now ≡ Some b) }
    ensures takes { (d : DirectoryOf) → Takes (seen (scope_seen scope.entry)) step (made d net.old) (event.head e.old (scope_seen scope.entry) locals.now head.now) result (made d net.new) }
{
    let site = Site {
        path: scope.path,
        locals,
    };
    let bounds = bounds(e, site, head)?;
    count_head(scope, head.span.start, bounds, net)
}

/// The statements of a block or of a loop, in the order of the text.
#[cycle(body)]
pub fn body(
    alloc: Global,
    e: &mut Elaborator<'_>,
    directory: &Directory<'_>,
    scope: Scope<'_>,
    locals: &mut List<Local>,
    statements: &[Statement],
    net: &mut Net,
) -> Result<(), Broken>
    requires { IsScope e.old directory.now scope.number scope.path.now scope.class }
    ensures kept { e.new ≡ e.old }
    ensures same { OnOk result (locals.new ≡ locals.old) }
    ensures runs { Runs (seen (scope_seen scope.entry)) step (spec.InBody e.old (scope_seen scope.entry) locals.old statements.now) (made directory.now net.old) result (made directory.now net.new) }
{
    for i in 0..statements.len() {
        match statement(alloc, e, directory, scope, locals, &statements[i], net) {
            Ok(()) => {}
            Err(broken) => return Err(broken),
        }
    }
    Ok(())
}

/// A statement.
#[cycle(body)]
pub fn statement(
    alloc: Global,
    e: &mut Elaborator<'_>,
    directory: &Directory<'_>,
    scope: Scope<'_>,
    locals: &mut List<Local>,
    statement: &Statement,
    net: &mut Net,
) -> Result<(), Broken>
    requires { IsScope e.old directory.now scope.number scope.path.now scope.class }
    ensures kept { e.new ≡ e.old }
    ensures same { OnOk result (locals.new ≡ locals.old) }
    ensures runs { Runs (seen (scope_seen scope.entry)) step (spec.InStatement e.old (scope_seen scope.entry) locals.old statement.now) (made directory.now net.old) result (made directory.now net.new) }
{
    match statement {
        Statement::Connect(connect) => {
            occurrence(alloc, e, directory, scope, locals.items(), connect, net)
        }
        Statement::Loop(head) => looped(alloc, e, directory, scope, locals, head, net),
    }
}

/// A loop: its head counts all its turns before the first is run.
#[cycle(body)]
pub fn looped(
    alloc: Global,
    e: &mut Elaborator<'_>,
    directory: &Directory<'_>,
    scope: Scope<'_>,
    locals: &mut List<Local>,
    outer: &Loop,
    net: &mut Net,
) -> Result<(), Broken>
    requires { IsScope e.old directory.now scope.number scope.path.now scope.class }
    ensures kept { e.new ≡ e.old }
    ensures same { OnOk result (locals.new ≡ locals.old) }
    ensures runs { Runs (seen (scope_seen scope.entry)) step (spec.InLoop e.old (scope_seen scope.entry) locals.old outer.now) (made directory.now net.old) result (made directory.now net.new) }
{
    let (low, high) = match head(e, scope, locals.items(), outer, net) {
        Ok(bounds) => bounds,
        Err(broken) => return Err(broken),
    };
    for t in 0..turns(low, high) {
        let value = value_in(low, high, t);
        match turn(alloc, e, directory, scope, locals, outer, value, net) {
            Ok(()) => {}
            Err(broken) => return Err(broken),
        }
    }
    Ok(())
}

/// The turn of a loop in which its index has this value.
#[cycle(body)]
pub fn turn(
    alloc: Global,
    e: &mut Elaborator<'_>,
    directory: &Directory<'_>,
    scope: Scope<'_>,
    locals: &mut List<Local>,
    outer: &Loop,
    value: i32,
    net: &mut Net,
) -> Result<(), Broken>
    requires { IsScope e.old directory.now scope.number scope.path.now scope.class }
    ensures kept { e.new ≡ e.old }
    ensures same { OnOk result (locals.new ≡ locals.old) }
    ensures runs { Runs (seen (scope_seen scope.entry)) step (spec.InTurn e.old (scope_seen scope.entry) locals.old outer.now value) (made directory.now net.old) result (made directory.now net.new) }
{
    match enter(alloc, locals, outer, value) {
        Ok(()) => {}
        Err(_) => return Err(Broken::OutOfMemory),
    }
    match body(alloc, e, directory, scope, locals, outer.body.items(), net) {
        Ok(()) => {}
        Err(broken) => return Err(broken),
    }
    leave(locals);
    Ok(())
}

// ---- all instances

// The statements of a class; a class that isn't declared has none.
fn statements_of(table: &ClassTable, class: ClassId) -> &[Statement]
    ensures { result.now ≡ spec.statements_at (declared table.now) class.index }
{
    if class.index as usize >= table.len() {
        return &[];
    }
    table.tree(class).statements()
}

// The number of the file of a class.
fn file_of(table: &ClassTable, class: ClassId) -> u32
    ensures { result ≡ place.file_of (declared table.now) class.index }
{
    if class.index as usize >= table.len() {
        return 0;
    }
    table.file(class)
}

// The statements of an instance of a declared block.
fn block(
    alloc: Global,
    e: &mut Elaborator<'_>,
    directory: &Directory<'_>,
    number: u32,
    path: &[Step],
    class: ClassId,
    net: &mut Net,
) -> Result<(), StatementFault>
    requires { IsScope e.old directory.now number path.now class }
    ensures kept { e.new ≡ e.old }
    ensures runs { Runs tells step (spec.InScope e.old (place.scope_of e.old path.now class)) (made directory.now net.old) result (made directory.now net.new) }
{
    let table = e.table();
    let file = file_of(table, class);
    let scope = Scope {
        number,
        path,
        class,
        file,
    };
    let mut locals = List::new(alloc);
    let statements = statements_of(table, class);
    match body(alloc, e, directory, scope, &mut locals, statements, net) {
        Ok(()) => Ok(()),
        Err(Broken::Rule { rule, byte }) => match path_of(alloc, path) {
            Ok(path) => Err(StatementFault::Rule {
                rule,
                path,
                place: Place { file, byte },
            }),
            Err(_) => Err(StatementFault::OutOfMemory),
        },
        Err(Broken::OutOfMemory) => Err(StatementFault::OutOfMemory),
    }
}

// The statements of an instance.
fn instance(
    alloc: Global,
    e: &mut Elaborator<'_>,
    directory: &Directory<'_>,
    number: u32,
    instance: &Instance,
    net: &mut Net,
) -> Result<(), StatementFault>
    requires { IsInstance e.old directory.now number instance.now }
    ensures kept { e.new ≡ e.old }
    ensures runs { Runs tells step (spec.InInstance e.old instance.now) (made directory.now net.old) result (made directory.now net.new) }
{
    match &instance.content {
        Content::Block(class) => {
            let path = instance.path.steps.items();
            block(alloc, e, directory, number, path, *class, net)
        }
        Content::Elementary { .. } => Ok(()),
    }
}

// The statements of these instances.
fn all(
    alloc: Global,
    e: &mut Elaborator<'_>,
    directory: &Directory<'_>,
    instances: &[Instance],
    net: &mut Net,
) -> Result<(), StatementFault>
    requires { IsListed e.old directory.now instances.now }
    ensures kept { e.new ≡ e.old }
    ensures runs { Runs tells step (spec.InModel e.old instances.now) (made directory.now net.old) result (made directory.now net.new) }
{
    for i in 0..instances.len() {
        let Ok(number) = u32::try_from(i) else {
            return Err(StatementFault::OutOfMemory);
        };
        match instance(alloc, e, directory, number, &instances[i], net) {
            Ok(()) => {}
            Err(fault) => return Err(fault),
        }
    }
    Ok(())
}

/// The wires of a model in order, between the numbers of these instances and elements; else the first broken rule of C39, C40, C41, C42
/// and C47, with the path of the instance and the place of the word `for` or `connect`.
pub fn statements(
    alloc: Global,
    e: &mut Elaborator<'_>,
    instances: &[Instance],
    elements: &[Element],
) -> Result<List<RawWire>, StatementFault>
    requires { IsUnfolded e.old instances.now elements.now }
    ensures kept { e.new ≡ e.old }
    ensures judges { Judges (spec.InModel e.old instances.now) result }
    ensures wires { IfOk result (StandForAll (spec.InModel e.old instances.now) (directory_of instances.now elements.now)) }
{
    let Ok(directory) = Directory::of(alloc, instances, elements) else {
        return Err(StatementFault::OutOfMemory);
    };
    let mut net = nothing(alloc);
    match all(alloc, e, &directory, instances, &mut net) {
        Ok(()) => Ok(net.wires),
        Err(fault) => Err(fault),
    }
}
