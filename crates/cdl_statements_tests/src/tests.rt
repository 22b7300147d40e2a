// What statements answer for texts.
use crate::cases::{CASES, MANY_TURNS, MANY_WIRES};
use crate::models::table;
use crate::shown::{show_count, show_wires};
use cdl_connect::RawWire;
use cdl_params::Elaborator;
use cdl_source::List;
use cdl_statements::{StatementFault, statements};
use cdl_walk::{Walked, walk};
use std::alloc::Global;
use std::test::Fail;

// What the walk of a model finds, and what its statements answer.
#[derive(Drop)]
struct Found {
    walked: Walked,
    wires: Result<List<RawWire>, StatementFault>,
}

// The answer for the block M.
#[tactic(auto, using(crate::proofs::Unfolded::found_unfolded))]
fn answer(alloc: Global, texts: &str) -> Result<Found, Fail> {
    let table = table(alloc, texts)?;
    let root = table.root("M").ok_or("no root")?;
    let mut e = Elaborator::new(alloc, &table, root);
    let Ok(walked) = walk(alloc, &mut e) else {
        return Err("the walk breaks a rule".into());
    };
    let instances = walked.instances.items();
    let wires = statements(alloc, &mut e, instances, walked.elements.items());
    Ok(Found { walked, wires })
}

#[test]
fn statements_join_what_stands_or_break_a_rule(rt: HostRuntime) -> Result<(), Fail> {
    for row in CASES.lines() {
        let (texts, want) = row.split_once(" ? ").ok_or("no answer")?;
        let Found { walked, wires } = answer(rt.alloc(), texts)?;
        let shown = show_wires(rt.alloc(), texts, &walked, wires)?;
        assert!(rt; shown.as_str() == want, "{texts}: {shown}, not {want}");
    }
    Ok(())
}

// Whether texts have as many wires as their row says, or break the rule that it says.
fn check_count(alloc: Global, row: &str) -> Result<(), Fail> {
    let (texts, want) = row.split_once(" ? ").ok_or("no answer")?;
    let found = answer(alloc, texts)?;
    let shown = show_count(alloc, texts, found.wires)?;
    if shown.as_str() != want {
        return Err(format!(in alloc; "{texts}: {shown}, not {want}")?.into());
    }
    Ok(())
}

#[test]
fn turns_have_a_limit(rt: HostRuntime) -> Result<(), Fail> {
    for row in MANY_TURNS.lines() {
        check_count(rt.alloc(), row)?;
    }
    Ok(())
}

#[test]
fn wires_have_a_limit(rt: HostRuntime) -> Result<(), Fail> {
    for row in MANY_WIRES.lines() {
        check_count(rt.alloc(), row)?;
    }
    Ok(())
}
