// The runner of a text.
ghost use Rattle.std.specs.Prelude.{◌≡◌, ◌<◌, IfOk, map};
ghost use Rattle.cdl_network.specs.Dependence.{root_inputs};
ghost use Rattle.cdl_connect.specs.Nets.{network_of};
ghost use Rattle.cdl_connect.specs.WellFormed.{AreOfKinds, ArePlain};
ghost use Rattle.cdl_run.specs.Words.{elementary_count};
ghost use Rattle.cdl_run_tests.specs.Framed.{IsFramed};
ghost use Rattle.cdl_run_tests.specs.Kept.{AreKept};

use crate::builder::net_of;
use crate::kinds::{are_of_kinds, are_plain};
use crate::roots::{blocks_in, is_row, outputs_in, rows_in};
use cdl_connect::Net;
use cdl_kinds::Steps;
use cdl_net_tests::indexed;
use cdl_run::{RangeFault, ResumeFault, Runner};
use cdl_schedule::{Plan, order};
use cdl_source::LATEST_TIME;
use cdl_values::ValueType;
use std::alloc::Global;
use std::marker::{Brand, Model};
use std::sync::ledger::{Blank, Ledger};
use std::test::Fail;

// The types of the root's inputs, the numbers of its outputs, and those of the elementary instances.
#[derive(Drop)]
struct Frame {
    rows: Vec<ValueType>,
    outputs: Vec<u32>,
    blocks: Vec<u32>,
}

/// A runner, with what is to be known of its root.
#[derive(Drop)]
pub struct Trial {
    runner: Runner,
    frame: Frame,
}

impl Model for Trial {
    ghost use Rattle.cdl_run.specs.Running.{Running};
    ghost use Rattle.cdl_run_tests.specs.Framed.{IsFramed};

    ghost Value = { Running };

    ghost view = { λ t. t.runner };

    ghost invariant = { λ t. IsFramed t.runner.net t.frame.rows.items t.frame.outputs.items t.frame.blocks.items };
}

// The plan of a net whose numbers are good.
fn plan_of(alloc: Global, net: Net) -> Result<(Plan, Frame), Fail>
    requires kept { AreKept net.instances }
    ensures kinds { IfOk result (λ r. AreOfKinds r.0.net) }
    ensures plain { IfOk result (λ r. ArePlain r.0.net) }
    ensures framed { IfOk result (λ r. IsFramed r.0.net r.1.rows.items r.1.outputs.items r.1.blocks.items) }
{
    let net = indexed(net).ok_or("numbers out of range")?;
    if !are_of_kinds(&net) || !are_plain(&net) {
        return Err("not of their kinds".into());
    }
    let Ok(checked) = net.check(alloc) else {
        return Err("broken wires".into());
    };
    let Ok(plan) = order(alloc, checked) else {
        return Err("a loop".into());
    };
    let net = plan.net().net();
    let rows = rows_in(alloc, net)?;
    let outputs = outputs_in(alloc, net)?;
    let blocks = blocks_in(alloc, net)?;
    let frame = Frame {
        rows,
        outputs,
        blocks,
    };
    Ok((plan, frame))
}

// Takes a tick, counted by a ledger of its own. None: the time isn't later, or the row isn't one of the net.
fn one_tick<L: Ledger>(
    blank: Blank,
    runner: &mut Runner,
    rows: &[ValueType],
    now: i64,
    row: &[i64],
) -> Option<Result<(), RangeFault>>
    requires name { blank.name ≡ L.name }
    requires parts { blank.parts ≡ L.parts }
    requires some { 0 < blank.parts }
    requires rows { rows.now ≡ map (network_of runner.old.net).value_type (root_inputs (network_of runner.old.net)) }
    ensures { runner.new.net ≡ runner.old.net }
{
    if now < 0 || now > LATEST_TIME as i64 || now <= runner.last() || !is_row(rows, row) {
        return None;
    }
    let mut steps = Steps::<L>::new(blank);
    Some(runner.tick(now, row, &mut steps))
}

impl Trial {
    /// The runner of a text before its first tick.
    pub fn start(alloc: Global, text: &str) -> Result<Trial, Fail> {
        let (plan, frame) = plan_of(alloc, net_of(alloc, text)?)?;
        let runner = Runner::start(alloc, plan)?;
        Ok(Trial { runner, frame })
    }

    /// The runner of a text that goes on from these words, or why none does.
    pub fn resume(
        alloc: Global,
        text: &str,
        last: i64,
        words: &[i64],
    ) -> Result<Result<Trial, ResumeFault>, Fail> {
        let (plan, frame) = plan_of(alloc, net_of(alloc, text)?)?;
        Ok(match Runner::resume(alloc, plan, last, words) {
            Ok(runner) => Ok(Trial { runner, frame }),
            Err(fault) => Err(fault),
        })
    }

    /// Takes a tick. None: the time isn't later, or the row isn't one of the net.
    pub fn tick(&mut self, now: i64, row: &[i64]) -> Option<Result<(), RangeFault>> {
        let rows = self.frame.rows.as_slice();
        one_tick::<Brand>(Blank::new(1), &mut self.runner, rows, now, row)
    }

    /// How many elementary instances there are: as many steps as an Ok tick takes.
    pub fn blocks(&self) -> usize
        ensures { result ≡ elementary_count self.now.net }
    {
        self.frame.blocks.len()
    }

    /// Whether these are the words of the root's outputs.
    pub fn shows(&self, want: &[i64]) -> bool {
        if want.len() != self.frame.outputs.len() {
            return false;
        }
        for i in 0..want.len() {
            if self.runner.output(i) != want[i] {
                return false;
            }
        }
        true
    }

    /// The runner, lent.
    pub fn runner(&self) -> &Runner
        ensures { result.now ≡ self.now }
    {
        &self.runner
    }
}
