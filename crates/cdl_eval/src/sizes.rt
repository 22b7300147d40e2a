// Declared sizes, and those of the steps of a place.
ghost use Rattle.std.specs.Prelude.{◌≡◌, ◌≤◌, ◌<◌, ◌+◌, ◌++◌, [], ◌∷◌, Option, Some, IfOk, OnOk, Ok, cond, drop, take, length, map, option_map, slice_get};
ghost use Rattle.cdl_array.specs.Outcomes.{Answers};
ghost use Rattle.cdl_scopes.specs.Classes.{declared};
ghost use Rattle.cdl_worth.specs.Sizes as spec;
ghost use Rattle.cdl_worth.specs.Values as values;
ghost use Rattle.cdl_eval.specs.Leads.{Leads};
ghost use Rattle.cdl_eval.specs.Places.{sizes_of_steps, weight_of, worth_at};

use crate::eval::Evaluator;
use crate::kept::Store;
use crate::place::{Place, front};
use cdl_array::{EvalFault, count_of, size_of};
use cdl_classes::{ClassId, ClassTable, Found};
use cdl_paths::{Step, member_of, site};
use cdl_source::rules::{UNKNOWN_NAME, WRONG_SHAPE};
use cdl_source::{List, MOST_LINKS, OutOfMemory};
use cdl_tree::{Dim, Item};
use cdl_values::Array;
use std::alloc::Global;

// Of sizes of which some may be any, those that are not.
fn known(alloc: Global, sizes: &[Option<u32>]) -> Result<List<u32>, OutOfMemory>
    ensures { IfOk result (λ known. known ≡ spec.known sizes.now) }
{
    let mut known = List::new(alloc);
    for i in 0..sizes.len() {
        push_known(&mut known, sizes[i])?;
    }
    Ok(known)
}

// Adds a size that is not any.
fn push_known(known: &mut List<u32>, size: Option<u32>) -> Result<(), OutOfMemory>
    ensures { OnOk result (known.new ≡ known.old ++ spec.known (size ∷ [])) }
{
    match size {
        Some(size) => known.push(size),
        None => Ok(()),
    }
}

// Whether the step of this number is left out.
fn out_at(outs: &[bool], number: usize) -> Option<bool>
    ensures { result ≡ slice_get outs.now number }
{
    outs.get(number).copied()
}

// How many items these sizes have together.
fn counted(sizes: &[u32]) -> Result<usize, EvalFault>
    ensures answers { Answers (spec.counted sizes.now) result }
    ensures few { IfOk result (λ n. length sizes.now ≤ 2) }
{
    if sizes.len() > 2 {
        return Err(EvalFault::Rule(WRONG_SHAPE));
    }
    count_of(sizes)
}

// The item of this name at a place.
fn member_at<'t>(table: &'t ClassTable, place: &Place<'_>, name: &[u8]) -> Option<&'t Item>
    ensures { option_map (λ x. x.now) result ≡ option_map (λ m. m.item) (values.member_at (declared table.now) place.now.start.index place.now.steps.now name.now) }
{
    match site(table, Found::Class(place.start), place.steps) {
        Some(Found::Class(class)) => match member_of(table, class, name) {
            Some(member) => Some(member.item),
            None => None,
        },
        _ => None,
    }
}

impl<'t, F: Fn(&mut Store<'_>, u32, ClassId, &[Step], &[u8]) -> Result<Array, EvalFault>> Evaluator<
    't,
    F,
> {
    // The size of a dimension. None: any.
    fn dim_size(
        &self,
        e: &mut Store<'_>,
        place: &Place<'_>,
        dim: &Dim,
    ) -> Result<Option<u32>, EvalFault>
        requires files { e.old.files ≡ self.now.table.now }
        requires leads { Leads (weight_of place.now) (F.pre self.now.link) (F.post self.now.link) }
        ensures same { e.new ≡ e.old }
        ensures answers { Answers (spec.dim_size (worth_at self.now.table.now place.now []) dim.now) result }
    {
        let size = match dim {
            Dim::Any => return Ok(None),
            Dim::Size(size) => size,
        };
        let size = match self.eval(e, place, &[], size) {
            Ok(size) => size,
            Err(fault) => return Err(fault),
        };
        match size_of(&size) {
            Ok(size) => Ok(Some(size)),
            Err(fault) => Err(fault),
        }
    }

    // The sizes of the dimensions of a declaration, from the left.
    #[tactic(auto, using(crate::proofs::Rows::with_none, crate::proofs::Rows::dims_more, crate::proofs::Rows::dims_fault, crate::proofs::Rows::dims_end))]
    fn dim_sizes(
        &self,
        e: &mut Store<'_>,
        place: &Place<'_>,
        dims: &[Dim],
    ) -> Result<List<Option<u32>>, EvalFault>
        requires files { e.old.files ≡ self.now.table.now }
        requires leads { Leads (weight_of place.now) (F.pre self.now.link) (F.post self.now.link) }
        ensures same { e.new ≡ e.old }
        ensures answers { Answers (spec.dim_sizes (worth_at self.now.table.now place.now []) dims.now) result }
    {
        let mut sizes = List::new(self.alloc);
        for i in 0..dims.len() {
            match self.dim_size(e, place, &dims[i]) {
                Ok(size) => sizes.push(size)?,
                Err(fault) => return Err(fault),
            }
        }
        Ok(sizes)
    }

    /// The sizes that a declaration has at a place, of which some may be any.
    pub fn declared_sizes(
        &self,
        e: &mut Store<'_>,
        place: &Place<'_>,
        dims: &[Dim],
    ) -> Result<List<Option<u32>>, EvalFault>
        requires files { e.old.files ≡ self.now.table.now }
        requires leads { Leads (weight_of place.now) (F.pre self.now.link) (F.post self.now.link) }
        ensures same { e.new ≡ e.old }
        ensures answers { Answers (spec.declared_sizes (worth_at self.now.table.now place.now []) dims.now) result }
        ensures few { IfOk result (λ ws. length (spec.known ws) ≤ 2) }
    {
        let sizes = match self.dim_sizes(e, place, dims) {
            Ok(sizes) => sizes,
            Err(fault) => return Err(fault),
        };
        let known = known(self.alloc, sizes.items())?;
        match counted(known.items()) {
            Ok(_) => Ok(sizes),
            Err(fault) => Err(fault),
        }
    }

    /// The sizes of a component or a connector that is declared at a place.
    pub fn sizes(
        &self,
        e: &mut Store<'_>,
        place: &Place<'_>,
        dims: &[Dim],
    ) -> Result<List<u32>, EvalFault>
        requires files { e.old.files ≡ self.now.table.now }
        requires leads { Leads (weight_of place.now) (F.pre self.now.link) (F.post self.now.link) }
        ensures same { e.new ≡ e.old }
        ensures answers { Answers (spec.sizes_of (worth_at self.now.table.now place.now []) dims.now) result }
        ensures few { IfOk result (λ ns. length ns ≤ 2) }
    {
        match self.declared_sizes(e, place, dims) {
            Ok(sizes) => Ok(known(self.alloc, sizes.items())?),
            Err(fault) => Err(fault),
        }
    }

    // The sizes of the component of this name behind so many steps of a place, with all links anew.
    #[tactic(auto, using(crate::proofs::Leading::leads_front, crate::proofs::StepSizes::step_none, crate::proofs::StepSizes::step_some))]
    fn step_sizes(
        &self,
        e: &mut Store<'_>,
        place: &Place<'_>,
        before: usize,
        name: &[u8],
    ) -> Result<List<u32>, EvalFault>
        requires files { e.old.files ≡ self.now.table.now }
        requires leads { Leads (weight_of place.now) (F.pre self.now.link) (F.post self.now.link) }
        requires shorter { before < length place.now.steps.now }
        ensures same { e.new ≡ e.old }
        ensures answers { Answers (values.step_size (declared self.now.table.now) place.now.start.index (values.sizes (declared self.now.table.now) place.now.start.index (take before place.now.steps.now)) (take before place.now.steps.now) name.now) result }
    {
        let outer = Place {
            links: MOST_LINKS,
            start: place.start,
            steps: front(place.steps, before),
        };
        match member_at(self.table, &outer, name) {
            Some(item) => self.sizes(e, &outer, item.dims.items()),
            None => Err(EvalFault::Rule(UNKNOWN_NAME)),
        }
    }

    // The sizes of a step, or none where it is left out.
    fn sizes_left(
        &self,
        e: &mut Store<'_>,
        place: &Place<'_>,
        out: bool,
        before: usize,
        name: &[u8],
    ) -> Result<List<u32>, EvalFault>
        requires files { e.old.files ≡ self.now.table.now }
        requires leads { Leads (weight_of place.now) (F.pre self.now.link) (F.post self.now.link) }
        requires shorter { before < length place.now.steps.now }
        ensures same { e.new ≡ e.old }
        ensures answers { Answers (cond out (Ok []) (values.step_size (declared self.now.table.now) place.now.start.index (values.sizes (declared self.now.table.now) place.now.start.index (take before place.now.steps.now)) (take before place.now.steps.now) name.now)) result }
    {
        if out {
            return Ok(List::new(self.alloc));
        }
        self.step_sizes(e, place, before, name)
    }

    /// The sizes of the steps from this one on that are not left out, one after the other.
    #[tactic(auto, using(crate::proofs::Rows::with_none, crate::proofs::StepSizes::gathered_more, crate::proofs::StepSizes::gathered_fault, crate::proofs::StepSizes::gathered_few, crate::proofs::StepSizes::gathered_end))]
    pub fn gathered(
        &self,
        e: &mut Store<'_>,
        place: &Place<'_>,
        outs: &[bool],
        from: usize,
    ) -> Result<List<u32>, EvalFault>
        requires files { e.old.files ≡ self.now.table.now }
        requires leads { Leads (weight_of place.now) (F.pre self.now.link) (F.post self.now.link) }
        ensures same { e.new ≡ e.old }
        ensures answers { Answers (spec.gather outs.now (drop from (sizes_of_steps self.now.table.now place.now))) result }
    {
        let steps = place.steps;
        let mut sizes = List::new(self.alloc);
        for step in from..steps.len() {
            match out_at(outs, step - from) {
                Some(out) => {
                    let name = steps[step].name.bytes();
                    match self.sizes_left(e, place, out, step, name) {
                        Ok(more) => push_all(&mut sizes, more.items())?,
                        Err(fault) => return Err(fault),
                    }
                }
                None => return Ok(sizes),
            }
        }
        Ok(sizes)
    }
}

/// Adds sizes at the end.
pub fn push_all(sizes: &mut List<u32>, more: &[u32]) -> Result<(), OutOfMemory>
    ensures { OnOk result (sizes.new ≡ sizes.old ++ more.now) }
{
    for size in more {
        sizes.push(*size)?;
    }
    Ok(())
}

/// The sizes of steps, and then those of a declaration.
pub fn wanted(
    alloc: Global,
    steps: &[u32],
    own: &[Option<u32>],
) -> Result<List<Option<u32>>, OutOfMemory>
    ensures { IfOk result (λ all. all ≡ map (λ n. Some n) steps.now ++ own.now) }
{
    let mut all = List::new(alloc);
    for i in 0..steps.len() {
        all.push(Some(steps[i]))?;
    }
    for k in 0..own.len() {
        all.push(own[k])?;
    }
    Ok(all)
}
