// The units of connectors.
ghost use Rattle.std.specs.Prelude.{◌≡◌, ◌≤◌, ◌++◌, ◌∷◌, [], IfOk, OnOk, Option, Some, codes, drop, length, map, option_map};
ghost use Rattle.cdl_array.specs.Outcomes.{Answers};
ghost use Rattle.cdl_kinds.specs.Groups.{group_row};
ghost use Rattle.cdl_paths.specs.Bindings.{binding_of as binding_in, bound, the_given};
ghost use Rattle.cdl_paths.specs.HandOut as handing;
ghost use Rattle.cdl_scopes.specs.Classes.{declared};
ghost use Rattle.cdl_worth.specs.Units as spec;
ghost use Rattle.cdl_worth.specs.Values as values;
ghost use Rattle.cdl_eval.specs.Families.{Binds};
ghost use Rattle.cdl_eval.specs.Leads.{Leads};
ghost use Rattle.cdl_eval.specs.Places.{link_of, sizes_of_steps, weight_of, worth_at};
ghost use Rattle.cdl_array.specs.Scalars.{scalar as scalar_in};
ghost use Rattle.cdl_values.specs.declared.value.Value.TheVariants as value_is;
ghost use Rattle.cdl_paths.specs.Members.{member as member_in, site as site_of};
ghost use Rattle.cdl_worth.specs.Sizes.{member_sizes as sizes_of_member};
ghost use Rattle.cdl_classes.specs.declared.found.Found.TheVariants as found_is;

use crate::kinds::INPUTS;
use crate::value::Valuation;
use cdl_array::{EvalFault, scalar};
use cdl_classes::{ClassId, Found};
use cdl_eval::{Place, Shared, Store, behind, behind_next, copy_steps, push_all, wanted};
use cdl_kinds::{Group, Kind, input_groups, output_groups};
use cdl_paths::{Binding, Giver, Step, binding_of, eaches, indices_left, member_of, site, units};
use cdl_source::rules::UNKNOWN_NAME;
use cdl_source::{List, OutOfMemory, Text};
use cdl_values::{Array, Value};
use std::alloc::Global;

/// The name of the parameter that says how many outputs there are.
const OUTPUTS: &str = "nout";

/// The name of the attribute.
const UNIT: &str = "unit";

// The ports of this name.
fn group_named<'g>(groups: &'g [Group], name: &[u8]) -> Option<&'g Group>
    ensures { option_map (λ g. group_row g.now) result ≡ spec.group_named name.now (map group_row groups.now) }
{
    for group in groups {
        if group.name.as_bytes() == name {
            return Some(group);
        }
    }
    None
}

// The steps, and a connector of this name behind them.
fn through(alloc: Global, steps: &[Step], name: &[u8]) -> Result<List<Step>, OutOfMemory>
    ensures { IfOk result (λ all. all ≡ spec.through steps.now name.now) }
{
    let mut all = copy_steps(alloc, steps)?;
    all.push(Step {
        name: Text::from_bytes(alloc, name)?,
        indices: List::new(alloc),
    })?;
    Ok(all)
}

// Whether the last of these is left out.
fn last_out(outs: &[bool]) -> bool
    ensures { result ≡ spec.last_out outs.now }
{
    match outs {
        [] => false,
        [out] => *out,
        [_, more @ ..] => last_out(more),
    }
}

// Adds the sizes of a connector, where its own step is not left out.
fn push_own(sizes: &mut List<u32>, outs: &[bool], shape: &[u32]) -> Result<(), OutOfMemory>
    ensures { OnOk result (sizes.new ≡ sizes.old ++ spec.own_left outs.now shape.now) }
{
    if last_out(outs) {
        Ok(())
    } else {
        push_all(sizes, shape)
    }
}

// No unit, for each element of a connector of this shape.
fn no_units(alloc: Global, shape: List<u32>) -> Result<Array, EvalFault>
    requires { length shape ≤ 2 }
    ensures { Answers (handing.units [] [] shape (scalar_in (value_is.Str []))) result }
{
    match scalar(alloc, Value::Str(Text::new(alloc))) {
        Ok(none) => units(alloc, &[], &[], shape, &none),
        Err(fault) => Err(fault),
    }
}

impl<'t, F: Fn(&mut Store<'_>, u32, ClassId, &[Step], &[u8]) -> Result<Array, EvalFault>> Valuation<
    't,
    F,
> {
    // The size of a port, one of many where this parameter says how many.
    fn many_sizes(
        &self,
        e: &mut Store<'_>,
        place: &Place<'_>,
        kind: Kind,
        many: bool,
        name: &str,
    ) -> Result<List<u32>, EvalFault>
        requires files { e.old.files ≡ self.now.evaluator.table.now }
        requires leads { Leads (weight_of place.now) (F.pre self.now.evaluator.link) (F.post self.now.evaluator.link) }
        ensures same { e.new ≡ e.old }
        ensures answers { Answers (spec.many_sizes (spec.ports_of (declared self.now.evaluator.table.now) (link_of self.now.evaluator.table.now place.now) place.now.start.index (sizes_of_steps self.now.evaluator.table.now place.now) place.now.steps.now kind name.now) many) result }
        ensures few { IfOk result (λ ns. length ns ≤ 2) }
    {
        let mut sizes = List::new(self.evaluator.alloc);
        if !many {
            return Ok(sizes);
        }
        match self.ports(e, place, kind, name.as_bytes()) {
            Ok(count) => {
                sizes.push(count)?;
                Ok(sizes)
            }
            Err(fault) => Err(fault),
        }
    }

    // The sizes of a port of a kind.
    fn port_sizes(
        &self,
        e: &mut Store<'_>,
        place: &Place<'_>,
        kind: Kind,
        name: &[u8],
    ) -> Result<List<u32>, EvalFault>
        requires files { e.old.files ≡ self.now.evaluator.table.now }
        requires leads { Leads (weight_of place.now) (F.pre self.now.evaluator.link) (F.post self.now.evaluator.link) }
        ensures same { e.new ≡ e.old }
        ensures answers { Answers (spec.connector_sizes (declared self.now.evaluator.table.now) (link_of self.now.evaluator.table.now place.now) place.now.start.index (sizes_of_steps self.now.evaluator.table.now place.now) place.now.steps.now name.now (Some (found_is.Kind kind))) result }
        ensures few { IfOk result (λ ns. length ns ≤ 2) }
    {
        if let Some(group) = group_named(input_groups(kind), name) {
            return self.many_sizes(e, place, kind, group.many, INPUTS);
        }
        match group_named(output_groups(kind), name) {
            Some(group) => self.many_sizes(e, place, kind, group.many, OUTPUTS),
            None => Err(EvalFault::Rule(UNKNOWN_NAME)),
        }
    }

    // The sizes of a connector of a declared class, which stands at the place.
    fn item_sizes(
        &self,
        e: &mut Store<'_>,
        place: &Place<'_>,
        class: ClassId,
        name: &[u8],
    ) -> Result<List<u32>, EvalFault>
        requires files { e.old.files ≡ self.now.evaluator.table.now }
        requires leads { Leads (weight_of place.now) (F.pre self.now.evaluator.link) (F.post self.now.evaluator.link) }
        ensures same { e.new ≡ e.old }
        ensures answers { Answers (sizes_of_member (worth_at self.now.evaluator.table.now place.now []) (member_in (declared self.now.evaluator.table.now) class.index name.now)) result }
        ensures few { IfOk result (λ ns. length ns ≤ 2) }
    {
        match member_of(self.evaluator.table, class, name) {
            Some(member) => self.evaluator.sizes(e, place, member.item.dims.items()),
            None => Err(EvalFault::Rule(UNKNOWN_NAME)),
        }
    }

    // The sizes of a connector of what stands at the place.
    fn sizes_in(
        &self,
        e: &mut Store<'_>,
        place: &Place<'_>,
        found: Found,
        name: &[u8],
    ) -> Result<List<u32>, EvalFault>
        requires files { e.old.files ≡ self.now.evaluator.table.now }
        requires leads { Leads (weight_of place.now) (F.pre self.now.evaluator.link) (F.post self.now.evaluator.link) }
        ensures same { e.new ≡ e.old }
        ensures answers { Answers (spec.connector_sizes (declared self.now.evaluator.table.now) (link_of self.now.evaluator.table.now place.now) place.now.start.index (sizes_of_steps self.now.evaluator.table.now place.now) place.now.steps.now name.now (Some found)) result }
        ensures few { IfOk result (λ ns. length ns ≤ 2) }
    {
        match found {
            Found::Class(class) => self.item_sizes(e, place, class, name),
            Found::Kind(kind) => self.port_sizes(e, place, kind, name),
            _ => Err(EvalFault::Rule(UNKNOWN_NAME)),
        }
    }

    // The sizes of a connector.
    fn connector_sizes(
        &self,
        e: &mut Store<'_>,
        place: &Place<'_>,
        name: &[u8],
    ) -> Result<List<u32>, EvalFault>
        requires files { e.old.files ≡ self.now.evaluator.table.now }
        requires leads { Leads (weight_of place.now) (F.pre self.now.evaluator.link) (F.post self.now.evaluator.link) }
        ensures same { e.new ≡ e.old }
        ensures answers { Answers (spec.connector_sizes (declared self.now.evaluator.table.now) (link_of self.now.evaluator.table.now place.now) place.now.start.index (sizes_of_steps self.now.evaluator.table.now place.now) place.now.steps.now name.now (site_of (declared self.now.evaluator.table.now) (values.the_class place.now.start.index) place.now.steps.now)) result }
        ensures few { IfOk result (λ ns. length ns ≤ 2) }
    {
        match site(self.evaluator.table, Found::Class(place.start), place.steps) {
            Some(found) => self.sizes_in(e, place, found, name),
            None => Err(EvalFault::Rule(UNKNOWN_NAME)),
        }
    }

    // The value of the expression that gives the connector of this name, to which these steps lead, its units.
    #[tactic(auto, using(crate::proofs::Telling::take_through))]
    fn unit_value(
        &self,
        e: &mut Store<'_>,
        place: &Place<'_>,
        name: &[u8],
        steps: &[Step],
        giver: &Giver<'_>,
    ) -> Result<Shared, EvalFault>
        requires files { e.old.files ≡ self.now.evaluator.table.now }
        requires leads { Leads (weight_of place.now) (F.pre self.now.evaluator.link) (F.post self.now.evaluator.link) }
        requires path { steps.now ≡ spec.through place.now.steps.now name.now }
        requires binds { Binds self.now.evaluator.table.now place.now.start.index (spec.through place.now.steps.now name.now) (codes "unit") (the_given giver.now.steps giver.now.args.now giver.now.value.now) }
        ensures same { e.new ≡ e.old }
        ensures answers { Answers (values.written (declared self.now.evaluator.table.now) (link_of self.now.evaluator.table.now place.now) place.now.start.index (sizes_of_steps self.now.evaluator.table.now place.now) place.now.steps.now (the_given giver.now.steps giver.now.args.now giver.now.value.now)) result }
    {
        if giver.steps <= place.steps.len() {
            return self
                .evaluator
                .given(e, place, steps, UNIT.as_bytes(), giver);
        }
        self.evaluator.written_anew(e, place, giver)
    }

    // The units that are given to a connector of this name and shape.
    fn given_unit(
        &self,
        e: &mut Store<'_>,
        place: &Place<'_>,
        name: &[u8],
        shape: List<u32>,
        giver: &Giver<'_>,
    ) -> Result<Array, EvalFault>
        requires files { e.old.files ≡ self.now.evaluator.table.now }
        requires leads { Leads (weight_of place.now) (F.pre self.now.evaluator.link) (F.post self.now.evaluator.link) }
        requires binds { Binds self.now.evaluator.table.now place.now.start.index (spec.through place.now.steps.now name.now) (codes "unit") (the_given giver.now.steps giver.now.args.now giver.now.value.now) }
        requires few { length shape ≤ 2 }
        ensures same { e.new ≡ e.old }
        ensures answers { let g = the_given giver.now.steps giver.now.args.now giver.now.value.now in
            Answers (spec.given_unit (declared self.now.evaluator.table.now) (link_of self.now.evaluator.table.now place.now) place.now.start.index (sizes_of_steps self.now.evaluator.table.now place.now) place.now.steps.now (values.outs (spec.through place.now.steps.now name.now) (codes "unit") g) shape g) result }
    {
        let steps = through(self.evaluator.alloc, place.steps, name)?;
        let value = match self.unit_value(e, place, name, steps.items(), giver) {
            Ok(value) => value,
            Err(fault) => return Err(fault),
        };
        let rest = behind_next(steps.items(), giver.steps);
        let outs = eaches(self.evaluator.alloc, giver.args, rest, UNIT.as_bytes())?;
        let mut sizes = match self.evaluator.gathered(e, place, outs.items(), giver.steps) {
            Ok(sizes) => sizes,
            Err(fault) => return Err(fault),
        };
        push_own(&mut sizes, outs.items(), shape.items())?;
        let after = behind(place.steps, giver.steps);
        let indices = indices_left(self.evaluator.alloc, outs.items(), after)?;
        let wanted = wanted(self.evaluator.alloc, sizes.items(), &[])?;
        units(
            self.evaluator.alloc,
            wanted.items(),
            indices.items(),
            shape,
            value.array(),
        )
    }

    // The units of a connector of this name and shape, with this binding.
    fn bound_unit(
        &self,
        e: &mut Store<'_>,
        place: &Place<'_>,
        name: &[u8],
        shape: List<u32>,
        binding: &Binding<'_>,
    ) -> Result<Array, EvalFault>
        requires files { e.old.files ≡ self.now.evaluator.table.now }
        requires leads { Leads (weight_of place.now) (F.pre self.now.evaluator.link) (F.post self.now.evaluator.link) }
        requires binds { binding_in (declared self.now.evaluator.table.now) (values.the_class place.now.start.index) 0 (spec.through place.now.steps.now name.now) (codes "unit") ≡ Some (bound binding.now) }
        requires few { length shape ≤ 2 }
        ensures same { e.new ≡ e.old }
        ensures answers { Answers (spec.unit_by (declared self.now.evaluator.table.now) (link_of self.now.evaluator.table.now place.now) place.now.start.index (sizes_of_steps self.now.evaluator.table.now place.now) place.now.steps.now name.now shape (Some (bound binding.now))) result }
    {
        match binding {
            Binding::Text(giver) => self.given_unit(e, place, name, shape, giver),
            Binding::Kind(_) => no_units(self.evaluator.alloc, shape),
        }
    }

    /// The units of the elements of a connector.
    #[tactic(auto, unfolding(cdl_worth::specs::Units::unit))]
    pub fn unit(
        &self,
        e: &mut Store<'_>,
        place: &Place<'_>,
        name: &[u8],
    ) -> Result<Array, EvalFault>
        requires files { e.old.files ≡ self.now.evaluator.table.now }
        requires leads { Leads (weight_of place.now) (F.pre self.now.evaluator.link) (F.post self.now.evaluator.link) }
        ensures same { e.new ≡ e.old }
        ensures answers { Answers (spec.unit (declared self.now.evaluator.table.now) place.now.links place.now.start.index place.now.steps.now name.now) result }
    {
        let shape = match self.connector_sizes(e, place, name) {
            Ok(shape) => shape,
            Err(fault) => return Err(fault),
        };
        let steps = through(self.evaluator.alloc, place.steps, name)?;
        match binding_of(
            self.evaluator.table,
            Found::Class(place.start),
            steps.items(),
            UNIT.as_bytes(),
        ) {
            Some(binding) => self.bound_unit(e, place, name, shape, &binding),
            None => no_units(self.evaluator.alloc, shape),
        }
    }
}
