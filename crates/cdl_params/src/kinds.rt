// The values of the parameters of kinds.
ghost use Rattle.std.specs.Prelude.{◌≡◌, [], ◌∷◌, IfOk, Option, Some, Ok, Err, option_map, replicate as replicated, slice_get};
ghost use Rattle.cdl_array.specs.Outcomes.{Answers, some_or, then_to};
ghost use Rattle.cdl_array.specs.Sizes.{size_of as size_in};
ghost use Rattle.cdl_kinds.specs.Parameters.{parameter_row, parameters as parameters_of};
ghost use Rattle.cdl_paths.specs.Bindings.{binding_of as binding_in, bound, row_named as row_in, the_given};
ghost use Rattle.cdl_decimal.specs.Near.{in_range};
ghost use Rattle.cdl_array.specs.Scalars.{scalar as scalar_in};
ghost use Rattle.cdl_values.specs.declared.value.Value.TheVariants as value_is;
ghost use Rattle.cdl_scopes.specs.Classes.{declared};
ghost use Rattle.cdl_source.specs.declared.rules.TheConstants.{PARAMETER_WITHOUT_VALUE as WITHOUT_VALUE};
ghost use Rattle.cdl_worth.specs.Values as values;
ghost use Rattle.cdl_eval.specs.Families.{Binds};
ghost use Rattle.cdl_eval.specs.Leads.{Leads};
ghost use Rattle.cdl_eval.specs.Places.{link_of, sizes_of_steps, weight_of};

use crate::value::Valuation;
use cdl_array::{EvalFault, scalar, size_of};
use cdl_classes::{ClassId, Found};
use cdl_decimal::Real;
use cdl_eval::{Place, Store};
use cdl_kinds::{Kind, Parameter, Preset, parameters};
use cdl_paths::{Binding, Giver, Step, binding_of, row_named};
use cdl_source::rules::{PARAMETER_WITHOUT_VALUE, UNKNOWN_NAME};
use cdl_source::{List, OutOfMemory};
use cdl_values::{Array, Value, ValueType};
use std::alloc::Global;

/// The name of the parameter that says how many inputs there are.
pub const INPUTS: &str = "nin";

// One of a type: the Real 1, else the Integer 1.
fn one_of(value_type: ValueType) -> Value
    ensures { result ≡ values.one_of value_type }
{
    match value_type {
        ValueType::Real => match Real::from_count(1_000_000) {
            Some(one) => Value::Real(one),
            None => unreachable!(),
        },
        _ => Value::Integer(1),
    }
}

// So many ones.
fn ones_of(alloc: Global, value_type: ValueType, count: u32) -> Result<List<Value>, OutOfMemory>
    ensures { IfOk result (λ items. items ≡ replicated count (values.one_of value_type)) }
{
    let mut items = List::new(alloc);
    for i in 0..count {
        items.push(one_of(value_type))?;
    }
    Ok(items)
}

// One for each input.
fn ones(alloc: Global, value_type: ValueType, count: u32) -> Result<Array, EvalFault>
    ensures { Answers (Ok (values.ones value_type count)) result }
{
    let items = ones_of(alloc, value_type, count)?;
    let mut shape = List::new(alloc);
    shape.push(count)?;
    Ok(Array {
        value_type,
        shape,
        items,
    })
}

// A Real that is preset.
fn preset_real(alloc: Global, count: i64) -> Result<Array, EvalFault>
    ensures { Answers (some_or (in_range count) WITHOUT_VALUE (λ x. Ok (scalar_in (value_is.Real x)))) result }
{
    match Real::from_count(count) {
        Some(real) => scalar(alloc, Value::Real(real)),
        None => Err(EvalFault::Rule(PARAMETER_WITHOUT_VALUE)),
    }
}

// A default that rests on no other parameter.
fn plain_preset(alloc: Global, value_type: ValueType, preset: Preset) -> Result<Array, EvalFault>
    ensures { Answers (values.preset_value (λ j. Err WITHOUT_VALUE) (Err WITHOUT_VALUE) value_type preset) result }
{
    let _ = value_type;
    match preset {
        Preset::Absent => Err(EvalFault::Rule(PARAMETER_WITHOUT_VALUE)),
        Preset::Same(_) => Err(EvalFault::Rule(PARAMETER_WITHOUT_VALUE)),
        Preset::Ones => Err(EvalFault::Rule(PARAMETER_WITHOUT_VALUE)),
        Preset::Boolean(truth) => scalar(alloc, Value::Boolean(truth)),
        Preset::Integer(integer) => scalar(alloc, Value::Integer(integer)),
        Preset::Real(count) => preset_real(alloc, count),
    }
}

// The declared sizes of a parameter that rests on no other of its kind.
fn plain_sizes(alloc: Global, per_nin: bool) -> Result<List<Option<u32>>, EvalFault>
    ensures { Answers (values.row_sizes (Err WITHOUT_VALUE) per_nin) result }
{
    if per_nin {
        return Err(EvalFault::Rule(PARAMETER_WITHOUT_VALUE));
    }
    Ok(List::new(alloc))
}

// A size.
fn one_size(alloc: Global, size: u32) -> Result<List<Option<u32>>, EvalFault>
    ensures { Answers (Ok (Some size ∷ [])) result }
{
    let mut sizes = List::new(alloc);
    sizes.push(Some(size))?;
    Ok(sizes)
}

impl<'t, F: Fn(&mut Store<'_>, u32, ClassId, &[Step], &[u8]) -> Result<Array, EvalFault>> Valuation<
    't,
    F,
> {
    // The declared sizes of a parameter of a kind.
    fn row_sizes(
        &self,
        e: &mut Store<'_>,
        place: &Place<'_>,
        kind: Kind,
        per_nin: bool,
    ) -> Result<List<Option<u32>>, EvalFault>
        requires files { e.old.files ≡ self.now.evaluator.table.now }
        requires leads { Leads (weight_of place.now) (F.pre self.now.evaluator.link) (F.post self.now.evaluator.link) }
        ensures same { e.new ≡ e.old }
        ensures answers { Answers (values.row_sizes (values.nin_of (declared self.now.evaluator.table.now) (link_of self.now.evaluator.table.now place.now) place.now.start.index (sizes_of_steps self.now.evaluator.table.now place.now) place.now.steps.now kind) per_nin) result }
    {
        if !per_nin {
            return Ok(List::new(self.evaluator.alloc));
        }
        match self.inputs(e, place, kind) {
            Ok(inputs) => one_size(self.evaluator.alloc, inputs),
            Err(fault) => Err(fault),
        }
    }

    // The value that is given to a parameter of a kind.
    fn given_row(
        &self,
        e: &mut Store<'_>,
        place: &Place<'_>,
        kind: Kind,
        row: &Parameter,
        giver: &Giver<'_>,
    ) -> Result<Array, EvalFault>
        requires files { e.old.files ≡ self.now.evaluator.table.now }
        requires leads { Leads (weight_of place.now) (F.pre self.now.evaluator.link) (F.post self.now.evaluator.link) }
        requires binds { Binds self.now.evaluator.table.now place.now.start.index place.now.steps.now row.now.name.now (the_given giver.now.steps giver.now.args.now giver.now.value.now) }
        ensures same { e.new ≡ e.old }
        ensures answers { Answers (values.given_value (declared self.now.evaluator.table.now) (link_of self.now.evaluator.table.now place.now) place.now.start.index (sizes_of_steps self.now.evaluator.table.now place.now) place.now.steps.now row.now.name.now row.now.value_type (values.row_sizes (values.nin_of (declared self.now.evaluator.table.now) (link_of self.now.evaluator.table.now place.now) place.now.start.index (sizes_of_steps self.now.evaluator.table.now place.now) place.now.steps.now kind) row.now.per_nin) (the_given giver.now.steps giver.now.args.now giver.now.value.now)) result }
    {
        let name = row.name.as_bytes();
        let value = match self.evaluator.given(e, place, place.steps, name, giver) {
            Ok(value) => value,
            Err(fault) => return Err(fault),
        };
        match self.row_sizes(e, place, kind, row.per_nin) {
            Ok(own) => {
                let value = value.array();
                self.handed(e, place, name, row.value_type, own.items(), giver, value)
            }
            Err(fault) => Err(fault),
        }
    }

    // The value that is given to a parameter that rests on no other of its kind.
    fn given_plain(
        &self,
        e: &mut Store<'_>,
        place: &Place<'_>,
        row: &Parameter,
        giver: &Giver<'_>,
    ) -> Result<Array, EvalFault>
        requires files { e.old.files ≡ self.now.evaluator.table.now }
        requires leads { Leads (weight_of place.now) (F.pre self.now.evaluator.link) (F.post self.now.evaluator.link) }
        requires binds { Binds self.now.evaluator.table.now place.now.start.index place.now.steps.now row.now.name.now (the_given giver.now.steps giver.now.args.now giver.now.value.now) }
        ensures same { e.new ≡ e.old }
        ensures answers { Answers (values.given_value (declared self.now.evaluator.table.now) (link_of self.now.evaluator.table.now place.now) place.now.start.index (sizes_of_steps self.now.evaluator.table.now place.now) place.now.steps.now row.now.name.now row.now.value_type (values.row_sizes (Err WITHOUT_VALUE) row.now.per_nin) (the_given giver.now.steps giver.now.args.now giver.now.value.now)) result }
    {
        let name = row.name.as_bytes();
        let value = match self.evaluator.given(e, place, place.steps, name, giver) {
            Ok(value) => value,
            Err(fault) => return Err(fault),
        };
        match plain_sizes(self.evaluator.alloc, row.per_nin) {
            Ok(own) => {
                let value = value.array();
                self.handed(e, place, name, row.value_type, own.items(), giver, value)
            }
            Err(fault) => Err(fault),
        }
    }

    // The value of a parameter that rests on no other of its kind, with this binding.
    fn bound_plain(
        &self,
        e: &mut Store<'_>,
        place: &Place<'_>,
        row: &Parameter,
        binding: &Binding<'_>,
    ) -> Result<Array, EvalFault>
        requires files { e.old.files ≡ self.now.evaluator.table.now }
        requires leads { Leads (weight_of place.now) (F.pre self.now.evaluator.link) (F.post self.now.evaluator.link) }
        requires binds { binding_in (declared self.now.evaluator.table.now) (values.the_class place.now.start.index) 0 place.now.steps.now row.now.name.now ≡ Some (bound binding.now) }
        ensures same { e.new ≡ e.old }
        ensures answers { Answers (values.row_bound (declared self.now.evaluator.table.now) (link_of self.now.evaluator.table.now place.now) place.now.start.index (sizes_of_steps self.now.evaluator.table.now place.now) place.now.steps.now (λ j. Err WITHOUT_VALUE) (Err WITHOUT_VALUE) (parameter_row row.now) (Some (bound binding.now))) result }
    {
        match binding {
            Binding::Text(giver) => self.given_plain(e, place, row, giver),
            Binding::Kind(preset) => plain_preset(self.evaluator.alloc, row.value_type, *preset),
        }
    }

    // The value of a parameter that rests on no other of its kind.
    fn plain_value(
        &self,
        e: &mut Store<'_>,
        place: &Place<'_>,
        row: &Parameter,
    ) -> Result<Array, EvalFault>
        requires files { e.old.files ≡ self.now.evaluator.table.now }
        requires leads { Leads (weight_of place.now) (F.pre self.now.evaluator.link) (F.post self.now.evaluator.link) }
        ensures same { e.new ≡ e.old }
        ensures answers { Answers (values.plain_value (declared self.now.evaluator.table.now) (link_of self.now.evaluator.table.now place.now) place.now.start.index (sizes_of_steps self.now.evaluator.table.now place.now) place.now.steps.now (Some (parameter_row row.now))) result }
    {
        match binding_of(
            self.evaluator.table,
            Found::Class(place.start),
            place.steps,
            row.name.as_bytes(),
        ) {
            Some(binding) => self.bound_plain(e, place, row, &binding),
            None => Err(EvalFault::Rule(PARAMETER_WITHOUT_VALUE)),
        }
    }

    // The value of a parameter that rests on no other of its kind, where there is one.
    fn plain_row(
        &self,
        e: &mut Store<'_>,
        place: &Place<'_>,
        row: Option<&Parameter>,
    ) -> Result<Array, EvalFault>
        requires files { e.old.files ≡ self.now.evaluator.table.now }
        requires leads { Leads (weight_of place.now) (F.pre self.now.evaluator.link) (F.post self.now.evaluator.link) }
        ensures same { e.new ≡ e.old }
        ensures answers { Answers (values.plain_value (declared self.now.evaluator.table.now) (link_of self.now.evaluator.table.now place.now) place.now.start.index (sizes_of_steps self.now.evaluator.table.now place.now) place.now.steps.now (option_map (λ r. parameter_row r.now) row.entry)) result }
    {
        match row {
            Some(row) => self.plain_value(e, place, row),
            None => Err(EvalFault::Rule(PARAMETER_WITHOUT_VALUE)),
        }
    }

    // How many inputs an instance of a kind has.
    fn inputs(&self, e: &mut Store<'_>, place: &Place<'_>, kind: Kind) -> Result<u32, EvalFault>
        requires files { e.old.files ≡ self.now.evaluator.table.now }
        requires leads { Leads (weight_of place.now) (F.pre self.now.evaluator.link) (F.post self.now.evaluator.link) }
        ensures same { e.new ≡ e.old }
        ensures answers { Answers (values.nin_of (declared self.now.evaluator.table.now) (link_of self.now.evaluator.table.now place.now) place.now.start.index (sizes_of_steps self.now.evaluator.table.now place.now) place.now.steps.now kind) result }
    {
        self.ports(e, place, kind, INPUTS.as_bytes())
    }

    /// How many ports an instance of a kind has, as this parameter says.
    pub fn ports(
        &self,
        e: &mut Store<'_>,
        place: &Place<'_>,
        kind: Kind,
        name: &[u8],
    ) -> Result<u32, EvalFault>
        requires files { e.old.files ≡ self.now.evaluator.table.now }
        requires leads { Leads (weight_of place.now) (F.pre self.now.evaluator.link) (F.post self.now.evaluator.link) }
        ensures same { e.new ≡ e.old }
        ensures answers { Answers (then_to (values.plain_value (declared self.now.evaluator.table.now) (link_of self.now.evaluator.table.now place.now) place.now.start.index (sizes_of_steps self.now.evaluator.table.now place.now) place.now.steps.now (row_in name.now (parameters_of kind))) size_in) result }
    {
        match self.plain_row(e, place, row_named(kind, name)) {
            Ok(count) => size_of(&count),
            Err(fault) => Err(fault),
        }
    }

    // A default.
    fn preset(
        &self,
        e: &mut Store<'_>,
        place: &Place<'_>,
        kind: Kind,
        value_type: ValueType,
        preset: Preset,
    ) -> Result<Array, EvalFault>
        requires files { e.old.files ≡ self.now.evaluator.table.now }
        requires leads { Leads (weight_of place.now) (F.pre self.now.evaluator.link) (F.post self.now.evaluator.link) }
        ensures same { e.new ≡ e.old }
        ensures answers { Answers (values.preset_value (λ j. values.plain_value (declared self.now.evaluator.table.now) (link_of self.now.evaluator.table.now place.now) place.now.start.index (sizes_of_steps self.now.evaluator.table.now place.now) place.now.steps.now (slice_get (parameters_of kind) j)) (values.nin_of (declared self.now.evaluator.table.now) (link_of self.now.evaluator.table.now place.now) place.now.start.index (sizes_of_steps self.now.evaluator.table.now place.now) place.now.steps.now kind) value_type preset) result }
    {
        match preset {
            Preset::Absent => Err(EvalFault::Rule(PARAMETER_WITHOUT_VALUE)),
            Preset::Same(number) => {
                self.plain_row(e, place, parameters(kind).get(number as usize))
            }
            Preset::Ones => match self.inputs(e, place, kind) {
                Ok(count) => ones(self.evaluator.alloc, value_type, count),
                Err(fault) => Err(fault),
            },
            Preset::Boolean(truth) => scalar(self.evaluator.alloc, Value::Boolean(truth)),
            Preset::Integer(integer) => scalar(self.evaluator.alloc, Value::Integer(integer)),
            Preset::Real(count) => preset_real(self.evaluator.alloc, count),
        }
    }

    // The value of a parameter of a kind with this binding.
    fn bound_row(
        &self,
        e: &mut Store<'_>,
        place: &Place<'_>,
        kind: Kind,
        row: &Parameter,
        binding: &Binding<'_>,
    ) -> Result<Array, EvalFault>
        requires files { e.old.files ≡ self.now.evaluator.table.now }
        requires leads { Leads (weight_of place.now) (F.pre self.now.evaluator.link) (F.post self.now.evaluator.link) }
        requires binds { binding_in (declared self.now.evaluator.table.now) (values.the_class place.now.start.index) 0 place.now.steps.now row.now.name.now ≡ Some (bound binding.now) }
        ensures same { e.new ≡ e.old }
        ensures answers { Answers (values.row_bound (declared self.now.evaluator.table.now) (link_of self.now.evaluator.table.now place.now) place.now.start.index (sizes_of_steps self.now.evaluator.table.now place.now) place.now.steps.now (λ j. values.plain_value (declared self.now.evaluator.table.now) (link_of self.now.evaluator.table.now place.now) place.now.start.index (sizes_of_steps self.now.evaluator.table.now place.now) place.now.steps.now (slice_get (parameters_of kind) j)) (values.nin_of (declared self.now.evaluator.table.now) (link_of self.now.evaluator.table.now place.now) place.now.start.index (sizes_of_steps self.now.evaluator.table.now place.now) place.now.steps.now kind) (parameter_row row.now) (Some (bound binding.now))) result }
    {
        match binding {
            Binding::Text(giver) => self.given_row(e, place, kind, row, giver),
            Binding::Kind(preset) => self.preset(e, place, kind, row.value_type, *preset),
        }
    }

    // The value of a parameter of a kind.
    fn row_value(
        &self,
        e: &mut Store<'_>,
        place: &Place<'_>,
        kind: Kind,
        row: &Parameter,
    ) -> Result<Array, EvalFault>
        requires files { e.old.files ≡ self.now.evaluator.table.now }
        requires leads { Leads (weight_of place.now) (F.pre self.now.evaluator.link) (F.post self.now.evaluator.link) }
        ensures same { e.new ≡ e.old }
        ensures answers { Answers (values.kind_value (declared self.now.evaluator.table.now) (link_of self.now.evaluator.table.now place.now) place.now.start.index (sizes_of_steps self.now.evaluator.table.now place.now) place.now.steps.now kind (parameter_row row.now)) result }
    {
        match binding_of(
            self.evaluator.table,
            Found::Class(place.start),
            place.steps,
            row.name.as_bytes(),
        ) {
            Some(binding) => self.bound_row(e, place, kind, row, &binding),
            None => Err(EvalFault::Rule(PARAMETER_WITHOUT_VALUE)),
        }
    }

    /// The value of the parameter of this name of a kind, of which an instance stands at the place.
    pub fn kind_value(
        &self,
        e: &mut Store<'_>,
        place: &Place<'_>,
        kind: Kind,
        name: &[u8],
    ) -> Result<Array, EvalFault>
        requires files { e.old.files ≡ self.now.evaluator.table.now }
        requires leads { Leads (weight_of place.now) (F.pre self.now.evaluator.link) (F.post self.now.evaluator.link) }
        ensures same { e.new ≡ e.old }
        ensures answers { Answers (some_or (row_in name.now (parameters_of kind)) UNKNOWN_NAME (values.kind_value (declared self.now.evaluator.table.now) (link_of self.now.evaluator.table.now place.now) place.now.start.index (sizes_of_steps self.now.evaluator.table.now place.now) place.now.steps.now kind)) result }
    {
        match row_named(kind, name) {
            Some(row) => self.row_value(e, place, kind, row),
            None => Err(EvalFault::Rule(UNKNOWN_NAME)),
        }
    }
}
