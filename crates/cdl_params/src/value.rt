// The values of parameters and constants.
ghost use Rattle.std.specs.Prelude.{◌≡◌, ◌≤◌, ◌<◌, ◌+◌, ◌++◌, [], Option, Some, map, drop, Ok};
ghost use Rattle.cdl_array.specs.Outcomes.{Answers, some_or, then_to};
ghost use Rattle.cdl_paths.specs.Bindings.{binding_of as binding_in, bound, the_given};
ghost use Rattle.cdl_paths.specs.HandOut.{handed as handed_out, indices_left as indices_in};
ghost use Rattle.cdl_paths.specs.Members.{declaration, member as member_in};
ghost use Rattle.cdl_scopes.specs.Classes.{declared};
ghost use Rattle.cdl_worth.specs.Sizes.{declared_sizes as declared_in, gather};
ghost use Rattle.cdl_worth.specs.Values as values;
ghost use Rattle.cdl_eval.specs.Families.{Binds};
ghost use Rattle.cdl_eval.specs.Kept.{classes};
ghost use Rattle.cdl_eval.specs.Leads.{Leads};
ghost use Rattle.cdl_eval.specs.Places.{link_of, sizes_of_steps, weight_of, worth_at};

use cdl_array::EvalFault;
use cdl_classes::{ClassId, Found};
use cdl_eval::{Evaluator, Place, Store, behind, behind_next, wanted};
use cdl_paths::{
    Binding, Giver, Step, binding_of, eaches, hand_out, indices_left, member_of, site,
};
use cdl_source::rules::{PARAMETER_WITHOUT_VALUE, UNKNOWN_NAME, WRONG_TYPE};
use cdl_tree::{Dim, Item};
use cdl_values::{Array, ValueType};

// The type of the values of a parameter of this class.
fn declared_type(class: Found) -> Option<ValueType>
    ensures { result ≡ values.declared_type class }
{
    match class {
        Found::Scalar(value_type) => Some(value_type),
        Found::Class(class) => Some(ValueType::Enumeration(class.index)),
        _ => None,
    }
}

/// What parameters and units are worth in these classes, by what links lead to.
#[derive(Clone, Copy)]
pub struct Valuation<'t, F> {
    pub evaluator: Evaluator<'t, F>,
}

impl<'t, F: Fn(&mut Store<'_>, u32, ClassId, &[Step], &[u8]) -> Result<Array, EvalFault>> Valuation<
    't,
    F,
> {
    /// What is handed out of a value, for a parameter of this name, type and declared sizes.
    pub fn handed(
        &self,
        e: &mut Store<'_>,
        place: &Place<'_>,
        name: &[u8],
        value_type: ValueType,
        own: &[Option<u32>],
        giver: &Giver<'_>,
        value: &Array,
    ) -> Result<Array, EvalFault>
        requires files { e.old.files ≡ self.now.evaluator.table.now }
        requires leads { Leads (weight_of place.now) (F.pre self.now.evaluator.link) (F.post self.now.evaluator.link) }
        ensures same { e.new ≡ e.old }
        ensures answers { let g = the_given giver.now.steps giver.now.args.now giver.now.value.now in let outs = values.outs place.now.steps.now name.now g in
            Answers (then_to (gather outs (drop g.steps (sizes_of_steps self.now.evaluator.table.now place.now))) (λ ns. handed_out value_type (map Some ns ++ own.now) (indices_in outs (drop g.steps place.now.steps.now)) value.now)) result }
    {
        let after = behind(place.steps, giver.steps);
        let rest = behind_next(place.steps, giver.steps);
        let outs = eaches(self.evaluator.alloc, giver.args, rest, name)?;
        let sizes = match self.evaluator.gathered(e, place, outs.items(), giver.steps) {
            Ok(sizes) => sizes,
            Err(fault) => return Err(fault),
        };
        let indices = indices_left(self.evaluator.alloc, outs.items(), after)?;
        let wanted = wanted(self.evaluator.alloc, sizes.items(), own)?;
        hand_out(
            self.evaluator.alloc,
            value_type,
            wanted.items(),
            indices.items(),
            value,
        )
    }

    // The value of a parameter or constant of a declared class, which stands at the place.
    fn item_value(
        &self,
        e: &mut Store<'_>,
        place: &Place<'_>,
        class: ClassId,
        name: &[u8],
    ) -> Result<Array, EvalFault>
        requires files { e.old.files ≡ self.now.evaluator.table.now }
        requires leads { Leads (weight_of place.now) (F.pre self.now.evaluator.link) (F.post self.now.evaluator.link) }
        ensures same { e.new ≡ e.old }
        ensures answers { Answers (some_or (member_in (declared self.now.evaluator.table.now) class.index name.now) UNKNOWN_NAME (λ m. values.item_value (declared self.now.evaluator.table.now) (link_of self.now.evaluator.table.now place.now) place.now.start.index (sizes_of_steps self.now.evaluator.table.now place.now) place.now.steps.now name.now m (binding_in (declared self.now.evaluator.table.now) (values.the_class place.now.start.index) 0 place.now.steps.now name.now))) result }
    {
        match member_of(self.evaluator.table, class, name) {
            Some(member) => self.member_value(e, place, name, member.item, member.class),
            None => Err(EvalFault::Rule(UNKNOWN_NAME)),
        }
    }

    // The value of a parameter or constant that is this item, whose class name means this.
    fn member_value(
        &self,
        e: &mut Store<'_>,
        place: &Place<'_>,
        name: &[u8],
        item: &Item,
        class: Found,
    ) -> Result<Array, EvalFault>
        requires files { e.old.files ≡ self.now.evaluator.table.now }
        requires leads { Leads (weight_of place.now) (F.pre self.now.evaluator.link) (F.post self.now.evaluator.link) }
        ensures same { e.new ≡ e.old }
        ensures answers { Answers (values.item_value (declared self.now.evaluator.table.now) (link_of self.now.evaluator.table.now place.now) place.now.start.index (sizes_of_steps self.now.evaluator.table.now place.now) place.now.steps.now name.now (declaration item.now class) (binding_in (declared self.now.evaluator.table.now) (values.the_class place.now.start.index) 0 place.now.steps.now name.now)) result }
    {
        match binding_of(
            self.evaluator.table,
            Found::Class(place.start),
            place.steps,
            name,
        ) {
            Some(binding) => self.bound_value(e, place, name, item, class, &binding),
            None => Err(EvalFault::Rule(PARAMETER_WITHOUT_VALUE)),
        }
    }

    // The value of a parameter or constant with this binding.
    fn bound_value(
        &self,
        e: &mut Store<'_>,
        place: &Place<'_>,
        name: &[u8],
        item: &Item,
        class: Found,
        binding: &Binding<'_>,
    ) -> Result<Array, EvalFault>
        requires files { e.old.files ≡ self.now.evaluator.table.now }
        requires leads { Leads (weight_of place.now) (F.pre self.now.evaluator.link) (F.post self.now.evaluator.link) }
        requires binds { binding_in (declared self.now.evaluator.table.now) (values.the_class place.now.start.index) 0 place.now.steps.now name.now ≡ Some (bound binding.now) }
        ensures same { e.new ≡ e.old }
        ensures answers { Answers (values.item_value (declared self.now.evaluator.table.now) (link_of self.now.evaluator.table.now place.now) place.now.start.index (sizes_of_steps self.now.evaluator.table.now place.now) place.now.steps.now name.now (declaration item.now class) (Some (bound binding.now))) result }
    {
        match binding {
            Binding::Text(giver) => match declared_type(class) {
                Some(value_type) => {
                    self.given_value(e, place, name, value_type, item.dims.items(), giver)
                }
                None => Err(EvalFault::Rule(WRONG_TYPE)),
            },
            Binding::Kind(_) => Err(EvalFault::Rule(PARAMETER_WITHOUT_VALUE)),
        }
    }

    // The value that is given to a parameter with these dimensions.
    fn given_value(
        &self,
        e: &mut Store<'_>,
        place: &Place<'_>,
        name: &[u8],
        value_type: ValueType,
        dims: &[Dim],
        giver: &Giver<'_>,
    ) -> Result<Array, EvalFault>
        requires files { e.old.files ≡ self.now.evaluator.table.now }
        requires leads { Leads (weight_of place.now) (F.pre self.now.evaluator.link) (F.post self.now.evaluator.link) }
        requires binds { Binds self.now.evaluator.table.now place.now.start.index place.now.steps.now name.now (the_given giver.now.steps giver.now.args.now giver.now.value.now) }
        ensures same { e.new ≡ e.old }
        ensures answers { Answers (values.given_value (declared self.now.evaluator.table.now) (link_of self.now.evaluator.table.now place.now) place.now.start.index (sizes_of_steps self.now.evaluator.table.now place.now) place.now.steps.now name.now value_type (declared_in (worth_at self.now.evaluator.table.now place.now []) dims.now) (the_given giver.now.steps giver.now.args.now giver.now.value.now)) result }
    {
        let value = match self.evaluator.given(e, place, place.steps, name, giver) {
            Ok(value) => value,
            Err(fault) => return Err(fault),
        };
        match self.evaluator.declared_sizes(e, place, dims) {
            Ok(own) => {
                let value = value.array();
                self.handed(e, place, name, value_type, own.items(), giver, value)
            }
            Err(fault) => Err(fault),
        }
    }

    // The value of the parameter or constant of this name of what stands at the place.
    fn value_in(
        &self,
        e: &mut Store<'_>,
        place: &Place<'_>,
        found: Found,
        name: &[u8],
    ) -> Result<Array, EvalFault>
        requires files { e.old.files ≡ self.now.evaluator.table.now }
        requires leads { Leads (weight_of place.now) (F.pre self.now.evaluator.link) (F.post self.now.evaluator.link) }
        ensures same { e.new ≡ e.old }
        ensures answers { Answers (values.value_in (declared self.now.evaluator.table.now) (link_of self.now.evaluator.table.now place.now) place.now.start.index (sizes_of_steps self.now.evaluator.table.now place.now) place.now.steps.now name.now (Some found)) result }
    {
        match found {
            Found::Class(class) => self.item_value(e, place, class, name),
            Found::Kind(kind) => self.kind_value(e, place, kind, name),
            _ => Err(EvalFault::Rule(UNKNOWN_NAME)),
        }
    }

    /// The value of the parameter or constant of this name at a place, where names have the links of the place.
    #[tactic(auto, unfolding(cdl_worth::specs::Values::value))]
    pub fn value(
        &self,
        e: &mut Store<'_>,
        place: &Place<'_>,
        name: &[u8],
    ) -> Result<Array, EvalFault>
        requires files { e.old.files ≡ self.now.evaluator.table.now }
        requires leads { Leads (weight_of place.now) (F.pre self.now.evaluator.link) (F.post self.now.evaluator.link) }
        ensures same { e.new ≡ e.old }
        ensures answers { Answers (values.value (declared self.now.evaluator.table.now) place.now.links place.now.start.index place.now.steps.now name.now) result }
    {
        match site(self.evaluator.table, Found::Class(place.start), place.steps) {
            Some(found) => self.value_in(e, place, found, name),
            None => Err(EvalFault::Rule(UNKNOWN_NAME)),
        }
    }
}

/// The value of the parameter or constant of this name at a place, with this many links.
#[tactic(auto, using(crate::proofs::Telling::same_value))]
pub fn linked(
    e: &mut Store<'_>,
    links: u32,
    start: ClassId,
    steps: &[Step],
    name: &[u8],
) -> Result<Array, EvalFault>
    ensures same { e.new ≡ e.old }
    ensures answers { Answers (values.value (classes e.old) links start.index steps.now name.now) result }
{
    if let Some(value) = e.known(links, start, steps, name)? {
        return Ok(value);
    }
    let valuation = Valuation {
        evaluator: Evaluator {
            alloc: e.alloc(),
            table: e.table(),
            link: linked,
        },
    };
    let place = Place {
        links,
        start,
        steps,
    };
    let value = match valuation.value(e, &place, name) {
        Ok(value) => value,
        Err(fault) => return Err(fault),
    };
    e.keep(links, start, steps, name, &value)?;
    Ok(value)
}
