// Expressions. What a link leads to comes from a function that is passed in, so each of these is proved by itself.
ghost use Rattle.std.specs.Prelude.{◌≡◌, ◌≤◌, ◌<◌, ◌-◌, ℕ, List, Some, Ok, length, map, option_map, take};
ghost use Rattle.cdl_array.specs.Outcomes.{Answers, then_to};
ghost use Rattle.cdl_array.specs.Functions.{function_named};
ghost use Rattle.cdl_array.specs.Scalars.{scalar as scalar_of};
ghost use Rattle.cdl_values.specs.declared.value.Value.TheVariants as value_is;
ghost use Rattle.cdl_array.specs.Literals.{literal as literal_of};
ghost use Rattle.cdl_array.specs.Operators.{condition as condition_of, decided as decided_by, unary as unary_of};
ghost use Rattle.cdl_paths.specs.Bindings.{the_given};
ghost use Rattle.cdl_paths.specs.Members.{item_at as item_in};
ghost use Rattle.cdl_paths.specs.References.{refers};
ghost use Rattle.cdl_scopes.specs.Classes.{declared, parts_of};
ghost use Rattle.cdl_worth.specs.Expressions as spec;
ghost use Rattle.cdl_worth.specs.Values as values;
ghost use Rattle.cdl_eval.specs.Families.{Binds};
ghost use Rattle.cdl_eval.specs.Leads.{Leads};
ghost use Rattle.cdl_eval.specs.Places.{link_of, names_of, sizes_of_steps, weight, weight_of, worth_at};

use crate::kept::Store;
use crate::place::{Place, are_indexed, behind, family, front};
use crate::shared::Shared;
use cdl_array::{
    EvalFault, Function, binary, call, condition, decided, literal, scalar, subscript, unary,
};
use cdl_classes::{ClassId, ClassTable, Found};
use cdl_paths::{Giver, Local, Reference, Step, refer, site};
use cdl_source::List;
use cdl_source::rules::{PARAMETERS_TOO_DEEP, UNKNOWN_NAME};
use cdl_tree::{Expr, Item, Name, Node, Op};
use cdl_values::{Array, Value};
use std::alloc::Global;

// The item of this number in a class.
fn item_at(table: &ClassTable, class: ClassId, item: u32) -> Option<&Item>
    ensures { option_map (λ x. x.now) result ≡ item_in (declared table.now) class.index item }
{
    if class.index as usize >= table.len() {
        return None;
    }
    table.tree(class).items().get(item as usize)
}

// The first identifier of a name.
fn first_part(name: &Name) -> &[u8]
    ensures { result.now ≡ values.first_part (parts_of name.now) }
{
    match name.parts.items() {
        [first, ..] => first.text.bytes(),
        [] => &[],
    }
}

// A whole number.
fn integer(alloc: Global, integer: &i32) -> Result<Array, EvalFault>
    ensures { Answers (Ok (scalar_of (value_is.Integer integer.now))) result }
{
    scalar(alloc, Value::Integer(*integer))
}

/// What expressions are worth in these classes, by what links lead to.
#[derive(Clone, Copy)]
pub struct Evaluator<'t, F> {
    pub alloc: Global,
    pub table: &'t ClassTable,
    pub link: F,
}

impl<'t, F: Fn(&mut Store<'_>, u32, ClassId, &[Step], &[u8]) -> Result<Array, EvalFault>> Evaluator<
    't,
    F,
> {
    // What one more link leads to.
    #[tactic(auto, using(crate::proofs::Linking::at_link, crate::proofs::Linking::no_link, crate::proofs::Leading::fewer_links))]
    fn linked(&self, e: &mut Store<'_>, place: &Place<'_>, name: &[u8]) -> Result<Array, EvalFault>
        requires files { e.old.files ≡ self.now.table.now }
        requires leads { Leads (weight_of place.now) (F.pre self.now.link) (F.post self.now.link) }
        ensures same { e.new ≡ e.old }
        ensures answers { Answers (link_of self.now.table.now place.now place.now.start.index (values.sizes (declared self.now.table.now) place.now.start.index place.now.steps.now) place.now.steps.now name.now) result }
    {
        if place.links == 0 {
            return Err(EvalFault::Rule(PARAMETERS_TOO_DEEP));
        }
        (self.link)(e, place.links - 1, place.start, place.steps, name)
    }

    // A constant of a package.
    #[tactic(auto, using(crate::proofs::Linking::at_constant))]
    fn constant(
        &self,
        e: &mut Store<'_>,
        links: u32,
        package: ClassId,
        item: u32,
    ) -> Result<Array, EvalFault>
        requires files { e.old.files ≡ self.now.table.now }
        requires leads { Leads (weight links 0) (F.pre self.now.link) (F.post self.now.link) }
        ensures same { e.new ≡ e.old }
        ensures answers { Answers (values.constant (values.link (declared self.now.table.now) links) «package».index (item_in (declared self.now.table.now) «package».index item)) result }
    {
        match item_at(self.table, package, item) {
            Some(item) => {
                let place = Place {
                    links,
                    start: package,
                    steps: &[],
                };
                self.linked(e, &place, item.name.text.bytes())
            }
            None => Err(EvalFault::Rule(UNKNOWN_NAME)),
        }
    }

    // What a name is worth in the class that stands at a place.
    #[tactic(auto, using(crate::proofs::Leading::leads_start))]
    fn referred(
        &self,
        e: &mut Store<'_>,
        place: &Place<'_>,
        locals: &[Local],
        class: ClassId,
        name: &Name,
    ) -> Result<Array, EvalFault>
        requires files { e.old.files ≡ self.now.table.now }
        requires leads { Leads (weight_of place.now) (F.pre self.now.link) (F.post self.now.link) }
        ensures same { e.new ≡ e.old }
        ensures answers { Answers (values.worth (declared self.now.table.now) (link_of self.now.table.now place.now) (link_of self.now.table.now place.now place.now.start.index (values.sizes (declared self.now.table.now) place.now.start.index place.now.steps.now) place.now.steps.now) (values.first_part (parts_of name.now)) (refers (declared self.now.table.now) class.index locals.now (parts_of name.now))) result }
    {
        match refer(self.table, class, locals, name) {
            Reference::Local(value) => scalar(self.alloc, Value::Integer(value)),
            Reference::Own => self.linked(e, place, first_part(name)),
            Reference::Constant { package, item } => self.constant(e, place.links, package, item),
            Reference::Literal { class, ordinal } => scalar(
                self.alloc,
                Value::Enumeration {
                    class: class.index,
                    ordinal,
                },
            ),
            Reference::Unknown => Err(EvalFault::Rule(UNKNOWN_NAME)),
        }
    }

    // What a name is worth where this stands at a place.
    fn named_in(
        &self,
        e: &mut Store<'_>,
        place: &Place<'_>,
        locals: &[Local],
        found: Found,
        name: &Name,
    ) -> Result<Array, EvalFault>
        requires files { e.old.files ≡ self.now.table.now }
        requires leads { Leads (weight_of place.now) (F.pre self.now.link) (F.post self.now.link) }
        ensures same { e.new ≡ e.old }
        ensures answers { Answers (values.names_in (declared self.now.table.now) (link_of self.now.table.now place.now) (link_of self.now.table.now place.now place.now.start.index (values.sizes (declared self.now.table.now) place.now.start.index place.now.steps.now) place.now.steps.now) locals.now (parts_of name.now) (Some found)) result }
    {
        match found {
            Found::Class(class) => self.referred(e, place, locals, class, name),
            _ => Err(EvalFault::Rule(UNKNOWN_NAME)),
        }
    }

    // What a name is worth.
    fn named(
        &self,
        e: &mut Store<'_>,
        place: &Place<'_>,
        locals: &[Local],
        name: &Name,
    ) -> Result<Array, EvalFault>
        requires files { e.old.files ≡ self.now.table.now }
        requires leads { Leads (weight_of place.now) (F.pre self.now.link) (F.post self.now.link) }
        ensures same { e.new ≡ e.old }
        ensures answers { Answers (names_of self.now.table.now place.now locals.now name.now) result }
    {
        match site(self.table, Found::Class(place.start), place.steps) {
            Some(found) => self.named_in(e, place, locals, found, name),
            None => Err(EvalFault::Rule(UNKNOWN_NAME)),
        }
    }

    // All of these, from the left.
    #[cycle(eval)]
    #[tactic(auto, using(crate::proofs::Rows::with_none, crate::proofs::Rows::all_more, crate::proofs::Rows::all_fault, crate::proofs::Rows::all_end))]
    fn all(
        &self,
        e: &mut Store<'_>,
        place: &Place<'_>,
        locals: &[Local],
        exprs: &[Expr],
    ) -> Result<List<Array>, EvalFault>
        requires files { e.old.files ≡ self.now.table.now }
        requires leads { Leads (weight_of place.now) (F.pre self.now.link) (F.post self.now.link) }
        ensures same { e.new ≡ e.old }
        ensures answers { Answers (spec.all (map (worth_at self.now.table.now place.now locals.now) exprs.now)) result }
    {
        let mut values = List::new(self.alloc);
        for i in 0..exprs.len() {
            match self.eval(e, place, locals, &exprs[i]) {
                Ok(value) => values.push(value)?,
                Err(fault) => return Err(fault),
            }
        }
        Ok(values)
    }

    // A name with subscripts.
    #[cycle(eval)]
    fn subscripted(
        &self,
        e: &mut Store<'_>,
        place: &Place<'_>,
        locals: &[Local],
        name: &Name,
        subs: &[Expr],
    ) -> Result<Array, EvalFault>
        requires files { e.old.files ≡ self.now.table.now }
        requires leads { Leads (weight_of place.now) (F.pre self.now.link) (F.post self.now.link) }
        ensures same { e.new ≡ e.old }
        ensures answers { Answers (then_to (names_of self.now.table.now place.now locals.now name.now) (spec.subscripted (map (worth_at self.now.table.now place.now locals.now) subs.now))) result }
    {
        let value = match self.named(e, place, locals, name) {
            Ok(value) => value,
            Err(fault) => return Err(fault),
        };
        if subs.is_empty() {
            return Ok(value);
        }
        match self.all(e, place, locals, subs) {
            Ok(subs) => subscript(self.alloc, &value, subs.items()),
            Err(fault) => Err(fault),
        }
    }

    // A function of arguments.
    #[cycle(eval)]
    fn called(
        &self,
        e: &mut Store<'_>,
        place: &Place<'_>,
        locals: &[Local],
        name: &[u8],
        args: &[Expr],
    ) -> Result<Array, EvalFault>
        requires files { e.old.files ≡ self.now.table.now }
        requires leads { Leads (weight_of place.now) (F.pre self.now.link) (F.post self.now.link) }
        ensures same { e.new ≡ e.old }
        ensures answers { Answers (spec.called (function_named name.now) (map (worth_at self.now.table.now place.now locals.now) args.now)) result }
    {
        let Some(function) = Function::named(name) else {
            return Err(EvalFault::Rule(UNKNOWN_NAME));
        };
        if !function.takes(args.len()) {
            return Err(EvalFault::Rule(UNKNOWN_NAME));
        }
        match self.all(e, place, locals, args) {
            Ok(args) => call(self.alloc, function, args.items()),
            Err(fault) => Err(fault),
        }
    }

    // The items of an array literal.
    #[cycle(eval)]
    fn listed(
        &self,
        e: &mut Store<'_>,
        place: &Place<'_>,
        locals: &[Local],
        items: &[Expr],
    ) -> Result<Array, EvalFault>
        requires files { e.old.files ≡ self.now.table.now }
        requires leads { Leads (weight_of place.now) (F.pre self.now.link) (F.post self.now.link) }
        ensures same { e.new ≡ e.old }
        ensures answers { Answers (then_to (spec.all (map (worth_at self.now.table.now place.now locals.now) items.now)) literal_of) result }
    {
        match self.all(e, place, locals, items) {
            Ok(arrays) => literal(self.alloc, arrays.items()),
            Err(fault) => Err(fault),
        }
    }

    // One operand.
    #[cycle(eval)]
    fn applied(
        &self,
        e: &mut Store<'_>,
        place: &Place<'_>,
        locals: &[Local],
        op: Op,
        operand: &Expr,
    ) -> Result<Array, EvalFault>
        requires files { e.old.files ≡ self.now.table.now }
        requires leads { Leads (weight_of place.now) (F.pre self.now.link) (F.post self.now.link) }
        ensures same { e.new ≡ e.old }
        ensures answers { Answers (then_to (worth_at self.now.table.now place.now locals.now operand.now) (unary_of op)) result }
    {
        match self.eval(e, place, locals, operand) {
            Ok(operand) => unary(self.alloc, op, &operand),
            Err(fault) => Err(fault),
        }
    }

    // A left operand with a right one, which counts where the left one doesn't decide.
    #[cycle(eval)]
    fn with_right(
        &self,
        e: &mut Store<'_>,
        place: &Place<'_>,
        locals: &[Local],
        op: Op,
        left: &Array,
        right: &Expr,
    ) -> Result<Array, EvalFault>
        requires files { e.old.files ≡ self.now.table.now }
        requires leads { Leads (weight_of place.now) (F.pre self.now.link) (F.post self.now.link) }
        ensures same { e.new ≡ e.old }
        ensures answers { Answers (then_to (decided_by op left.now) (spec.right_side op left.now (worth_at self.now.table.now place.now locals.now right.now))) result }
    {
        match decided(op, left) {
            Ok(Some(truth)) => scalar(self.alloc, Value::Boolean(truth)),
            Ok(None) => match self.eval(e, place, locals, right) {
                Ok(right) => binary(self.alloc, op, left, &right),
                Err(fault) => Err(fault),
            },
            Err(fault) => Err(fault),
        }
    }

    // Whether a condition holds.
    #[cycle(eval)]
    fn holds(
        &self,
        e: &mut Store<'_>,
        place: &Place<'_>,
        locals: &[Local],
        test: &Expr,
    ) -> Result<bool, EvalFault>
        requires files { e.old.files ≡ self.now.table.now }
        requires leads { Leads (weight_of place.now) (F.pre self.now.link) (F.post self.now.link) }
        ensures same { e.new ≡ e.old }
        ensures answers { Answers (then_to (worth_at self.now.table.now place.now locals.now test.now) condition_of) result }
    {
        match self.eval(e, place, locals, test) {
            Ok(test) => condition(&test),
            Err(fault) => Err(fault),
        }
    }

    /// The value of an expression.
    #[cycle(eval)]
    #[tactic(auto, using(crate::proofs::Nodes::at_integer, crate::proofs::Nodes::at_real, crate::proofs::Nodes::at_string, crate::proofs::Nodes::at_boolean))]
    pub fn eval(
        &self,
        e: &mut Store<'_>,
        place: &Place<'_>,
        locals: &[Local],
        expr: &Expr,
    ) -> Result<Array, EvalFault>
        requires files { e.old.files ≡ self.now.table.now }
        requires leads { Leads (weight_of place.now) (F.pre self.now.link) (F.post self.now.link) }
        ensures same { e.new ≡ e.old }
        ensures answers { Answers (worth_at self.now.table.now place.now locals.now expr.now) result }
    {
        match &expr.node {
            Node::Integer(z) => integer(self.alloc, z),
            Node::Real(q) => scalar(self.alloc, Value::Real(*q)),
            Node::Str(text) => scalar(self.alloc, Value::Str(text.copy(self.alloc)?)),
            Node::Boolean(b) => scalar(self.alloc, Value::Boolean(*b)),
            Node::Refer { name, subs } => self.subscripted(e, place, locals, name, subs.items()),
            Node::Call { function, args } => {
                self.called(e, place, locals, function.text.bytes(), args.items())
            }
            Node::Array(items) => self.listed(e, place, locals, items.items()),
            Node::Unary(op, operand) => self.applied(e, place, locals, *op, operand.get()),
            Node::Binary(op, left, right) => match self.eval(e, place, locals, left.get()) {
                Ok(left) => self.with_right(e, place, locals, *op, &left, right.get()),
                Err(fault) => Err(fault),
            },
            Node::If(test, then, other) => match self.holds(e, place, locals, test.get()) {
                Ok(true) => self.eval(e, place, locals, then.get()),
                Ok(false) => self.eval(e, place, locals, other.get()),
                Err(fault) => Err(fault),
            },
        }
    }

    // The value of a giver's expression, at its own place.
    #[tactic(auto, using(crate::proofs::Leading::leads_outer, crate::proofs::StepSizes::at_written))]
    fn written(
        &self,
        e: &mut Store<'_>,
        place: &Place<'_>,
        giver: &Giver<'_>,
    ) -> Result<Array, EvalFault>
        requires files { e.old.files ≡ self.now.table.now }
        requires leads { Leads (weight_of place.now) (F.pre self.now.link) (F.post self.now.link) }
        ensures same { e.new ≡ e.old }
        ensures answers { Answers (values.written (declared self.now.table.now) (link_of self.now.table.now place.now) place.now.start.index (sizes_of_steps self.now.table.now place.now) place.now.steps.now (the_given giver.now.steps giver.now.args.now giver.now.value.now)) result }
    {
        let outer = Place {
            links: place.links,
            start: place.start,
            steps: front(place.steps, giver.steps),
        };
        self.eval(e, &outer, &[], giver.value)
    }
    /// The value of a giver's expression, at its own place.
    pub fn written_anew(
        &self,
        e: &mut Store<'_>,
        place: &Place<'_>,
        giver: &Giver<'_>,
    ) -> Result<Shared, EvalFault>
        requires files { e.old.files ≡ self.now.table.now }
        requires leads { Leads (weight_of place.now) (F.pre self.now.link) (F.post self.now.link) }
        ensures same { e.new ≡ e.old }
        ensures answers { Answers (values.written (declared self.now.table.now) (link_of self.now.table.now place.now) place.now.start.index (sizes_of_steps self.now.table.now place.now) place.now.steps.now (the_given giver.now.steps giver.now.args.now giver.now.value.now)) result }
    {
        match self.written(e, place, giver) {
            Ok(value) => Ok(Shared::new(self.alloc, value)?),
            Err(fault) => Err(fault),
        }
    }

    // The value of the expression that binds a parameter of so many instances, found once.
    #[tactic(auto, using(crate::proofs::Sharing::shared_known, crate::proofs::Sharing::shared_keeps))]
    fn written_once(
        &self,
        e: &mut Store<'_>,
        place: &Place<'_>,
        steps: &[Step],
        name: &[u8],
        giver: &Giver<'_>,
    ) -> Result<Shared, EvalFault>
        requires files { e.old.files ≡ self.now.table.now }
        requires leads { Leads (weight_of place.now) (F.pre self.now.link) (F.post self.now.link) }
        requires binds { Binds self.now.table.now place.now.start.index steps.now name.now (the_given giver.now.steps giver.now.args.now giver.now.value.now) }
        requires begins { take giver.now.steps steps.now ≡ take giver.now.steps place.now.steps.now }
        ensures same { e.new ≡ e.old }
        ensures answers { Answers (values.written (declared self.now.table.now) (link_of self.now.table.now place.now) place.now.start.index (sizes_of_steps self.now.table.now place.now) place.now.steps.now (the_given giver.now.steps giver.now.args.now giver.now.value.now)) result }
    {
        let family = family(self.alloc, steps, giver.steps)?;
        if let Some(value) = e.known_given(place.links, place.start, family.items(), name)? {
            return Ok(value);
        }
        let value = match self.written_anew(e, place, giver) {
            Ok(value) => value,
            Err(fault) => return Err(fault),
        };
        e.keep_given(place.links, place.start, family.items(), name, &value)?;
        Ok(value)
    }

    /// The value of the expression that binds the parameter of this name behind these steps, at its giver's own place. Where it is
    /// handed out over components, it is found once for all of them.
    pub fn given(
        &self,
        e: &mut Store<'_>,
        place: &Place<'_>,
        steps: &[Step],
        name: &[u8],
        giver: &Giver<'_>,
    ) -> Result<Shared, EvalFault>
        requires files { e.old.files ≡ self.now.table.now }
        requires leads { Leads (weight_of place.now) (F.pre self.now.link) (F.post self.now.link) }
        requires binds { Binds self.now.table.now place.now.start.index steps.now name.now (the_given giver.now.steps giver.now.args.now giver.now.value.now) }
        requires begins { take giver.now.steps steps.now ≡ take giver.now.steps place.now.steps.now }
        ensures same { e.new ≡ e.old }
        ensures answers { Answers (values.written (declared self.now.table.now) (link_of self.now.table.now place.now) place.now.start.index (sizes_of_steps self.now.table.now place.now) place.now.steps.now (the_given giver.now.steps giver.now.args.now giver.now.value.now)) result }
    {
        if are_indexed(behind(steps, giver.steps)) {
            return self.written_once(e, place, steps, name, giver);
        }
        self.written_anew(e, place, giver)
    }
}
