ghost use Rattle.std.specs.Prelude.{◌≡◌, [], ◌∷◌, IfOk, OnOk, length};
ghost use Rattle.std.specs.Option.{option_copied};
ghost use Rattle.ooo_constants.specs.Meanings.{constants_of};
ghost use Rattle.ooo_walk.specs.Instances.{after_args, args_evaluated, child_of, counting, entered};
ghost use Rattle.ooo_walk.specs.Instances.{inside_of, instance_from, instance_with, left_to, member_of, port_form};
ghost use Rattle.ooo_walk.specs.Instances.{value_for, values_from, walked_with};
ghost use Rattle.ooo_walk.specs.Members.{event_of, field_of, part_of, port_of, statics_of};
ghost use Rattle.ooo_checked.specs.Exprs.{kind_written};
ghost use Rattle.ooo_walk.specs.Plans.{filed, view_at, viewed};
ghost use Rattle.ooo_walk.specs.States.{in_order, unless_refused};

use crate::members::args_given;
use crate::plan::{Modules, View};
use crate::state::{Evaluated, Here, Walk, WalkedInstance};
use crate::states::{evaluated, in_kind};
use ooo_checked::{
    CheckedArg, CheckedChannels, CheckedChildren, CheckedFields, CheckedMember, CheckedParam,
    CheckedPart, Direction, Resolved, Thing,
};
use ooo_constants::{Known, Meaning, kind_written};
use ooo_syntax::{PortWord, Word};
use ooo_value::{Kind, Name, Value, narrow};
use sqlite_items::{Items, at};
use std::alloc::{AllocError, Global};
use std::mem;

// What the values among arguments give; the others are texts.
pub(crate) fn args_evaluated(
    alloc: Global,
    known: Known<'_>,
    args: &[CheckedArg],
) -> Result<Items<Evaluated>, AllocError>
    ensures { IfOk result (λ all. all ≡ args_evaluated (constants_of known.entry) args.now) }
{
    let mut all = Items::new(alloc);
    'parts: for e in args {
        if let CheckedArg::Value(e) = e {
            keeping!(all; all.push(evaluated(known, e)));
        }
    }
    Ok(all)
}

// The value of an argument in the kind of its parameter.
fn value_for(param: Option<&CheckedParam>, given: Evaluated) -> Value
    ensures { result ≡ value_for (option_copied param.entry) given }
{
    match param {
        Some(param) => in_kind(kind_written(param.form.form), given.answer),
        None => in_kind(Kind::Int, given.answer),
    }
}

// The values of arguments in the kinds of parameters.
fn values(
    alloc: Global,
    params: &[CheckedParam],
    args: &[Evaluated],
) -> Result<Items<Value>, AllocError>
    ensures { IfOk result (λ all. all ≡ values_from params.now 0 args.now) }
{
    let mut all = Items::new(alloc);
    'parts: for (place, e) in args.iter().enumerate() {
        let value = value_for(at(params, place), *e);
        keeping!(all; all.push(value));
    }
    Ok(all)
}

// Of the arguments of a declaration and of an initialiser, those that count.
fn counting<'a>(declared: &'a [Evaluated], initial: &'a [Evaluated]) -> &'a [Evaluated]
    ensures { result.now ≡ counting declared.now initial.now }
{
    match initial {
        [] => declared,
        _ => initial,
    }
}

// What is known of an instance as its walk begins.
pub(crate) fn entered(alloc: Global, name: Name, values: Items<Value>) -> Here
    ensures { result ≡ entered name values }
{
    Here {
        name,
        parameters: values,
        statics: Items::new(alloc),
        members: Items::new(alloc),
    }
}

// What the names of an instance mean, of all that is known of it.
fn members_of(known: Here) -> Items<Meaning>
    ensures { result ≡ known.members }
{
    known.members
}

// The sort of port that a word means.
fn port_form(port: PortWord, kind: Kind) -> Thing
    ensures { result ≡ port_form port kind }
{
    match port {
        PortWord::In => Thing::SignalPort(Direction::In, kind),
        PortWord::Out => Thing::SignalPort(Direction::Out, kind),
        PortWord::Inout => Thing::SignalPort(Direction::Inout, kind),
        PortWord::FifoIn => Thing::FifoIn(kind),
        PortWord::FifoOut => Thing::FifoOut(kind),
    }
}

impl Walk {
    // Refuses the first of arguments that faults.
    fn after_args(
        &mut self,
        alloc: Global,
        name: &Name,
        args: &[Evaluated],
    ) -> Result<(), AllocError>
        ensures { OnOk result (self.new ≡ after_args name.now args.now self.old) }
    {
        'parts: for e in args {
            self.after_answer(alloc, e.answer, e.at, name)?;
        }
        Ok(())
    }

    // Goes back to what was walked before an instance of the module of this number.
    fn leave(&mut self, outer: Here, number: usize) -> Result<(), AllocError>
        ensures { OnOk result (self.new ≡ left_to outer number self.old) }
    {
        let instance = keeping!(outer; narrow(self.instances.len()));
        let members = members_of(mem::replace(&mut self.here, outer));
        got!(
            self.instances.push(WalkedInstance {
                module_number: number,
                members,
            })
        );
        self.mean(Meaning::Instance(instance))
    }

    // An instance with arguments: it is an object.
    #[cycle(instances)]
    pub(crate) fn instance(
        &mut self,
        alloc: Global,
        levels: usize,
        modules: Modules<'_>,
        number: usize,
        word: &Word,
        declared: &[Evaluated],
        initial: &[Evaluated],
    ) -> Result<(), AllocError>
        ensures { OnOk result (self.new ≡ instance_with (inside_of levels (filed modules.entry))
            (view_at (filed modules.entry) number) number
            word.now declared.now initial.now self.old) }
    {
        let name = got!(self.full_name(alloc, &word.name));
        keeping!(name; self.add_object(alloc, word.position, &name));
        keeping!(name; self.after_args(alloc, &name, declared));
        keeping!(name; self.after_args(alloc, &name, initial));
        let view = modules.view(number);
        let values = keeping!(name; values(alloc, view.params, counting(declared, initial)));
        self.instance_of(alloc, levels, modules, number, entered(alloc, name, values))
    }

    // An instance of the module of a number, of which this is known as its walk begins.
    #[cycle(instances)]
    fn instance_of(
        &mut self,
        alloc: Global,
        levels: usize,
        modules: Modules<'_>,
        number: usize,
        known: Here,
    ) -> Result<(), AllocError>
        ensures { OnOk result (self.new ≡ instance_from
            (inside_of levels (filed modules.entry)) number known self.old) }
    {
        let outer = mem::replace(&mut self.here, known);
        keeping!(outer; self.inside(alloc, levels, modules, number));
        self.leave(outer, number)
    }

    // An instance of the module of a number, of which no more levels than these are walked.
    #[cycle(instances)]
    #[tactic(auto, using(crate::proofs::Levels::inside_step))]
    fn inside(
        &mut self,
        alloc: Global,
        levels: usize,
        modules: Modules<'_>,
        number: usize,
    ) -> Result<(), AllocError>
        ensures { OnOk result (self.new ≡ inside_of levels (filed modules.entry) number self.old) }
    {
        if levels == 0 {
            return Ok(());
        }
        self.walked(alloc, levels - 1, modules, modules.view(number))
    }

    // An instance's members and then what its constructor sets up.
    #[cycle(instances)]
    fn walked(
        &mut self,
        alloc: Global,
        levels: usize,
        modules: Modules<'_>,
        view: View<'_>,
    ) -> Result<(), AllocError>
        ensures { OnOk result (self.new ≡ walked_with (inside_of levels (filed modules.entry))
            (filed modules.entry) (viewed view.entry) self.old) }
    {
        self.statics(alloc, view, view.members)?;
        self.members(alloc, levels, modules, view)?;
        self.setups(alloc, view)
    }

    // The members of an instance one after the other, until something is refused.
    #[cycle(instances)]
    fn members(
        &mut self,
        alloc: Global,
        levels: usize,
        modules: Modules<'_>,
        view: View<'_>,
    ) -> Result<(), AllocError>
        ensures { OnOk result (self.new ≡ in_order
            (member_of (inside_of levels (filed modules.entry)) (filed modules.entry)
            (viewed view.entry))
            view.entry.members.now self.old) }
    {
        'parts: for e in view.members {
            if self.refusal.is_none() {
                got!(self.member(alloc, levels, modules, view, e));
            }
        }
        Ok(())
    }

    // A member.
    #[cycle(instances)]
    fn member(
        &mut self,
        alloc: Global,
        levels: usize,
        modules: Modules<'_>,
        view: View<'_>,
        member: &CheckedMember,
    ) -> Result<(), AllocError>
        ensures { OnOk result (self.new ≡ member_of (inside_of levels (filed modules.entry))
            (filed modules.entry) (viewed view.entry) member.now self.old) }
    {
        match member {
            CheckedMember::Public | CheckedMember::HasProcess(_) | CheckedMember::Constructor(_) =>
                Ok(()),
            CheckedMember::Constant(constant) => self.constant(alloc, view, constant),
            CheckedMember::Fields(fields) => self.fields(alloc, view, fields),
            CheckedMember::Ports(ports) => {
                let form = port_form(ports.port, kind_written(ports.form.form));
                self.ports(alloc, form, ports.names.as_slice())
            }
            CheckedMember::Clocks(names) => {
                self.ports(
                    alloc,
                    Thing::SignalPort(Direction::In, Kind::Bool),
                    names.as_slice(),
                )
            }
            CheckedMember::Channels(channels) => self.parts(alloc, view, channels),
            CheckedMember::Events(names) => self.events(alloc, names.as_slice()),
            CheckedMember::Children(children) => self.children(
                alloc, levels, modules, view, children,
            ),
            CheckedMember::Function(_) => self.mean(Meaning::Nothing),
        }
    }

    // Children one after the other, until something is refused.
    #[cycle(instances)]
    fn children(
        &mut self,
        alloc: Global,
        levels: usize,
        modules: Modules<'_>,
        view: View<'_>,
        children: &CheckedChildren,
    ) -> Result<(), AllocError>
        ensures { OnOk result
            (self.new ≡ in_order (child_of (inside_of levels (filed modules.entry))
            (filed modules.entry) (viewed view.entry) children.now.module_name.denotes.number)
            children.now.parts self.old) }
    {
        let number = children.module_name.denotes.number;
        'parts: for e in children.parts.as_slice() {
            if self.refusal.is_none() {
                got!(self.child(alloc, levels, modules, view, number, e));
            }
        }
        Ok(())
    }

    // A child: an instance of the module of this number.
    #[cycle(instances)]
    fn child(
        &mut self,
        alloc: Global,
        levels: usize,
        modules: Modules<'_>,
        view: View<'_>,
        number: usize,
        part: &CheckedPart,
    ) -> Result<(), AllocError>
        ensures { OnOk result (self.new ≡ child_of (inside_of levels (filed modules.entry))
            (filed modules.entry) (viewed view.entry) number part.now self.old) }
    {
        let given = view.init_args(self.here.members.len());
        let declared = got!(args_evaluated(alloc, self.known(), args_given(&part.args)));
        let initial = keeping!(declared; args_evaluated(alloc, self.known(), given));
        let word = &part.name.word;
        self.instance(
            alloc,
            levels,
            modules,
            number,
            word,
            declared.as_slice(),
            initial.as_slice(),
        )
    }

    // Fields one after the other, until something is refused.
    fn fields(
        &mut self,
        alloc: Global,
        view: View<'_>,
        fields: &CheckedFields,
    ) -> Result<(), AllocError>
        ensures { OnOk result (self.new ≡ in_order (field_of (viewed view.entry) fields.now.is_const
            (kind_written fields.now.form.form)) fields.now.fields self.old) }
    {
        let kind = kind_written(fields.form.form);
        'parts: for e in fields.fields.as_slice() {
            if self.refusal.is_none() {
                got!(self.field(alloc, view, fields.is_const, kind, e));
            }
        }
        Ok(())
    }

    // Ports one after the other, until something is refused.
    fn ports(&mut self, alloc: Global, form: Thing, names: &[Resolved]) -> Result<(), AllocError>
        ensures { OnOk result (self.new ≡ in_order (port_of form) names.now self.old) }
    {
        'parts: for e in names {
            if self.refusal.is_none() {
                self.port(alloc, form, e)?;
            }
        }
        Ok(())
    }

    // Channels one after the other, until something is refused.
    fn parts(
        &mut self,
        alloc: Global,
        view: View<'_>,
        channels: &CheckedChannels,
    ) -> Result<(), AllocError>
        ensures { OnOk result (self.new ≡ in_order (part_of (viewed view.entry) channels.now.channel
            (kind_written channels.now.form.form)) channels.now.parts self.old) }
    {
        let kind = kind_written(channels.form.form);
        'parts: for e in channels.parts.as_slice() {
            if self.refusal.is_none() {
                got!(self.part(alloc, view, channels.channel, kind, e));
            }
        }
        Ok(())
    }

    // `sc_event`s one after the other, until something is refused.
    fn events(&mut self, alloc: Global, names: &[Resolved]) -> Result<(), AllocError>
        ensures { OnOk result (self.new ≡ in_order event_of names.now self.old) }
    {
        'parts: for e in names {
            if self.refusal.is_none() {
                self.event(alloc, e)?;
            }
        }
        Ok(())
    }
}
