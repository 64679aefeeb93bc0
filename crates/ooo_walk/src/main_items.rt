ghost use Rattle.std.specs.Prelude.{◌≡◌, [], None, OnOk, Some, length};
ghost use Rattle.ooo_walk.specs.Plans.{filed};
ghost use Rattle.ooo_walk.specs.States.{in_order};
ghost use Rattle.ooo_walk.specs.Texts.{after_room, clock_of, clock_timed, clock_with, file_constant_of};
ghost use Rattle.ooo_walk.specs.Texts.{file_constant_with, item_of, main_item_of, start_of, stop_at};
ghost use Rattle.ooo_walk.specs.Texts.{stop_timed};

use crate::children::args_evaluated;
use crate::members::{args_given, value_among};
use crate::plan::Modules;
use crate::refusal::ElabBreach;
use crate::setups::as_breach;
use crate::state::{Evaluated, ProcessForm, Walk};
use crate::states::{MOST_PROCESSES, evaluated, in_kind, option_evaluated};
use ooo_checked::{
    CheckedArg, CheckedConstant, CheckedMainItem, CheckedStartForm, CheckedTime, CheckedUnitItem,
    Resolved,
};
use ooo_constants::{Meaning, TimeBreach, kind_written, place, time};
use ooo_lexer::Position;
use ooo_time::Time;
use ooo_value::{BoundChannel, ChannelKind, Kind, Name, narrow};
use std::alloc::{AllocError, Global};

impl Walk {
    // A constant of the file.
    fn file_constant(
        &mut self,
        alloc: Global,
        constant: &CheckedConstant,
        given: Evaluated,
    ) -> Result<(), AllocError>
        ensures { OnOk result (self.new ≡ file_constant_with given constant.now self.old) }
    {
        self.after_answer(alloc, given.answer, given.at, &constant.name.word.name)?;
        let value = in_kind(kind_written(constant.form.form), given.answer);
        self.file.push(Meaning::Constant(value))
    }

    // A declaration of the file; a module means nothing by itself.
    fn file_item(&mut self, alloc: Global, item: &CheckedUnitItem) -> Result<(), AllocError>
        ensures { OnOk result (self.new ≡ item_of item.now self.old) }
    {
        match item {
            CheckedUnitItem::Using(_) => Ok(()),
            CheckedUnitItem::Constant(constant) => {
                let given = evaluated(self.known(), &constant.value);
                self.file_constant(alloc, constant, given)
            }
            CheckedUnitItem::Module(_) => self.file.push(Meaning::Nothing),
        }
    }

    /// The declarations of the file one after the other, until something is refused.
    pub(crate) fn file_items(
        &mut self,
        alloc: Global,
        items: &[CheckedUnitItem],
    ) -> Result<(), AllocError>
        ensures { OnOk result (self.new ≡ in_order item_of items.now self.old) }
    {
        'parts: for e in items {
            if self.refusal.is_none() {
                self.file_item(alloc, e)?;
            }
        }
        Ok(())
    }

    // A clock of a period.
    fn clock_of(
        &mut self,
        alloc: Global,
        at: Position,
        name: &Resolved,
        period: Time,
    ) -> Result<(), AllocError>
        ensures { OnOk result (self.new ≡ clock_with at name.now period self.old) }
    {
        let word = &name.word;
        if period.0 == 0 || period.0 % 2 == 1 {
            return self.refuse(alloc, ElabBreach::OddClock, word.position, &word.name);
        }
        let channel = got!(narrow(self.channels.len()));
        let form = ProcessForm::Clock(channel, Time(period.0 / 2), at.line);
        got!(self.add_process(alloc, form, word.position, &word.name));
        let bound = BoundChannel {
            kind: ChannelKind::Signal,
            value: Kind::Bool,
            size: 0,
        };
        let full = got!(word.name.copy(alloc));
        self.add_channel(bound, true, word.position, full)
    }

    // A clock whose period is right, or what is wrong with it.
    fn clock_timed(
        &mut self,
        alloc: Global,
        at: Position,
        name: &Resolved,
        period: &CheckedTime,
        given: Result<Time, TimeBreach>,
    ) -> Result<(), AllocError>
        ensures { OnOk result (self.new ≡ clock_timed at name.now period.now given self.old) }
    {
        match given {
            Ok(given) => self.clock_of(alloc, at, name, given),
            Err(what) => self.refuse(alloc, as_breach(what), place(period), &name.word.name),
        }
    }

    // Refuses a process more, where there would be too many.
    fn after_room(&mut self, alloc: Global, at: Position, name: &Name) -> Result<(), AllocError>
        ensures { OnOk result (self.new ≡ after_room at name.now self.old) }
    {
        if self.processes.len() < MOST_PROCESSES {
            Ok(())
        } else {
            self.refuse(alloc, ElabBreach::TooManyProcesses, at, name)
        }
    }

    // A clock: it is a process and an object.
    fn clock(
        &mut self,
        alloc: Global,
        at: Position,
        name: &Resolved,
        period: &CheckedTime,
    ) -> Result<(), AllocError>
        ensures { OnOk result (self.new ≡ clock_of at name.now period.now self.old) }
    {
        let given = time(self.known(), period);
        self.after_room(alloc, name.word.position, &name.word.name)?;
        self.add_object(alloc, name.word.position, &name.word.name)?;
        if self.refusal.is_some() {
            return Ok(());
        }
        self.clock_timed(alloc, at, name, period, given)
    }

    // An instance of `sc_main`.
    fn main_instance(
        &mut self,
        alloc: Global,
        modules: Modules<'_>,
        module_name: &Resolved,
        name: &Resolved,
        args: &[CheckedArg],
    ) -> Result<(), AllocError>
        ensures { OnOk result (self.new
            ≡ main_item_of (filed modules.entry)
            (CheckedMainItem.Instance module_name.now name.now args.now) self.old) }
    {
        let declared = args_evaluated(alloc, self.known(), args)?;
        let number = module_name.denotes.number;
        let levels = modules.plans.len();
        self.instance(
            alloc,
            levels,
            modules,
            number,
            &name.word,
            declared.as_slice(),
            &[],
        )
    }

    // A declaration or a binding of `sc_main`.
    fn main_item(
        &mut self,
        alloc: Global,
        modules: Modules<'_>,
        item: &CheckedMainItem,
    ) -> Result<(), AllocError>
        ensures { OnOk result (self.new ≡ main_item_of (filed modules.entry) item.now self.old) }
    {
        match item {
            CheckedMainItem::Constant(constant) => {
                let given = evaluated(self.known(), &constant.value);
                let kind = kind_written(constant.form.form);
                self.fixed(alloc, kind, &constant.name.word, Some(given), None)
            }
            CheckedMainItem::Channel(channel) => {
                let declared = option_evaluated(
                    self.known(),
                    value_among(args_given(&channel.args)),
                );
                let kind = kind_written(channel.form.form);
                let word = &channel.name.word;
                self.channel(alloc, channel.channel, kind, word, declared, None)
            }
            CheckedMainItem::Clock(at, name, _, period) => self.clock(alloc, *at, name, period),
            CheckedMainItem::Instance(module_name, name, args) => {
                self.main_instance(alloc, modules, module_name, name, args.as_slice())
            }
            CheckedMainItem::Bind(binding) => self.bind(binding),
        }
    }

    /// The declarations and bindings of `sc_main` one after the other, until something is refused.
    pub(crate) fn main_items(
        &mut self,
        alloc: Global,
        modules: Modules<'_>,
        items: &[CheckedMainItem],
    ) -> Result<(), AllocError>
        ensures { OnOk result
            (self.new ≡ in_order (main_item_of (filed modules.entry)) items.now self.old) }
    {
        'parts: for e in items {
            if self.refusal.is_none() {
                got!(self.main_item(alloc, modules, e));
            }
        }
        Ok(())
    }

    // The time up to which the simulation goes, which isn't zero.
    fn stop_at(&mut self, alloc: Global, at: Position, stop: Time) -> Result<(), AllocError>
        ensures { OnOk result (self.new ≡ stop_at at stop self.old) }
    {
        if stop.0 == 0 {
            let name = Name::new(alloc, "sc_start")?;
            return self.refuse(alloc, ElabBreach::BadConstant, at, &name);
        }
        self.stop = Some(stop);
        Ok(())
    }

    // The same, where it is a time.
    fn stop_timed(
        &mut self,
        alloc: Global,
        at: Position,
        given: Result<Time, TimeBreach>,
    ) -> Result<(), AllocError>
        ensures { OnOk result (self.new ≡ stop_timed at given self.old) }
    {
        match given {
            Ok(stop) => self.stop_at(alloc, at, stop),
            Err(what) => {
                let name = Name::new(alloc, "sc_start")?;
                self.refuse(alloc, as_breach(what), at, &name)
            }
        }
    }

    /// What `sc_start` is given.
    pub(crate) fn start_form(
        &mut self,
        alloc: Global,
        form: &Option<CheckedStartForm>,
    ) -> Result<(), AllocError>
        ensures { OnOk result (self.new ≡ start_of form.now self.old) }
    {
        match form {
            Some(CheckedStartForm::Limited(_, given)) => {
                let stop = time(self.known(), given);
                self.stop_timed(alloc, place(given), stop)
            }
            _ => Ok(()),
        }
    }
}
