ghost use Rattle.std.specs.Prelude.{◌≡◌, ◌++◌, IfOk, OnOk, Some, length, replicate};
ghost use Rattle.std.specs.Option.{option_copied};
ghost use Rattle.ooo_walk.specs.Members.{args_given, array_of, array_with, channel_of, constant_of};
ghost use Rattle.ooo_walk.specs.Members.{constants_to, constant_with, elements_of, event_of, field_of, field_with};
ghost use Rattle.ooo_walk.specs.Members.{fifo_of, fifo_with, fixed_of, initial_here, initialised};
ghost use Rattle.ooo_walk.specs.Members.{length_of, part_of, plain_of, port_of, scalar_of, signal_of};
ghost use Rattle.ooo_walk.specs.Members.{size_in, size_of, static_initialised, statics_by, statics_of};
ghost use Rattle.ooo_walk.specs.Members.{value_among, with_static};
ghost use Rattle.ooo_walk.specs.Members.{later_size, no_static};
ghost use Rattle.ooo_constants.specs.Meanings.{constants_of};
ghost use Rattle.ooo_walk.specs.Plans.{viewed};

use crate::plan::{View, names_in};
use crate::refusal::ElabBreach;
use crate::state::{Evaluated, Walk};
use crate::states::{MOST_CELLS, evaluated, option_evaluated, start_value};
use ooo_checked::{
    CheckedArg, CheckedConstant, CheckedExpr, CheckedField, CheckedFieldForm, CheckedMember,
    CheckedPart, Resolved, Thing,
};
use ooo_constants::{Known, Meaning, kind_written};
use ooo_lexer::Position;
use ooo_syntax::{ChannelWord, Word};
use ooo_value::{BoundChannel, BoundVariable, ChannelKind, Fault, Kind, Name, Value};
use sqlite_items::Items;
use std::alloc::{AllocError, Global};

// The first value among arguments: the others are texts.
pub(crate) fn value_among(args: &[CheckedArg]) -> Option<&CheckedExpr>
    ensures { option_copied result ≡ value_among args.now }
{
    'parts: for e in args {
        if let CheckedArg::Value(e) = e {
            return Some(e);
        }
    }
    None
}

// The arguments of a part in braces or parentheses.
pub(crate) fn args_given(args: &Option<Items<CheckedArg>>) -> &[CheckedArg]
    ensures { result.now ≡ args_given args.now }
{
    match args {
        Some(args) => args.as_slice(),
        None => &[],
    }
}

// How many elements an array has, by the value of its length: at least one.
fn length_of(answer: Result<Value, Fault>) -> Option<u64>
    ensures { result ≡ length_of answer }
{
    match answer {
        Ok(Value::Bool(true)) => Some(1),
        Ok(Value::Int(n)) if n >= 1 => Some(n as u64),
        Ok(Value::Uint(n)) if n >= 1 => Some(u64::from(n)),
        Ok(Value::Long(n)) if n >= 1 => Some(n as u64),
        Ok(Value::Ulong(n)) if n >= 1 => Some(n),
        _ => None,
    }
}

// How many values a fifo may hold; that of an expression that faults doesn't matter.
fn size_in(answer: Result<Value, Fault>) -> Option<u32>
    ensures { result ≡ size_in answer }
{
    match answer {
        Ok(Value::Bool(true)) => Some(1),
        Ok(Value::Int(n)) if n >= 1 && n <= 65_536 => Some(n as u32),
        Ok(Value::Uint(n)) if n >= 1 && n <= 65_536 => Some(n),
        Ok(Value::Long(n)) if n >= 1 && n <= 65_536 => Some(n as u32),
        Ok(Value::Ulong(n)) if n >= 1 && n <= 65_536 => Some(n as u32),
        Ok(_) => None,
        Err(_) => Some(16),
    }
}

// The size that is given, if one is given, else the one before.
fn later_size(before: Option<u32>, given: Option<Evaluated>) -> Option<u32>
    ensures { result ≡ later_size before given }
{
    match given {
        Some(given) => size_in(given.answer),
        None => before,
    }
}

// The size of a fifo: by its arguments, and then by its initialiser.
fn size_of(declared: Option<Evaluated>, initial: Option<Evaluated>) -> Option<u32>
    ensures { result ≡ size_of declared initial }
{
    later_size(later_size(Some(16), declared), initial)
}

impl Walk {
    // The value that the initialiser of the next name gives.
    fn initialised<'a>(&self, view: View<'a>) -> Option<&'a CheckedExpr>
        ensures { option_copied result ≡ initialised (viewed view.entry) self.now }
    {
        value_among(view.init_args(self.here.members.len()))
    }

    // What the initialiser of the next name gives, where the walk stands.
    fn initial_here(&self, view: View<'_>) -> Option<Evaluated>
        ensures { result ≡ initial_here (viewed view.entry) self.now }
    {
        option_evaluated(self.known(), self.initialised(view))
    }

    // A variable of one value: it is an object and an element.
    fn scalar(
        &mut self,
        alloc: Global,
        kind: Kind,
        word: &Word,
        declared: Option<Evaluated>,
        initial: Option<Evaluated>,
    ) -> Result<(), AllocError>
        ensures { OnOk result (self.new ≡ scalar_of kind word.now declared initial self.old) }
    {
        let name = got!(self.full_name(alloc, &word.name));
        keeping!(name; self.add_object(alloc, word.position, &name));
        keeping!(name; self.after_start(alloc, &name, declared, initial));
        keeping!(name; self.add_cells(alloc, 1, word.position, &name));
        let start = start_value(kind, declared, initial);
        self.add_variable(BoundVariable {
            kind,
            length: 1,
            start,
        })
    }

    // A member that keeps its value: it is a constant, no object and no element.
    pub(crate) fn fixed(
        &mut self,
        alloc: Global,
        kind: Kind,
        word: &Word,
        declared: Option<Evaluated>,
        initial: Option<Evaluated>,
    ) -> Result<(), AllocError>
        ensures { OnOk result (self.new ≡ fixed_of kind word.now declared initial self.old) }
    {
        let name = got!(self.full_name(alloc, &word.name));
        keeping!(name; self.after_start(alloc, &name, declared, initial));
        self.mean(Meaning::Constant(start_value(kind, declared, initial)))
    }

    // An array of so many elements, each of which starts at 0.
    fn elements(
        &mut self,
        alloc: Global,
        kind: Kind,
        count: u64,
        at: Position,
        name: &Name,
    ) -> Result<(), AllocError>
        ensures { OnOk result (self.new ≡ elements_of kind count at name.now self.old) }
    {
        if count <= MOST_CELLS.saturating_sub(self.cells) as u64 {
            self.cells += count as usize;
            self.add_variable(BoundVariable {
                kind,
                length: count as u32,
                start: kind.zero(),
            })
        } else {
            self.refuse(alloc, ElabBreach::TooManyCells, at, name)
        }
    }

    // An array: it is an object.
    fn array(
        &mut self,
        alloc: Global,
        kind: Kind,
        word: &Word,
        length: Evaluated,
    ) -> Result<(), AllocError>
        ensures { OnOk result (self.new ≡ array_of kind word.now length self.old) }
    {
        let name = got!(self.full_name(alloc, &word.name));
        keeping!(name; self.add_object(alloc, word.position, &name));
        match length_of(length.answer) {
            Some(count) => self.elements(alloc, kind, count, word.position, &name),
            None => self.refuse(alloc, ElabBreach::BadConstant, length.at, &name),
        }
    }

    // A field whose name is followed by a value, or by nothing.
    fn plain(
        &mut self,
        alloc: Global,
        is_const: bool,
        kind: Kind,
        word: &Word,
        declared: Option<Evaluated>,
        initial: Option<Evaluated>,
    ) -> Result<(), AllocError>
        ensures { OnOk result
            (self.new ≡ plain_of is_const kind word.now declared initial self.old) }
    {
        if is_const {
            self.fixed(alloc, kind, word, declared, initial)
        } else {
            self.scalar(alloc, kind, word, declared, initial)
        }
    }

    /// A field.
    pub(crate) fn field(
        &mut self,
        alloc: Global,
        view: View<'_>,
        is_const: bool,
        kind: Kind,
        field: &CheckedField,
    ) -> Result<(), AllocError>
        ensures { OnOk result (self.new
            ≡ field_of (viewed view.entry) is_const kind field.now self.old) }
    {
        let word = &field.name.word;
        match &field.form {
            CheckedFieldForm::Plain => {
                let initial = self.initial_here(view);
                self.plain(alloc, is_const, kind, word, None, initial)
            }
            CheckedFieldForm::Value(e) => {
                let declared = evaluated(self.known(), e);
                let initial = self.initial_here(view);
                self.plain(alloc, is_const, kind, word, Some(declared), initial)
            }
            CheckedFieldForm::Length(e) => {
                let length = evaluated(self.known(), e);
                self.array(alloc, kind, word, length)
            }
        }
    }

    // The value that the initialiser of the next static member gives.
    fn static_initialised<'a>(&self, view: View<'a>) -> Option<&'a CheckedExpr>
        ensures { option_copied result ≡ static_initialised (viewed view.entry) self.now }
    {
        value_among(view.init_args(self.here.statics.len()))
    }

    // Keeps the value of a static member.
    fn add_static(&mut self, view: View<'_>, kind: Kind, e: &CheckedExpr) -> Result<(), AllocError>
        ensures { OnOk result (self.new ≡ with_static (viewed view.entry) kind e.now self.old) }
    {
        let known = self.known_statics(self.here.statics.len());
        let declared = Some(evaluated(known, e));
        let initial = option_evaluated(known, self.static_initialised(view));
        let value = start_value(kind, declared, initial);
        self.here.statics.push(Meaning::Constant(value))
    }

    // Of so many names nothing is known before the others.
    fn add_no_statics(&mut self, alloc: Global, names: usize) -> Result<(), AllocError>
        ensures { OnOk result (self.new ≡ record self.old {
          here = record self.old.here {
            statics = self.old.here.statics
                ++ replicate names Meaning.Nothing;
          };
        }) }
    {
        let nothing = Items::from_vec(Vec::from_elem(alloc, Meaning::Nothing, names)?);
        self.here.statics.append(nothing)
    }

    // What the static members of a member are worth.
    fn static_member(
        &mut self,
        alloc: Global,
        view: View<'_>,
        member: &CheckedMember,
    ) -> Result<(), AllocError>
        ensures { OnOk result (self.new ≡ statics_by (viewed view.entry) member.now self.old) }
    {
        match member {
            CheckedMember::Constant(constant) => {
                if constant.is_static {
                    self.add_static(view, kind_written(constant.form.form), &constant.value)
                } else {
                    self.here.statics.push(Meaning::Nothing)
                }
            }
            _ => self.add_no_statics(alloc, names_in(member)),
        }
    }

    /// What the static members of a module are worth.
    pub(crate) fn statics(
        &mut self,
        alloc: Global,
        view: View<'_>,
        members: &[CheckedMember],
    ) -> Result<(), AllocError>
        ensures { OnOk result (self.new ≡ statics_of (viewed view.entry) members.now self.old) }
    {
        'parts: for e in members {
            self.static_member(alloc, view, e)?;
        }
        Ok(())
    }

    // What is known where the next member is declared: of a static one the static ones before it.
    fn known_to(&self, is_static: bool) -> Known<'_>
        ensures { constants_of result ≡ constants_to is_static self.now }
    {
        if is_static {
            self.known_statics(self.here.members.len())
        } else {
            self.known()
        }
    }

    /// A constant of a module: where it is static, the static ones before it are known.
    pub(crate) fn constant(
        &mut self,
        alloc: Global,
        view: View<'_>,
        constant: &CheckedConstant,
    ) -> Result<(), AllocError>
        ensures { OnOk result (self.new ≡ constant_of (viewed view.entry) constant.now self.old) }
    {
        let known = self.known_to(constant.is_static);
        let declared = evaluated(known, &constant.value);
        let initial = option_evaluated(known, self.initialised(view));
        let kind = kind_written(constant.form.form);
        self.fixed(alloc, kind, &constant.name.word, Some(declared), initial)
    }

    // A fifo of a size.
    fn sized_fifo(
        &mut self,
        alloc: Global,
        kind: Kind,
        size: Option<u32>,
        at: Position,
        name: Name,
    ) -> Result<(), AllocError>
        ensures { OnOk result (self.new ≡ fifo_with kind size at name self.old) }
    {
        match size {
            Some(size) => {
                let bound = BoundChannel {
                    kind: ChannelKind::Fifo,
                    value: kind,
                    size,
                };
                self.add_channel(bound, false, at, name)
            }
            None => self.refuse(alloc, ElabBreach::FifoSize, at, &name),
        }
    }

    // A fifo: it is an object.
    fn fifo(
        &mut self,
        alloc: Global,
        kind: Kind,
        word: &Word,
        declared: Option<Evaluated>,
        initial: Option<Evaluated>,
    ) -> Result<(), AllocError>
        ensures { OnOk result (self.new ≡ fifo_of kind word.now declared initial self.old) }
    {
        let name = got!(self.full_name(alloc, &word.name));
        keeping!(name; self.add_object(alloc, word.position, &name));
        keeping!(name; self.after_start(alloc, &name, declared, initial));
        self.sized_fifo(alloc, kind, size_of(declared, initial), word.position, name)
    }

    // A signal: it is an object.
    fn signal(&mut self, alloc: Global, kind: Kind, word: &Word) -> Result<(), AllocError>
        ensures { OnOk result (self.new ≡ signal_of kind word.now self.old) }
    {
        let name = got!(self.full_name(alloc, &word.name));
        keeping!(name; self.add_object(alloc, word.position, &name));
        let bound = BoundChannel {
            kind: ChannelKind::Signal,
            value: kind,
            size: 0,
        };
        self.add_channel(bound, false, word.position, name)
    }

    /// A channel.
    pub(crate) fn channel(
        &mut self,
        alloc: Global,
        channel: ChannelWord,
        kind: Kind,
        word: &Word,
        declared: Option<Evaluated>,
        initial: Option<Evaluated>,
    ) -> Result<(), AllocError>
        ensures { OnOk result
            (self.new ≡ channel_of channel kind word.now declared initial self.old) }
    {
        match channel {
            ChannelWord::Signal => self.signal(alloc, kind, word),
            ChannelWord::Fifo => self.fifo(alloc, kind, word, declared, initial),
        }
    }

    /// A channel of a module.
    pub(crate) fn part(
        &mut self,
        alloc: Global,
        view: View<'_>,
        channel: ChannelWord,
        kind: Kind,
        part: &CheckedPart,
    ) -> Result<(), AllocError>
        ensures { OnOk result
            (self.new ≡ part_of (viewed view.entry) channel kind part.now self.old) }
    {
        let declared = option_evaluated(self.known(), value_among(args_given(&part.args)));
        let initial = self.initial_here(view);
        self.channel(alloc, channel, kind, &part.name.word, declared, initial)
    }

    /// A port.
    pub(crate) fn port(
        &mut self,
        alloc: Global,
        form: Thing,
        name: &Resolved,
    ) -> Result<(), AllocError>
        ensures { OnOk result (self.new ≡ port_of form name.now self.old) }
    {
        let full = self.full_name(alloc, &name.word.name)?;
        self.add_port(form, name.word.position, full)
    }

    /// An `sc_event`: it is an object.
    pub(crate) fn event(&mut self, alloc: Global, name: &Resolved) -> Result<(), AllocError>
        ensures { OnOk result (self.new ≡ event_of name.now self.old) }
    {
        let full = got!(self.full_name(alloc, &name.word.name));
        keeping!(full; self.add_object(alloc, name.word.position, &full));
        self.add_event()
    }
}
