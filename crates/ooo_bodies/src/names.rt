ghost use Rattle.std.specs.Prelude.{◌≡◌, OnOk};
ghost use Rattle.ooo_checked.specs.Exprs.{call_notes, index_notes, member_notes, method_notes};
ghost use Rattle.ooo_checked.specs.Exprs.{name_notes, target_notes, value_notes, wait_when};
ghost use Rattle.ooo_bodies.specs.Noting.{noted};

use crate::notes::Notes;
use ooo_checked::{CallPlace, CheckedExpr, Denotation, Method, Thing, TypeBreach};
use ooo_lexer::Position;
use ooo_syntax::Word;
use std::alloc::AllocError;

/// A call of a channel or a port: where it stands, the word of what is called, and that behind the dot.
#[derive(Clone, Copy)]
pub(crate) struct MemberCall<'a> {
    pub place: CallPlace,
    pub word: &'a Word,
    pub after: &'a Word,
}

impl Notes {
    /// Notes the name of a thing that stands where a thing that passes a test may stand.
    pub fn name(&mut self, thing: Thing, passes: bool, at: Position)
        ensures { self.new ≡ noted self.old (name_notes thing passes at) }
    {
        if thing.is_known() {
            self.breaks_when(!passes, TypeBreach::WrongKind, at);
        } else {
            self.breaks(TypeBreach::UnknownName, at);
        }
    }

    /// Notes a name that stands for its value.
    pub fn value(&mut self, thing: Thing, at: Position)
        ensures { self.new ≡ noted self.old (value_notes thing at) }
    {
        self.name(thing, thing.has_value(), at);
    }

    /// Notes a name that stands before an index.
    pub fn indexed(&mut self, thing: Thing, at: Position)
        ensures { self.new ≡ noted self.old (index_notes thing at) }
    {
        self.name(thing, thing.is_array(), at);
    }

    /// Notes a call by a name, with this many arguments.
    #[tactic(auto, using(crate::specs::Noting::noted_append))]
    pub fn call(
        &mut self,
        place: CallPlace,
        denotes: Denotation,
        args: usize,
        at: Position,
    ) -> Result<(), AllocError>
        ensures { OnOk result (self.new ≡ noted self.old (call_notes place denotes args at)) }
    {
        match denotes.thing {
            Thing::Nothing => self.breaks(TypeBreach::UnknownName, at),
            Thing::Function(gives, params) => {
                let is_void_used = place.is_used() && gives.is_none();
                self.breaks_when(is_void_used, TypeBreach::WrongKind, at);
                self.breaks_when(place.is_inside(), TypeBreach::EffectInside, at);
                self.breaks_when(args != params, TypeBreach::WrongCount, at);
                return self.calls(at, denotes.number);
            }
            _ => self.breaks(TypeBreach::WrongKind, at),
        }
        Ok(())
    }

    /// Notes a call of a method of a thing, with this many arguments.
    #[tactic(auto, using(crate::specs::Noting::noted_append))]
    pub(crate) fn member(
        &mut self,
        call: MemberCall<'_>,
        thing: Thing,
        method: Method,
        args: usize,
    ) -> Result<(), AllocError>
        ensures { OnOk result (self.new ≡ noted self.old
            (member_notes call.entry.place thing method args
            call.entry.word.now.position call.entry.after.now.position)) }
    {
        if !thing.is_known() {
            self.breaks(TypeBreach::UnknownName, call.word.position);
            return Ok(());
        }
        self.method(call.place, thing, method, args, call.after.position)
    }

    // Notes a call of a channel or a port, at the word after the dot.
    #[tactic(auto, using(crate::specs::Noting::noted_append))]
    fn method(
        &mut self,
        place: CallPlace,
        thing: Thing,
        method: Method,
        args: usize,
        at: Position,
    ) -> Result<(), AllocError>
        ensures { OnOk result (self.new
            ≡ noted self.old (method_notes place thing method args at)) }
    {
        if matches!(method, Method::Nothing) {
            self.breaks(TypeBreach::UnknownName, at);
            return Ok(());
        }
        let is_void_used = place.is_used() && method.gives_nothing();
        self.breaks_when(is_void_used, TypeBreach::WrongKind, at);
        self.breaks_when(args != method.argument_count(), TypeBreach::WrongCount, at);
        let has_effect_inside = place.is_inside() && method.has_effect(thing);
        self.breaks_when(has_effect_inside, TypeBreach::EffectInside, at);
        self.waits_when(method.is_blocking(thing), at)
    }

    // Notes a wait where something is so.
    fn waits_when(&mut self, is_so: bool, at: Position) -> Result<(), AllocError>
        ensures { OnOk result (self.new ≡ noted self.old (wait_when is_so at)) }
    {
        if is_so {
            self.waits(at)?;
        }
        Ok(())
    }

    /// Notes an argument of a call of a channel or a port: that of `nb_read` has to be what a value can be put into.
    pub fn target(&mut self, method: Method, arg: &CheckedExpr)
        ensures { self.new ≡ noted self.old (target_notes method arg.now) }
    {
        if matches!(method, Method::NbRead) {
            self.breaks_when(!arg.is_target(), TypeBreach::WrongKind, arg.first());
        }
    }
}
