//! What a job did is taken in.

ghost use Rattle.std.specs.Prelude.{◌≡◌, ◌+◌, ◌<◌, ◌≤◌, ◌^◌, ◌++◌, ℕ, List, Some, vec_len, vec_capacity};
ghost use Rattle.std.specs.List.{list_any};
ghost use Rattle.ooo_time.specs.declared.stamp.Stamp.{Stamp as StampSpec};
ghost use Rattle.ooo_code.specs.declared.design.Design.{Design as DesignSpec};
ghost use Rattle.ooo_code.specs.declared.limits.Limits.{Limits as LimitsSpec};
ghost use Rattle.ooo_schedules.specs.Model.{Act};
ghost use Rattle.ooo_schedules.specs.Program.{time_out, wait_left};
ghost use Rattle.ooo_dispatch.specs.declared.reads.Reads.{Reads as ReadsSpec};
ghost use Rattle.ooo_dispatch.specs.declared.step.Step.{Step as StepSpec};
ghost use Rattle.ooo_dispatch.specs.declared.step.Step.TheVariants as step;
ghost use Rattle.ooo_dispatch.specs.Least.{rules_of};
ghost use Rattle.ooo_dispatch.specs.Rules.{is_stop, left_by};
ghost use Rattle.ooo_dispatch.specs.Steps.{after_step, job_of};
ghost use Rattle.ooo_tables.specs.declared.tables.Tables.{Tables as TablesSpec};
ghost use Rattle.ooo_board.specs.Committing.{IsCommit, MayLeave, WaitsInTime, piece_at};
ghost use Rattle.ooo_board.specs.Cores.{HasRoom, IsCore, MayTakeIn, Stands, after, maybe_wait};
ghost use Rattle.ooo_board.specs.Links.{AreLinks};

use crate::carrying::move_back;
use crate::cores::Core;
use crate::links::Links;
use crate::process::{Process, Waiting};
use ooo_code::{Cells, Effect, Frame, JobEnd, SegmentEntry};
use ooo_fronts::State;
use ooo_history::Piece;
use ooo_interp::{Done, Emitted};
use ooo_tables::Tables;
use ooo_time::{Place, Stamp, Time, after};
use ooo_value::Value;
use sqlite_items::Items;

impl Core {
    /// What a job did is taken in, for which there is room. It takes no memory. What carried the variables is handed back, with
    /// nothing in it.
    pub(crate) fn commit(
        &mut self,
        tables: &Tables,
        links: &Links,
        done: Done,
        at: Stamp,
    ) -> Vec<(u32, Cells)>
        requires room { HasRoom self.old done }
        requires may { (design : DesignSpec) × (limits : LimitsSpec) × (steps : List StepSpec)
            × AreLinks design tables.now links.now
            × MayTakeIn design limits tables.now steps self.old done at }
        ensures { (design : DesignSpec) (limits : LimitsSpec) (steps : List StepSpec) →
            AreLinks design tables.now links.now →
            MayTakeIn design limits tables.now steps self.old done at →
            IsCore design limits tables.now
            (after_step (rules_of design limits tables.now) (after design limits tables.now steps)
            (step.Commit done.process)) self.new }
    {
        commits_keep();
        let Done {
            process,
            activation: _,
            frame,
            owned,
            emitted,
            end,
        } = done;
        let Frame { entry, slots } = frame;
        let Emitted {
            output,
            effects,
            counted: _,
        } = emitted;
        let effects = effects.as_slice();
        self.bank.apply(effects, at);
        let used = move_back(&mut self.variables, owned);
        let place = Place { stamp: at, process };
        self.cut.note(place, &end, stops(effects));
        print(&mut self.pieces, place, output);
        self.places.push_reserved(place);
        let waiting = waiting_after(tables, links, process, entry, end, at);
        self.processes[process as usize].leave(slots, waiting);
        self.states[process as usize] = State::Waiting;
        self.refresh(tables, links, process);
        self.wake(tables, links, effects);
        used
    }
}

impl Process {
    // It is left by an activation.
    fn leave(&mut self, slots: Items<Value>, waiting: Option<Waiting>)
        requires { self.old.activations + 1 < 2 ^ 128 }
        ensures slots { self.new.slots ≡ slots }
        ensures waiting { self.new.waiting ≡ waiting }
        ensures activations { self.new.activations ≡ self.old.activations + 1 }
    {
        self.slots = slots;
        self.waiting = waiting;
        self.activations += 1;
    }
}

// How an activation at a stamp leaves its process.
fn waiting_after(
    tables: &Tables,
    links: &Links,
    p: u32,
    entry: SegmentEntry,
    end: JobEnd,
    at: Stamp,
) -> Option<Waiting>
    requires { (design : DesignSpec) × (limits : LimitsSpec)
        × MayLeave design limits tables.now links.now p entry end at }
    ensures { (design : DesignSpec) (limits : LimitsSpec) →
        maybe_wait result ≡ wait_left at (left_by (rules_of design limits tables.now) p entry end) }
{
    match end {
        JobEnd::Waits(on) => Some(Waiting {
            segment: links.segment(tables.graph.segments.as_slice(), p, entry),
            timeout: timeout(at, on.time),
            events: on.events,
            since: Some(at),
        }),
        JobEnd::Ended | JobEnd::Faulted(_, _) | JobEnd::Limit(_) => None,
    }
}

// The stamp up to which is waited that long at most, if a time is given.
fn timeout(at: Stamp, time: Option<Time>) -> Option<Stamp>
    requires { WaitsInTime at time }
    ensures { result ≡ time_out at time }
{
    Some(after(at, time?))
}

// Whether an effect among these is a call of `sc_stop`.
fn stops(effects: &[Effect]) -> bool
    ensures { result ≡ list_any is_stop effects.now }
{
    effects.iter().any(|effect| is_stop(*effect))
}

// Whether an effect is a call of `sc_stop`.
fn is_stop(effect: Effect) -> bool
    ensures { result ≡ is_stop effect }
{
    match effect {
        Effect::Stop => true,
        Effect::Request(_, _)
        | Effect::Put(_, _)
        | Effect::Take(_)
        | Effect::Notify(_, _)
        | Effect::Cancel(_) => false,
    }
}

// Adds what was printed at a place, if it is something.
fn print(pieces: &mut Vec<Piece>, place: Place, output: Vec<u8>)
    requires { vec_len pieces.old + 1 ≤ vec_capacity pieces.old }
    ensures { pieces.new.items ≡ pieces.old.items ++ piece_at place output.items }
{
    if !output.is_empty() {
        pieces.push_reserved(Piece {
            place,
            bytes: Items::from_vec(output),
        });
    }
}

// What holds of a job that is out after lawful steps, and of the step that commits it.
fn commits_keep()
    ensures { (design : DesignSpec) (limits : LimitsSpec) (t : TablesSpec) (steps : List StepSpec)
        (p : ℕ) (j : Act StampSpec ReadsSpec) → Stands design limits t steps →
        job_of (rules_of design limits t) (after design limits t steps) p ≡ Some j →
        IsCommit (rules_of design limits t) t (after design limits t steps) p j }
{
    ooo_dispatch::law::tables_are_rules();
    ooo_dispatch::law::tables_are_sound();
    ooo_dispatch::law::steps_are_lawful();
    ooo_dispatch::law::boards_go_on();
    ooo_dispatch::law::jobs_may_commit();
    ooo_dispatch::law::commits_put_back();
    ooo_dispatch::law::commits_walk();
    ooo_dispatch::law::fronts_are_told();
    ooo_dispatch::law::fronts_stay();
    ooo_dispatch::law::fronts_in_reach();
    ooo_dispatch::law::jobs_leave_in_reach();
    ooo_dispatch::law::accesses_are_inside();
    ooo_fronts::law::tables_are_aligned();
}
