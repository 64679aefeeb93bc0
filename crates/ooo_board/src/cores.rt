//! What a board keeps, and what its steps do to that.

ghost use Rattle.std.specs.Prelude.{◌≡◌, ℕ, List, [], IfOk, OnErr, OnOk};
ghost use Rattle.ooo_code.specs.declared.design.Design.{Design as DesignSpec};
ghost use Rattle.ooo_code.specs.declared.limits.Limits.{Limits as LimitsSpec};
ghost use Rattle.ooo_dispatch.specs.declared.step.Step.{Step as StepSpec};
ghost use Rattle.ooo_dispatch.specs.Least.{rules_of};
ghost use Rattle.ooo_tables.specs.declared.tables.Tables.{Tables as TablesSpec};
ghost use Rattle.ooo_board.specs.Cores.{HasCore, HasRoom, IsDispatched, MayDispatch, after};
ghost use Rattle.ooo_board.specs.Jobs.{Gives};
ghost use Rattle.ooo_board.specs.Lending.{ArePartsOf};
ghost use Rattle.ooo_board.specs.Links.{AreLinks};

use crate::carrying::{bare, copies, move_out};
use crate::links::Links;
use crate::process::Process;
use crate::seeing::sights;
use ooo_channels::Bank;
use ooo_code::{Cells, Design, Frame, Limits, Seen};
use ooo_fronts::{Cut, Front, Fronts, State};
use ooo_history::Piece;
use ooo_interp::{Done, Job};
use ooo_tables::Tables;
use ooo_time::{Place, Stamp};
use sqlite_items::Items;
use std::alloc::{AllocError, Global};
use std::mem;
use std::sync::Arc;

/// What a board keeps, beside its design, tables, limits and schedule.
#[derive(Drop)]
pub(crate) struct Core {
    pub(crate) bank: Bank,
    /// The stamp before which the bank forgets what was: the first of all, or one before all fronts.
    pub(crate) below: Stamp,
    /// The cells of each variable, unless a job that is out owns it.
    pub(crate) variables: Vec<Cells>,
    pub(crate) processes: Vec<Process>,
    pub(crate) states: Vec<State>,
    pub(crate) fronts: Fronts,
    pub(crate) cut: Cut,
    /// What was printed, in the order of the commits.
    pub(crate) pieces: Vec<Piece>,
    /// Where each activation ran, in the order of the commits.
    pub(crate) places: Vec<Place>,
}

/// The parts that a job is lent: the variables that it may change, for which there are places alone until they are moved,
/// copies of those that it only reads, and what it sees of channels.
#[derive(Drop)]
pub(crate) struct Parts {
    owned: Vec<(u32, Cells)>,
    copied: Vec<(u32, Cells)>,
    seen: Vec<Seen>,
}

impl Core {
    /// The job of a process at its front is handed out. It carries the variables that it may change in `room`.
    ///
    /// # Errors
    ///
    /// Only where memory runs out; all is then as it was.
    pub(crate) fn dispatch(
        &mut self,
        alloc: Global,
        design: &Arc<Design>,
        tables: &Tables,
        links: &Links,
        limits: &Limits,
        p: u32,
        front: Front,
        room: Vec<(u32, Cells)>,
    ) -> Result<Job, AllocError>
        requires room { room.items ≡ [] }
        requires links { AreLinks design.now.value tables.now links.now }
        requires may { (steps : List StepSpec)
            × HasCore design.now.value limits.now tables.now steps self.old
            × MayDispatch design.now.value limits.now tables.now steps p front }
        ensures out { (steps : List StepSpec) →
            HasCore design.now.value limits.now tables.now steps self.old →
            MayDispatch design.now.value limits.now tables.now steps p front → IfOk result
            (IsDispatched design.now.value limits.now tables.now steps p front self.new) }
        ensures refused { OnErr result (self.new ≡ self.old) }
    {
        crate::law::parts_are_at_hand();
        let mut parts = self.parts(alloc, design, tables, links, front, room)?;
        let shared = keeping!(parts; Arc::clone(design));
        move_out(&mut self.variables, &mut parts.owned);
        self.states[p as usize] = State::Running;
        let process = &mut self.processes[p as usize];
        let slots = mem::replace(&mut process.slots, Items::new(alloc));
        let entry = tables.graph.segments.as_slice()[front.segment as usize].entry;
        Ok(Job {
            design: shared,
            process: p,
            activation: process.activations,
            stamp: front.stamp,
            statements: limits.statements,
            frame: Frame { entry, slots },
            owned: parts.owned,
            copied: parts.copied,
            seen: parts.seen,
        })
    }

    // The parts of the job of a process at its front.
    fn parts(
        &self,
        alloc: Global,
        design: &Design,
        tables: &Tables,
        links: &Links,
        front: Front,
        room: Vec<(u32, Cells)>,
    ) -> Result<Parts, AllocError>
        requires room { room.items ≡ [] }
        requires links { AreLinks design.now tables.now links.now }
        requires may { (limits : LimitsSpec) × (steps : List StepSpec) × (p : ℕ)
            × HasCore design.now limits tables.now steps self.now
            × MayDispatch design.now limits tables.now steps p front }
        ensures { (limits : LimitsSpec) (steps : List StepSpec) (p : ℕ) →
            HasCore design.now limits tables.now steps self.now →
            MayDispatch design.now limits tables.now steps p front → IfOk result
            (ArePartsOf design.now limits tables.now steps p front self.now.variables.items) }
    {
        crate::law::parts_are_at_hand();
        let g = front.segment as usize;
        let written = tables.access.as_slice()[g].written.as_slice();
        let owned = bare(alloc, room, written)?;
        let read = links.only_read[g].as_slice();
        let copied = keeping!(owned; copies(alloc, self.variables.as_slice(), read));
        let watched = links.watched[g].as_slice();
        let seen = sights(alloc, design, &self.bank, watched, front.stamp);
        let seen = keeping!(owned, copied; seen);
        Ok(Parts {
            owned,
            copied,
            seen,
        })
    }

    /// Makes room for what a job did.
    ///
    /// # Errors
    ///
    /// Only where memory runs out.
    pub(crate) fn reserve(&mut self, done: &Done) -> Result<(), AllocError>
        requires { (design : DesignSpec) × (limits : LimitsSpec) × (t : TablesSpec)
            × (steps : List StepSpec) × HasCore design limits t steps self.old
            × Gives (rules_of design limits t) (after design limits t steps) done.now }
        ensures room { OnOk result (HasRoom self.new done.now) }
        ensures kept { (design : DesignSpec) (limits : LimitsSpec) (t : TablesSpec)
            (steps : List StepSpec) → HasCore design limits t steps self.old →
            HasCore design limits t steps self.new }
    {
        ooo_dispatch::law::jobs_may_commit();
        self.bank.reserve(&done.emitted.effects)?;
        self.pieces.reserve(1)?;
        self.places.reserve(1)
    }
}
