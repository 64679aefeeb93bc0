ghost use Rattle.std.specs.Prelude.{◌≡◌, ◌↔◌, ◌<◌, [], ℕ, List, Option, None, IsTrue, IsSome, IfOk, IfErr, OnOk, OnErr, length};
ghost use Rattle.ooo_code.specs.Sound.{IsSound};
ghost use Rattle.ooo_interp.specs.declared.job.Done.{Done as DoneSpec};
ghost use Rattle.ooo_meaning.specs.Runs.{IsSequentialRun, Shows as ShowsRun};
ghost use Rattle.ooo_meaning.specs.Sequence.{Result as ResultSpec};
ghost use Rattle.ooo_schedules.specs.Model.{front_of};
ghost use Rattle.ooo_tables.specs.Tables.{AreTables};
ghost use Rattle.ooo_dispatch.specs.Boards.{model};
ghost use Rattle.ooo_dispatch.specs.Schedules.{CommitsPutBack, CommitsWalk, CutStays, NoneOvertakes, NothingAway, StayAllowed};
ghost use Rattle.ooo_dispatch.specs.Steps.{IsLost, job_of};
ghost use Rattle.ooo_dispatch.specs.declared.step.Step.TheVariants as step;
ghost use Rattle.ooo_fronts.specs.declared.choice.State.TheVariants as does;
ghost use Rattle.ooo_fronts.specs.Choices.{HasFrontBelow, IsChoiceOf, IsPick, PicksLeastOf};
ghost use Rattle.ooo_fronts.specs.declared.front.Front.{Front as FrontSpec};
ghost use Rattle.ooo_fronts.specs.Holds.{AreCounts};
ghost use Rattle.ooo_fronts.specs.Fronts.{AreFrontsOf, maybe_front};
ghost use Rattle.ooo_board.specs.Boards.{CouldRun, HandsOut, IsDoneFor, IsHolder, IsOver, LeavesOthers, MayBeDispatched, ReadsAsInRun, rules, state, with_step};
ghost use Rattle.ooo_board.specs.Jobs.{Gives};
ghost use Rattle.ooo_board.specs.Starting.{AreInRange, HaveNumbers};

use crate::cores::Core;
use crate::laws::laws;
use crate::links::Links;
use crate::spares::Spares;
use ooo_code::{Design, Limits};
use ooo_dispatch::Step;
use ooo_fronts::{Choice, Front, Hold, State};
use ooo_history::Run;
use ooo_interp::{Done, Job};
use ooo_tables::Tables;
use ooo_time::Place;
use std::alloc::{AllocError, Global};
use std::marker::Model;
use std::sync::Arc;

/// The simulation of a design, step by step: it hands out the next activation of a process as a job and takes back what was
/// done, in any order that is lawful. It is seen as its design, limits and tables, and the steps that were made; all else is
/// what these lead to.
#[derive(Drop)]
pub struct Board {
    design: Arc<Design>,
    tables: Tables,
    limits: Limits,
    links: Links,
    core: Core,
    schedule: Vec<Step>,
    spares: Spares,
    // How many jobs are out that weren't abandoned. There is room in the schedule for the end of each.
    running: usize,
    lost: bool,
}

impl Model for Board {
    ghost use Rattle.ooo_board.specs.Boards.{Shown};
    ghost use Rattle.ooo_board.specs.Whole.{IsWhole};
    ghost use Rattle.std.specs.Coded.{codes};
    ghost use Rattle.ooo_code.specs.contracts.expression.NodeExpr as e;

    ghost Value = { Shown };

    ghost coded = { Prim.hlevel (codes, e.the_row.coded) };

    ghost view = { λ b. record {
      design = b.design.value;
      limits = b.limits;
      tables = b.tables;
      schedule = b.schedule.items;
    } };

    ghost invariant = { λ b. IsWhole b.design.value b.limits b.tables b.links b.core b.schedule
        b.running b.lost };
}

impl Board {
    /// The board of a sound design with its tables, as a simulation starts: no step was made.
    ///
    /// # Errors
    ///
    /// Only where memory runs out. A design of more channels or events than there are numbers of 32 bits counts as too large
    /// for the memory.
    pub fn make(
        alloc: Global,
        design: Arc<Design>,
        tables: Tables,
        limits: Limits,
    ) -> Result<Board, AllocError>
        requires sound { IsSound design.value }
        requires tables { AreTables design.value tables }
        requires range { AreInRange limits }
        ensures { IfOk result (λ b. b ≡
            record { design = design.value; limits = limits; tables = tables; schedule = [] }) }
    {
        ooo_dispatch::law::tables_are_rules();
        ooo_dispatch::law::accesses_are_inside();
        if !have_numbers(&design) {
            drop(design);
            drop(tables);
            return Err(AllocError);
        }
        let links = keeping!(design, tables; Links::make(alloc, &design, &tables));
        let core = Core::make(alloc, &design, &tables, &links, &limits);
        let core = keeping!(design, tables, links; core);
        let spares = Spares::make(alloc, core.fronts.len());
        let spares = keeping!(design, tables, links, core; spares);
        Ok(Board {
            design,
            tables,
            limits,
            links,
            core,
            schedule: Vec::new(alloc),
            spares,
            running: 0,
            lost: false,
        })
    }

    /// The front of process `p`: the segment that it runs next, or runs, with its stamp. None where it has none.
    pub fn front(&self, p: u32) -> Option<Front>
        requires { p < length self.now.design.processes }
        ensures { front_of (model (rules self.now)) (state self.now).board p ≡ maybe_front result }
    {
        self.core.fronts.front(p)
    }

    /// Whether process `p` may be dispatched.
    pub fn allowed(&self, p: u32) -> bool
        requires { p < length self.now.design.processes }
        ensures { IsTrue result ↔ MayBeDispatched self.now p }
    {
        !self.lost && self.choice().may_run(p)
    }

    /// Whether a job of process `p` is out that was not abandoned.
    pub fn running(&self, p: u32) -> bool
        requires { p < length self.now.design.processes }
        ensures { IsTrue result ↔ IsSome (job_of (rules self.now) (state self.now) p) }
    {
        matches!(self.core.states[p as usize], State::Running)
    }

    /// Whether a job was abandoned.
    pub fn is_lost(&self) -> bool
        ensures { IsTrue result ↔ IsLost (state self.now) }
    {
        self.lost
    }

    /// The steps that were made.
    pub fn schedule(&self) -> &[Step]
        ensures { result.now ≡ self.now.schedule }
    {
        self.schedule.as_slice()
    }

    /// How many clashes hold each process up, in the order of the processes: pairs of a front of another process and a
    /// segment to which that leads. Of a process without a front there are none.
    pub fn holds(&self) -> &[u32]
        ensures { (fronts : List (Option FrontSpec)) →
            AreFrontsOf (rules self.now) (state self.now).board fronts →
            AreCounts self.now.tables fronts result.now }
    {
        self.core.fronts.counts()
    }

    /// The first clash that holds process `p` up, by the lowest process whose front does and its lowest segment: of a process
    /// that could be dispatched but for such clashes, and of no other.
    pub fn holder(&self, p: u32) -> Option<Hold>
        requires { p < length self.now.design.processes }
        ensures { IsHolder self.now p result }
    {
        laws();
        if self.lost || !self.could_run(p) {
            return None;
        }
        self.core.fronts.first_hold(&self.tables, p)
    }

    /// Of the processes that may be dispatched, the one of the least place. None where none may.
    pub fn pick(&self) -> Option<u32>
        ensures lost { IsLost (state self.now) → result ≡ None }
        ensures pick { ¬ IsLost (state self.now) →
            IsPick (rules self.now) self.now.tables.advance (state self.now).board result }

        // Where no process runs and some front is below the cut, that of least place is picked.
        ensures no_dead_end { ¬ IsLost (state self.now) → (state self.now).board.out ≡ [] →
            (p : ℕ) → HasFrontBelow (rules self.now) (state self.now).board p →
            PicksLeastOf (rules self.now) self.now.tables.advance (state self.now).board result }
    {
        laws();
        if self.lost {
            return None;
        }
        self.choice().pick()
    }

    /// Hands out the next activation of process `p` as a job.
    ///
    /// # Errors
    ///
    /// Only where memory runs out; the board is then as it was.
    pub fn dispatch(&mut self, alloc: Global, p: u32) -> Result<Job, AllocError>
        requires { MayBeDispatched self.old p }
        ensures step { OnOk result (self.new ≡ with_step self.old (step.Dispatch p)) }
        ensures refused { OnErr result (self.new ≡ self.old) }
        ensures job { IfOk result (HandsOut self.old p) }

        // What is done for the job is what `commit` asks for.
        ensures gives { IfOk result (λ job. (done : DoneSpec) → IsDoneFor job done →
            Gives (rules self.new) (state self.new) done) }

        // What can be committed for other jobs that are out can still be.
        ensures others { OnOk result (LeavesOthers self.old self.new p) }

        // It reads what the activation of that process and number sees in the sequential run, if that has it.
        ensures reads { OnOk result (ReadsAsInRun self.new) }

        // No variable that its segment reads or writes is owned by another job, and none that another job uses is owned.
        ensures away { NothingAway (rules self.new) self.new.tables.advance (state self.new) }

        // Who else could be dispatched can still be, with the same job.
        ensures stays { StayAllowed (rules self.old) self.old.tables.advance (state self.old) }
    {
        laws();
        let Some(front) = self.core.fronts.front(p) else {
            unreachable!()
        };
        self.schedule.reserve(self.running + 2)?;
        let room = self.spares.take(alloc, p);
        let job = self.core.dispatch(
            alloc,
            &self.design,
            &self.tables,
            &self.links,
            &self.limits,
            p,
            front,
            room,
        )?;
        self.schedule.push_reserved(Step::Dispatch(p));
        self.running += 1;
        Ok(job)
    }

    /// Takes back what a job that is out gave.
    ///
    /// # Errors
    ///
    /// Only where memory runs out; the board is then as it was, and what was done is handed back.
    pub fn commit(&mut self, done: Done) -> Result<(), (AllocError, Done)>
        requires { Gives (rules self.old) (state self.old) done }
        ensures step { OnOk result (self.new ≡ with_step self.old (step.Commit done.process)) }
        ensures refused { IfErr result (λ e. (self.new ≡ self.old) × (e.1 ≡ done)) }

        // What can be committed for other jobs that are out can still be.
        ensures others { OnOk result (LeavesOthers self.old self.new done.process) }

        // Each front after it was there, and not later, or by the table the job leads to it.
        ensures walks { CommitsWalk (rules self.old) self.old.tables.advance (state self.old) }

        // A place that is below the cut after it was so before.
        ensures cut { CutStays (rules self.old) self.old.tables.advance (state self.old) }

        // Nothing that was dispatched at a later place clashes with the job.
        ensures overtakes { NoneOvertakes (rules self.old) self.old.tables.advance (state self.old) }

        // Each variable that the job owns is as its activation leaves it, and all others stay.
        ensures puts_back { CommitsPutBack (rules self.old) self.old.tables.advance (state self.old) }

        // Who could be dispatched can still be, with the same job, where its place is still below the cut.
        ensures stays { StayAllowed (rules self.old) self.old.tables.advance (state self.old) }
    {
        laws();
        let p = done.process;
        let Some(front) = self.core.fronts.front(p) else {
            unreachable!()
        };
        if self.core.reserve(&done).is_err() {
            return Err((AllocError, done));
        }
        let used = self
            .core
            .commit(&self.tables, &self.links, done, front.stamp);
        self.spares.keep(p, used);
        self.core.forget_now_and_then();
        self.schedule.push_reserved(Step::Commit(p));
        self.running -= 1;
        Ok(())
    }

    /// Gives up the job of process `p` that is out: nothing can be dispatched from then on. It takes no memory.
    pub fn abandon(&mut self, p: u32)
        requires { IsSome (job_of (rules self.old) (state self.old) p) }
        ensures step { self.new ≡ with_step self.old (step.Abandon p) }

        // What can be committed for other jobs that are out can still be.
        ensures others { LeavesOthers self.old self.new p }
    {
        laws();
        self.core.states[p as usize] = State::Abandoned;
        self.schedule.push_reserved(Step::Abandon(p));
        self.running -= 1;
        self.lost = true;
    }

    /// Whether the run is over: no job is out, none was abandoned, and no front is below the cut.
    pub fn is_over(&self) -> bool
        ensures { IsTrue result ↔ IsOver self.now }
    {
        laws();
        !self.lost && self.running == 0 && self.choice().is_over()
    }

    /// The run, once it is over.
    ///
    /// # Errors
    ///
    /// Only where memory runs out.
    pub fn finish(&self, alloc: Global) -> Result<Run, AllocError>
        requires { IsOver self.now }
        ensures { IfOk result (λ run. (found : ResultSpec) →
            IsSequentialRun self.now.design self.now.limits found → ShowsRun run found) }
    {
        self.core.finish(alloc, &self.design)
    }

    // Whether process `p` waits, with a front below the cut and the limit of deltas.
    fn could_run(&self, p: u32) -> bool
        requires { p < length self.now.design.processes }
        ensures { IsTrue result ↔ CouldRun self.now p }
    {
        let Some(front) = self.core.fronts.front(p) else {
            return false;
        };
        let place = Place {
            stamp: front.stamp,
            process: p,
        };
        is_waiting(self.core.states[p as usize])
            && self.core.cut.is_below_limit(front.stamp)
            && self.core.cut.is_below(self.core.fronts.least(), place)
    }

    // What a process is chosen from.
    #[inline(always)]
    fn choice(&self) -> Choice<'_>
        ensures of { IsChoiceOf (rules self.now) self.now.tables.advance (state self.now).board result }
        ensures fronts { length result.fronts.now ≡ length self.now.design.processes }
        ensures states { length result.states.now ≡ length result.fronts.now }
        ensures held { length result.held.now ≡ length result.fronts.now }
    {
        laws();
        Choice {
            states: self.core.states.as_slice(),
            fronts: self.core.fronts.fronts(),
            held: self.core.fronts.counts(),
            cut: &self.core.cut,
        }
    }
}

// Whether a process waits, and its job isn't out.
fn is_waiting(kept: State) -> bool
    ensures { IsTrue result ↔ (kept ≡ does.Waiting) }
{
    matches!(kept, State::Waiting)
}

// Whether each channel and event has a number of 32 bits. Each process has: there are no more of them than segments.
fn have_numbers(design: &Design) -> bool
    ensures { IsTrue result → HaveNumbers design.now }
{
    design.channels.len() <= u32::MAX as usize && design.events.len() <= u32::MAX as usize
}
