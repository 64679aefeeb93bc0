ghost use Rattle.std.specs.Prelude.{◌≡◌, ◌<◌, ℕ, List, Some, IfErr, IfOk};
ghost use Rattle.ooo_board.specs.Boards.{IsOver};
ghost use Rattle.ooo_code.specs.Sound.{IsSound as IsSoundDesign};
ghost use Rattle.ooo_front.specs.Layers.{HasFew};
ghost use Rattle.ooo_plain.specs.Cycles.{AreInRange as AreRunLimits};
ghost use Rattle.ooo_plain.specs.Running.{ShowsRun};
ghost use Rattle.ooo_workers.specs.Boards.{Begins, IsQuiet};
ghost use Rattle.ooo_words.specs.declared.command.RunOptions.{RunOptions as RunOptionsSpec};
ghost use Rattle.ooo_words.specs.Limits.{AreWithinLimits, IsBetween, most_workers};
ghost use Rattle.ooo_sim.specs.Boards.{IsAnswerOfRun, IsDriven, IsFresh, IsRunError, IsStarted, MayBeRun, MayBeTold};
ghost use Rattle.ooo_sim.specs.Laws.{IsReady};
ghost use Rattle.ooo_sim.specs.Replies.{TellsRun};
ghost use Rattle.ooo_sim.specs.declared.workers.RunError.TheVariants as run_error;
ghost use Rattle.ooo_sim.specs.declared.request.Told.{Told as ToldSpec};

use crate::outcome::Refusal;
use crate::reply::{Answer, Reply, accept, limits_of, refuse, stop_of};
use crate::request::Told;
use crate::running::told_of_run;
use ooo_board::Board;
use ooo_bound::Bound;
use ooo_code::{Design, Limits};
use ooo_front::Accepted;
use ooo_history::Run;
use ooo_meaning::law::every_design_runs;
use ooo_outside::Gate;
use ooo_shapes::law::sound_design;
use ooo_tables::Tables;
use ooo_words::RunOptions;
use ooo_workers::drive;
use std::alloc::{AllocError, Global};
use std::sync::{Arc, Wait};
use std::thread::Threads;

/// A model, and the board of its run within some limits.
#[derive(Drop)]
pub(crate) struct ModelRun {
    pub model: Bound,
    pub limits: Limits,
    pub board: Board,
}

/// Why a text has no run by workers.
#[derive(Drop)]
pub(crate) enum RunError {
    /// It is refused, or nothing stops its run.
    Refused(Refusal),
    OutOfMemory,
}

impl From<Refusal> for RunError {
    ghost use Rattle.ooo_sim.specs.declared.workers.RunError.TheVariants.{Refused};

    ghost from_gives = { λ why e. e ≡ Refused why };

    fn from(why: Refusal) -> RunError {
        RunError::Refused(why)
    }
}

impl From<AllocError> for RunError {
    ghost use Rattle.ooo_sim.specs.declared.workers.RunError.TheVariants.{OutOfMemory};

    ghost from_gives = { λ _ e. e ≡ OutOfMemory };

    fn from(_error: AllocError) -> RunError {
        RunError::OutOfMemory
    }
}

/// What is told of a text's run by so many workers, each on a thread of its own, or why there is none.
pub(crate) fn run_text<G: Gate, R: Threads + Wait + Sync>(
    rt: &R,
    alloc: Global,
    text: &[u8],
    told: Told,
    options: RunOptions,
    workers: u32,
    gate: &G,
) -> Result<Answer, AllocError>
    requires options { AreWithinLimits options }
    requires workers { IsBetween 1 most_workers workers }
    ensures { IfOk result (IsAnswerOfRun told options text.now) }
{
    match driven(rt, alloc, text, options, workers, gate) {
        Ok(ended) => told_of(alloc, told, ended),
        Err(why) => not_run(alloc, why),
    }
}

// The answer where there is no run.
fn not_run(alloc: Global, why: RunError) -> Result<Answer, AllocError>
    ensures { (told : ToldSpec) (options : RunOptionsSpec) (text : List ℕ) →
        IsRunError options text why →
        IfOk result (IsAnswerOfRun told options text) }
{
    match why {
        RunError::Refused(why) => Ok(Answer::without_board(refuse(alloc, why)?)),
        RunError::OutOfMemory => Err(AllocError),
    }
}

// A text's model and the board of its run, which workers drove to its end.
fn driven<G: Gate, R: Threads + Wait + Sync>(
    rt: &R,
    alloc: Global,
    text: &[u8],
    options: RunOptions,
    workers: u32,
    gate: &G,
) -> Result<ModelRun, RunError>
    requires options { AreWithinLimits options }
    requires workers { IsBetween 1 most_workers workers }
    ensures driven { IfOk result (IsDriven options text.now) }
    ensures ready { IfOk result MayBeTold }
    ensures refused { IfErr result (IsRunError options text.now) }
{
    let started = start(alloc, text, options)?;
    let ModelRun {
        model,
        limits,
        board,
    } = started;
    let board = keeping!(model; drive_board(rt, alloc, board, workers, gate));
    once_over(ModelRun {
        model,
        limits,
        board,
    })
}

// A board that workers drove.
fn drive_board<G: Gate, R: Threads + Wait + Sync>(
    rt: &R,
    alloc: Global,
    board: Board,
    workers: u32,
    gate: &G,
) -> Result<Board, RunError>
    requires workers { IsBetween 1 most_workers workers }
    requires board { IsQuiet board }
    ensures begins { IfOk result (Begins board) }
    ensures memory { IfErr result (λ error. error ≡ run_error.OutOfMemory) }
{
    Ok(drive(rt, alloc, board, workers, gate)?)
}

// A text's model and the board of its run, before any step.
fn start(alloc: Global, text: &[u8], options: RunOptions) -> Result<ModelRun, RunError>
    requires { AreWithinLimits options }
    ensures started { IfOk result (IsStarted options text.now) }
    ensures ready { IfOk result MayBeRun }
    ensures refused { IfErr result (IsRunError options text.now) }
{
    let accepted = accept(alloc, text)?;
    match stop_of(options.stop, &accepted.bound) {
        Some(stop) => Ok(first_board(alloc, accepted, limits_of(options, stop))?),
        None => {
            drop(accepted);
            Err(RunError::Refused(Refusal::StopMissing))
        }
    }
}

// The model of what is accepted and the board of its run, before any step.
fn first_board(alloc: Global, accepted: Accepted, limits: Limits) -> Result<ModelRun, AllocError>
    requires ready { IsReady accepted }
    requires range { AreRunLimits limits }
    ensures model { IfOk result (λ run. run.model ≡ accepted.bound) }
    ensures limits { IfOk result (λ run. run.limits ≡ limits) }
    ensures board { IfOk result (λ run. IsFresh accepted.design limits run.board) }
    ensures ready { IfOk result MayBeRun }
{
    sound_design();
    let Accepted { bound, design, .. } = accepted;
    let board = keeping!(bound; fresh_board(alloc, design, limits));
    Ok(ModelRun {
        model: bound,
        limits,
        board,
    })
}

// The board of a design's run, before any step.
fn fresh_board(alloc: Global, design: Design, limits: Limits) -> Result<Board, AllocError>
    requires sound { IsSoundDesign design }
    requires few { HasFew design }
    requires range { AreRunLimits limits }
    ensures { IfOk result (IsFresh design limits) }
{
    let tables = keeping!(design; Tables::make(alloc, &design));
    let design = keeping!(tables; shared(alloc, design));
    Board::make(alloc, design, tables, limits)
}

// A design that a board can hold.
fn shared(alloc: Global, design: Design) -> Result<Arc<Design>, AllocError>
    ensures { IfOk result (λ shared. shared.value ≡ design) }
{
    Ok(Arc::new(alloc, design)?)
}

// A run whose board is over. Where it isn't, a job was abandoned, since memory ran out.
fn once_over(run: ModelRun) -> Result<ModelRun, RunError>
    ensures same { IfOk result (λ done. done ≡ run) }
    ensures over { IfOk result (λ done. IsOver done.board) }
    ensures memory { IfErr result (λ error. error ≡ run_error.OutOfMemory) }
{
    if run.board.is_over() {
        Ok(run)
    } else {
        drop(run);
        Err(RunError::OutOfMemory)
    }
}

// What is told of a run whose board is over, and that board.
fn told_of(alloc: Global, told: Told, run: ModelRun) -> Result<Answer, AllocError>
    requires { MayBeTold run }
    ensures reply { IfOk result (λ a. TellsRun told run.model run.limits a.reply) }
    ensures board { IfOk result (λ a. a.board ≡ Some run.board) }
{
    let reply = keeping!(run; reply_of(alloc, told, &run));
    let ModelRun { model, board, .. } = run;
    drop(model);
    Answer::with_board(alloc, reply, board)
}

// The reply that tells of a run whose board is over.
fn reply_of(alloc: Global, told: Told, run: &ModelRun) -> Result<Reply, AllocError>
    requires { MayBeTold run.now }
    ensures { IfOk result (TellsRun told run.now.model run.now.limits) }
{
    let shown = run_of(alloc, &run.board)?;
    told_of_run(alloc, told, &run.model, run.limits, &shown)
}

// The run of a board that is over: that of its design, which has one.
fn run_of(alloc: Global, board: &Board) -> Result<Run, AllocError>
    requires over { IsOver board.now }
    requires some_deltas { 0 < board.now.limits.deltas }
    ensures { IfOk result (ShowsRun board.now.design board.now.limits) }
{
    every_design_runs();
    board.finish(alloc)
}
