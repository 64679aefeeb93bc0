ghost use Rattle.std.specs.Prelude.{◌≡◌, ◌≤◌, length, IfOk};
ghost use Rattle.ooo_activation.specs.Sound.{IsSound};
ghost use Rattle.ooo_history.specs.Reporting.{IsNamed};
ghost use Rattle.ooo_plain.specs.Cycles.{AreInRange as AreRunLimits};
ghost use Rattle.ooo_plain.specs.Running.{ShowsRun};
ghost use Rattle.ooo_shapes.specs.Designs.{design_of};
ghost use Rattle.ooo_sound_model.specs.Reports.{HasNames};
ghost use Rattle.ooo_sim.specs.Laws.{IsReady};
ghost use Rattle.ooo_sim.specs.Replies.{TellsRun, told_text, verdict_of};

use crate::outcome::Verdict;
use crate::reply::Reply;
use crate::request::Told;
use crate::summary::summary;
use ooo_bound::Bound;
use ooo_code::Limits;
use ooo_front::Accepted;
use ooo_history::{End, Run, report};
use ooo_meaning::law::{endings, histories};
use ooo_plain::run_plain;
use ooo_shapes::law::{same_runs, sound_design};
use ooo_value::Names;
use std::alloc::{AllocError, Global};

/// The reply that tells of the run by the sequential scheduler.
pub(crate) fn run_plainly(
    alloc: Global,
    accepted: &Accepted,
    told: Told,
    limits: Limits,
) -> Result<Reply, AllocError>
    requires ready { IsReady accepted.now }
    requires range { AreRunLimits limits }
    ensures { IfOk result (TellsRun told accepted.now.bound limits) }
{
    sound_design();
    let run = run_plain(alloc, &accepted.design, limits)?;
    told_of_run(alloc, told, &accepted.bound, limits, &run)
}

/// The reply that tells of the run of a model.
pub(crate) fn told_of_run(
    alloc: Global,
    told: Told,
    model: &Bound,
    limits: Limits,
    run: &Run,
) -> Result<Reply, AllocError>
    requires sound { IsSound model.now }
    requires names { HasNames model.now }
    requires shown { ShowsRun (design_of model.now) limits run.now }
    ensures { IfOk result (TellsRun told model.now limits) }
{
    same_runs();
    histories();
    endings();
    let text = text_of_run(alloc, told, run, &model.names)?;
    Ok(Reply::new(verdict_of(run.end), text))
}

// What is told of a run.
fn text_of_run(alloc: Global, told: Told, run: &Run, names: &Names) -> Result<Vec<u8>, AllocError>
    requires channels { length run.now.channels ≤ length names.now.channels }
    requires process { IsNamed run.now.end names.now.processes }
    ensures { IfOk result (λ text. text.items ≡ told_text told run.now names.now) }
{
    match told {
        Told::Report => report(alloc, run, names),
        Told::Summary => summary(alloc, run, names),
    }
}

// What a run comes to that ended so.
fn verdict_of(end: End) -> Verdict
    ensures { result ≡ verdict_of end }
{
    match end {
        End::Time(_) | End::Idle(_) | End::Stop(_) => Verdict::Done,
        End::Fault(..) => Verdict::Faulted,
        End::Statements(..) | End::Deltas(_) => Verdict::LimitReached,
    }
}
