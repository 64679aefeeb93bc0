ghost use Rattle.std.specs.Prelude.{◌<◌, ◌≤◌, All, IfOk};
ghost use Rattle.ooo_workers.specs.Boards.{Begins, IsQuiet};
ghost use Rattle.ooo_workers.specs.Passes.{EachWorks, IsIdle, WorksTo};

use crate::view::Pass;
use crate::yard::Yard;
use ooo_board::Board;
use ooo_outside::Gate;
use std::alloc::{AllocError, Global};
use std::sync::Wait;
use std::thread;
use std::thread::Threads;

/// Has a board driven by so many workers, each on a thread of its own, until there is nothing more to do: it is over, or a job
/// was abandoned, since memory ran out.
///
/// # Errors
///
/// Only where memory runs out; the board is then given up.
pub fn drive<G: Gate, R: Threads + Wait + Sync>(
    rt: &R,
    alloc: Global,
    board: Board,
    workers: u32,
    gate: &G,
) -> Result<Board, AllocError>
    requires workers { (0 < workers) × (workers ≤ 64) }
    requires board { IsQuiet board }
    ensures begins { IfOk result (Begins board) }
    ensures quiet { IfOk result IsQuiet }
{
    let (yard, mut passes) = Yard::make(alloc, board, workers)?;
    work_all(rt, &yard, passes.as_mut_slice(), workers as usize, gate);
    Ok(yard.close(passes))
}

// Each pass works on a thread of its own.
fn work_all<G: Gate, R: Threads + Wait + Sync>(
    rt: &R,
    yard: &Yard,
    passes: &mut [Pass],
    workers: usize,
    gate: &G,
)
    requires some { 0 < workers }
    requires passes { All (IsIdle yard.now.table.shared.table_id) passes.old }
    ensures { EachWorks passes.old passes.new }
{
    thread::for_each_mut(
        rt,
        passes,
        workers,
        &|_, pass: &mut Pass|
            requires { IsIdle yard.now.table.shared.table_id pass.now }
            ensures { WorksTo pass.entry.now pass.exit.now }
        {
            yard.work(rt, pass, gate);
        },
    );
}
