//! A yard over the boards of two worked rows, by the calls of its passes.

ghost use Rattle.std.specs.Prelude.{◌≡◌, ◌≤◌, ℕ, None, Some, IfOk, IfSome, OnOk, length};
ghost use Rattle.ooo_code.specs.Sound.{IsSound};
ghost use Rattle.ooo_dispatch.specs.declared.step.Step.TheVariants.{Commit};
ghost use Rattle.ooo_front.specs.Layers.{HasFew};
ghost use Rattle.ooo_lexer.specs.declared.position.TheConstants.{MOST_BYTES};
ghost use Rattle.ooo_tables.specs.Tables.{AreTables};
ghost use Rattle.ooo_workers.specs.Boards.{IsQuiet};
ghost use Rattle.ooo_workers.specs.Passes.{Has, Stepped};

use ooo_board::Board;
use ooo_code::{Design, Limits};
use ooo_front::{Accepted, front};
use ooo_interp::{Job, run_segment};
use ooo_tables::Tables;
use ooo_time::Time;
use ooo_workers::{Pass, Turn, Yard};
use std::alloc::{AllocError, Global};
use std::sync::{Arc, Wait};
use std::test::Fail;

// The model of the row second-thread-first.
static SECOND_THREAD_FIRST: &[u8] = b"#include <systemc.h>\n\
    SC_MODULE(M) {\n\
    void a() { cout << \"a\" << endl; }\n\
    void b() { cout << \"b\" << endl; wait(5, SC_NS); cout << \"c\" << endl; }\n\
    \x20 SC_CTOR(M) { SC_THREAD(a); SC_THREAD(b); }\n\
    };\n\
    int sc_main(int argc, char* argv[]) {\n\
    \x20 M m(\"m\");\n\
    \x20 sc_start(100, SC_NS);\n\
    \x20 return 0;\n\
    }\n\
    ";

// The model of the row variable-ahead.
static VARIABLE_AHEAD: &[u8] = b"#include <systemc.h>\n\
    SC_MODULE(M) {\n\
    \x20 int x;\n\
    \x20 void a() { wait(5, SC_NS); x = 1; }\n\
    \x20 void b() { wait(3, SC_NS); cout << x << endl; wait(7, SC_NS); cout << x << endl; }\n\
    \x20 SC_CTOR(M) { SC_THREAD(a); SC_THREAD(b); }\n\
    };\n\
    int sc_main(int argc, char* argv[]) {\n\
    \x20 M m(\"m\");\n\
    \x20 sc_start(100, SC_NS);\n\
    \x20 return 0;\n\
    }\n\
    ";

// The limits of a run of these models.
const LIMITS: Limits = Limits {
    stop: Time(100_000),
    deltas: 10_000,
    statements: 1_000_000,
};

// The design of a text. None where the text is refused.
fn design_of(alloc: Global, text: &[u8]) -> Option<Design>
    requires { length text.now ≤ MOST_BYTES }
    ensures sound { IfSome result IsSound }
    ensures few { IfSome result HasFew }
{
    match front(alloc, text) {
        Ok(accepted) => {
            let Accepted { design, .. } = accepted;
            Some(design)
        }
        Err(_) => None,
    }
}

// The board of a design, on which nothing was done.
fn board_for(alloc: Global, design: Design) -> Result<Board, AllocError>
    requires sound { IsSound design }
    requires few { HasFew design }
    ensures { IfOk result IsQuiet }
{
    match Tables::make(alloc, &design) {
        Ok(tables) => board_with(alloc, shared(alloc, design), tables),
        Err(error) => {
            drop(design);
            Err(error)
        }
    }
}

// A design that a board and its job may share.
fn shared(alloc: Global, design: Design) -> Result<Arc<Design>, AllocError>
    ensures { IfOk result (λ made. made.value ≡ design) }
{
    Ok(Arc::new(alloc, design)?)
}

// The board of a design with its tables, on which nothing was done.
fn board_with(
    alloc: Global,
    design: Result<Arc<Design>, AllocError>,
    tables: Tables,
) -> Result<Board, AllocError>
    requires sound { IfOk design (λ made. IsSound made.value) }
    requires tables { IfOk design (λ made. AreTables made.value tables) }
    ensures { IfOk result IsQuiet }
{
    match design {
        Ok(design) => Board::make(alloc, design, tables, LIMITS),
        Err(error) => {
            drop(tables);
            Err(error)
        }
    }
}

// The board of a model, on which nothing was done. None where the text is refused.
fn board_of(alloc: Global, text: &[u8]) -> Result<Option<Board>, AllocError>
    requires { length text.now ≤ MOST_BYTES }
    ensures { IfOk result (λ board. IfSome board IsQuiet) }
{
    match design_of(alloc, text) {
        Some(design) => match board_for(alloc, design) {
            Ok(board) => Ok(Some(board)),
            Err(error) => Err(error),
        },
        None => Ok(None),
    }
}

// Runs a job and hands in what it gave.
fn hand_in<R: Wait>(
    rt: &R,
    alloc: Global,
    yard: &Yard,
    pass: &mut Pass,
    job: Job,
) -> Result<(), AllocError>
    requires own { pass.old.yard ≡ yard.now.table.shared.table_id }
    requires has { Has pass.old (Some job) }
    ensures { OnOk result (Stepped (Commit job.process) None pass.old pass.new) }
{
    let done = run_segment(alloc, job)?;
    match yard.give(rt, pass, done) {
        Ok(()) => Ok(()),
        Err(_) => Err(AllocError),
    }
}

// Takes a job, runs it and hands in what it gave. The answer is its process and its time; None where no job was had.
fn do_one<R: Wait>(
    rt: &R,
    alloc: Global,
    yard: &Yard,
    pass: &mut Pass,
) -> Result<Option<(u32, Time)>, AllocError>
    requires own { pass.old.yard ≡ yard.now.table.shared.table_id }
    requires idle { pass.old.out ≡ None }
    ensures { OnOk result ((pass.new.yard ≡ pass.old.yard) × (pass.new.out ≡ None)) }
{
    match yard.take(rt, pass)? {
        Turn::Job(job) => {
            let of = (job.process, job.stamp.time);
            hand_in(rt, alloc, yard, pass, job)?;
            Ok(Some(of))
        }
        Turn::Over | Turn::Lost => Ok(None),
    }
}

// Does the last activation of the row second-thread-first, and says whether it was that and the run is over then.
fn is_last<R: Wait>(rt: &R, alloc: Global, yard: &Yard, pass: &mut Pass) -> Result<bool, AllocError>
    requires own { pass.old.yard ≡ yard.now.table.shared.table_id }
    requires idle { pass.old.out ≡ None }
{
    let done = do_one(rt, alloc, yard, pass)?;
    let is_over = matches!(yard.take(rt, pass)?, Turn::Over);
    Ok(done == Some((1, Time(5_000))) && is_over)
}

// Has a second pass do a job while the one of the first pass is out, hands that one in, and says whether the jobs were the
// first ones of processes 0 and 1.
fn do_two_together<R: Wait>(
    rt: &R,
    alloc: Global,
    yard: &Yard,
    first: &mut Pass,
    second: &mut Pass,
) -> Result<bool, AllocError>
    requires own { first.old.yard ≡ yard.now.table.shared.table_id }
    requires idle { first.old.out ≡ None }
    requires own_second { second.old.yard ≡ yard.now.table.shared.table_id }
    requires idle_second { second.old.out ≡ None }
    ensures { OnOk result ((first.new.yard ≡ first.old.yard) × (first.new.out ≡ None)) }
{
    let Turn::Job(job) = yard.take(rt, first)? else {
        return Ok(false);
    };
    let is_first = job.process == 0 && job.stamp.time == Time(0);
    let other = do_one(rt, alloc, yard, second);
    hand_in(rt, alloc, yard, first, job)?;
    Ok(is_first && other? == Some((1, Time(0))))
}

#[test]
fn two_jobs_are_out_together(rt: HostRuntime) -> Result<(), Fail> {
    let Some(board) = board_of(rt.alloc(), SECOND_THREAD_FIRST)? else {
        panic!(rt; "the text is refused")
    };
    let (yard, mut passes) = Yard::make(rt.alloc(), board, 2)?;
    let mut second = passes.pop().unwrap();
    let mut first = passes.pop().unwrap();
    assert!(rt; do_two_together(&rt, rt.alloc(), &yard, &mut first, &mut second)?);
    assert!(rt; is_last(&rt, rt.alloc(), &yard, &mut first)?);
    Ok(())
}

// Whether a board is lost, and not over.
fn is_lost_alone(board: Board) -> bool {
    let is_lost_alone = board.is_lost() && !board.is_over();
    drop(board);
    is_lost_alone
}

#[test]
fn an_abandoned_job_loses_the_board(rt: HostRuntime) -> Result<(), Fail> {
    let Some(board) = board_of(rt.alloc(), SECOND_THREAD_FIRST)? else {
        panic!(rt; "the text is refused")
    };
    let (yard, mut passes) = Yard::make(rt.alloc(), board, 1)?;
    let mut first = passes.pop().unwrap();
    let Turn::Job(_) = yard.take(&rt, &mut first)? else {
        panic!(rt; "no job")
    };
    yard.abandon(&rt, &mut first);
    assert!(rt; matches!(yard.take(&rt, &mut first)?, Turn::Lost));
    passes.push(first)?;
    assert!(rt; is_lost_alone(yard.close(passes)));
    Ok(())
}

// Does the first two activations of process 1 of the row variable-ahead, and says whether they were those.
fn go_ahead<R: Wait>(
    rt: &R,
    alloc: Global,
    yard: &Yard,
    pass: &mut Pass,
) -> Result<bool, AllocError>
    requires own { pass.old.yard ≡ yard.now.table.shared.table_id }
    requires idle { pass.old.out ≡ None }
    ensures { OnOk result ((pass.new.yard ≡ pass.old.yard) × (pass.new.out ≡ None)) }
{
    let first = do_one(rt, alloc, yard, pass)?;
    let second = do_one(rt, alloc, yard, pass)?;
    Ok(first == Some((1, Time(0))) && second == Some((1, Time(3_000))))
}

// The second pass goes ahead with process 1 until it needs what process 0 writes at 5 ns; that job is had once the first one
// of process 0, which is out with the first pass, was handed in.
#[test]
fn what_is_given_lets_another_pass_go_on(rt: HostRuntime) -> Result<(), Fail> {
    let Some(board) = board_of(rt.alloc(), VARIABLE_AHEAD)? else {
        panic!(rt; "the text is refused")
    };
    let (yard, mut passes) = Yard::make(rt.alloc(), board, 2)?;
    let mut second = passes.pop().unwrap();
    let mut first = passes.pop().unwrap();
    let Turn::Job(job) = yard.take(&rt, &mut first)? else {
        panic!(rt; "no job for the first pass")
    };
    assert!(rt; job.process == 0);
    assert!(rt; go_ahead(&rt, rt.alloc(), &yard, &mut second)?);
    hand_in(&rt, rt.alloc(), &yard, &mut first, job)?;
    assert!(rt; do_one(&rt, rt.alloc(), &yard, &mut second)? == Some((0, Time(5_000))));
    Ok(())
}
