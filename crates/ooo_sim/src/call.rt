ghost use Rattle.std.specs.Prelude.{◌≡◌, ◌≢◌, ◌+◌, [], ℕ, List, Option, Some, false, true, IfOk, IfSome, IsErrOf, IsNone, IsOk};
ghost use Rattle.ooo_outside.specs.Causes.{Rose};
ghost use Rattle.ooo_words.specs.Limits.{AreWithinLimits, IsBetween, most_items, most_stages, most_workers};
ghost use Rattle.ooo_words.specs.Reading.{reading};
ghost use Rattle.ooo_sim.specs.Boards.{IsAnswerFrom, IsBoardOf};
ghost use Rattle.ooo_sim.specs.Calls.{TellsWhy, Took, Wrote};
ghost use Rattle.ooo_sim.specs.Pumps.{GaveFirst};
ghost use Rattle.ooo_sim.specs.Requests.{AsksInRange, IsInRange, bytes_wanted, needs_workers, request_of, takes_workers, words_of};
ghost use Rattle.ooo_sim.specs.declared.outcome.Failure.TheVariants as failure;
ghost use Rattle.ooo_sim.specs.declared.outcome.Outcome.TheVariants as outcome;
ghost use Rattle.ooo_sim.specs.declared.request.Request.{Request as RequestSpec};
ghost use Rattle.ooo_sim.specs.declared.request.Request.TheVariants as request;

use crate::law::one_reply;
use crate::outcome::{Failure, Outcome, Refusal};
use crate::pump::{ReadError, read_text, write_text};
use crate::reply::{Answer, Reply, refuse, reply_to};
use crate::request::{Request, Told, Wanted, default_options, read_request};
use crate::workers::run_text;
use ooo_board::Board;
use ooo_gen::text;
use ooo_lexer::MOST_BYTES;
use ooo_outside::{Failed, Gate, Sink, Source};
use ooo_words::RunOptions;
use sqlite_items::Boxed;
use std::alloc::{AllocError, Global};
use std::sync::Wait;
use std::thread::Threads;

/// Does what the words ask for, where their command doesn't take the option workers, and answers how that ended. Of a command
/// that takes it (`run`, `bench`) nothing is done, and the answer is None.
///
/// The commands `plain`, `check` and `tables` read a model text from the source. `plain` runs it by the sequential
/// scheduler up to its stop time, or to that of `--stop`, within the limits of `--deltas` and `--statements`, and writes
/// its report to the sink. `check` writes how many processes and segments the text's model has, and `tables` the tables of
/// its segments. A text that is refused gives one line, and so do words that are refused, or that ask for the run of a text
/// that nothing stops.
pub fn alone<So: Source, Si: Sink>(
    alloc: Global,
    words: &[String],
    source: &mut So,
    sink: &mut Si,
) -> Option<Outcome>
    // None exactly where the command takes the option workers, unless memory runs out as the words are read.
    ensures none { IsNone result → (takes_workers (reading (words_of words.now)) ≡ true)
        × (source.new ≡ source.old) × (sink.new ≡ sink.old) }
    ensures some { takes_workers (reading (words_of words.now)) ≡ true →
        IfSome result (λ o. o ≡ outcome.Failed failure.OutOfMemory) }
    ensures written { IfSome result (λ o.
        Wrote (request_of (words_of words.now)) (So.rest source.old) o
        (Si.held sink.old) (Si.held sink.new)) }
    ensures told { IfSome result (λ o. TellsWhy o (Si.held sink.old) (Si.held sink.new)) }
    ensures taken { IfSome result (λ o.
        Took So.rest (request_of (words_of words.now)) o source.old source.new) }
    ensures source_fault { IfSome result (λ o. o ≡ outcome.Failed failure.Source →
        Rose (So.faults source.old) (So.faults source.new) × (sink.new ≡ sink.old)) }
    ensures sink_fault { IfSome result (λ o. o ≡ outcome.Failed failure.Sink →
        Rose (Si.faults sink.old) (Si.faults sink.new)) }
{
    let Ok(request) = read_request(alloc, words) else {
        return Some(Outcome::Failed(Failure::OutOfMemory));
    };
    match answer_alone(alloc, request, source) {
        Some(answer) => {
            let (outcome, board) = tell(sink, answer);
            drop(board);
            Some(outcome)
        }
        None => None,
    }
}

/// Does what the words ask for, and answers how that ended, as [`alone`] does. `run` gives the report that `plain` gives: as
/// many workers as `--workers` says, each on a thread of its own, drive the board of the run. The second part of the answer
/// is then that board at its end, where a run is reported. `bench` reads nothing: it generates a text by `--stages`, `--items`
/// and `--seed`, runs that in the same way, and writes its summary. Each worker passes the gate between taking a job and
/// running it.
pub fn simulate<So: Source, Si: Sink, G: Gate>(
    rt: &(impl Threads + Wait + Sync),
    alloc: Global,
    words: &[String],
    source: &mut So,
    sink: &mut Si,
    gate: &G,
) -> (Outcome, Option<Board>)
    ensures written { let asked = request_of (words_of words.now) in
        (wrote : Wrote asked (So.rest source.old) result.0 (Si.held sink.old) (Si.held sink.new))
        × IsBoardOf asked wrote.read result.0 result.1 }
    ensures told { TellsWhy result.0 (Si.held sink.old) (Si.held sink.new) }
    ensures taken { Took So.rest (request_of (words_of words.now)) result.0 source.old source.new }
    ensures source_fault { result.0 ≡ outcome.Failed failure.Source →
        Rose (So.faults source.old) (So.faults source.new) × (sink.new ≡ sink.old) }
    ensures sink_fault { result.0 ≡ outcome.Failed failure.Sink →
        Rose (Si.faults sink.old) (Si.faults sink.new) }
{
    let Ok(request) = read_request(alloc, words) else {
        return (Outcome::Failed(Failure::OutOfMemory), None);
    };
    let answer = answered(rt, alloc, request, source, gate);
    tell(sink, answer)
}

// Writes an answer, and says how the call ended, with the board where all of the answer is written.
fn tell<Si: Sink>(sink: &mut Si, answer: Result<Answer, ReadError>) -> (Outcome, Option<Board>)
    ensures written { (asked : RequestSpec) (rest : Option (List ℕ)) →
        IfOk answer (IsAnswerFrom asked rest) →
        (wrote : Wrote asked rest result.0 (Si.held sink.old) (Si.held sink.new))
        × IsBoardOf asked wrote.read result.0 result.1 }
    ensures told { (asked : RequestSpec) (rest : Option (List ℕ)) →
        IfOk answer (IsAnswerFrom asked rest) →
        TellsWhy result.0 (Si.held sink.old) (Si.held sink.new) }
    ensures answered { result.0 ≢ outcome.Failed failure.Source →
        result.0 ≢ outcome.Failed failure.OutOfMemory → IsOk answer }
    ensures unread { result.0 ≡ outcome.Failed failure.Source →
        IsErrOf answer ReadError.Failed × (sink.new ≡ sink.old) }
    ensures sink_fault { result.0 ≡ outcome.Failed failure.Sink →
        Rose (Si.faults sink.old) (Si.faults sink.new) }
{
    match answer {
        Err(ReadError::Failed) => (Outcome::Failed(Failure::Source), None),
        Err(ReadError::OutOfMemory) => (Outcome::Failed(Failure::OutOfMemory), None),
        Ok(answer) => {
            one_reply();
            match write_text(sink, answer.reply.text.as_slice()) {
                Ok(()) => replied(answer),
                Err(Failed) => {
                    drop(answer);
                    (Outcome::Failed(Failure::Sink), None)
                }
            }
        }
    }
}

// How a call ended that wrote all of this answer, and its board.
fn replied(answer: Answer) -> (Outcome, Option<Board>)
    ensures outcome { result.0 ≡ outcome.Replied answer.reply.verdict }
    ensures board { result.1 ≡ answer.board }
{
    let Answer { reply, board } = answer;
    let Reply { verdict, text } = reply;
    drop(text);
    (Outcome::Replied(verdict), unboxed(board))
}

// A board of an answer, off the heap.
fn unboxed(board: Option<Boxed<Board>>) -> Option<Board>
    ensures { result ≡ board }
{
    Some(board?.into_inner())
}

// The answer to a request that takes no workers, from the text that a source gives; None to any other.
fn answer_alone<So: Source>(
    alloc: Global,
    request: Request,
    source: &mut So,
) -> Option<Result<Answer, ReadError>>
    requires { AsksInRange request }
    ensures none { IsNone result → (needs_workers request ≡ true) × (source.new ≡ source.old) }
    ensures some { IfSome result (λ _. needs_workers request ≡ false) }
    ensures answer { IfSome result (λ r. IfOk r (IsAnswerFrom request (So.rest source.old))) }
    ensures given { IfSome result (λ r. IfOk r (λ _. GaveFirst (bytes_wanted request)
        (So.rest source.old) (So.rest source.new))) }
    ensures untouched { bytes_wanted request ≡ 0 → source.new ≡ source.old }
    ensures failed { IfSome result (λ r. IsErrOf r ReadError.Failed
        → Rose (So.faults source.old) (So.faults source.new)) }
{
    match request {
        Request::OfText(wanted) => Some(of_text(alloc, source, wanted)),
        Request::Run { .. } | Request::Bench { .. } => None,
        Request::Refused(why) => Some(refusal(alloc, why)),
    }
}

// The answer to a request, from the text that a source gives.
fn answered<So: Source, G: Gate, R: Threads + Wait + Sync>(
    rt: &R,
    alloc: Global,
    request: Request,
    source: &mut So,
    gate: &G,
) -> Result<Answer, ReadError>
    requires { AsksInRange request }
    ensures answer { IfOk result (IsAnswerFrom request (So.rest source.old)) }
    ensures given { IfOk result (λ _. GaveFirst (bytes_wanted request)
        (So.rest source.old) (So.rest source.new)) }
    ensures untouched { bytes_wanted request ≡ 0 → source.new ≡ source.old }
    ensures failed { IsErrOf result ReadError.Failed
        → Rose (So.faults source.old) (So.faults source.new) }
{
    match request {
        Request::OfText(wanted) => of_text(alloc, source, wanted),
        Request::Run { options, workers } => by_workers(rt, alloc, source, options, workers, gate),
        Request::Bench {
            stages,
            items,
            seed,
            workers,
        } => generated(rt, alloc, stages, items, seed, workers, gate),
        Request::Refused(why) => refusal(alloc, why),
    }
}

// The answer to what is asked of the text that a source gives.
fn of_text<So: Source>(alloc: Global, source: &mut So, wanted: Wanted) -> Result<Answer, ReadError>
    requires { IsInRange wanted }
    ensures answer { IfOk result (IsAnswerFrom (request.OfText wanted) (So.rest source.old)) }
    ensures given { IfOk result (λ _.
        GaveFirst (MOST_BYTES + 1) (So.rest source.old) (So.rest source.new)) }
    ensures failed { IsErrOf result ReadError.Failed
        → Rose (So.faults source.old) (So.faults source.new) }
{
    let text = read_text(alloc, source, MOST_BYTES + 1)?;
    Ok(Answer::without_board(reply_to(alloc, &text, wanted)?))
}

// The answer to the request of a run by workers of the text that a source gives.
fn by_workers<So: Source, G: Gate, R: Threads + Wait + Sync>(
    rt: &R,
    alloc: Global,
    source: &mut So,
    options: RunOptions,
    workers: u32,
    gate: &G,
) -> Result<Answer, ReadError>
    requires options { AreWithinLimits options }
    requires workers { IsBetween 1 most_workers workers }
    ensures answer { IfOk result (IsAnswerFrom (request.Run options workers) (So.rest source.old)) }
    ensures given { IfOk result (λ _.
        GaveFirst (MOST_BYTES + 1) (So.rest source.old) (So.rest source.new)) }
    ensures failed { IsErrOf result ReadError.Failed
        → Rose (So.faults source.old) (So.faults source.new) }
{
    let text = read_text(alloc, source, MOST_BYTES + 1)?;
    let told = Told::Report;
    Ok(run_text(rt, alloc, &text, told, options, workers, gate)?)
}

// The answer to the request of the summary of a generated text's run.
fn generated<G: Gate, R: Threads + Wait + Sync>(
    rt: &R,
    alloc: Global,
    stages: u32,
    items: u32,
    seed: u32,
    workers: u32,
    gate: &G,
) -> Result<Answer, ReadError>
    requires stages { IsBetween 1 most_stages stages }
    requires items { IsBetween 1 most_items items }
    requires workers { IsBetween 1 most_workers workers }
    ensures answer { (rest : Option (List ℕ)) →
        IfOk result (IsAnswerFrom (request.Bench stages items seed workers) rest) }
    ensures memory { ¬ IsErrOf result ReadError.Failed }
{
    let text = text(alloc, stages, items, seed)?;
    let told = Told::Summary;
    Ok(run_text(rt, alloc, &text, told, default_options(), workers, gate)?)
}

// The answer to what is refused.
fn refusal(alloc: Global, why: Refusal) -> Result<Answer, ReadError>
    ensures answer { (rest : Option (List ℕ)) →
        IfOk result (IsAnswerFrom (request.Refused why) rest) }
    ensures memory { ¬ IsErrOf result ReadError.Failed }
{
    Ok(Answer::without_board(refuse(alloc, why)?))
}
