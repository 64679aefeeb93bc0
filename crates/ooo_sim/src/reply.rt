ghost use Rattle.std.specs.Prelude.{◌≡◌, ◌≢◌, None, Some, IfErr, IfOk, OnOk};
ghost use Rattle.ooo_front.specs.declared.answer.Refused.TheVariants as front;
ghost use Rattle.ooo_sim.specs.Laws.{IsReady};
ghost use Rattle.ooo_sim.specs.Replies.{IsAcceptedAs, IsRefusedAs, IsReplyOf, IsTextReply, Lists, counts_of, limits_of, refused, reply, stop_of};
ghost use Rattle.ooo_sim.specs.Requests.{IsInRange};
ghost use Rattle.ooo_sim.specs.declared.outcome.Refusal.TheVariants as refusal;
ghost use Rattle.ooo_sim.specs.declared.outcome.Verdict.TheVariants as verdict;
ghost use Rattle.ooo_sim.specs.declared.request.Wanted.TheVariants as wanted;
ghost use Rattle.ooo_words.specs.Limits.{AreWithinLimits};

use crate::counts::counts_line;
use crate::law::accepted_are_ready;
use crate::lines::refusal_line;
use crate::outcome::{Refusal, Verdict};
use crate::request::{Told, Wanted};
use crate::running::run_plainly;
use ooo_board::Board;
use ooo_bound::Bound;
use ooo_code::Limits;
use ooo_front::{Accepted, front};
use ooo_lexer::MOST_BYTES;
use ooo_shapes::law::sound_design;
use ooo_tables::{Tables, text};
use ooo_time::Time;
use ooo_words::RunOptions;
use sqlite_items::{Boxed, Items};
use std::alloc::{AllocError, Global};

/// What a call would write, and what that comes to.
#[derive(Drop)]
pub struct Reply {
    pub verdict: Verdict,
    pub text: Items<u8>,
}

impl Reply {
    /// A reply of these bytes.
    pub(crate) fn new(verdict: Verdict, text: Vec<u8>) -> Reply
        ensures { result ≡ reply verdict text.items }
    {
        Reply {
            verdict,
            text: Items::from_vec(text),
        }
    }
}

/// A reply, and the closed board of the run that it tells of, where workers drove it.
#[derive(Drop)]
pub(crate) struct Answer {
    pub reply: Reply,
    pub board: Option<Boxed<Board>>,
}

impl Answer {
    /// The answer of a call that tells of the run of this board.
    pub(crate) fn with_board(
        alloc: Global,
        reply: Reply,
        board: Board,
    ) -> Result<Answer, AllocError>
        ensures reply { IfOk result (λ a. a.reply ≡ reply) }
        ensures board { IfOk result (λ a. a.board ≡ Some board) }
    {
        let board = keeping!(reply; Boxed::new(alloc, board));
        Ok(Answer {
            reply,
            board: Some(board),
        })
    }

    /// The answer of a call that has no board.
    pub(crate) fn without_board(reply: Reply) -> Answer
        ensures reply { result.reply ≡ reply }
        ensures board { result.board ≡ None }
    {
        Answer { reply, board: None }
    }
}

/// The reply that refuses what is asked for; where it is want of memory, the answer is that.
pub(crate) fn refuse(alloc: Global, why: Refusal) -> Result<Reply, AllocError>
    ensures reply { IfOk result (λ r. r ≡ refused why) }
    ensures refused { OnOk result (why ≢ refusal.Text front.OutOfMemory) }
{
    let line = keeping!(why; refusal_line(alloc, &why));
    Ok(Reply::new(Verdict::Refused(why), line))
}

/// What a text is accepted as, or why it is refused, which may be want of memory.
pub(crate) fn accept(alloc: Global, text: &[u8]) -> Result<Accepted, Refusal>
    ensures accepted { IfOk result (IsAcceptedAs text.now) }
    ensures ready { IfOk result IsReady }
    ensures refused { IfErr result (IsRefusedAs text.now) }
{
    if text.len() > MOST_BYTES {
        return Err(Refusal::TooLong);
    }
    accepted_are_ready();
    match front(alloc, text) {
        Ok(accepted) => Ok(accepted),
        Err(why) => Err(Refusal::Text(why)),
    }
}

/// The reply to what is asked of a text.
pub(crate) fn reply_to(alloc: Global, text: &[u8], wanted: Wanted) -> Result<Reply, AllocError>
    requires { IsInRange wanted }
    ensures { IfOk result (IsTextReply wanted text.now) }
{
    match accept(alloc, text) {
        Ok(accepted) => {
            let reply = reply_to_accepted(alloc, &accepted, wanted);
            drop(accepted);
            reply
        }
        Err(why) => refuse(alloc, why),
    }
}

// The reply to what is asked of a text that the front accepts.
fn reply_to_accepted(
    alloc: Global,
    accepted: &Accepted,
    wanted: Wanted,
) -> Result<Reply, AllocError>
    requires ready { IsReady accepted.now }
    requires range { IsInRange wanted }
    ensures { IfOk result (IsReplyOf wanted accepted.now) }
{
    match wanted {
        Wanted::Run(told, options) => told_plainly(alloc, accepted, told, options),
        Wanted::Counts => counts(alloc, accepted),
        Wanted::Tables => tables(alloc, accepted),
    }
}

// The reply with the numbers of processes and segments.
fn counts(alloc: Global, accepted: &Accepted) -> Result<Reply, AllocError>
    requires { IsReady accepted.now }
    ensures { IfOk result (λ r. r ≡ reply verdict.Done (counts_of accepted.now)) }
{
    let line = counts_line(alloc, accepted.bound.processes.len(), accepted.segments)?;
    Ok(Reply::new(Verdict::Done, line))
}

// The reply with the tables.
fn tables(alloc: Global, accepted: &Accepted) -> Result<Reply, AllocError>
    requires { IsReady accepted.now }
    ensures { IfOk result (Lists accepted.now) }
{
    sound_design();
    let tables = Tables::make(alloc, &accepted.design)?;
    let names = accepted.bound.names.processes.as_slice();
    let lines = keeping!(tables; text(alloc, &accepted.design, names, &tables));
    drop(tables);
    Ok(Reply::new(Verdict::Done, lines))
}

// The reply that tells of the run by the sequential scheduler, unless nothing stops it.
fn told_plainly(
    alloc: Global,
    accepted: &Accepted,
    told: Told,
    options: RunOptions,
) -> Result<Reply, AllocError>
    requires ready { IsReady accepted.now }
    requires range { AreWithinLimits options }
    ensures { IfOk result (IsReplyOf (wanted.Run told options) accepted.now) }
{
    match stop_of(options.stop, &accepted.bound) {
        Some(stop) => run_plainly(alloc, accepted, told, limits_of(options, stop)),
        None => refuse(alloc, Refusal::StopMissing),
    }
}

/// The stop time that is given, else the model's own.
pub(crate) fn stop_of(given: Option<Time>, model: &Bound) -> Option<Time>
    ensures { result ≡ stop_of given model.now }
{
    match given {
        Some(stop) => Some(stop),
        None => model.stop,
    }
}

/// The limits of a run that stops at this time.
pub(crate) fn limits_of(options: RunOptions, stop: Time) -> Limits
    ensures { result ≡ limits_of options stop }
{
    Limits {
        stop,
        deltas: options.deltas,
        statements: options.statements,
    }
}
