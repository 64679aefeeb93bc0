ghost use Rattle.std.specs.Prelude.{◌≡◌};
ghost use Rattle.ooo_sim.specs.Outcomes.{failure_number, number_of, refusal_number, verdict_number};

use ooo_front::Refused;
use ooo_words::WordsError;

/// Why a call refuses what it is asked for.
#[derive(Drop)]
pub enum Refusal {
    /// The words have a breach.
    Words(WordsError),
    /// The source has more bytes than a text may have.
    TooLong,
    /// A layer of the front refuses the text.
    Text(Refused),
    /// A run is asked for, and neither the words nor the text say when it stops.
    StopMissing,
}

impl Refusal {
    /// The number with which the program ends.
    pub fn number(&self) -> u8
        ensures { result ≡ refusal_number self.now }
    {
        match self {
            Refusal::Words(_) | Refusal::StopMissing => 2,
            Refusal::Text(_) => 3,
            Refusal::TooLong => 8,
        }
    }
}

/// What a reply comes to.
#[derive(Drop)]
pub enum Verdict {
    /// The run ended by its stop time, by idleness or by `sc_stop`, or what is asked of the text without a run is told.
    Done,
    /// The run ended by a run fault.
    Faulted,
    /// The run reached a limit of delta cycles or of statements.
    LimitReached,
    /// Nothing ran, since what is asked for is refused.
    Refused(Refusal),
}

impl Verdict {
    /// The number with which the program ends.
    pub fn number(&self) -> u8
        ensures { result ≡ verdict_number self.now }
    {
        match self {
            Verdict::Done => 0,
            Verdict::Faulted => 1,
            Verdict::LimitReached => 7,
            Verdict::Refused(why) => why.number(),
        }
    }
}

/// What kept a call from replying, or from writing its whole reply.
#[derive(Clone, Copy)]
pub enum Failure {
    /// The source failed.
    Source,
    /// The sink failed.
    Sink,
    /// Memory ran out.
    OutOfMemory,
}

impl Failure {
    /// The number with which the program ends.
    pub fn number(self) -> u8
        ensures { result ≡ failure_number self }
    {
        match self {
            Failure::Source => 4,
            Failure::Sink => 5,
            Failure::OutOfMemory => 6,
        }
    }
}

/// How a call ended: its reply is written whole, or it failed.
#[derive(Drop)]
pub enum Outcome {
    /// The reply is written; this is what it comes to.
    Replied(Verdict),
    /// Nothing is written, or a part of the reply.
    Failed(Failure),
}

impl Outcome {
    /// The number with which the program ends: the status of the call.
    pub fn number(&self) -> u8
        ensures { result ≡ number_of self.now }
    {
        match self {
            Outcome::Replied(verdict) => verdict.number(),
            Outcome::Failed(failure) => failure.number(),
        }
    }
}
