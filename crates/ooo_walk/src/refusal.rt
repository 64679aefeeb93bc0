ghost use Rattle.std.specs.Prelude.{◌≡◌};
ghost use Rattle.ooo_walk.specs.Breaches.{name_of};

use ooo_lexer::Position;
use ooo_value::Name;
use sqlite_items::Items;
use std::alloc::AllocError;
use std::error::Error;
use std::fmt;

/// Why a text can't be elaborated.
#[derive(Clone, Copy, Debug)]
pub enum ElabBreach {
    /// A port that no binding names.
    PortNotBound,
    /// A port that two bindings name.
    PortBoundTwice,
    /// A binding of a port to what it can't be bound to.
    PortKind,
    /// Two processes write one signal, or hold the writing end of one fifo.
    TwoWriters,
    /// Two processes hold the reading end of one fifo.
    TwoReaders,
    /// More than 256 processes.
    TooManyProcesses,
    /// More than 4,096 instances, channels, events and member variables.
    TooManyObjects,
    /// Member variables with more than 1,048,576 elements in all.
    TooManyCells,
    /// A fifo of no value, or of more than 65,536.
    FifoSize,
    /// A constant time of more than `2^62 - 1` ticks.
    TimeTooLarge,
    /// A clock whose period is zero or an odd number of ticks.
    OddClock,
    /// A constant expression that faults, a negative constant time, an array of no element, an `sc_start` of time zero.
    BadConstant,
}

impl ElabBreach {
    /// The breach's name, as refusals write it.
    pub fn name(self) -> &'static str
        ensures { result.now ≡ name_of self }
    {
        match self {
            ElabBreach::PortNotBound => "PortNotBound",
            ElabBreach::PortBoundTwice => "PortBoundTwice",
            ElabBreach::PortKind => "PortKind",
            ElabBreach::TwoWriters => "TwoWriters",
            ElabBreach::TwoReaders => "TwoReaders",
            ElabBreach::TooManyProcesses => "TooManyProcesses",
            ElabBreach::TooManyObjects => "TooManyObjects",
            ElabBreach::TooManyCells => "TooManyCells",
            ElabBreach::FifoSize => "FifoSize",
            ElabBreach::TimeTooLarge => "TimeTooLarge",
            ElabBreach::OddClock => "OddClock",
            ElabBreach::BadConstant => "BadConstant",
        }
    }
}

/// Writes the breach's name.
impl fmt::Display for ElabBreach {
    ghost use Rattle.std.specs.Prelude.{Some};
    ghost use Rattle.ooo_walk.specs.Breaches.{name_of};

    ghost output = { λ breach. Some (name_of breach) };

    fn fmt<W: fmt::Write>(&self, f: &mut fmt::Formatter<W>) -> fmt::Result {
        f.write_str(self.name())
    }
}

impl Error for ElabBreach {}

/// What is refused: why, where, and the full names of what it is about.
#[derive(Drop)]
pub struct Refusal {
    pub what: ElabBreach,
    /// Of a declared name, of a process's name where it is registered, of the first token of a constant expression or of
    /// a binding.
    pub at: Position,
    /// The object's full name; of two writers or readers, those of the two processes behind it.
    pub names: Items<Name>,
}

/// Why a text was not elaborated.
#[derive(Drop)]
pub enum ElabError {
    /// The text is refused.
    Refused(Refusal),
    /// Memory ran out, which says nothing of the text.
    OutOfMemory,
}

impl From<AllocError> for ElabError {
    ghost use Rattle.std.specs.Prelude.{◌≡◌};
    ghost use Rattle.ooo_walk.specs.declared.refusal.ElabError.TheVariants.{OutOfMemory};

    ghost from_gives = { λ _ e. e ≡ OutOfMemory };

    fn from(_error: AllocError) -> ElabError {
        ElabError::OutOfMemory
    }
}
