//! Laws of walks and of calls. Each function does nothing, and its contract is the law.

ghost use Rattle.ooo_sound_walk.specs.Clocks.{ClocksAreRight};
ghost use Rattle.ooo_sound_walk.specs.Names.{NamesAreMeant};
ghost use Rattle.ooo_sound_walk.specs.Parts.{WalksAreRight};
ghost use Rattle.ooo_sound_walk.specs.Reached.{ReachedAreClosed, ReachedAreLeast};

/// Each variable has a cell at least and a start value of its kind, each fifo a size from 1 to 65,536, and each event a
/// channel that has such an event; each channel's first event is there, with all others of the channel behind it.
pub fn parts()
    ensures { WalksAreRight }
{}

/// Where nothing is refused, each name of each instance means what its declaration says: a variable, a channel of the kind
/// and the type that are written, a port of its sort, an event, or an instance of the module.
pub fn names()
    ensures { NamesAreMeant }
{}

/// The process of a clock writes a signal of bool, and half its period is at most the greatest time.
pub fn clocks()
    ensures { ClocksAreRight }
{}

/// What is reached by calls has each function that these call, and each function that one of it calls.
pub fn closed()
    ensures { ReachedAreClosed }
{}

/// What is reached by calls are functions, and no others than each list has that is closed so.
pub fn least()
    ensures { ReachedAreLeast }
{}
