ghost use Rattle.std.specs.Prelude.{◌≡◌};
ghost use Rattle.ooo_access.specs.Told.{number_of};

use ooo_time::Time;

// A thing that a node touches, by its number.
#[derive(Clone, Copy)]
pub(crate) enum Told {
    Reads(u32),
    Writes(u32),
    ReadsSignal(u32),
    WritesSignal(u32),
    HoldsReading(u32),
    HoldsWriting(u32),
    Notifies(u32, Option<Time>),
    Cancels(u32),
    // The events of this signal are notified.
    Changes(u32),
    // The event that this fifo's read values notify.
    DataRead(u32),
    // The event that this fifo's written values notify.
    DataWritten(u32),
}

// What is told by one number: the parts of an access, and of which channels the events are notified.
#[derive(Clone, Copy)]
pub(crate) enum Part {
    Read,
    Written,
    SignalsRead,
    SignalsWritten,
    Takes,
    Puts,
    Cancelled,
    Changed,
    Taken,
    Given,
}

impl Part {
    // The number that is told, if it is of this part.
    pub(crate) fn number(self, told: &Told) -> Option<u32>
        ensures { result ≡ number_of self told.now }
    {
        match (self, told) {
            (Part::Read, Told::Reads(n)) => Some(*n),
            (Part::Written, Told::Writes(n)) => Some(*n),
            (Part::SignalsRead, Told::ReadsSignal(n)) => Some(*n),
            (Part::SignalsWritten, Told::WritesSignal(n)) => Some(*n),
            (Part::Takes, Told::HoldsReading(n)) => Some(*n),
            (Part::Puts, Told::HoldsWriting(n)) => Some(*n),
            (Part::Cancelled, Told::Cancels(n)) => Some(*n),
            (Part::Changed, Told::Changes(n)) => Some(*n),
            (Part::Taken, Told::DataRead(n)) => Some(*n),
            (Part::Given, Told::DataWritten(n)) => Some(*n),
            _ => None,
        }
    }
}
