ghost use Rattle.std.specs.Prelude.{◌≡◌};
ghost use Rattle.ooo_interp.specs.Ports.{channel_of, signal_shown};

use crate::fifo_port::FifoPort;
use ooo_value::Value;

/// What a process sees of a channel, and what it did to that itself.
#[derive(Drop)]
pub enum Port {
    /// A signal's number and value, and whether it changed in the delta cycle before.
    Signal(u32, Value, bool),
    Fifo(FifoPort),
}

impl Port {
    /// The number of its channel.
    pub fn channel(&self) -> u32
        ensures { result ≡ channel_of self.now }
    {
        match self {
            Port::Signal(channel, _, _) => *channel,
            Port::Fifo(fifo) => fifo.channel(),
        }
    }
    // The value of its signal, and whether that changed. Of a fifo it is 0.
    #[inline(always)]
    pub(crate) fn signal(&self) -> (Value, bool)
        ensures value { result.0 ≡ (signal_shown self.now).value }
        ensures changed { result.1 ≡ (signal_shown self.now).changed }
    {
        match self {
            Port::Signal(_, v, changed) => (*v, *changed),
            Port::Fifo(_) => (Value::Int(0), false),
        }
    }
}
