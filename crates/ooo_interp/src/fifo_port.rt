ghost use Rattle.std.specs.Prelude.{◌≡◌, ◌-◌, ◌≤◌, drop, length, pos, slice_get};

use crate::fifo_values::FifoValues;
use ooo_value::Value;

/// How much of a fifo a process took and filled itself. The values stand elsewhere.
#[derive(Drop)]
pub struct FifoPort {
    channel: u32,
    taken: u32,
    free: u32,
    ghost small: { free ≤ 65536 },
}

impl FifoPort {
    ghost use Rattle.ooo_interp.specs.Ports.{fifo_shown};

    /// The greatest size of a fifo.
    pub const GREATEST_SIZE: u32 = 65_536;

    /// A fifo with so many free slots, of which nothing is taken yet.
    pub fn new(channel: u32, free: u32) -> FifoPort
        requires { free ≤ 65536 }
        ensures channel { result.channel ≡ channel }
        ensures taken { result.taken ≡ 0 }
        ensures free { result.free ≡ free }
    {
        FifoPort {
            channel,
            taken: 0,
            free,
        }
    }

    // The fifo's number.
    pub(crate) fn channel(&self) -> u32
        ensures { result ≡ self.now.channel }
    {
        self.channel
    }

    // The value that is taken next.
    pub(crate) fn first<F: FifoValues>(&self, fifos: &F) -> Option<Value>
        ensures { result ≡ slice_get (fifo_shown (F.values fifos.now) self.now).values 0 }
    {
        fifos.value(self.channel, self.taken)
    }

    // How many values may be taken.
    pub(crate) fn available<F: FifoValues>(&self, fifos: &F) -> i32
        ensures { result ≡ pos (length (fifo_shown (F.values fifos.now) self.now).values) }
    {
        let count = fifos.count(self.channel);
        if self.taken < count {
            (count - self.taken) as i32
        } else {
            0
        }
    }

    // How many values may be put.
    pub(crate) fn free(&self) -> i32
        ensures { result ≡ pos self.now.free }
    {
        self.free as i32
    }

    // Takes a value.
    #[tactic(auto, using(crate::proofs::Drops::drop_one_more))]
    pub(crate) fn take<F: FifoValues>(&mut self, fifos: &F)
        ensures channel { self.new.channel ≡ self.old.channel }
        ensures values { let values = F.values fifos.now self.old.channel in
            drop self.new.taken values ≡ drop 1 (drop self.old.taken values) }
        ensures free { self.new.free ≡ self.old.free }
    {
        if self.taken < fifos.count(self.channel) {
            self.taken += 1;
        }
    }

    // Fills a slot.
    pub(crate) fn put(&mut self)
        ensures channel { self.new.channel ≡ self.old.channel }
        ensures taken { self.new.taken ≡ self.old.taken }
        ensures free { self.new.free ≡ self.old.free - 1 }
    {
        if self.free > 0 {
            self.free -= 1;
        }
    }
}
