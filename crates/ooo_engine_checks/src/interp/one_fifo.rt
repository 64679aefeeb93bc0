ghost use Rattle.std.specs.Prelude.{◌≤◌, length};

use ooo_interp::FifoValues;
use ooo_value::Value;
use std::alloc::Global;

/// The values of one fifo. No other fifo has any.
#[derive(Drop)]
pub struct OneFifo {
    pub channel: u32,
    pub values: Vec<Value>,
    ghost few: { length values.items ≤ 65536 },
}

impl OneFifo {
    /// No values.
    pub fn new(alloc: Global) -> OneFifo {
        OneFifo {
            channel: 0,
            values: Vec::new(alloc),
        }
    }
}

impl FifoValues for OneFifo {
    ghost use Rattle.std.specs.Prelude.{◌==◌, [], if◌then◌else◌};

    ghost values = { λ f c. if c == f.channel then f.values.items else [] };

    fn count(&self, channel: u32) -> u32 {
        if channel == self.channel {
            self.values.len() as u32
        } else {
            0
        }
    }

    fn value(&self, channel: u32, n: u32) -> Option<Value> {
        if channel == self.channel {
            self.values.get(n as usize).copied()
        } else {
            None
        }
    }
}
