ghost use Rattle.std.specs.Prelude.{◌≡◌, slice_set};

use crate::fifo_values::FifoValues;
use crate::job_parts::set_item;
use crate::parts::Lent;
use crate::ports::Ports;
use ooo_code::Cells;
use ooo_value::Value;

/// Parts that stand in lists: the locals, all variables of a design, and a port for each channel that is seen. The values
/// of fifos stand where their owner has them.
#[derive(Drop)]
pub struct Whole<F> {
    pub slots: Vec<Value>,
    pub variables: Vec<Cells>,
    pub ports: Ports,
    pub fifos: F,
}

impl<F: FifoValues> Lent for Whole<F> {
    ghost use Rattle.ooo_interp.specs.Ports.{all_shown};

    ghost sight = { λ w. record {
      slots = w.slots.items;
      variables = w.variables.items;
      seen = all_shown (F.values w.fifos) w.ports;
    } };

    ghost kept = { λ w. tt };

    fn slots(&self) -> &[Value] {
        self.slots.as_slice()
    }

    fn cells(&self, variable: u32) -> &[Value] {
        let x = variable as usize;
        if x < self.variables.len() {
            self.variables[x].as_slice()
        } else {
            &[]
        }
    }

    fn signal(&self, channel: u32) -> (Value, bool) {
        self.ports.signal(channel)
    }

    fn first(&self, channel: u32) -> Option<Value> {
        match self.ports.fifo(channel) {
            Some(fifo) => fifo.first(&self.fifos),
            None => None,
        }
    }

    fn available(&self, channel: u32) -> i32 {
        match self.ports.fifo(channel) {
            Some(fifo) => fifo.available(&self.fifos),
            None => 0,
        }
    }

    fn free(&self, channel: u32) -> i32 {
        match self.ports.fifo(channel) {
            Some(fifo) => fifo.free(),
            None => 0,
        }
    }

    fn set_slot(&mut self, slot: u32, v: Value) {
        set_value(&mut self.slots, slot as usize, v);
    }

    fn set_cell(&mut self, variable: u32, at: usize, v: Value) {
        let x = variable as usize;
        if x < self.variables.len() {
            set_item(&mut self.variables[x], at, v);
        }
    }

    fn take(&mut self, channel: u32) {
        self.ports.take(channel, &self.fifos);
    }

    fn put(&mut self, channel: u32) {
        self.ports.put(channel);
    }
}

// Gives a place of a list a value, where there is that place.
fn set_value(values: &mut Vec<Value>, at: usize, v: Value)
    ensures { values.new.items ≡ slice_set values.old.items at v }
{
    if at < values.len() {
        values[at] = v;
    }
}
