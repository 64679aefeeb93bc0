ghost use Rattle.std.specs.Prelude.{◌≡◌, length, pos, slice_get};
ghost use Rattle.ooo_code.specs.Expressions.{Sight, cells_of, fifo_seen, signal_seen};
ghost use Rattle.ooo_interp.specs.Lending.{after_cell, after_put, after_slot, after_take};

use ooo_value::Value;

/// What an activation is lent: the locals of its process, variables, and what the process sees of channels, each of
/// them by its number. What isn't there has no elements, the value 0 and no room, and a change of it changes nothing.
pub trait Lent {
    // What an expression reads of them.
    ghost sight: { Self → Sight };
    // What stays as it is, whatever an activation does.
    ghost Kept: { Type 0 } = { Unit {0} };

    ghost kept: { Self → Self.Kept };

    /// The locals.
    fn slots(&self) -> &[Value]
        ensures { result.now ≡ (Self.sight self.now).slots };

    /// The elements of a variable; a scalar has one.
    fn cells(&self, variable: u32) -> &[Value]
        ensures { result.now ≡ cells_of (Self.sight self.now).variables variable };

    /// The value of a signal, and whether it changed in the delta cycle before.
    fn signal(&self, channel: u32) -> (Value, bool)
        ensures value { result.0 ≡ (signal_seen (Self.sight self.now).seen channel).value }
        ensures changed { result.1 ≡ (signal_seen (Self.sight self.now).seen channel).changed };

    /// The value of a fifo that is taken next.
    fn first(&self, channel: u32) -> Option<Value>
        ensures { result ≡ slice_get (fifo_seen (Self.sight self.now).seen channel).values 0 };

    /// How many values of a fifo may be taken.
    fn available(&self, channel: u32) -> i32
        ensures { result ≡ pos (length (fifo_seen (Self.sight self.now).seen channel).values) };

    /// How many values may be put into a fifo.
    fn free(&self, channel: u32) -> i32
        ensures { result ≡ pos (fifo_seen (Self.sight self.now).seen channel).free };

    /// Gives a local a value.
    fn set_slot(&mut self, slot: u32, v: Value)
        ensures sight { Self.sight self.new ≡ after_slot (Self.sight self.old) slot v }
        ensures kept { Self.kept self.new ≡ Self.kept self.old };

    /// Gives an element of a variable a value.
    fn set_cell(&mut self, variable: u32, at: usize, v: Value)
        ensures sight { Self.sight self.new ≡ after_cell (Self.sight self.old) variable at v }
        ensures kept { Self.kept self.new ≡ Self.kept self.old };

    /// Takes the first value of a fifo.
    fn take(&mut self, channel: u32)
        ensures sight { Self.sight self.new ≡ after_take (Self.sight self.old) channel }
        ensures kept { Self.kept self.new ≡ Self.kept self.old };

    /// Fills a slot of a fifo.
    fn put(&mut self, channel: u32)
        ensures sight { Self.sight self.new ≡ after_put (Self.sight self.old) channel }
        ensures kept { Self.kept self.new ≡ Self.kept self.old };
}
