ghost use Rattle.std.specs.Prelude.{◌≡◌, ◌≤◌, ℕ, List, length, slice_get};
ghost use Rattle.ooo_value.specs.declared.values.Value.{Value as ValueSpec};

use ooo_value::Value;

/// Where the values of fifos stand that an activation may take. Ports count how many of them it took.
pub trait FifoValues {
    // Those of each fifo, by its number, as they were before the activation took any.
    ghost values: { Self → ℕ → List ValueSpec };

    /// How many values of a fifo there are.
    fn count(&self, channel: u32) -> u32
        ensures count { result ≡ length (Self.values self.now channel) }
        ensures few { result ≤ 65536 };

    /// A value of a fifo by its number, counted from the one that is taken first.
    fn value(&self, channel: u32, n: u32) -> Option<Value>
        ensures { result ≡ slice_get (Self.values self.now channel) n };
}
