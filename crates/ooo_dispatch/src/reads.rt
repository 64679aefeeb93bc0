use ooo_code::{Cells, Seen};
use ooo_value::Value;
use sqlite_items::Items;

/// What an activation reads: its locals, the variables that its segment reads or writes, and what is seen of the channels
/// that it touches.
#[derive(Drop)]
pub struct Reads {
    pub slots: Items<Value>,
    /// All variables in order, those that the segment doesn't use without cells.
    pub variables: Items<Cells>,
    pub seen: Items<Seen>,
}
