use crate::stat::BoundStat;
use ooo_time::Time;
use ooo_value::{BoundChannel, BoundEvent, BoundVariable, Kind, Names, ProcessKind};
use sqlite_items::Items;

/// A model with its instances made and its ports bound. Everything is named by its number in its list.
#[derive(Drop)]
pub struct Bound {
    pub processes: Items<BoundProcess>,
    pub functions: Items<BoundFunction>,
    pub variables: Items<BoundVariable>,
    pub channels: Items<BoundChannel>,
    pub events: Items<BoundEvent>,
    /// The time of `sc_start`, where it has one (IEEE 1666-2011, 4.3.4.2).
    pub stop: Option<Time>,
    /// The full names of processes and channels.
    pub names: Names,
}

/// A process of an instance, or a clock's.
#[derive(Drop)]
pub struct BoundProcess {
    pub kind: ProcessKind,
    pub body: Items<BoundStat>,
    /// The events of its static sensitivity, in the order of the text (IEEE 1666-2011, 5.4).
    pub sensitive: Items<u32>,
    /// Whether it is made runnable at initialization (5.2.16).
    pub initialize: bool,
}

/// A function of an instance that a process of this instance reaches by calls.
#[derive(Drop)]
pub struct BoundFunction {
    /// The kind of what it gives; a function of `void` gives nothing.
    pub result: Option<Kind>,
    /// The kinds of its parameters, which are its first slots.
    pub params: Items<Kind>,
    pub body: Items<BoundStat>,
}
