use crate::extents::Outline;
use ooo_bound::Bound;
use sqlite_items::Items;

/// A model, and what is known of the calls of its functions, by their numbers.
#[derive(Clone, Copy)]
pub struct Known<'a> {
    /// The model.
    pub model: &'a Bound,
    /// What is known of the calls of each function; of one of which nothing is, none.
    pub outlines: &'a [Option<Outline>],
}

/// What code is made of: the model, and the static events of the process whose code it is.
#[derive(Clone, Copy)]
pub struct Scene<'a> {
    /// The model, and what is known of its calls.
    pub known: Known<'a>,
    /// The numbers of the static events of the process.
    pub sensitive: &'a Items<u32>,
}
