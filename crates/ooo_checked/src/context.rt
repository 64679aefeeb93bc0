use ooo_value::Kind;

/// Where a statement stands.
#[derive(Clone, Copy)]
pub struct Context {
    /// What its function gives; a function of `void` gives nothing.
    pub result: Option<Kind>,
    /// How many names are known outside its function.
    pub outside: usize,
    /// Whether it stands in a loop.
    pub in_loop: bool,
}
