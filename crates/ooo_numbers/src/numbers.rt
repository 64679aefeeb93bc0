use ooo_constants::Meaning;

/// What the names of a body denote in one instance.
#[derive(Clone, Copy)]
pub struct Numbers<'a> {
    /// What the names of the file mean.
    pub file: &'a [Meaning],
    /// What the names of the instance's module mean in it.
    pub members: &'a [Meaning],
    /// The channel that each port of the model is bound to in the end.
    pub ports: &'a [Option<u32>],
    /// The number of each channel's first event.
    pub events: &'a [u32],
}
