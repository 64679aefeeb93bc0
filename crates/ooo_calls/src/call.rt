/// A call: the number of the function in which it stands, and of the function that it calls.
#[derive(Clone, Copy)]
pub struct Call {
    /// The function in which the call stands.
    pub from: usize,
    /// The function that is called.
    pub to: usize,
}
