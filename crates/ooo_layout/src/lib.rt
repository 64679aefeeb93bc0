//! What is known of a bound model before any code is made of it, as `ooo_shapes` defines it: the kinds of its expressions
//! (`kinds`), which slots the locals of a body need (`widths`), how many nodes a statement has and how deep calls are nested in
//! it (`extents`), and whether more than so many items count against the statement limit (`sizes`). What is asked of the calls
//! of a function is found once for each function, that of called functions first (`order`).
#![tactic(auto)]

pub mod blocks;
pub mod extents;
pub mod kinds;
pub mod numbers;
mod order;
pub mod scene;
pub mod sizes;
pub mod widths;
