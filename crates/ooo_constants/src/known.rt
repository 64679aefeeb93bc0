use crate::meaning::Meaning;
use ooo_value::Value;

/// What the names that a constant expression may use mean, each by its number.
#[derive(Clone, Copy)]
pub struct Known<'a> {
    /// The names of the file.
    pub file: &'a [Meaning],
    /// The names of the module, where its static members alone are known.
    pub statics: &'a [Meaning],
    /// The names of the module, or of `sc_main`, that are known so far.
    pub members: &'a [Meaning],
    /// The parameters of the constructor behind the module's name.
    pub parameters: &'a [Value],
}
