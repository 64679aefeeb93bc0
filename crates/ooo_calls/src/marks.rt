ghost use Rattle.std.specs.Prelude.{◌≡◌, false, slice_index_or};

use sqlite_items::at;

/// Whether a function is marked.
pub(crate) fn is_marked(marks: &[bool], function: usize) -> bool
    ensures { result ≡ slice_index_or marks.now function false }
{
    at(marks, function).copied().unwrap_or(false)
}
