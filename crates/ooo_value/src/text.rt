ghost use Rattle.std.specs.Prelude.{◌≡◌, ◌++◌, OnOk, OnErr};
ghost use Rattle.ooo_value.specs.ValueText.{value_text};

use crate::values::Value;
use itoa::Buffer;
use std::alloc::AllocError;

/// Adds the printed value to the end of `text`: a bool as `0` or `1`, and every other kind in decimal.
///
/// # Errors
///
/// Only where memory runs out, and then `text` is as before.
pub fn append(text: &mut Vec<u8>, value: Value) -> Result<(), AllocError>
    ensures ok { OnOk result (text.new.items ≡ text.old.items ++ value_text value) }
    ensures err { OnErr result (text.new.items ≡ text.old.items) }
{
    match value {
        Value::Bool(b) => text.extend_from_slice(Buffer::new().format(u32::from(b)).as_bytes()),
        Value::Int(x) => text.extend_from_slice(Buffer::new().format(x).as_bytes()),
        Value::Uint(x) => text.extend_from_slice(Buffer::new().format(x).as_bytes()),
        Value::Long(x) => text.extend_from_slice(Buffer::new().format(x).as_bytes()),
        Value::Ulong(x) => text.extend_from_slice(Buffer::new().format(x).as_bytes()),
    }
}
