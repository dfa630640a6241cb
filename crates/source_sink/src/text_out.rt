//! Bytes and numbers behind those that a text has already, for whoever writes one piece after another. Where memory runs out, the
//! text is as it was.

ghost use Rattle.std.specs.Prelude.{◌≡◌, ◌++◌, OnOk, OnErr, decimal};

use crate::fault::Memory;
use itoa::Buffer;

/// Appends bytes.
pub fn put(out: &mut Vec<u8>, bytes: &[u8]) -> Result<(), Memory>
    ensures text { OnOk result (out.new.items ≡ out.old.items ++ bytes.now) }
    ensures kept { OnErr result (out.new.items ≡ out.old.items) }
{
    out.extend_from_slice(bytes)?;
    Ok(())
}

/// Appends a number in decimal, without leading zeros.
pub fn put_decimal(out: &mut Vec<u8>, number: u64) -> Result<(), Memory>
    ensures text { OnOk result (out.new.items ≡ out.old.items ++ decimal number) }
    ensures kept { OnErr result (out.new.items ≡ out.old.items) }
{
    let mut buffer = Buffer::new();
    put(out, buffer.format(number).as_bytes())
}
