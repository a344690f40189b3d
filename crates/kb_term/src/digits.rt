// Numbers as text.
ghost use Rattle.std.specs.Prelude.{◌≡◌, ◌++◌, OnErr, OnOk, decimal};

use crate::memory::Memory;
use std::alloc::Global;

/// Adds a number in decimal digits. After want of memory the text is as before.
pub fn push_number(alloc: Global, out: &mut Vec<u8>, n: u64) -> Result<(), Memory>
    ensures ok { OnOk result (out.new.items ≡ out.old.items ++ decimal n) }
    ensures err { OnErr result (out.new.items ≡ out.old.items) }
{
    let text = format!(in alloc; "{n}")?;
    out.extend_from_slice(text.as_bytes())?;
    Ok(())
}
