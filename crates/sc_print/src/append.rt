//! Appending all of several pieces, or nothing.

ghost use Rattle.std.specs.Prelude.{◌≡◌, ◌++◌, if◌then◌else◌, is_ok};
ghost use Rattle.std.specs.List.{flat_map};

use crate::memory::Memory;

/// Appends the pieces one after the other; with the error nothing is appended.
pub(crate) fn append(out: &mut Vec<u8>, pieces: &[&[u8]]) -> Result<(), Memory>
    ensures { out.new.items ≡ (if is_ok result then out.old.items ++ flat_map (λ p. p.now) pieces.now else out.old.items) }
{
    let len = out.len();
    for piece in pieces.iter() {
        if out.extend_from_slice(piece).is_err() {
            out.truncate(len);
            return Err(Memory);
        }
    }
    Ok(())
}
