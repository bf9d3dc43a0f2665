//! Numbers.

ghost use Rattle.std.specs.Prelude.{◌≡◌, ◌++◌, if◌then◌else◌, is_ok};
ghost use Rattle.sc_print.specs.Spelling.{spelt_number};

use crate::append::append;
use crate::memory::Memory;
use itoa::Buffer;

/// Appends a number as a term of SMT-LIB 2.6: a numeral, as `3`, or the negation of one, as
/// `(- 3)`. There is no leading 0 and no `(- 0)`.
///
/// With [`Memory`] nothing is appended.
pub fn number(out: &mut Vec<u8>, n: i128) -> Result<(), Memory>
    ensures { out.new.items ≡ (if is_ok result then out.old.items ++ spelt_number n else out.old.items) }
{
    let mut buffer = Buffer::new();
    if n >= 0 {
        append(out, &[buffer.format(n).as_bytes()])
    } else {
        let digits = buffer.format(n.unsigned_abs()).as_bytes();
        append(out, &[b"(- ".as_slice(), digits, b")"])
    }
}
