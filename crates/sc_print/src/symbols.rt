//! Symbols, and the values of declared sorts.

ghost use Rattle.std.specs.Prelude.{◌≡◌, ◌++◌, if◌then◌else◌, is_ok};
ghost use Rattle.std.specs.List.{list_all};
ghost use Rattle.sc_text.specs.Bytes.{is_symbol_byte};
ghost use Rattle.sc_print.specs.Spelling.{is_bare, spelt_symbol, spelt_abstract};

use crate::append::append;
use crate::memory::Memory;
use itoa::Buffer;
use sc_text::{is_reserved, is_symbol_byte};

/// Whether all bytes are those of a simple symbol.
fn are_symbol_bytes(bytes: &[u8]) -> bool
    ensures { result ≡ list_all is_symbol_byte bytes.now }
{
    bytes.iter().all(|byte| is_symbol_byte(*byte))
}

/// Whether the symbol of this name is written without bars: it is a simple symbol and no reserved
/// word.
fn is_bare(name: &[u8]) -> bool
    ensures { result ≡ is_bare name.now }
{
    match name {
        [] => false,
        [first, ..] => !first.is_ascii_digit() && are_symbol_bytes(name) && !is_reserved(name),
    }
}

/// Appends the symbol of this name, given without bars: bare where it is a simple symbol of
/// SMT-LIB 2.6 and no reserved word, else between bars.
///
/// No symbol of SMT-LIB holds a bar or a backslash; a name that does is printed between bars too,
/// and can't be read back. With [`Memory`] nothing is appended.
pub fn symbol(out: &mut Vec<u8>, name: &[u8]) -> Result<(), Memory>
    ensures { out.new.items ≡ (if is_ok result then out.old.items ++ spelt_symbol name.now else out.old.items) }
{
    if is_bare(name) {
        append(out, &[name])
    } else {
        append(out, &[b"|".as_slice(), name, b"|"])
    }
}

/// Appends the value n of a declared sort as a term of SMT-LIB 2.6, `(as @U_n U)`, with a negative
/// n by its sign, as `(as @U_-3 U)`. The sort's name is given without bars.
///
/// The value's symbol is the one whose name is `@`, the sort's name, `_` and the number. Like the
/// sort's symbol it is bare where it is a simple symbol and no reserved word, and else between
/// bars: `(as |@a b_3| |a b|)`, `(as @as_3 |as|)`.
///
/// With [`Memory`] nothing is appended.
pub fn abstract_value(out: &mut Vec<u8>, sort: &[u8], n: i128) -> Result<(), Memory>
    ensures { out.new.items ≡ (if is_ok result then out.old.items ++ spelt_abstract sort.now n else out.old.items) }
{
    let mut buffer = Buffer::new();
    let number = buffer.format(n).as_bytes();
    if is_bare(sort) {
        let pieces: [&[u8]; 7] = [b"(as @", sort, b"_", number, b" ", sort, b")"];
        append(out, &pieces)
    } else if are_symbol_bytes(sort) {
        let pieces: [&[u8]; 7] = [b"(as @", sort, b"_", number, b" |", sort, b"|)"];
        append(out, &pieces)
    } else {
        let pieces: [&[u8]; 7] = [b"(as |@", sort, b"_", number, b"| |", sort, b"|)"];
        append(out, &pieces)
    }
}
