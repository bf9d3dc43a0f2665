//! Classes of bytes.

ghost use Rattle.std.specs.Prelude.{◌≡◌, ◌≤◌, length};
ghost use Rattle.sc_text.specs.Bytes.{is_white, is_break, is_digit, is_hex_digit, is_binary_digit, is_symbol_byte, line_feeds};

/// Whether the byte is white space: a space, a tab, a line feed or a carriage return.
#[inline(always)]
pub fn is_white(byte: u8) -> bool
    ensures { result ≡ is_white byte }
{
    matches!(byte, b' ' | b'\t' | b'\n' | b'\r')
}

/// Whether the byte ends a comment: a line feed or a carriage return.
#[inline(always)]
pub fn is_break(byte: u8) -> bool
    ensures { result ≡ is_break byte }
{
    matches!(byte, b'\n' | b'\r')
}

/// Whether the byte is a decimal digit.
#[inline(always)]
pub fn is_digit(byte: u8) -> bool
    ensures { result ≡ is_digit byte }
{
    byte.is_ascii_digit()
}

#[inline(always)]
pub(crate) fn is_hex_digit(byte: u8) -> bool
    ensures { result ≡ is_hex_digit byte }
{
    matches!(byte, b'0'..=b'9' | b'A'..=b'F' | b'a'..=b'f')
}

#[inline(always)]
pub(crate) fn is_binary_digit(byte: u8) -> bool
    ensures { result ≡ is_binary_digit byte }
{
    matches!(byte, b'0' | b'1')
}

/// Whether a simple symbol of SMT-LIB 2.6 may hold each byte.
const SYMBOL_BYTES: [bool; 256] = [
    false, false, false, false, false, false, false, false, false, false, false, false, false,
    false, false, false, false, false, false, false, false, false, false, false, false, false,
    false, false, false, false, false, false, false, true, false, false, true, true, true, false,
    false, false, true, true, false, true, true, true, true, true, true, true, true, true, true,
    true, true, true, false, false, true, true, true, true, true, true, true, true, true, true,
    true, true, true, true, true, true, true, true, true, true, true, true, true, true, true, true,
    true, true, true, true, true, false, false, false, true, true, false, true, true, true, true,
    true, true, true, true, true, true, true, true, true, true, true, true, true, true, true, true,
    true, true, true, true, true, true, false, false, false, true, false, false, false, false,
    false, false, false, false, false, false, false, false, false, false, false, false, false,
    false, false, false, false, false, false, false, false, false, false, false, false, false,
    false, false, false, false, false, false, false, false, false, false, false, false, false,
    false, false, false, false, false, false, false, false, false, false, false, false, false,
    false, false, false, false, false, false, false, false, false, false, false, false, false,
    false, false, false, false, false, false, false, false, false, false, false, false, false,
    false, false, false, false, false, false, false, false, false, false, false, false, false,
    false, false, false, false, false, false, false, false, false, false, false, false, false,
    false, false, false, false, false, false, false, false, false, false, false, false, false,
    false, false, false, false, false, false, false, false,
];

/// Whether a simple symbol of SMT-LIB 2.6 may hold the byte: a letter, a digit or one of
/// `~ ! @ $ % ^ & * _ - + = < > . ? /`.
#[inline(always)]
pub fn is_symbol_byte(byte: u8) -> bool
    ensures { result ≡ is_symbol_byte byte }
{
    SYMBOL_BYTES[byte as usize]
}

/// How many line feeds there are.
#[inline(always)]
pub(crate) fn line_feeds(bytes: &[u8]) -> usize
    ensures count { result ≡ line_feeds bytes.now }
    ensures within { result ≤ length bytes.now }
{
    match bytes {
        [] => 0,
        [byte] => usize::from(*byte == b'\n'),
        _ => bytes.iter().filter(|b| **b == b'\n').count(),
    }
}
