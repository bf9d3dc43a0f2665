//! What stands at the front of a text.

ghost use Rattle.std.specs.Prelude.{◌≡◌, ◌+◌, ◌≤◌, length, drop, slice_get, Some, is_none, true, false};
ghost use Rattle.std.specs.List.{prefix_len};
ghost use Rattle.sc_text.specs.Bytes.{is_digit, is_symbol_byte};
ghost use Rattle.sc_text.specs.Modes.{run, stays};
ghost use Rattle.sc_text.specs.Fronts.{gap_step, gap, front_of, front_at, run_fits, fits};

use crate::bytes::{is_break, is_digit, is_symbol_byte, is_white};
use crate::mode::{Mode, Step};
use crate::token::Kind;

/// The gap at the front of a text: white space and comments.
#[derive(Clone, Copy)]
pub struct Gap {
    /// How many bytes it takes.
    pub len: usize,
    /// Whether it ends in a comment that could go on.
    pub comment: bool,
}

/// Where a token ends.
#[derive(Clone, Copy)]
pub enum Run {
    /// It takes so many bytes, and is of this kind.
    Takes(usize, Kind),
    /// All the bytes, so many, belong to it, and what has been read of it could go on.
    Ends(usize, Mode),
    /// No token begins so.
    Fails,
}

/// What stands at the front of a text, behind its gap.
#[derive(Clone, Copy)]
pub enum Front {
    /// Nothing: the gap is all of the text.
    Nothing,
    /// A token of this kind that takes so many bytes.
    Token(Kind, usize),
    /// A token or comment that could go on, where more bytes may follow.
    Open,
    /// Bytes that begin no token, or one that can't be finished.
    Broken,
}

/// Whether a byte belongs to the gap, and if so, whether a comment could go on behind it.
#[inline(always)]
fn gap_step(comment: bool, byte: u8) -> Option<bool>
    ensures { result ≡ gap_step comment byte }
{
    if comment {
        Some(!is_break(byte))
    } else if is_white(byte) {
        Some(false)
    } else {
        (byte == b';').then_some(true)
    }
}

/// Whether a byte between tokens belongs to no gap.
#[inline(always)]
fn is_token_byte(byte: u8) -> bool
    ensures { result ≡ is_none (gap_step false byte) }
{
    gap_step(false, byte).is_none()
}

/// The white space and comments at the front.
#[inline(always)]
pub(crate) fn gap_at(bytes: &[u8]) -> Gap
    ensures gap { result ≡ gap false bytes.now }
    ensures within { result.len ≤ length bytes.now }
{
    match bytes {
        [first, ..] if is_token_byte(*first) => Gap {
            len: 0,
            comment: false,
        },
        [first, second, ..] if is_white(*first) && is_token_byte(*second) => Gap {
            len: 1,
            comment: false,
        },
        _ => long_gap_at(bytes),
    }
}

fn long_gap_at(bytes: &[u8]) -> Gap
    ensures gap { result ≡ gap false bytes.now }
    ensures within { result.len ≤ length bytes.now }
{
    let mut comment = false;
    for (i, byte) in bytes.iter().enumerate() {
        match gap_step(comment, *byte) {
            Some(next) => comment = next,
            None => return Gap { len: i, comment },
        }
    }
    Gap {
        len: bytes.len(),
        comment,
    }
}

/// Behind the bytes from a place on that leave a mode as it is.
#[inline(always)]
fn behind_span(mode: Mode, bytes: &[u8], from: usize) -> usize
    requires { from ≤ length bytes.now }
    ensures behind { result ≡ from + prefix_len (stays mode) (drop from bytes.now) }
    ensures order { from ≤ result }
    ensures within { result ≤ length bytes.now }
{
    let (_, rest) = bytes.split_at(from);
    from + mode.span(rest)
}

/// The simple symbol or reserved word that begins with the first byte.
#[inline(always)]
fn word_at(bytes: &[u8], first: u8) -> Run
    requires first { slice_get bytes.now 0 ≡ Some first }
    requires symbol { is_symbol_byte first ≡ true }
    requires letter { is_digit first ≡ false }
    ensures run { result ≡ run Mode.Start bytes.now }
    ensures within { run_fits (length bytes.now) result }
{
    let len = behind_span(Mode::Symbol, bytes, 1);
    if len < bytes.len() {
        Run::Takes(len, Kind::Word)
    } else {
        Run::Ends(bytes.len(), Mode::Symbol)
    }
}

/// How many of the first bytes are decimal digits, up to the first that is none.
#[inline(always)]
pub fn digits_at(bytes: &[u8]) -> usize
    ensures count { result ≡ prefix_len is_digit bytes.now }
    ensures within { result ≤ length bytes.now }
{
    bytes.iter().take_while(|byte| is_digit(**byte)).count()
}

/// The token that begins with the first byte, a digit.
#[inline(always)]
fn number_at(bytes: &[u8], first: u8) -> Run
    requires first { slice_get bytes.now 0 ≡ Some first }
    requires digit { is_digit first ≡ true }
    ensures run { result ≡ run Mode.Start bytes.now }
    ensures within { run_fits (length bytes.now) result }
{
    if first == b'0' {
        return long_run_at(bytes);
    }
    let len = digits_at(bytes);
    match bytes.get(len) {
        None => Run::Ends(bytes.len(), Mode::Digits),
        Some(byte) if is_symbol_byte(*byte) => long_run_at(bytes),
        Some(_) => Run::Takes(len, Kind::Numeral),
    }
}

/// The token that begins with the first byte.
#[inline(always)]
pub(crate) fn run_at(bytes: &[u8]) -> Run
    ensures run { result ≡ run Mode.Start bytes.now }
    ensures within { run_fits (length bytes.now) result }
{
    match bytes.first() {
        Some(b'(') => Run::Takes(1, Kind::Left),
        Some(b')') => Run::Takes(1, Kind::Right),
        Some(first) if is_digit(*first) => number_at(bytes, *first),
        Some(first) if is_symbol_byte(*first) => word_at(bytes, *first),
        _ => long_run_at(bytes),
    }
}

fn long_run_at(bytes: &[u8]) -> Run
    ensures run { result ≡ run Mode.Start bytes.now }
    ensures within { run_fits (length bytes.now) result }
{
    let mut mode = Mode::Start;
    let mut i = 0;
    while i < bytes.len() {
        match mode.step(bytes[i]) {
            Step::Go(next) => {
                mode = next;
                i = behind_span(next, bytes, i + 1);
            }
            Step::Close(kind) => return Run::Takes(i + 1, kind),
            Step::Stop(kind) => return Run::Takes(i, kind),
            Step::Fault => return Run::Fails,
        }
    }
    Run::Ends(bytes.len(), mode)
}

/// The token that begins with the first byte, or none.
#[inline(always)]
fn front_of(bytes: &[u8], last: bool) -> Front
    ensures value { result ≡ front_of last (run Mode.Start bytes.now) }
    ensures within { fits (length bytes.now) result }
{
    match run_at(bytes) {
        Run::Takes(len, kind) => Front::Token(kind, len),
        Run::Ends(_, _) if !last => Front::Open,
        Run::Ends(len, mode) => match mode.whole() {
            Some(kind) => Front::Token(kind, len),
            None => Front::Broken,
        },
        Run::Fails => Front::Broken,
    }
}

/// What stands behind a gap, which ended in a comment or not.
#[inline(always)]
pub(crate) fn front_at(bytes: &[u8], comment: bool, last: bool) -> Front
    ensures value { result ≡ front_at last comment bytes.now }
    ensures within { fits (length bytes.now) result }
{
    match bytes {
        [] if comment && !last => Front::Open,
        [] => Front::Nothing,
        _ => front_of(bytes, last),
    }
}
