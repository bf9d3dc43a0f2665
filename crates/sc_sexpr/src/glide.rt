//! The way through a list, token by token, where nothing but parentheses, white space, simple
//! symbols and numerals comes.

ghost use Rattle.std.specs.Prelude.{◌≡◌, ◌+◌, ◌<◌, ◌≤◌, ◌^◌, true, false, length, drop, get_or, IfSome, if◌then◌else◌, ◌==◌};
ghost use Rattle.std.specs.List.{prefix_len};
ghost use Rattle.sc_text.specs.Bytes.{is_digit, is_symbol_byte};
ghost use Rattle.sc_sexpr.specs.Passes.{IsBetween, IsToken, Glides};

use crate::state::{DEPTH, State, is_blank};
use sc_text::{Mode, digits_at, is_digit, is_symbol_byte};

/// Where the simple symbol ends that begins at a place, if a byte behind it shows that.
#[inline(always)]
fn word_end(bytes: &[u8], at: usize) -> Option<usize>
    requires within { at < length bytes.now }
    requires symbol { is_symbol_byte (get_or bytes.now at 0) ≡ true }
    requires letter { is_digit (get_or bytes.now at 0) ≡ false }
    ensures { IfSome result (λ end. IsToken bytes.now at end) }
{
    let (_, rest) = bytes.split_at(at);
    let count = Mode::Symbol.span(rest);
    if count < rest.len() {
        Some(at + count)
    } else {
        None
    }
}

/// Where the numeral ends that begins at a place with a digit other than 0, if a byte behind it shows
/// that.
#[inline(always)]
fn numeral_end(bytes: &[u8], at: usize) -> Option<usize>
    requires within { at < length bytes.now }
    requires digit { is_digit (get_or bytes.now at 0) ≡ true }
    requires some { (get_or bytes.now at 0 == 48) ≡ false }
    ensures { IfSome result (λ end. IsToken bytes.now at end) }
{
    let (_, rest) = bytes.split_at(at);
    let count = digits_at(rest);
    match rest.get(count) {
        Some(byte) if !is_symbol_byte(*byte) => Some(at + count),
        _ => None,
    }
}

/// Where the simple symbol or numeral ends that begins at a place, if a byte behind it shows that.
#[inline(always)]
fn token_end(bytes: &[u8], at: usize) -> Option<usize>
    requires within { at < length bytes.now }
    ensures { IfSome result (λ end. IsToken bytes.now at end) }
{
    let first = bytes[at];
    if !is_symbol_byte(first) || first == b'0' {
        None
    } else if is_digit(first) {
        numeral_end(bytes, at)
    } else {
        word_end(bytes, at)
    }
}

/// Behind the space at a place, where there is one.
#[inline(always)]
fn behind_space(bytes: &[u8], at: usize) -> usize
    requires within { at < length bytes.now }
    ensures { result ≡ (if get_or bytes.now at 0 == 32 then at + 1 else at) }
{
    if bytes[at] == b' ' { at + 1 } else { at }
}

impl State {
    /// Whether a list is at hand, and between two of its tokens, outside of a comment, the next byte.
    #[inline(always)]
    pub(crate) fn is_between(self) -> bool
        ensures { result ≡ true → IsBetween self }
    {
        !self.comment && self.mode.is_start() && self.depth != 0
    }

    /// Behind the next simple symbol or numeral.
    #[inline(always)]
    fn token_glides(self, rest: &[u8], at: usize) -> Option<(State, usize)>
        requires within { at < length rest.now }
        requires between { IsBetween self }
        ensures { IfSome result (λ next. Glides rest.now self at next) }
    {
        let end = token_end(rest, at)?;
        let state = State {
            token_line: self.line,
            ..self
        };
        Some((state, behind_space(rest, end)))
    }

    /// Behind the next parenthesis, byte of white space, simple symbol or numeral between the tokens
    /// of a list; nothing where something else comes, or the list ends with it.
    #[inline(always)]
    pub(crate) fn glides(self, rest: &[u8], at: usize) -> Option<(State, usize)>
        requires within { at ≤ length rest.now }
        requires between { IsBetween self }
        requires line { self.line + 1 < 2 ^ 64 }
        ensures { IfSome result (λ next. Glides rest.now self at next) }
    {
        match *rest.get(at)? {
            b'(' if self.depth < DEPTH => Some((
                State {
                    depth: self.depth + 1,
                    ..self
                },
                at + 1,
            )),
            b')' if 1 < self.depth => Some((
                State {
                    depth: self.depth - 1,
                    ..self
                },
                at + 1,
            )),
            b'\n' => Some((
                State {
                    line: self.line + 1,
                    ..self
                },
                at + 1,
            )),
            byte if is_blank(byte) => Some((self, at + 1)),
            _ => self.token_glides(rest, at),
        }
    }
}
