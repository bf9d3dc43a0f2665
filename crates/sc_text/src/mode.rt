//! How a token goes on, byte by byte.
//!
//! A reader of pieces keeps a [`Mode`] between them, so that no byte of a token is stepped twice.

ghost use Rattle.std.specs.Prelude.{◌≡◌, ◌≤◌, ◌&&◌, length, IfSome};
ghost use Rattle.std.specs.List.{prefix_len};
ghost use Rattle.sc_text.specs.Bytes.{is_symbol_byte};
ghost use Rattle.sc_text.specs.Modes.{IsBegun, GoesOn, is_start, is_unclosed, first_mode, next_mode, closing, whole, is_number, step_of, stopped, is_literal_byte, is_quoted_byte, stays};

use crate::bytes::{is_binary_digit, is_digit, is_hex_digit, is_symbol_byte};
use crate::token::Kind;

/// What has been read of a token.
#[derive(Clone, Copy, Debug, PartialEq, Eq)]
pub enum Mode {
    /// Nothing.
    Start,
    /// Bytes of a simple symbol.
    Symbol,
    /// A 0 alone.
    Zero,
    /// Digits without a leading 0.
    Digits,
    /// A numeral and a dot.
    Dot,
    /// A decimal.
    Decimal,
    /// A `#`.
    Hash,
    /// `#x`.
    HexStart,
    /// A hexadecimal.
    Hex,
    /// `#b`.
    BinaryStart,
    /// A binary.
    Binary,
    /// A colon.
    Colon,
    /// A keyword.
    Keyword,
    /// A literal that isn't closed.
    Literal,
    /// A literal with a quote that may be its last.
    LiteralQuote,
    /// A quoted symbol that isn't closed.
    Quoted,
}

/// What a byte does behind what has been read of a token.
#[derive(Clone, Copy, Debug, PartialEq, Eq)]
pub enum Step {
    /// The token goes on, and this has been read of it.
    Go(Mode),
    /// The token is of this kind and ends with the byte.
    Close(Kind),
    /// The token is of this kind and ends before the byte.
    Stop(Kind),
    /// No token begins so.
    Fault,
}

fn is_literal_byte(byte: u8) -> bool
    ensures { result ≡ is_literal_byte byte }
{
    !matches!(byte, b'"' | b'\n')
}

fn is_quoted_byte(byte: u8) -> bool
    ensures { result ≡ is_quoted_byte byte }
{
    !matches!(byte, b'|' | b'\\' | b'\n')
}

impl Mode {
    /// Whether nothing has been read.
    #[inline(always)]
    pub fn is_start(self) -> bool
        ensures { result ≡ is_start self }
    {
        matches!(self, Mode::Start)
    }

    /// Whether a literal or a quoted symbol has begun and isn't closed, so that no text may end here.
    #[inline(always)]
    pub fn is_unclosed(self) -> bool
        ensures { result ≡ is_unclosed self }
    {
        matches!(self, Mode::Literal | Mode::Quoted)
    }

    #[inline(always)]
    fn first(byte: u8) -> Option<Mode>
        ensures value { result ≡ first_mode byte }
        ensures begun { IfSome result IsBegun }
    {
        match byte {
            b'"' => Some(Mode::Literal),
            b'|' => Some(Mode::Quoted),
            b':' => Some(Mode::Colon),
            b'#' => Some(Mode::Hash),
            b'0' => Some(Mode::Zero),
            _ if is_digit(byte) => Some(Mode::Digits),
            _ if is_symbol_byte(byte) => Some(Mode::Symbol),
            _ => None,
        }
    }

    #[inline(always)]
    fn next(self, byte: u8) -> Option<Mode>
        ensures value { result ≡ next_mode self byte }
        ensures begun { IfSome result IsBegun }
    {
        match self {
            Mode::Start => Mode::first(byte),
            Mode::Symbol => is_symbol_byte(byte).then_some(Mode::Symbol),
            Mode::Zero => (byte == b'.').then_some(Mode::Dot),
            Mode::Digits => {
                if is_digit(byte) {
                    Some(Mode::Digits)
                } else {
                    (byte == b'.').then_some(Mode::Dot)
                }
            }
            Mode::Dot | Mode::Decimal => is_digit(byte).then_some(Mode::Decimal),
            Mode::Hash => match byte {
                b'x' => Some(Mode::HexStart),
                b'b' => Some(Mode::BinaryStart),
                _ => None,
            },
            Mode::HexStart | Mode::Hex => is_hex_digit(byte).then_some(Mode::Hex),
            Mode::BinaryStart | Mode::Binary => is_binary_digit(byte).then_some(Mode::Binary),
            Mode::Colon | Mode::Keyword => is_symbol_byte(byte).then_some(Mode::Keyword),
            Mode::Literal if byte == b'"' => Some(Mode::LiteralQuote),
            Mode::Literal => Some(Mode::Literal),
            Mode::LiteralQuote => (byte == b'"').then_some(Mode::Literal),
            Mode::Quoted => (byte != b'\\').then_some(Mode::Quoted),
        }
    }

    #[inline(always)]
    fn closing(self, byte: u8) -> Option<Kind>
        ensures { result ≡ closing self byte }
    {
        match (self, byte) {
            (Mode::Start, b'(') => Some(Kind::Left),
            (Mode::Start, b')') => Some(Kind::Right),
            (Mode::Quoted, b'|') => Some(Kind::Quoted),
            _ => None,
        }
    }

    /// The kind of token that has been read, where it is one as it stands.
    #[inline(always)]
    pub fn whole(self) -> Option<Kind>
        ensures { result ≡ whole self }
    {
        match self {
            Mode::Symbol => Some(Kind::Word),
            Mode::Zero | Mode::Digits => Some(Kind::Numeral),
            Mode::Decimal | Mode::Hex | Mode::Binary => Some(Kind::Foreign),
            Mode::Keyword => Some(Kind::Keyword),
            Mode::LiteralQuote => Some(Kind::Literal),
            _ => None,
        }
    }

    #[inline(always)]
    fn is_number(self) -> bool
        ensures { result ≡ is_number self }
    {
        matches!(
            self,
            Mode::Zero | Mode::Digits | Mode::Decimal | Mode::Hex | Mode::Binary
        )
    }

    #[inline(always)]
    fn stopped(self, byte: u8) -> Step
        ensures begun { GoesOn result }
        ensures value { result ≡ stopped (is_number self && is_symbol_byte byte) (whole self) }
    {
        match self.whole() {
            Some(kind) if !(self.is_number() && is_symbol_byte(byte)) => Step::Stop(kind),
            _ => Step::Fault,
        }
    }

    /// What the byte does behind what has been read, by the lexical rules of SMT-LIB 2.6.
    #[tactic(auto, unfolding(crate::specs::Modes::step_of))]
    #[inline(always)]
    pub fn step(self, byte: u8) -> Step
        ensures value { result ≡ step_of self byte }
        ensures begun { GoesOn result }
    {
        if let Some(kind) = self.closing(byte) {
            return Step::Close(kind);
        }
        match self.next(byte) {
            Some(mode) => Step::Go(mode),
            None => self.stopped(byte),
        }
    }

    /// How many of the first bytes leave what has been read of a token as it is. They hold no
    /// line feed: symbol bytes in a simple symbol or a keyword, and in a literal or a quoted
    /// symbol what neither ends nor escapes it.
    #[inline(always)]
    pub fn span(self, bytes: &[u8]) -> usize
        ensures count { result ≡ prefix_len (stays self) bytes.now }
        ensures within { result ≤ length bytes.now }
    {
        match self {
            Mode::Symbol | Mode::Keyword => {
                bytes.iter().take_while(|b| is_symbol_byte(**b)).count()
            }
            Mode::Literal => bytes.iter().take_while(|b| is_literal_byte(**b)).count(),
            Mode::Quoted => bytes.iter().take_while(|b| is_quoted_byte(**b)).count(),
            _ => 0,
        }
    }
}
