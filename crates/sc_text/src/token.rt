//! Tokens.

ghost use Rattle.std.specs.Prelude.{◌≡◌, option_copied};
ghost use Rattle.sc_text.specs.Names as names;

use crate::names::is_reserved;

/// What a token is.
#[derive(Clone, Copy, Debug, PartialEq, Eq)]
pub enum Kind {
    /// `(`.
    Left,
    /// `)`.
    Right,
    /// A numeral: `0`, or digits without a leading 0.
    Numeral,
    /// A number of another form: a decimal `2.6`, a hexadecimal `#x0F` or a binary `#b01`.
    Foreign,
    /// A string literal, with its double quotes.
    Literal,
    /// A simple symbol or a reserved word.
    Word,
    /// A quoted symbol, with its bars.
    Quoted,
    /// A keyword, with its colon.
    Keyword,
}

/// A token of a text.
#[derive(Clone, Copy, Debug)]
pub struct Token<'a> {
    /// What it is.
    pub kind: Kind,
    /// Its bytes, a slice of the text.
    pub text: &'a [u8],
    /// The place of its first byte.
    pub start: u64,
    /// The line of its first byte.
    pub line: u64,
}

/// What stands between the first byte and the last one, as between the bars of a quoted symbol.
pub fn between(text: &[u8]) -> &[u8]
    ensures { result.now ≡ names.between text.now }
{
    match text {
        [_, inner @ .., _] => inner,
        _ => &[],
    }
}

impl<'a> Token<'a> {
    /// The name that the token gives as a symbol, without bars: that of a simple symbol, or what
    /// stands between the bars of a quoted one. `None` where it is no symbol: a reserved word is
    /// one only between bars.
    pub fn symbol_name(self) -> Option<&'a [u8]>
        ensures { option_copied result ≡ names.symbol_name self.entry.kind self.entry.text.now }
    {
        match self.kind {
            Kind::Word if !is_reserved(self.text) => Some(self.text),
            Kind::Quoted => Some(between(self.text)),
            _ => None,
        }
    }
}
