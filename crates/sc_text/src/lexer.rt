//! The lexer.

ghost use Rattle.std.specs.Prelude.{◌≡◌, ◌+◌, ◌<◌, ◌^◌, length};
ghost use Rattle.sc_text.specs.Place.{Place};
ghost use Rattle.sc_text.specs.Answers.{Answers};
ghost use Rattle.sc_text.specs.Runs.{GivesFirst, over};

use crate::bytes::line_feeds;
use crate::front::{Front, front_at, gap_at};
use crate::token::Token;
use std::marker::Model;

/// What comes next in a text.
#[derive(Clone, Copy, Debug)]
pub enum Next<'a> {
    /// A token.
    Token(Token<'a>),
    /// Only white space and whole comments are left.
    End,
    /// More bytes may follow the text, and it ends in a token or comment that could go on.
    Partial,
    /// No token begins here, or the one begun can't be finished.
    Bad {
        /// The place of the first byte of the faulty token.
        start: u64,
        /// The line of that byte.
        line: u64,
    },
}

/// Goes over a text, token by token, and copies nothing.
///
/// Contracts see it as the place where it stands: the bytes that are left, the place and the line
/// of the first of them, and whether no more bytes follow.
#[derive(Drop)]
pub struct Lexer<'a> {
    rest: &'a [u8],
    start: u64,
    line: u64,
    last: bool,
}

impl<'a> Model for Lexer<'a> {
    ghost use Rattle.sc_text.specs.Place.{Place, InRange};

    ghost Value = { Place };

    ghost view = { λ l. record { left = l.rest.now; start = l.start; line = l.line; last = l.last } };

    ghost invariant = { λ l. InRange l.rest.now l.start l.line };
}

impl<'a> Lexer<'a> {
    /// A lexer over a text.
    ///
    /// `start` and `line` are the place and the line of the text's first byte; the place counts
    /// bytes, and the line counts line feeds. `last` says that no more bytes follow the text:
    /// without it a token or a comment that could go on isn't given.
    pub fn over(text: &'a [u8], start: u64, line: u64, last: bool) -> Lexer<'a>
        requires start_fits { start + length text.now < 2 ^ 64 }
        requires line_fits { line + length text.now < 2 ^ 64 }
        ensures { result ≡ over text.now start line last }
    {
        Lexer {
            rest: text,
            start,
            line,
            last,
        }
    }

    /// The next token, by the lexical rules of SMT-LIB 2.6; or how the text ends behind the
    /// tokens that were given. After an answer that is no token the answer stays the same.
    ///
    /// No memory is taken. Up to the first answer that is no token, all calls together take time
    /// that is linear in the text.
    pub fn next(&mut self) -> Next<'a>
        ensures answers { Answers self.old result self.new }
        ensures first { GivesFirst self.old result self.new }
    {
        self.advance()
    }

    fn advance(&mut self) -> Next<'a>
        ensures { Answers self.old result self.new }
    {
        let found = gap_at(self.rest);
        let (gap, rest) = self.rest.split_at(found.len);
        let start = self.start + gap.len() as u64;
        let line = self.line + line_feeds(gap) as u64;
        match front_at(rest, found.comment, self.last) {
            Front::Token(kind, len) => {
                let (text, rest) = rest.split_at(len);
                self.rest = rest;
                self.start = start + text.len() as u64;
                self.line = line + line_feeds(text) as u64;
                Next::Token(Token {
                    kind,
                    text,
                    start,
                    line,
                })
            }
            Front::Nothing => Next::End,
            Front::Open => Next::Partial,
            Front::Broken => Next::Bad { start, line },
        }
    }
}
