//! The tokens of a script text of SMT-LIB 2.6, the names that a script may not give, and the codes
//! of errors.
//!
//! A [`Lexer`] gives the tokens of a text one after the other, as slices of the text with their
//! places and lines. It takes no memory. A text may be given in part: then what could go on with
//! the bytes to come isn't given.
//!
//! `Reads` of `specs/Readings.antt` says which tokens a text has and how it ends behind them; each
//! text reads in one way ([`texts_read_once`]), and a lexer gives that reading
//! ([`runs_read_texts`]).
#![tactic(auto)]

mod bytes;
mod code;
mod front;
mod laws;
mod lexer;
mod mode;
mod names;
mod token;

pub use bytes::{is_break, is_digit, is_symbol_byte, is_white};
pub use code::Code;
pub use front::{Front, Gap, Run, digits_at};
pub use laws::{
    fronts_are_settled, gaps_are_passed_over, runs_read_texts, texts_read_once,
    tokens_are_quotations, tokens_are_slices, tokens_are_stretches, tokens_split_texts,
};
pub use lexer::{Lexer, Next};
pub use mode::{Mode, Step};
pub use names::{
    is_built_in, is_command, is_free, is_free_in_bars, is_left_out_command, is_left_out_operator,
    is_operator, is_own, is_reserved,
};
pub use token::{Kind, Token, between};

#[cfg(test)]
mod tests;
