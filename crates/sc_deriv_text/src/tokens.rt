//! Tokens of a tree: words, numbers, and the words of regions.

ghost use Rattle.std.specs.Prelude.{◌≡◌, ◌^◌, ◌||◌, ◌==◌, map};
ghost use Rattle.std.specs.List.{list_all, list_any};
ghost use Rattle.sc_text.specs.Readings.{lexeme};
ghost use Rattle.sc_deriv_text.specs.Sexpr.{Atom, expr};
ghost use Rattle.sc_deriv_text.specs.Reading as spec;

use crate::errors::PartError;
use sc_deriv::Reason;
use sc_sexpr::Tree;
use sc_terms::{Sign, Signs};
use sc_text::{Kind, Token};
use std::alloc::{AllocError, Global};

fn bare_word<'a>(token: &Token<'a>) -> Option<&'a [u8]>
    ensures { spec.seen_some (λ w. w.now) result ≡ spec.word_of (Atom (lexeme token.now)) }
{
    match token.kind {
        Kind::Word => Some(token.text),
        Kind::Left => None,
        Kind::Right => None,
        Kind::Numeral => None,
        Kind::Foreign => None,
        Kind::Literal => None,
        Kind::Quoted => None,
        Kind::Keyword => None,
    }
}

fn digits<'a>(token: &Token<'a>) -> Option<&'a [u8]>
    ensures { spec.seen_some (λ w. w.now) result ≡ spec.digits_of (Atom (lexeme token.now)) }
{
    match token.kind {
        Kind::Numeral => Some(token.text),
        Kind::Left => None,
        Kind::Right => None,
        Kind::Word => None,
        Kind::Foreign => None,
        Kind::Literal => None,
        Kind::Quoted => None,
        Kind::Keyword => None,
    }
}

/// The bytes of a bare word.
pub fn word_of<'a>(tree: &Tree<'a>) -> Option<&'a [u8]>
    ensures { spec.seen_some (λ w. w.now) result ≡ spec.word_of (expr tree.now) }
{
    match tree {
        Tree::Leaf(token) => bare_word(token),
        Tree::List(_) => None,
    }
}

fn digits_of<'a>(tree: &Tree<'a>) -> Option<&'a [u8]>
    ensures { spec.seen_some (λ w. w.now) result ≡ spec.digits_of (expr tree.now) }
{
    match tree {
        Tree::Leaf(token) => digits(token),
        Tree::List(_) => None,
    }
}

fn has_leading_zero(text: &[u8]) -> bool
    ensures { result ≡ spec.has_leading_zero text.now }
{
    match text {
        [] => true,
        [_] => false,
        [first, _, ..] => *first == b'0',
    }
}

fn is_digit(byte: u8) -> bool
    ensures { result ≡ spec.is_digit byte }
{
    byte.is_ascii_digit()
}

fn are_digits(text: &[u8]) -> bool
    ensures { result ≡ list_all spec.is_digit text.now }
{
    text.iter().all(|byte| is_digit(*byte))
}

fn is_numeral(text: &[u8]) -> bool
    ensures { result ≡ spec.is_numeral text.now }
{
    are_digits(text) && !has_leading_zero(text)
}

/// The number below a limit that a numeral stands for.
fn below(text: &[u8], limit: u128) -> Result<u128, Reason>
    ensures { result ≡ spec.below limit (spec.numeral text.now) }
{
    if !is_numeral(text) {
        return Err(Reason::P3);
    }
    let Ok(digits) = str::from_utf8(text) else {
        return Err(Reason::P3);
    };
    match digits.parse::<u128>() {
        Ok(n) => { if n < limit { Ok(n) } else { Err(Reason::P4) } }
        Err(_) => Err(Reason::P4),
    }
}

/// The number of a formula, an element, a set, a component or a part.
pub fn number(tree: &Tree) -> Result<u32, Reason>
    ensures { result ≡ spec.number (expr tree.now) }
{
    let Some(digits) = digits_of(tree) else {
        return Err(Reason::P3);
    };
    Ok(below(digits, 1 << 32)? as u32)
}

fn is_sign_byte(byte: u8) -> bool
    ensures { result ≡ spec.is_sign_byte byte }
{
    byte == b'+' || byte == b'-'
}

fn are_sign_bytes(text: &[u8]) -> bool
    ensures { result ≡ list_all spec.is_sign_byte text.now }
{
    text.iter().all(|byte| is_sign_byte(*byte))
}

fn has_plus(text: &[u8]) -> bool
    ensures { result ≡ list_any (λ b. b == 43) text.now }
{
    text.iter().any(|byte| *byte == b'+')
}

fn is_cube_word(text: &[u8]) -> bool
    ensures { result ≡ spec.is_cube_word text.now }
{
    are_sign_bytes(text) && has_plus(text)
}

fn sign_at(byte: u8) -> Sign
    ensures { result ≡ spec.sign_at byte }
{
    if byte == b'+' {
        Sign::Plus
    } else {
        Sign::Minus
    }
}

fn signs_of(alloc: Global, text: &[u8]) -> Result<Vec<Sign>, AllocError>
    ensures { spec.Copied (λ v. v.items) result (map spec.sign_at text.now) }
{
    let mut signs = Vec::new(alloc);
    for byte in text {
        if signs.push(sign_at(*byte)).is_err() {
            return Err(AllocError);
        }
    }
    Ok(signs)
}

/// A region's word, of at least one plus.
pub fn cube_word(alloc: Global, tree: &Tree) -> Result<Signs, PartError>
    ensures { spec.PartGives (λ s. s) result (spec.cube_word (expr tree.now)) }
{
    let Some(word) = word_of(tree) else {
        return Err(PartError::Refused(Reason::P3));
    };
    if !is_cube_word(word) {
        return Err(PartError::Refused(Reason::P3));
    }
    Ok(Signs::from_vec(signs_of(alloc, word)?))
}
