//! The words of terms.

ghost use Rattle.std.specs.Prelude.{◌≡◌, option_copied};
ghost use Rattle.std.specs.Str.{bytes_eq};
ghost use Rattle.sc_sexpr.specs.Shapes.{shape};
ghost use Rattle.sc_elab.specs.Words as spec;

use sc_sexpr::Tree;
use sc_text::{is_left_out_operator, is_operator};

/// The operators that are done.
#[derive(Clone, Copy)]
pub enum Operator {
    /// `not`.
    Not,
    /// `and`.
    And,
    /// `or`.
    Or,
    /// `=>`.
    Implies,
    /// `xor`.
    Xor,
    /// `=`.
    Equal,
    /// `distinct`.
    Distinct,
    /// `ite`.
    Choice,
    /// `set.member`.
    Member,
    /// `set.subset`.
    Subset,
    /// `set.union`.
    Union,
    /// `set.inter`.
    Inter,
    /// `set.minus`.
    Minus,
    /// `set.singleton`.
    Singleton,
    /// `set.insert`.
    Insert,
}

/// What a name is by itself.
#[derive(Clone, Copy)]
pub enum Word {
    /// `true`.
    True,
    /// `false`.
    False,
    /// `set.empty`, which stands in `(as set.empty (Set T))` alone.
    EmptySet,
    /// An operator that is done.
    Operator(Operator),
    /// An operator that is not done.
    Outside,
    /// A name that may be declared.
    Free,
}

pub fn is_word(name: &[u8], word: &str) -> bool
    ensures { result ≡ bytes_eq word.now name.now }
{
    word.as_bytes() == name
}

/// The name that a symbol gives, without its bars.
pub fn symbol_name<'a>(tree: &Tree<'a>) -> Option<&'a [u8]>
    ensures { option_copied result ≡ spec.symbol_name (shape tree.now) }
{
    match tree {
        Tree::Leaf(token) => token.symbol_name(),
        Tree::List(_) => None,
    }
}

/// The operator of a name, where it is done.
fn operator_named(name: &[u8]) -> Option<Operator>
    ensures { result ≡ spec.operator_named name.now }
{
    if is_word(name, "not") {
        Some(Operator::Not)
    } else if is_word(name, "and") {
        Some(Operator::And)
    } else if is_word(name, "or") {
        Some(Operator::Or)
    } else if is_word(name, "=>") {
        Some(Operator::Implies)
    } else if is_word(name, "xor") {
        Some(Operator::Xor)
    } else if is_word(name, "=") {
        Some(Operator::Equal)
    } else if is_word(name, "distinct") {
        Some(Operator::Distinct)
    } else if is_word(name, "ite") {
        Some(Operator::Choice)
    } else if is_word(name, "set.member") {
        Some(Operator::Member)
    } else if is_word(name, "set.subset") {
        Some(Operator::Subset)
    } else if is_word(name, "set.union") {
        Some(Operator::Union)
    } else if is_word(name, "set.inter") {
        Some(Operator::Inter)
    } else if is_word(name, "set.minus") {
        Some(Operator::Minus)
    } else if is_word(name, "set.singleton") {
        Some(Operator::Singleton)
    } else if is_word(name, "set.insert") {
        Some(Operator::Insert)
    } else {
        None
    }
}

/// What a name is that is no operator that is done.
fn other_word(name: &[u8]) -> Word
    ensures { result ≡ spec.other_word name.now }
{
    if is_operator(name) || is_left_out_operator(name) {
        Word::Outside
    } else {
        Word::Free
    }
}

/// What a name is by itself.
pub fn word_of(name: &[u8]) -> Word
    ensures { result ≡ spec.word_of name.now }
{
    if is_word(name, "true") {
        Word::True
    } else if is_word(name, "false") {
        Word::False
    } else if is_word(name, "set.empty") {
        Word::EmptySet
    } else {
        match operator_named(name) {
            Some(operator) => Word::Operator(operator),
            None => other_word(name),
        }
    }
}

/// Whether an operator takes so many arguments.
pub fn takes_count(operator: Operator, count: usize) -> bool
    ensures { result ≡ spec.takes_count operator count }
{
    match operator {
        Operator::Not | Operator::Singleton => count == 1,
        Operator::And | Operator::Or => count >= 1,
        Operator::Member | Operator::Subset | Operator::Minus => count == 2,
        Operator::Implies | Operator::Xor | Operator::Equal | Operator::Distinct => count >= 2,
        Operator::Union | Operator::Inter | Operator::Insert => count >= 2,
        Operator::Choice => count == 3,
    }
}
