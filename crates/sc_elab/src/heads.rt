//! What heads a list of a term.

ghost use Rattle.std.specs.Prelude.{◌≡◌, map, Some};
ghost use Rattle.std.specs.List.{list_all, list_any};
ghost use Rattle.sc_sexpr.specs.Shapes.{shape, shapes_of};
ghost use Rattle.std.specs.Str.{bytes_eq};
ghost use Rattle.sc_elab.specs.Words.{word_of};
ghost use Rattle.sc_elab.specs.Counts as counts;
ghost use Rattle.sc_elab.specs.Heads as spec;

use crate::sorts::list_sort;
use crate::words::{Operator, Word, is_word, symbol_name, takes_count, word_of};
use sc_sexpr::Tree;
use sc_stack::{Named, Stack};
use sc_terms::Sort;
use sc_text::{Code, Kind, Token, between, is_left_out_operator, is_reserved};

/// What is awaited next among the attributes of an annotation.
#[derive(Clone, Copy)]
pub enum Awaited {
    /// A keyword, or the end.
    Keyword,
    /// The value of the keyword before, a keyword, or the end.
    Anything,
    /// The symbol behind `:named`.
    Symbol,
}

/// What heads a list that is a term.
#[derive(Clone, Copy)]
pub enum Head {
    /// An operator, with as many arguments as it takes.
    Operator(Operator),
    /// The list is the empty set of a sort of sets.
    EmptySet(Sort),
}

/// The reserved words that head terms which are left out.
const LEFT_OUT_HEADS: [&str; 5] = ["_", "exists", "forall", "match", "par"];

fn is_among(word: &[u8], words: &[&str]) -> bool
    ensures { result ≡ list_any (λ w. bytes_eq w.now word.now) words.now }
{
    words.iter().any(|other| is_word(word, other))
}

/// Whether there is no tree.
pub fn is_end(trees: &[Tree<'_>]) -> bool
    ensures { result ≡ counts.is_end (shapes_of (map shape trees.now)) }
{
    match trees {
        [] => true,
        [_, ..] => false,
    }
}

/// Whether there is one tree.
fn is_one(trees: &[Tree<'_>]) -> bool
    ensures { result ≡ counts.is_one (shapes_of (map shape trees.now)) }
{
    match trees {
        [] => false,
        [_, rest @ ..] => is_end(rest),
    }
}

/// Whether the tree is `(x t)` with a symbol x.
#[tactic(auto, using(crate::proofs::Shaped::listed))]
fn is_binding(tree: &Tree<'_>) -> bool
    ensures { result ≡ spec.is_binding (shape tree.now) }
{
    let Tree::List(items) = tree else {
        return false;
    };
    let [variable, rest @ ..] = items.as_slice() else {
        return false;
    };
    symbol_name(variable).is_some() && is_one(rest)
}

fn are_bindings(trees: &[Tree<'_>]) -> bool
    ensures { result ≡ list_all (λ t. spec.is_binding (shape t)) trees.now }
{
    trees.iter().all(|tree| is_binding(tree))
}

/// Whether the tree is `((x t) ..)`.
#[tactic(auto, using(crate::proofs::Shaped::listed, crate::proofs::Shaped::all_bindings))]
fn is_binding_list(tree: &Tree<'_>) -> bool
    ensures { result ≡ spec.is_binding_list (shape tree.now) }
{
    let Tree::List(items) = tree else {
        return false;
    };
    !is_end(items.as_slice()) && are_bindings(items.as_slice())
}

/// Whether the trees stand behind the word of `(let ((x t) ..) body)`.
fn is_let(trees: &[Tree<'_>]) -> bool
    ensures { result ≡ spec.is_let (shapes_of (map shape trees.now)) }
{
    let [bindings, rest @ ..] = trees else {
        return false;
    };
    is_binding_list(bindings) && is_one(rest)
}

/// What is awaited behind a tree, where the tree may stand.
fn next_awaited(awaited: Awaited, tree: &Tree<'_>) -> Option<Awaited>
    ensures { result ≡ spec.next_awaited awaited (shape tree.now) }
{
    match (awaited, tree) {
        (Awaited::Symbol, _) => symbol_name(tree).map(|_| Awaited::Keyword),
        (_, Tree::Leaf(token)) if token.kind == Kind::Keyword => {
            if is_word(token.text, ":named") {
                Some(Awaited::Symbol)
            } else {
                Some(Awaited::Anything)
            }
        }
        (Awaited::Anything, _) => Some(Awaited::Keyword),
        (Awaited::Keyword, _) => None,
    }
}

/// Whether the trees are keywords, each with its value, if any.
fn are_attributes(trees: &[Tree<'_>]) -> bool
    ensures { result ≡ spec.are_attributes (shapes_of (map shape trees.now)) }
{
    let mut awaited = Awaited::Keyword;
    for tree in trees {
        match next_awaited(awaited, tree) {
            Some(next) => awaited = next,
            None => return false,
        }
    }
    !matches!(awaited, Awaited::Symbol)
}

/// Whether the trees stand behind the word of `(! t :keyword value ..)`.
fn is_annotation(trees: &[Tree<'_>]) -> bool
    ensures { result ≡ spec.is_annotation (shapes_of (map shape trees.now)) }
{
    let [_, attributes @ ..] = trees else {
        return false;
    };
    !is_end(attributes) && are_attributes(attributes)
}

/// The empty set whose sort the trees are, as they stand behind `set.empty`.
#[tactic(auto, using(crate::proofs::Shaped::listed))]
fn empty_form(trees: &[Tree<'_>], stack: &Stack) -> Result<Head, Code>
    ensures { result ≡ spec.empty_form stack.now (shapes_of (map shape trees.now)) }
{
    let [first, rest @ ..] = trees else {
        return Err(Code::E5);
    };
    match first {
        Tree::Leaf(_) => Err(Code::E5),
        Tree::List(items) => {
            if is_end(rest) {
                list_sort(items.as_slice(), stack).map(Head::EmptySet)
            } else {
                Err(Code::E5)
            }
        }
    }
}

/// What a list is that is headed by `as` with a name behind it.
fn as_named(name: &[u8], rest: &[Tree<'_>], stack: &Stack) -> Result<Head, Code>
    ensures { result ≡ spec.as_named stack.now (Some name.now) (shapes_of (map shape rest.now)) }
{
    if is_left_out_operator(name) {
        Err(Code::E8)
    } else if is_word(name, "set.empty") {
        empty_form(rest, stack)
    } else {
        Err(Code::E5)
    }
}

/// What a list is that is headed by `as`.
fn as_form(trees: &[Tree<'_>], stack: &Stack) -> Result<Head, Code>
    ensures { result ≡ spec.as_form stack.now (shapes_of (map shape trees.now)) }
{
    let [first, rest @ ..] = trees else {
        return Err(Code::E5);
    };
    match symbol_name(first) {
        Some(name) => as_named(name, rest, stack),
        None => Err(Code::E5),
    }
}

/// The code of a form that is not done, by whether it is well formed.
fn not_done(well_formed: bool) -> Code
    ensures { result ≡ spec.not_done well_formed }
{
    if well_formed { Code::E8 } else { Code::E5 }
}

/// What a list is that is headed by a reserved word.
fn reserved_head(word: &[u8], rest: &[Tree<'_>], stack: &Stack) -> Result<Head, Code>
    ensures { result ≡ spec.reserved_head stack.now word.now (shapes_of (map shape rest.now)) }
{
    if is_among(word, &LEFT_OUT_HEADS) {
        Err(Code::E8)
    } else if is_word(word, "let") {
        Err(not_done(is_let(rest)))
    } else if is_word(word, "!") {
        Err(not_done(is_annotation(rest)))
    } else if is_word(word, "as") {
        as_form(rest, stack)
    } else {
        Err(Code::E5)
    }
}

/// The code of a list headed by a list.
fn list_head(trees: &[Tree<'_>]) -> Code
    ensures { result ≡ spec.list_head (shapes_of (map shape trees.now)) }
{
    let [first, ..] = trees else {
        return Code::E5;
    };
    match first {
        Tree::Leaf(token) if token.kind == Kind::Word => not_done(is_word(token.text, "_")),
        _ => Code::E5,
    }
}

/// The code of a list headed by a name that is no operator.
fn named_head(found: Option<Named>) -> Code
    ensures { result ≡ spec.named_head found }
{
    match found {
        Some(Named::Constant(_, _)) => Code::E7,
        Some(Named::Sort(_)) | None => Code::E6,
    }
}

/// The head that a name is in front of so many arguments.
fn word_head(name: &[u8], count: usize, stack: &Stack) -> Result<Head, Code>
    ensures { result ≡ spec.word_head stack.now (word_of name.now) name.now count }
{
    match word_of(name) {
        Word::Operator(operator) => {
            if takes_count(operator, count) {
                Ok(Head::Operator(operator))
            } else {
                Err(Code::E7)
            }
        }
        Word::True | Word::False | Word::EmptySet => Err(Code::E7),
        Word::Outside => Err(Code::E8),
        Word::Free => Err(named_head(stack.look_up(name))),
    }
}

/// The head that a token is in front of the rest.
#[tactic(auto, using(crate::proofs::Shaped::counted))]
fn token_head(token: &Token<'_>, rest: &[Tree<'_>], stack: &Stack) -> Result<Head, Code>
    ensures { result ≡ spec.token_head stack.now token.now.kind token.now.text.now (shapes_of (map shape rest.now)) }
{
    match token.kind {
        Kind::Word => {
            if is_reserved(token.text) {
                reserved_head(token.text, rest, stack)
            } else {
                word_head(token.text, rest.len(), stack)
            }
        }
        Kind::Quoted => word_head(between(token.text), rest.len(), stack),
        Kind::Foreign => Err(Code::E8),
        _ => Err(Code::E5),
    }
}

/// The head of a list, or the code of what is wrong before the arguments.
#[tactic(auto, using(crate::proofs::Shaped::listed))]
pub fn head_of(trees: &[Tree<'_>], stack: &Stack) -> Result<Head, Code>
    ensures { result ≡ spec.head_of stack.now (shapes_of (map shape trees.now)) }
{
    let [head, rest @ ..] = trees else {
        return Err(Code::E5);
    };
    match head {
        Tree::Leaf(token) => token_head(token, rest, stack),
        Tree::List(items) => Err(list_head(items.as_slice())),
    }
}
