//! The reader of sorts.

ghost use Rattle.std.specs.Prelude.{◌≡◌, map};
ghost use Rattle.sc_sexpr.specs.Shapes.{shape, shapes_of};
ghost use Rattle.sc_elab.specs.Words.{symbol_name};
ghost use Rattle.sc_elab.specs.Sorts as spec;

use crate::heads::is_end;
use crate::words::{is_word, symbol_name};
use sc_sexpr::Tree;
use sc_stack::{Named, Stack};
use sc_terms::Sort;
use sc_text::Code;

/// The sort with a name.
fn named_sort(name: &[u8], stack: &Stack) -> Result<Sort, Code>
    ensures { result ≡ spec.named_sort stack.now name.now }
{
    if is_word(name, "Bool") {
        return Ok(Sort::Bool);
    }
    if is_word(name, "Int") {
        return Err(Code::E8);
    }
    match stack.look_up(name) {
        Some(Named::Sort(number)) => Ok(Sort::Named(number)),
        _ => Err(Code::E6),
    }
}

/// The sort of the sets of the sort with a name.
fn named_sets(name: &[u8], stack: &Stack) -> Result<Sort, Code>
    ensures { result ≡ spec.named_sets stack.now name.now }
{
    if is_word(name, "Bool") || is_word(name, "Int") {
        return Err(Code::E8);
    }
    match stack.look_up(name) {
        Some(Named::Sort(number)) => Ok(Sort::SetNamed(number)),
        _ => Err(Code::E6),
    }
}

/// Whether the tree is the symbol `Set`.
fn is_set_word(tree: &Tree<'_>) -> bool
    ensures { result ≡ spec.is_set_word (symbol_name (shape tree.now)) }
{
    match symbol_name(tree) {
        Some(name) => is_word(name, "Set"),
        None => false,
    }
}

/// The sort of a list that `Set` heads, by what stands behind it.
fn sets_of_parts(trees: &[Tree<'_>], stack: &Stack) -> Result<Sort, Code>
    ensures { result ≡ spec.sets_of_parts stack.now (shapes_of (map shape trees.now)) }
{
    let [first, rest @ ..] = trees else {
        return Err(Code::E8);
    };
    let Some(name) = symbol_name(first) else {
        return Err(Code::E8);
    };
    if is_end(rest) {
        named_sets(name, stack)
    } else {
        Err(Code::E8)
    }
}

/// The sort that a list is.
pub fn list_sort(trees: &[Tree<'_>], stack: &Stack) -> Result<Sort, Code>
    ensures { result ≡ spec.list_sort stack.now (shapes_of (map shape trees.now)) }
{
    let [head, rest @ ..] = trees else {
        return Err(Code::E8);
    };
    if is_set_word(head) {
        sets_of_parts(rest, stack)
    } else {
        Err(Code::E8)
    }
}

/// The sort that a tree is, or the code of its fault:
///
/// - `E5` where it is a token that is no symbol: a reserved word is one only between bars.
/// - `E6` where it is a name, or `(Set T)` with a name T, that names no sort in force.
/// - `E8` for `Int`, for `(Set Int)` and `(Set Bool)`, for a set of sets, and for every other list.
///
/// `(Set T)` is the sort of the finite sets of T in cvc5's theory of sets. No memory is taken.
#[tactic(auto, using(crate::proofs::Shaped::listed))]
pub fn read_sort(tree: &Tree<'_>, stack: &Stack) -> Result<Sort, Code>
    ensures { result ≡ spec.sort_of stack.now (shape tree.now) }
{
    match tree {
        Tree::Leaf(_) => match symbol_name(tree) {
            Some(name) => named_sort(name, stack),
            None => Err(Code::E5),
        },
        Tree::List(items) => list_sort(items.as_slice(), stack),
    }
}
