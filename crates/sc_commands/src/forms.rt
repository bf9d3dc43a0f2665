//! The forms of the commands: what may stand behind the head of each.

ghost use Rattle.std.specs.Prelude.{◌≡◌, if◌then◌else◌, Some, None, map, option_copied, option_map};
ghost use Rattle.std.specs.List.{list_all};
ghost use Rattle.std.specs.Vec.Iter.{into_iter_items};
ghost use Rattle.sc_sexpr.specs.declared.tree.Tree.TheVariants as trees;
ghost use Rattle.sc_sexpr.specs.Shapes.{shape, shapes_of};
ghost use Rattle.sc_commands.specs.Commands.{seen};
ghost use Rattle.sc_commands.specs.Forms as forms;

use crate::command::Command;
use sc_sexpr::{Items, Tree};
use sc_text::Kind;
use std::vec::IntoIter;

/// The parts of a command behind its head.
pub(crate) type Parts<'a> = IntoIter<Tree<'a>>;

/// The name that a symbol gives, without its bars.
fn symbol<'a>(tree: &Tree<'a>) -> Option<&'a [u8]>
    ensures { option_copied result ≡ forms.symbol (shape tree.now) }
{
    match tree {
        Tree::Leaf(token) => token.symbol_name(),
        Tree::List(_) => None,
    }
}

/// The digits of a numeral.
fn numeral<'a>(tree: &Tree<'a>) -> Option<&'a [u8]>
    ensures { option_copied result ≡ forms.numeral (shape tree.now) }
{
    match tree {
        Tree::Leaf(token) if token.kind == Kind::Numeral => Some(token.text),
        _ => None,
    }
}

/// The string literal, with its quotes.
fn literal<'a>(tree: &Tree<'a>) -> Option<&'a [u8]>
    ensures { option_copied result ≡ forms.literal (shape tree.now) }
{
    match tree {
        Tree::Leaf(token) if token.kind == Kind::Literal => Some(token.text),
        _ => None,
    }
}

fn is_keyword(tree: &Tree<'_>) -> bool
    ensures { result ≡ forms.is_keyword (shape tree.now) }
{
    matches!(tree, Tree::Leaf(token) if token.kind == Kind::Keyword)
}

/// Whether the tree may stand where a sort stands: it is a symbol or a list.
fn is_sort(tree: &Tree<'_>) -> bool
    ensures { result ≡ forms.is_sort (shape tree.now) }
{
    match tree {
        Tree::Leaf(_) => symbol(tree).is_some(),
        Tree::List(_) => true,
    }
}

/// Whether each tree may stand where a sort stands.
fn are_sorts(trees: &[Tree<'_>]) -> bool
    ensures { result ≡ list_all (λ t. forms.is_sort (shape t)) trees.now }
{
    trees.iter().all(|tree| is_sort(tree))
}

/// The list, where it is one of sorts.
#[tactic(auto, using(crate::proofs::Sorts::sorts_listed))]
fn list_of_sorts(tree: Tree<'_>) -> Option<Items<'_>>
    ensures { option_map (λ items. shape (trees.List items)) result ≡ (if forms.is_list_of_sorts (shape tree.entry) then Some (shape tree.entry) else None) }
{
    let Tree::List(items) = tree else {
        return None;
    };
    if !are_sorts(items.as_slice()) {
        return None;
    }
    Some(items)
}

pub(crate) fn set_logic(mut parts: Parts<'_>) -> Option<Command<'_>>
    ensures { option_map seen result ≡ forms.set_logic (shapes_of (map shape (into_iter_items parts.entry))) }
{
    let (Some(name), None) = (parts.next(), parts.next()) else {
        return None;
    };
    symbol(&name)?;
    Some(Command::SetLogic)
}

pub(crate) fn set_info(mut parts: Parts<'_>) -> Option<Command<'_>>
    ensures { option_map seen result ≡ forms.set_info (shapes_of (map shape (into_iter_items parts.entry))) }
{
    let (Some(keyword), Some(_), None) = (parts.next(), parts.next(), parts.next()) else {
        return None;
    };
    is_keyword(&keyword).then_some(Command::SetInfo)
}

pub(crate) fn declare_sort(mut parts: Parts<'_>) -> Option<Command<'_>>
    ensures { option_map seen result ≡ forms.declare_sort (shapes_of (map shape (into_iter_items parts.entry))) }
{
    let (Some(name), Some(arity), None) = (parts.next(), parts.next(), parts.next()) else {
        return None;
    };
    let name = symbol(&name)?;
    let arity = numeral(&arity)?;
    Some(Command::DeclareSort { name, arity })
}

pub(crate) fn declare_const(mut parts: Parts<'_>) -> Option<Command<'_>>
    ensures { option_map seen result ≡ forms.declare_const (shapes_of (map shape (into_iter_items parts.entry))) }
{
    let (Some(name), Some(sort), None) = (parts.next(), parts.next(), parts.next()) else {
        return None;
    };
    let name = symbol(&name)?;
    if !is_sort(&sort) {
        return None;
    }
    Some(Command::DeclareConst { name, sort })
}

pub(crate) fn declare_fun(mut parts: Parts<'_>) -> Option<Command<'_>>
    ensures { option_map seen result ≡ forms.declare_fun (shapes_of (map shape (into_iter_items parts.entry))) }
{
    let (Some(name), Some(arguments), Some(range), None) = (
        parts.next(),
        parts.next(),
        parts.next(),
        parts.next(),
    ) else {
        return None;
    };
    let name = symbol(&name)?;
    let arguments = list_of_sorts(arguments)?;
    if !is_sort(&range) {
        return None;
    }
    Some(Command::DeclareFun {
        name,
        arguments,
        result: range,
    })
}

pub(crate) fn assert(mut parts: Parts<'_>) -> Option<Command<'_>>
    ensures { option_map seen result ≡ forms.assert (shapes_of (map shape (into_iter_items parts.entry))) }
{
    let (Some(term), None) = (parts.next(), parts.next()) else {
        return None;
    };
    Some(Command::Assert { term })
}

pub(crate) fn check_sat(mut parts: Parts<'_>) -> Option<Command<'_>>
    ensures { option_map seen result ≡ forms.check_sat (shapes_of (map shape (into_iter_items parts.entry))) }
{
    parts.next().is_none().then_some(Command::CheckSat)
}

pub(crate) fn get_proof(mut parts: Parts<'_>) -> Option<Command<'_>>
    ensures { option_map seen result ≡ forms.get_proof (shapes_of (map shape (into_iter_items parts.entry))) }
{
    parts.next().is_none().then_some(Command::GetProof)
}

pub(crate) fn echo(mut parts: Parts<'_>) -> Option<Command<'_>>
    ensures { option_map seen result ≡ forms.echo (shapes_of (map shape (into_iter_items parts.entry))) }
{
    let (Some(text), None) = (parts.next(), parts.next()) else {
        return None;
    };
    let literal = literal(&text)?;
    Some(Command::Echo { literal })
}

pub(crate) fn exit(mut parts: Parts<'_>) -> Option<Command<'_>>
    ensures { option_map seen result ≡ forms.exit (shapes_of (map shape (into_iter_items parts.entry))) }
{
    parts.next().is_none().then_some(Command::Exit)
}
