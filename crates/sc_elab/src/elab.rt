//! Terms to core formulas.

ghost use Rattle.std.specs.Prelude.{◌≡◌, Some, IfOk, map};
ghost use Rattle.sc_base.specs.Numbered.{item_at};
ghost use Rattle.sc_sexpr.specs.Shapes.{shape, shapes_of};
ghost use Rattle.sc_terms.specs.declared.nodes.Element.TheVariants as elements;
ghost use Rattle.sc_terms.specs.declared.nodes.Formula.TheVariants as formulas;
ghost use Rattle.sc_terms.specs.declared.nodes.Node.TheVariants as nodes;
ghost use Rattle.sc_terms.specs.declared.nodes.SetTerm.TheVariants as sets;
ghost use Rattle.sc_terms.specs.declared.nodes.Sort.TheVariants as sorts;
ghost use Rattle.sc_terms.specs.Bank.{Begins, HasSorts, NodeStands, IsFormulaOf, IsSetOf, IsElementOf, IsDeclaredSort, IsSetSort};
ghost use Rattle.sc_stack.specs.Names.{sorts_of, look_up};
ghost use Rattle.sc_elab.specs.States.{Answers, put, state_of};
ghost use Rattle.sc_elab.specs.Growth.{Gives, Builds, IsCompound, IsMeant, AreMeant};
ghost use Rattle.sc_elab.specs.Elab as spec;

use crate::apply::apply;
use crate::build::{put_error, put_formula};
use crate::error::ElabError;
use crate::heads::{Head, head_of};
use crate::meant::Meant;
use crate::set_terms::put_set_term;
use crate::words::{Word, word_of};
use sc_sexpr::{Items, Tree};
use sc_stack::{Named, Stack};
use sc_terms::{Bank, Element, Formula, Sequence, SetTerm, Sort};
use sc_text::{Code, Kind, Token, between, is_reserved};
use std::alloc::Global;

/// Puts a Bool constant into the bank.
fn put_flag(number: u32, stack: &Stack, bank: &mut Bank) -> Result<u32, ElabError>
    requires { item_at (sorts_of stack.now) number ≡ Some sorts.Bool }
    ensures { Gives (sorts_of stack.now) IsFormulaOf (put (nodes.Formula (formulas.Flag number)) bank.old) bank.old result bank.new }
{
    bank.formula(Formula::Flag(number)).map_err(put_error)
}

/// Puts a constant of a declared sort into the bank.
fn put_element(number: u32, sort: Sort, stack: &Stack, bank: &mut Bank) -> Result<u32, ElabError>
    requires known { item_at (sorts_of stack.now) number ≡ Some sort }
    requires declared { IsDeclaredSort sort }
    ensures { Gives (sorts_of stack.now) IsElementOf (put (nodes.Element (elements.Const number sort)) bank.old) bank.old result bank.new }
{
    bank.element(Element::Const(number, sort))
        .map_err(put_error)
}

/// Puts a constant for sets into the bank.
fn put_set(number: u32, sort: Sort, stack: &Stack, bank: &mut Bank) -> Result<u32, ElabError>
    requires known { item_at (sorts_of stack.now) number ≡ Some sort }
    requires set { IsSetSort sort }
    ensures { Gives (sorts_of stack.now) IsSetOf (put (nodes.Set (sets.Const number sort)) bank.old) bank.old result bank.new }
{
    bank.set(SetTerm::Const(number, sort)).map_err(put_error)
}

/// A term that is one node.
fn leaf(sort: Sort, number: u32) -> Meant
    ensures { result ≡ spec.meant sort 1 number }
{
    Meant {
        sort,
        number,
        depth: 1,
    }
}

/// `true` or `false`.
fn leaf_formula(formula: Formula, bank: &mut Bank) -> Result<Meant, ElabError>
    requires stands { NodeStands bank.old (nodes.Formula formula) }
    requires compound { IsCompound formula }
    ensures { Builds IsMeant (spec.leaf_formula (nodes.Formula formula) bank.old) bank.old result bank.new }
{
    match put_formula(formula, bank) {
        Ok(number) => Ok(leaf(Sort::Bool, number)),
        Err(error) => Err(error),
    }
}

/// A Bool constant.
fn flag(number: u32, stack: &Stack, bank: &mut Bank) -> Result<Meant, ElabError>
    requires { item_at (sorts_of stack.now) number ≡ Some sorts.Bool }
    ensures { Gives (sorts_of stack.now) IsMeant (spec.leaf_formula (nodes.Formula (formulas.Flag number)) bank.old) bank.old result bank.new }
{
    match put_flag(number, stack, bank) {
        Ok(number) => Ok(leaf(Sort::Bool, number)),
        Err(error) => Err(error),
    }
}

/// A constant of a declared sort, behind the guard `true`.
fn element(number: u32, sort: Sort, stack: &Stack, bank: &mut Bank) -> Result<Meant, ElabError>
    requires known { item_at (sorts_of stack.now) number ≡ Some sort }
    requires declared { IsDeclaredSort sort }
    ensures { Gives (sorts_of stack.now) IsMeant (spec.leaf_value sort (nodes.Element (elements.Const number sort)) bank.old) bank.old result bank.new }
{
    match put_formula(Formula::True, bank) {
        Ok(_) => match put_element(number, sort, stack, bank) {
            Ok(number) => Ok(leaf(sort, number)),
            Err(error) => Err(error),
        },
        Err(error) => Err(error),
    }
}

/// A constant for sets, behind the guard `true`.
fn set(number: u32, sort: Sort, stack: &Stack, bank: &mut Bank) -> Result<Meant, ElabError>
    requires known { item_at (sorts_of stack.now) number ≡ Some sort }
    requires set { IsSetSort sort }
    ensures { Gives (sorts_of stack.now) IsMeant (spec.leaf_value sort (nodes.Set (sets.Const number sort)) bank.old) bank.old result bank.new }
{
    match put_formula(Formula::True, bank) {
        Ok(_) => match put_set(number, sort, stack, bank) {
            Ok(number) => Ok(leaf(sort, number)),
            Err(error) => Err(error),
        },
        Err(error) => Err(error),
    }
}

/// The empty set of a sort of sets, behind the guard `true`.
fn put_empty(sort: Sort, bank: &mut Bank) -> Result<Meant, ElabError>
    requires { IsSetSort sort }
    ensures { Builds IsMeant (spec.leaf_value sort (nodes.Set (sets.Empty sort)) bank.old) bank.old result bank.new }
{
    match put_formula(Formula::True, bank) {
        Ok(_) => match put_set_term(SetTerm::Empty(sort), bank) {
            Ok(number) => Ok(leaf(sort, number)),
            Err(error) => Err(error),
        },
        Err(error) => Err(error),
    }
}

/// The empty set of a sort. Sets of integers are not done.
fn empty_set(sort: Sort, bank: &mut Bank) -> Result<Meant, ElabError>
    ensures { Builds IsMeant (spec.empty_set sort bank.old) bank.old result bank.new }
{
    match sort {
        Sort::SetNamed(_) => put_empty(sort, bank),
        Sort::SetInt | Sort::Bool | Sort::Int | Sort::Named(_) => {
            Err(ElabError::Fault(Code::E8))
        }
    }
}

/// A constant. Integers and their sets are not done.
fn constant(number: u32, sort: Sort, stack: &Stack, bank: &mut Bank) -> Result<Meant, ElabError>
    requires { item_at (sorts_of stack.now) number ≡ Some sort }
    ensures { Gives (sorts_of stack.now) IsMeant (spec.constant number sort bank.old) bank.old result bank.new }
{
    match sort {
        Sort::Bool => flag(number, stack, bank),
        Sort::Named(_) => element(number, sort, stack, bank),
        Sort::SetNamed(_) => set(number, sort, stack, bank),
        Sort::Int | Sort::SetInt => Err(ElabError::Fault(Code::E8)),
    }
}

/// A term that is a name which may be declared.
fn declared_name(name: &[u8], stack: &Stack, bank: &mut Bank) -> Result<Meant, ElabError>
    ensures { Gives (sorts_of stack.now) IsMeant (spec.named_term (look_up stack.now name.now) bank.old) bank.old result bank.new }
{
    match stack.look_up(name) {
        Some(Named::Constant(number, sort)) => constant(number, sort, stack, bank),
        Some(Named::Sort(_)) | None => Err(ElabError::Fault(Code::E6)),
    }
}

/// A term that is a name.
fn name_term(name: &[u8], stack: &Stack, bank: &mut Bank) -> Result<Meant, ElabError>
    ensures { Gives (sorts_of stack.now) IsMeant (spec.name_term stack.now name.now bank.old) bank.old result bank.new }
{
    match word_of(name) {
        Word::True => leaf_formula(Formula::True, bank),
        Word::False => leaf_formula(Formula::False, bank),
        Word::Operator(_) | Word::EmptySet => Err(ElabError::Fault(Code::E7)),
        Word::Outside => Err(ElabError::Fault(Code::E8)),
        Word::Free => declared_name(name, stack, bank),
    }
}

/// A term that is one token.
fn token_term(token: &Token<'_>, stack: &Stack, bank: &mut Bank) -> Result<Meant, ElabError>
    ensures { Gives (sorts_of stack.now) IsMeant (spec.token_term stack.now token.now.kind token.now.text.now bank.old) bank.old result bank.new }
{
    match token.kind {
        Kind::Word => {
            if is_reserved(token.text) {
                Err(ElabError::Fault(Code::E5))
            } else {
                name_term(token.text, stack, bank)
            }
        }
        Kind::Quoted => name_term(between(token.text), stack, bank),
        Kind::Numeral | Kind::Foreign | Kind::Literal | Kind::Keyword => {
            Err(ElabError::Fault(Code::E8))
        }
        Kind::Left | Kind::Right => Err(ElabError::Fault(Code::E5)),
    }
}

/// The sort of a term, its node and its depth.
#[cycle(term)]
fn term(alloc: Global, tree: &Tree<'_>, stack: &Stack, bank: &mut Bank) -> Result<Meant, ElabError>
    ensures { Gives (sorts_of stack.now) IsMeant (spec.term stack.now (shape tree.now) bank.old) bank.old result bank.new }
{
    match tree {
        Tree::Leaf(token) => token_term(token, stack, bank),
        Tree::List(items) => match head_of(items.trees.as_slice(), stack) {
            Ok(Head::EmptySet(sort)) => empty_set(sort, bank),
            Ok(Head::Operator(operator)) => match arguments(alloc, items, stack, bank) {
                Ok(terms) => apply(alloc, operator, terms.as_slice(), bank),
                Err(error) => Err(error),
            },
            Err(code) => Err(ElabError::Fault(code)),
        },
    }
}

/// The terms behind the head of a list, from left to right.
#[cycle(term)]
fn arguments(
    alloc: Global,
    items: &Items<'_>,
    stack: &Stack,
    bank: &mut Bank,
) -> Result<Sequence<Meant>, ElabError>
    ensures { Gives (sorts_of stack.now) AreMeant (spec.behind_head stack.now (shapes_of (map shape items.now.trees.items)) bank.old) bank.old result bank.new }
{
    let trees = items.trees.as_slice();
    let mut made = Sequence::new(alloc);
    for index in 1..trees.len() {
        match term(alloc, &trees[index], stack, bank) {
            Ok(meant) => {
                if made.push(meant).is_err() {
                    return Err(ElabError::Memory);
                }
            }
            Err(error) => return Err(error),
        }
    }
    Ok(made)
}

/// The number of the core formula of a term of sort Bool: terms of SMT-LIB 2.6, with the operators
/// of cvc5's theory of finite sets. The formula's nodes are put into the bank, the parts of each
/// before it and from left to right; equal nodes are one.
///
/// The fault is the first one, depth first: the list's own shape (`E8`, `E5`), the name in front
/// (`E8`, `E6`), the number of arguments (`E7`), the arguments from left to right, the sorts of the
/// arguments (`E7`), an operator that isn't done for them (`E8`), a depth of more than 1,000 (`E16`),
/// and a new node where the bank holds 200,000 (`E16`). A term of another sort than Bool is `E7` at
/// the end. In `(as set.empty S)` the shape is `E5` where S is no list, and then the sort has its own
/// fault.
///
/// These are not done, and `E8` at the name in front, or at the leaf: integers and their sets,
/// `let` and `!` where they are well formed, and all operators but `not`, `and`, `or`, `=>`,
/// `xor`, `=`, `distinct`, `ite`, `set.member`, `set.subset`, `set.union`, `set.inter`, `set.minus`,
/// `set.singleton`, `set.insert` and `set.empty`; `ite` is done of Bool alone.
///
/// Nodes that were put before a fault, or before memory was wanting, stay.
pub fn elaborate(
    alloc: Global,
    tree: &Tree<'_>,
    stack: &Stack,
    bank: &mut Bank,
) -> Result<u32, ElabError>
    requires { HasSorts (sorts_of stack.now) bank.old }
    ensures exact { Answers (spec.core (shape tree.now) (state_of bank.old stack.now)) result bank.new }
    ensures formula { IfOk result (λ n. IsFormulaOf bank.new n) }
    ensures begins { Begins bank.old bank.new }
    ensures has_sorts { HasSorts (sorts_of stack.now) bank.new }
{
    match term(alloc, tree, stack, bank) {
        Ok(meant) => {
            if Sort::Bool == meant.sort {
                Ok(meant.number)
            } else {
                Err(ElabError::Fault(Code::E7))
            }
        }
        Err(error) => Err(error),
    }
}
