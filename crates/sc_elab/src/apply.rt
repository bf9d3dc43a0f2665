//! Applications of operators to arguments that are elaborated.

ghost use Rattle.std.specs.Prelude.{◌≡◌, IfOk, IfErr};
ghost use Rattle.sc_terms.specs.Same.{same_sort};
ghost use Rattle.sc_elab.specs.declared.error.ElabError.TheVariants.{Memory};
ghost use Rattle.sc_elab.specs.Growth.{Builds, IsMeant, AreMeant};
ghost use Rattle.sc_elab.specs.Elab as spec;

use crate::build::build;
use crate::error::ElabError;
use crate::meant::Meant;
use crate::words::Operator;
use sc_terms::{Bank, Numbers, Sequence, Sort};
use sc_text::Code;
use std::alloc::Global;

/// The greatest depth of a term.
const DEPTH_LIMIT: u32 = 1000;

/// Whether a sort is that of the sets of a sort.
fn is_set_of(element: Sort, set: Sort) -> bool
    ensures { result ≡ spec.is_set_of element set }
{
    match element {
        Sort::Named(number) => set == Sort::SetNamed(number),
        Sort::Int => set == Sort::SetInt,
        _ => false,
    }
}

/// Whether a sort is one of sets.
fn is_sort_of_sets(sort: Sort) -> bool
    ensures { result ≡ spec.is_sort_of_sets sort }
{
    match sort {
        Sort::SetInt | Sort::SetNamed(_) => true,
        Sort::Bool | Sort::Int | Sort::Named(_) => false,
    }
}

/// Whether things of a sort are elements of sets.
fn is_sort_of_elements(sort: Sort) -> bool
    ensures { result ≡ spec.is_sort_of_elements sort }
{
    match sort {
        Sort::Int | Sort::Named(_) => true,
        Sort::Bool | Sort::SetInt | Sort::SetNamed(_) => false,
    }
}

/// The sort of the sets of a sort of elements. Another sort stands for itself.
fn sort_of_sets(sort: Sort) -> Sort
    ensures { result ≡ spec.sort_of_sets sort }
{
    match sort {
        Sort::Int => Sort::SetInt,
        Sort::Named(number) => Sort::SetNamed(number),
        Sort::Bool | Sort::SetInt | Sort::SetNamed(_) => sort,
    }
}

fn is_of(term: &Meant, sort: Sort) -> bool
    ensures { result ≡ same_sort sort term.now.sort }
{
    sort == term.sort
}

/// Whether all terms are of a sort.
fn all_of(sort: Sort, terms: &[Meant]) -> bool
    ensures { result ≡ spec.all_of sort terms.now }
{
    terms.iter().all(|term| is_of(term, sort))
}

/// Whether all terms are of one sort.
fn are_alike(terms: &[Meant]) -> bool
    ensures { result ≡ spec.are_alike terms.now }
{
    match terms {
        [] => true,
        [first, rest @ ..] => all_of(first.sort, rest),
    }
}

fn is_choice(terms: &[Meant]) -> bool
    ensures { result ≡ spec.is_choice terms.now }
{
    match terms {
        [c, s, t] => Sort::Bool == c.sort && s.sort == t.sort,
        _ => false,
    }
}

fn is_membership(terms: &[Meant]) -> bool
    ensures { result ≡ spec.is_membership terms.now }
{
    match terms {
        [element, set] => is_set_of(element.sort, set.sort),
        _ => false,
    }
}

/// Whether all terms are sets of one sort, and there is one.
fn are_sets(terms: &[Meant]) -> bool
    ensures { result ≡ spec.are_sets terms.now }
{
    match terms {
        [] => false,
        [first, rest @ ..] => is_sort_of_sets(first.sort) && all_of(first.sort, rest),
    }
}

fn is_single(terms: &[Meant]) -> bool
    ensures { result ≡ spec.is_single terms.now }
{
    match terms {
        [element] => is_sort_of_elements(element.sort),
        _ => false,
    }
}

/// Whether the terms are elements of a sort, and behind them a set of such.
fn are_inserted(sort: Sort, terms: &[Meant]) -> bool
    ensures { result ≡ spec.are_inserted sort terms.now }
{
    match terms {
        [elements @ .., set] => all_of(sort, elements) && is_set_of(sort, set.sort),
        [] => false,
    }
}

/// The sort of the first term.
fn first_sort(terms: &[Meant]) -> Sort
    ensures { result ≡ spec.first_sort terms.now }
{
    match terms {
        [] => Sort::Bool,
        [first, ..] => first.sort,
    }
}

/// Whether the sorts of the arguments fit the operator.
fn fits(operator: Operator, terms: &[Meant]) -> bool
    ensures { result ≡ spec.fits operator terms.now }
{
    match operator {
        Operator::Not | Operator::And | Operator::Or | Operator::Implies | Operator::Xor => all_of(
            Sort::Bool,
            terms,
        ),
        Operator::Equal | Operator::Distinct => are_alike(terms),
        Operator::Choice => is_choice(terms),
        Operator::Member => is_membership(terms),
        Operator::Subset | Operator::Union | Operator::Inter | Operator::Minus => are_sets(terms),
        Operator::Singleton => is_single(terms),
        Operator::Insert => are_inserted(first_sort(terms), terms),
    }
}

/// Whether the operator is done for arguments of these sorts, where they fit.
fn is_done(operator: Operator, terms: &[Meant]) -> bool
    ensures { result ≡ spec.is_done operator terms.now }
{
    match operator {
        Operator::Not | Operator::And | Operator::Or | Operator::Implies | Operator::Xor => true,
        Operator::Equal | Operator::Distinct => Sort::Int != first_sort(terms),
        Operator::Choice => all_of(Sort::Bool, terms),
        Operator::Member | Operator::Subset | Operator::Union | Operator::Inter => true,
        Operator::Minus | Operator::Singleton | Operator::Insert => true,
    }
}

/// The sort of an application, by the sort of its first argument.
fn sort_made(operator: Operator, sort: Sort) -> Sort
    ensures { result ≡ spec.sort_made operator sort }
{
    match operator {
        Operator::Not | Operator::And | Operator::Or | Operator::Implies | Operator::Xor =>
            Sort::Bool,
        Operator::Equal | Operator::Distinct | Operator::Choice => Sort::Bool,
        Operator::Member | Operator::Subset => Sort::Bool,
        Operator::Union | Operator::Inter | Operator::Minus => sort,
        Operator::Singleton | Operator::Insert => sort_of_sets(sort),
    }
}

/// The greatest depth of the terms.
fn deepest(terms: &[Meant]) -> u32
    ensures { result ≡ spec.deepest terms.now }
{
    let mut depth = 0;
    for term in terms {
        depth = depth.max(term.depth);
    }
    depth
}

/// The numbers of the terms' nodes.
fn numbers(alloc: Global, terms: &[Meant]) -> Result<Numbers, ElabError>
    ensures ok { IfOk result (λ ns. ns ≡ spec.numbers terms.now) }
    ensures err { IfErr result (λ e. e ≡ Memory) }
{
    let mut made = Sequence::new(alloc);
    for term in terms {
        if made.push(term.number).is_err() {
            return Err(ElabError::Memory);
        }
    }
    Ok(made)
}

/// What is wrong with an application, before its node is built.
fn application_fault(operator: Operator, terms: &[Meant]) -> Option<Code>
    ensures { result ≡ spec.application_fault operator terms.now }
{
    if !fits(operator, terms) {
        Some(Code::E7)
    } else if !is_done(operator, terms) {
        Some(Code::E8)
    } else if deepest(terms) >= DEPTH_LIMIT {
        Some(Code::E16(DEPTH_LIMIT as u64))
    } else {
        None
    }
}

/// An application of an operator to arguments that are elaborated. The fault is `E7` where their
/// sorts don't fit, then `E8` where the operator isn't done for them, then `E16` where the term is
/// too deep, and then that of building its core formula or set term.
pub fn apply(
    alloc: Global,
    operator: Operator,
    terms: &[Meant],
    bank: &mut Bank,
) -> Result<Meant, ElabError>
    requires { AreMeant bank.old terms.now }
    ensures { Builds IsMeant (spec.apply operator terms.now bank.old) bank.old result bank.new }
{
    if let Some(code) = application_fault(operator, terms) {
        return Err(ElabError::Fault(code));
    }
    let depth = deepest(terms) + 1;
    let arguments = match numbers(alloc, terms) {
        Ok(arguments) => arguments,
        Err(error) => return Err(error),
    };
    let sort = first_sort(terms);
    match build(alloc, operator, sort, arguments, bank) {
        Ok(number) => Ok(Meant {
            sort: sort_made(operator, sort),
            number,
            depth,
        }),
        Err(error) => Err(error),
    }
}
