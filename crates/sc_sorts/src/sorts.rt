//! Sorts of terms, found by following each term's first part.

ghost use Rattle.std.specs.Prelude.{◌≡◌, ℕ, suc};
ghost use Rattle.sc_terms.specs.Values.{node_count};
ghost use Rattle.sc_sorts.specs.Sorts as spec;
ghost use Rattle.sc_sorts.specs.Walk.{sort_of, sort_after};

use sc_terms::{Element, Problem, SetTerm, Sort};

/// A term, by its number.
#[derive(Clone, Copy)]
enum Term {
    Set(u32),
    Element(u32),
}

/// What tells the sort of a term, or of a set term's members.
#[derive(Clone, Copy)]
enum Lead {
    /// The term itself: this sort, or none.
    Found(Option<Sort>),
    /// The sort of another term, or of its members.
    Part(Term),
}

/// The sort of the members of sets of this sort.
fn held_by(sort: Sort) -> Option<Sort>
    ensures { result ≡ spec.held_by sort }
{
    match sort {
        Sort::SetInt => Some(Sort::Int),
        Sort::SetNamed(number) => Some(Sort::Named(number)),
        _ => None,
    }
}

/// What tells the sort of a set term's members.
fn set_lead(problem: &Problem, number: u32) -> Lead
    ensures { (depth : ℕ) → sort_after (spec.sorts_within problem.now depth) result ≡ (spec.sorts_within problem.now (suc depth)).members number }
{
    match problem.find_set(number) {
        None => Lead::Found(None),
        Some(SetTerm::Const(_, sort)) => Lead::Found(held_by(*sort)),
        Some(SetTerm::Empty(sort)) => Lead::Found(held_by(*sort)),
        Some(SetTerm::Single(element)) => Lead::Part(Term::Element(*element)),
        Some(SetTerm::Union(first, _)) => Lead::Part(Term::Set(*first)),
        Some(SetTerm::Inter(first, _)) => Lead::Part(Term::Set(*first)),
        Some(SetTerm::Minus(first, _)) => Lead::Part(Term::Set(*first)),
    }
}

/// What tells the sort of an element.
fn element_lead(problem: &Problem, number: u32) -> Lead
    ensures { (depth : ℕ) → sort_after (spec.sorts_within problem.now depth) result ≡ (spec.sorts_within problem.now (suc depth)).element number }
{
    match problem.find_element(number) {
        None => Lead::Found(None),
        Some(Element::Const(_, sort)) => Lead::Found(Some(*sort)),
        Some(Element::Number(_)) => Lead::Found(Some(Sort::Int)),
        Some(Element::Diff(first, _)) => Lead::Part(Term::Set(*first)),
    }
}

/// What tells the sort of a term, or of its members.
fn lead_of(problem: &Problem, term: Term) -> Lead
    ensures { (depth : ℕ) → sort_after (spec.sorts_within problem.now depth) result ≡ sort_of (spec.sorts_within problem.now (suc depth)) term }
{
    match term {
        Term::Set(number) => set_lead(problem, number),
        Term::Element(number) => element_lead(problem, number),
    }
}

/// The sort of a term, or of its members: each term leads to another, at most as often as there are nodes.
fn sort_of(problem: &Problem, term: Term) -> Option<Sort>
    ensures { result ≡ sort_of (spec.sorts_within problem.now (node_count problem.now)) term }
{
    let counts = problem.counts();
    let mut left = counts.formulas as u64 + counts.sets as u64 + counts.elements as u64;
    let mut term = term;
    while left > 0 {
        match lead_of(problem, term) {
            Lead::Found(sort) => return sort,
            Lead::Part(part) => term = part,
        }
        left -= 1;
    }
    None
}

/// The sort of the members of the set term with this number; nothing exactly where there is no such term, or a term by which its sort goes is no set of a sort of sets.
pub fn members_sort(problem: &Problem, set: u32) -> Option<Sort>
    ensures { result ≡ spec.members_sort problem.now set }
{
    sort_of(problem, Term::Set(set))
}

/// The sort of the element with this number; nothing exactly where there is no such element, or it differs between sets that have none.
pub fn element_sort(problem: &Problem, element: u32) -> Option<Sort>
    ensures { result ≡ spec.element_sort problem.now element }
{
    sort_of(problem, Term::Element(element))
}

/// Whether both sorts are there, and they are the same.
fn are_same(first: Option<Sort>, second: Option<Sort>) -> bool
    ensures { result ≡ spec.are_same first second }
{
    match (first, second) {
        (Some(first), Some(second)) => first == second,
        _ => false,
    }
}

/// Whether the element has the sort of the set term's members, and both have one.
pub fn may_hold(problem: &Problem, set: u32, element: u32) -> bool
    ensures { result ≡ spec.may_hold problem.now set element }
{
    are_same(members_sort(problem, set), element_sort(problem, element))
}

/// Whether two elements are of one sort, and both have one.
pub fn elements_alike(problem: &Problem, first: u32, second: u32) -> bool
    ensures { result ≡ spec.elements_alike problem.now first second }
{
    are_same(element_sort(problem, first), element_sort(problem, second))
}

/// Whether the members of two set terms are of one sort, and both have one.
pub fn sets_alike(problem: &Problem, first: u32, second: u32) -> bool
    ensures { result ≡ spec.sets_alike problem.now first second }
{
    are_same(members_sort(problem, first), members_sort(problem, second))
}
