//! Which set terms are related.

ghost use Rattle.std.specs.Prelude.{◌≡◌, ◌<◌, ◌^◌, ◌∷◌, ◌++◌, [], map, length, IfOk, OnOk};
ghost use Rattle.sc_flatten.specs.Classes.{is_home, links_between, set_arguments, side_links, links_of};

use sc_terms::{Formula, Memory, SetTerm, item_at};
use std::alloc::Global;

/// Whether this is the number of a set term other than an empty set.
pub(crate) fn is_home(sets: &[SetTerm], number: u32) -> bool
    ensures { result ≡ is_home sets.now number }
{
    match item_at(sets, number) {
        None | Some(SetTerm::Empty(_)) => false,
        _ => true,
    }
}

/// Adds a link between two set terms, unless one is an empty set.
fn link(
    links: &mut Vec<(u32, u32)>,
    sets: &[SetTerm],
    first: u32,
    second: u32,
) -> Result<(), Memory>
    ensures { OnOk result (links.new.items ≡ links.old.items ++ links_between sets.now ((first, second) ∷ [])) }
{
    if is_home(sets, first) && is_home(sets, second) {
        links.push((first, second))?;
    }
    Ok(())
}

/// Adds the links between a set term and its arguments.
fn link_arguments(
    links: &mut Vec<(u32, u32)>,
    sets: &[SetTerm],
    number: u32,
    set: &SetTerm,
) -> Result<(), Memory>
    ensures { OnOk result (links.new.items ≡ links.old.items ++ links_between sets.now (map (λ t. (number, t)) (set_arguments set.now))) }
{
    match set {
        SetTerm::Union(first, second)
        | SetTerm::Inter(first, second)
        | SetTerm::Minus(first, second) => {
            link(links, sets, number, *first)?;
            link(links, sets, number, *second)
        }
        _ => Ok(()),
    }
}

/// Adds the link between the sides of an equation of sets.
fn link_sides(
    links: &mut Vec<(u32, u32)>,
    sets: &[SetTerm],
    formula: &Formula,
) -> Result<(), Memory>
    ensures { OnOk result (links.new.items ≡ links.old.items ++ links_between sets.now (side_links formula.now)) }
{
    match formula {
        Formula::EqSet(first, second) => link(links, sets, *first, *second),
        _ => Ok(()),
    }
}

/// The pairs of set terms of which one is an argument of the other, and of those that are the sides of an equation; the empty sets are left aside.
pub(crate) fn links(
    alloc: Global,
    sets: &[SetTerm],
    formulas: &[Formula],
) -> Result<Vec<(u32, u32)>, Memory>
    requires { length sets.now < 2 ^ 32 }
    ensures { IfOk result (λ links. links.items ≡ links_of sets.now formulas.now) }
{
    let mut links = Vec::new(alloc);
    let mut number = 0;
    for set in sets {
        number += 1;
        link_arguments(&mut links, sets, number, set)?;
    }
    for formula in formulas {
        link_sides(&mut links, sets, formula)?;
    }
    Ok(links)
}
