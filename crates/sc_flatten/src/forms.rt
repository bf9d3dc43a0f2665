//! Forms by the new numbers of their atoms.

ghost use Rattle.std.specs.Prelude.{◌≡◌, ◌<◌, ◌^◌, length, map, IfOk, OnOk};
ghost use Rattle.std.specs.BTreeMap.{insert_entry};
ghost use Rattle.sc_terms.specs.Forms.{atom_cmp};
ghost use Rattle.sc_flatten.specs.Stock.{number_in, atom_in, form_in};
ghost use Rattle.sc_flatten.specs.Numbered.{IsAmong, AtomListed, FormListed};
ghost use Rattle.sc_flatten.specs.Tables.{numbering, AreFew, as_term};

use crate::tables::Tables;
use indexmap::IndexSet;
use sc_terms::{Atom, Form, Memory};
use std::alloc::Global;
use std::collections::BTreeMap;

/// The number, from 1, of an item that is among them.
#[tactic(auto, unfolding(crate::specs::Stock::number_in))]
pub(crate) fn number_in(items: &IndexSet<u32>, item: u32) -> u32
    requires among { IsAmong items.now.keys item }
    requires few { length items.now.keys < 2 ^ 32 }
    ensures { result ≡ number_in items.now.keys item }
{
    items.get_index_of(&item).unwrap() as u32 + 1
}

/// An atom of the bank by its new number.
fn atom_in(tables: &Tables, atom: &Atom) -> Atom
    requires listed { AtomListed (numbering tables.now) atom.now }
    requires few { AreFew tables.now }
    ensures { result ≡ atom_in (numbering tables.now) atom.now }
{
    match atom {
        Atom::Int(constant) => Atom::Int(number_in(&tables.ints, *constant)),
        Atom::Card(set) => Atom::Card(number_in(&tables.sets, *set)),
        _ => unreachable!(),
    }
}

/// A term of the bank takes its place by the new number of its atom.
fn place(
    tables: &Tables,
    placed: &mut BTreeMap<Atom, i128>,
    term: &(i128, Atom),
) -> Result<(), Memory>
    requires listed { AtomListed (numbering tables.now) term.now.1 }
    requires few { AreFew tables.now }
    ensures { OnOk result (placed.new.entries ≡ insert_entry atom_cmp placed.old.entries (atom_in (numbering tables.now) term.now.1) term.now.0) }
{
    let atom = atom_in(tables, &term.1);
    placed.insert(atom, term.0)?;
    Ok(())
}

/// The terms of a form of the bank by the new numbers, in the order of the atoms.
fn place_terms(
    alloc: Global,
    tables: &Tables,
    terms: &[(i128, Atom)],
) -> Result<BTreeMap<Atom, i128>, Memory>
    requires listed { FormListed (numbering tables.now) terms.now }
    requires few { AreFew tables.now }
    ensures { IfOk result (λ placed. map as_term placed.entries ≡ form_in (numbering tables.now) terms.now) }
{
    let mut placed = BTreeMap::new(alloc);
    for index in (0..terms.len()).rev() {
        place(tables, &mut placed, &terms[index])?;
    }
    Ok(placed)
}

/// The terms in order.
fn into_terms(alloc: Global, mut placed: BTreeMap<Atom, i128>) -> Result<Vec<(i128, Atom)>, Memory>
    ensures { IfOk result (λ terms. terms.items ≡ map as_term placed.entries) }
{
    let mut terms = Vec::new(alloc);
    while let Some((atom, coefficient)) = placed.pop_first() {
        terms.push((coefficient, atom))?;
    }
    Ok(terms)
}

/// A form of the bank by the new numbers of its atoms.
pub(crate) fn form_in(alloc: Global, tables: &Tables, form: &Form) -> Result<Form, Memory>
    requires listed { FormListed (numbering tables.now) form.now }
    requires few { AreFew tables.now }
    ensures { IfOk result (λ f. f ≡ form_in (numbering tables.now) form.now) }
{
    let placed = place_terms(alloc, tables, form.terms())?;
    let terms = into_terms(alloc, placed)?;
    Ok(Form::from_terms(terms))
}
