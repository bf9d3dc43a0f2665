//! The components of set terms, and their bases.

ghost use Rattle.std.specs.Prelude.{◌≡◌, ◌<◌, ◌≤◌, ◌+◌, ◌++◌, ◌^◌, [], ◌∷◌, ℕ, nat_eq, length, filter, slice_set, slice_index_or, IfOk, OnOk};
ghost use Rattle.std.specs.List.{AllByRecursion};
ghost use Rattle.sc_base.specs.Numbered.{item_at};
ghost use Rattle.indexmap.specs.IndexSet.{insert_key};
ghost use Rattle.sc_flatten.specs.Classes.{is_home, homes_of, classes_of, is_basic, basis_in, bases_of, components_of};
ghost use Rattle.sc_flatten.specs.Groups.{grouped};
ghost use Rattle.sc_flatten.specs.Forests.{IsLow, IsForest};

use crate::classes::{find, forest};
use crate::links::{is_home, links};
use indexmap::IndexSet;
use sc_terms::{Bases, Formula, Memory, Numbers, SetTerm, item_at};
use std::alloc::Global;

/// Adds a set term's number unless it is an empty set.
fn add_home(homes: &mut Vec<u32>, sets: &[SetTerm], number: u32) -> Result<(), Memory>
    ensures { OnOk result (homes.new.items ≡ homes.old.items ++ filter (is_home sets.now) (number ∷ [])) }
{
    if is_home(sets, number) {
        homes.push(number)?;
    }
    Ok(())
}

/// The numbers of the set terms other than the empty sets, in order.
fn homes(alloc: Global, sets: &[SetTerm]) -> Result<Vec<u32>, Memory>
    requires { length sets.now < 2 ^ 32 }
    ensures { IfOk result (λ homes. homes.items ≡ homes_of sets.now) }
{
    let mut homes = Vec::new(alloc);
    for index in 0..sets.len() {
        add_home(&mut homes, sets, index as u32 + 1)?;
    }
    Ok(homes)
}

/// Adds a number to one of the lists.
fn push_at(lists: &mut Vec<Numbers>, place: usize, number: u32) -> Result<(), Memory>
    requires { place < length lists.old.items }
    ensures { OnOk result (lists.new.items ≡ slice_set lists.old.items place (slice_index_or lists.old.items place [] ++ number ∷ [])) }
{
    lists[place].push(number)?;
    Ok(())
}

/// Adds a number to the list of a key.
fn enter(
    alloc: Global,
    keys: &mut IndexSet<u32>,
    lists: &mut Vec<Numbers>,
    key: u32,
    number: u32,
) -> Result<(), Memory>
    requires { length lists.old.items ≡ length keys.old.keys }
    ensures keys { OnOk result (keys.new.keys ≡ insert_key nat_eq keys.old.keys key) }
    ensures lists { OnOk result (lists.new.items ≡ grouped keys.old.keys lists.old.items key number) }
{
    if let Some(place) = keys.get_index_of(&key) {
        return push_at(lists, place, number);
    }
    lists.push(Numbers::from_slice(alloc, &[number])?)?;
    keys.insert(key)?;
    Ok(())
}

/// The numbers in classes by the least number of each one's class.
fn classes(alloc: Global, parents: &mut [u32], numbers: &[u32]) -> Result<Bases, Memory>
    requires low { IsLow parents.old }
    requires range { AllByRecursion (λ n. n < length parents.old) numbers.now }
    ensures { (least : ℕ → ℕ) → IsForest least parents.old → IfOk result (λ classes. classes ≡ classes_of least numbers.now) }
{
    let mut keys = IndexSet::new(alloc);
    let mut lists = Vec::new(alloc);
    for number in numbers {
        let key = find(parents, *number);
        enter(alloc, &mut keys, &mut lists, key, *number)?;
    }
    Ok(Bases::from_vec(lists))
}

/// The components of set terms and formulas by their numbers: the classes of related set terms other than the empty sets, in the order of their least numbers.
#[tactic(auto, using(crate::proofs::Linked::links_in))]
pub(crate) fn components(
    alloc: Global,
    sets: &[SetTerm],
    formulas: &[Formula],
) -> Result<Bases, Memory>
    requires { length sets.now < 2 ^ 32 }
    ensures { IfOk result (λ components. components ≡ components_of sets.now formulas.now) }
{
    let links = links(alloc, sets, formulas)?;
    let mut parents = forest(alloc, sets.len() as u32, links.as_slice())?;
    let homes = homes(alloc, sets)?;
    classes(alloc, &mut parents, homes.as_slice())
}

/// Whether this is the number of a set constant or of a set of one element.
fn is_basic(sets: &[SetTerm], number: u32) -> bool
    ensures { result ≡ is_basic (item_at sets.now number) }
{
    matches!(
        item_at(sets, number),
        Some(SetTerm::Const(_, _) | SetTerm::Single(_))
    )
}

/// Adds a number to the basis if it is that of a set constant or of a set of one element.
fn add_basic(basis: &mut Numbers, sets: &[SetTerm], number: u32) -> Result<(), Memory>
    ensures { OnOk result (basis.new ≡ basis.old ++ basis_in sets.now (number ∷ [])) }
{
    if is_basic(sets, number) {
        basis.push(number)?;
    }
    Ok(())
}

/// The set constants and the sets of one element of a component, in order.
fn basis(alloc: Global, sets: &[SetTerm], component: &Numbers) -> Result<Numbers, Memory>
    ensures { IfOk result (λ basis. basis ≡ basis_in sets.now component.now) }
{
    let mut basis = Numbers::new(alloc);
    for number in component.as_slice() {
        add_basic(&mut basis, sets, *number)?;
    }
    Ok(basis)
}

/// The bases of the components.
pub(crate) fn bases(
    alloc: Global,
    sets: &[SetTerm],
    components: &[Numbers],
) -> Result<Bases, Memory>
    ensures { IfOk result (λ bases. bases ≡ bases_of sets.now components.now) }
{
    let mut bases = Bases::new(alloc);
    for component in components {
        bases.push(basis(alloc, sets, component)?)?;
    }
    Ok(bases)
}
