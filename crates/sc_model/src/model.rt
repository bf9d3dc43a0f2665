//! Values that are read off a path.

ghost use Rattle.sc_terms.specs.declared.interp.Value.TheVariants.{Number};
ghost use Rattle.std.specs.Prelude.{◌≡◌, ℕ, pos, [], ◌∷◌, ◌++◌, length, IfOk, OnOk};
ghost use Rattle.std.specs.FinMap as map;
ghost use Rattle.sc_base.specs.Integers.{without, in_order};
ghost use Rattle.sc_terms.specs.Conditions.{IsIn};
ghost use Rattle.sc_terms.specs.Values.{Shows};
ghost use Rattle.sc_sorts.specs.Posed.{NamesFlag, NamesSet, NamesElement, IsOfScript, IsIntless};
ghost use Rattle.sc_model.specs.Settled.{IsSettledBy};
ghost use Rattle.sc_model.specs.Modelling as spec;
ghost use Rattle.sc_model.specs.Modelling.{label_in, HasValue, IsModelOf, Fills, Gathers, Gathered, HasNumbers, IsSetOf};

use crate::laws::settled_paths_have_models;
use sc_facts::{Fact, Path};
use sc_runs::Runs;
use sc_sorts::may_hold;
use sc_terms::{
    Element, Formula, Interp, Members, Memory, Numbers, Problem, SetTerm, Value, item_at,
};
use std::alloc::Global;

/// The set of one number.
fn single(alloc: Global, number: u32) -> Result<Runs, Memory>
    ensures { IfOk result (HasNumbers (number ∷ [])) }
{
    let value = i128::from(number);
    match Runs::span(alloc, value, value) {
        Ok(one) => Ok(one),
        Err(_) => Err(Memory),
    }
}

/// What is in one of two sets.
fn union(first: &Runs, second: &Runs) -> Result<Runs, Memory>
    ensures { IfOk result (λ r. r ≡ in_order (first.now ++ without second.now first.now)) }
{
    match first.union(second) {
        Ok(both) => Ok(both),
        Err(_) => Err(Memory),
    }
}

/// The set of these numbers. Halves are joined, so that the time is near linear in their number.
fn set_of(alloc: Global, numbers: &[u32]) -> Result<Runs, Memory>
    ensures { IfOk result (HasNumbers numbers.now) }
{
    match numbers {
        [] => Ok(Runs::empty(alloc)),
        [number] => single(alloc, *number),
        _ => {
            let (first, second) = numbers.split_at(numbers.len() / 2);
            let low = set_of(alloc, first)?;
            let high = set_of(alloc, second)?;
            let both = union(&low, &high)?;
            Ok(both)
        }
    }
}

/// A set as a value.
fn set_value(alloc: Global, members: &Runs) -> Result<Value, Memory>
    ensures { IfOk result (IsSetOf members.now) }
{
    let spans = members.spans().to_vec(alloc)?;
    Ok(Value::Set(Members::from_spans(spans)))
}

/// So many lists of nothing.
fn empty_lists(alloc: Global, count: u32) -> Result<Vec<Numbers>, Memory>
    ensures { IfOk result (λ lists. Gathers count [] lists.items) }
{
    let mut lists = Vec::new(alloc);
    for place in 0..count {
        lists.push(Numbers::new(alloc))?;
    }
    Ok(lists)
}

/// Adds the element that a fact puts into a set to the list of the set.
fn gather(lists: &mut Vec<Numbers>, fact: &Fact) -> Result<(), Memory>
    ensures { OnOk result (Gathered fact.now lists.old.items lists.new.items) }
{
    let Fact::Member(element, set, sign) = fact else {
        return Ok(());
    };
    if !*sign {
        return Ok(());
    }
    if *set == 0 {
        return Ok(());
    }
    if let Some(list) = lists.get_mut(*set as usize - 1) {
        list.push(*element)?;
    }
    Ok(())
}

/// The elements that the path puts into each set, by the sets' numbers.
fn gathered(alloc: Global, problem: &Problem, path: &Path) -> Result<Vec<Numbers>, Memory>
    ensures { IfOk result (λ lists. Gathers (length problem.now.sets) path.now.facts lists.items) }
{
    let mut lists = empty_lists(alloc, problem.counts().sets)?;
    for fact in path.facts() {
        gather(&mut lists, fact)?;
    }
    Ok(lists)
}

/// The label of an element, or 0 where it has none.
pub(crate) fn label_of(labels: &[u32], element: u32) -> u32
    ensures { result ≡ label_in labels.now element }
{
    match item_at(labels, element) {
        Some(label) => *label,
        None => 0,
    }
}

/// Adds the label of an element, if it could be a member of a set.
fn push_label(
    problem: &Problem,
    labels: &[u32],
    set: u32,
    element: u32,
    found: &mut Numbers,
) -> Result<(), Memory>
    ensures { OnOk result (found.new ≡ found.old ++ spec.labels_of problem.now (label_in labels.now) set (element ∷ [])) }
{
    if may_hold(problem, set, element) {
        found.push(label_of(labels, element))?;
    }
    Ok(())
}

/// The labels of those of the elements that could be members of a set.
fn labels_of(
    alloc: Global,
    problem: &Problem,
    labels: &[u32],
    set: u32,
    elements: &[u32],
) -> Result<Numbers, Memory>
    ensures { IfOk result (λ found. found ≡ spec.labels_of problem.now (label_in labels.now) set elements.now) }
{
    let mut found = Numbers::new(alloc);
    for element in elements {
        push_label(problem, labels, set, *element, &mut found)?;
    }
    Ok(found)
}

/// Gives a constant a value.
fn put(values: &mut Interp, constant: u32, value: Value) -> Result<(), Memory>
    ensures { OnOk result (values.new ≡ map.insert values.old constant value) }
{
    values.put(constant, value)
}

/// Gives a Bool constant, where the formula is one, its truth value on the path.
fn put_flag(
    problem: &Problem,
    path: &Path,
    labels: &[u32],
    number: u32,
    values: &mut Interp,
) -> Result<(), Memory>
    requires { IsIn (length problem.now.formulas) number }
    ensures fills { OnOk result (Fills problem.now path.now.facts (label_in labels.now) values.old values.new) }
    ensures put { OnOk result ((c : ℕ) → NamesFlag problem.now number c → HasValue values.new c) }
{
    let _labels = labels;
    if let Formula::Flag(constant) = problem.formula(number) {
        let sign = path.has(&Fact::Sign(number, true));
        put(values, *constant, Value::Flag(sign))?;
    }
    Ok(())
}

/// A number as a value.
fn number_value(number: u32) -> Value
    ensures { result ≡ Number (pos number) }
{
    Value::Number(i128::from(number))
}

/// Gives an element's constant its label.
fn put_element(
    problem: &Problem,
    path: &Path,
    labels: &[u32],
    number: u32,
    values: &mut Interp,
) -> Result<(), Memory>
    requires { IsIn (length problem.now.elements) number }
    ensures fills { OnOk result (Fills problem.now path.now.facts (label_in labels.now) values.old values.new) }
    ensures put { OnOk result ((c : ℕ) → NamesElement problem.now number c → HasValue values.new c) }
{
    let _path = path;
    if let Element::Const(constant, _) = problem.element(number) {
        let label = label_of(labels, number);
        put(values, *constant, number_value(label))?;
    }
    Ok(())
}

/// Gives a set's constant the labels of the elements that the path puts into it.
fn put_set(
    alloc: Global,
    problem: &Problem,
    path: &Path,
    labels: &[u32],
    lists: &[Numbers],
    number: u32,
    values: &mut Interp,
) -> Result<(), Memory>
    requires number { IsIn (length problem.now.sets) number }
    requires gathers { Gathers (length problem.now.sets) path.now.facts lists.now }
    ensures fills { OnOk result (Fills problem.now path.now.facts (label_in labels.now) values.old values.new) }
    ensures put { OnOk result ((c : ℕ) → NamesSet problem.now number c → HasValue values.new c) }
{
    let _path = path;
    if let SetTerm::Const(constant, _) = problem.set(number) {
        let elements = lists[number as usize - 1].as_slice();
        let found = labels_of(alloc, problem, labels, number, elements)?;
        let members = set_of(alloc, found.as_slice())?;
        put(values, *constant, set_value(alloc, &members)?)?;
    }
    Ok(())
}

/// Gives each Bool constant its truth value on the path.
fn put_flags(
    problem: &Problem,
    path: &Path,
    labels: &[u32],
    values: &mut Interp,
) -> Result<(), Memory>
    ensures fills { OnOk result (Fills problem.now path.now.facts (label_in labels.now) values.old values.new) }
    ensures put { OnOk result ((n c : ℕ) → NamesFlag problem.now n c → HasValue values.new c) }
{
    for place in 0..problem.counts().formulas {
        put_flag(problem, path, labels, place + 1, values)?;
    }
    Ok(())
}

/// Gives each element's constant its label.
fn put_elements(
    problem: &Problem,
    path: &Path,
    labels: &[u32],
    values: &mut Interp,
) -> Result<(), Memory>
    ensures fills { OnOk result (Fills problem.now path.now.facts (label_in labels.now) values.old values.new) }
    ensures put { OnOk result ((n c : ℕ) → NamesElement problem.now n c → HasValue values.new c) }
{
    for place in 0..problem.counts().elements {
        put_element(problem, path, labels, place + 1, values)?;
    }
    Ok(())
}

/// Gives each set's constant the labels of the elements that the path puts into it.
fn put_sets(
    alloc: Global,
    problem: &Problem,
    path: &Path,
    labels: &[u32],
    values: &mut Interp,
) -> Result<(), Memory>
    ensures fills { OnOk result (Fills problem.now path.now.facts (label_in labels.now) values.old values.new) }
    ensures put { OnOk result ((n c : ℕ) → NamesSet problem.now n c → HasValue values.new c) }
{
    let lists = gathered(alloc, problem, path)?;
    for place in 0..problem.counts().sets {
        put_set(alloc, problem, path, labels, &lists, place + 1, values)?;
    }
    Ok(())
}

/// The values that are read off a path. The labels are those of the elements, in their order: equal for elements that are to be equal. A Bool constant is true where the path has its formula with a plus, an element is its label, and a set has the labels of the elements of its sort that the path puts into it. They make the problem true where the path is settled by these labels. The only error is want of memory.
///
/// The time is near linear in the numbers of facts and of nodes.
pub fn model_of(
    alloc: Global,
    problem: &Problem,
    path: &Path,
    labels: &[u32],
) -> Result<Interp, Memory>
    requires script { IsOfScript problem.now }
    requires intless { IsIntless problem.now }
    ensures read_off { IfOk result (IsModelOf problem.now path.now.facts (label_in labels.now)) }
    ensures shows { IsSettledBy problem.now path.now.facts (label_in labels.now) → IfOk result (Shows problem.now) }
{
    settled_paths_have_models();
    let _roots = problem.roots();
    let mut values = Interp::new(alloc);
    put_flags(problem, path, labels, &mut values)?;
    put_elements(problem, path, labels, &mut values)?;
    put_sets(alloc, problem, path, labels, &mut values)?;
    values.interprets();
    Ok(values)
}
