//! The classes of elements that a path says to be equal, and their labels.

ghost use Rattle.std.specs.Prelude.{◌≡◌, ◌++◌, [], length, IfOk, OnOk};
ghost use Rattle.sc_branch.specs.Labels.{pair_of, pairs_of, HasLabels};
ghost use Rattle.sc_model.specs.Deciding.{AreLabelsOf};

use sc_classes::Classes;
use sc_facts::{Fact, Path};
use sc_terms::{Memory, Problem};
use std::alloc::Global;

/// Merges the classes of the two elements that a fact says to be equal, if it does.
fn merge_by(classes: &mut Classes, fact: &Fact, place: usize) -> Result<(), Memory>
    ensures counted { OnOk result (classes.new.count ≡ classes.old.count) }
    ensures pairs { OnOk result (classes.new.pairs ≡ classes.old.pairs ++ pair_of classes.old.count fact.now) }
{
    if let Fact::Eq(e, f, true) = fact {
        if *e <= *f && *f <= classes.count() {
            return classes.merge(*e, *f, place);
        }
    }
    Ok(())
}

/// The classes of the elements that the path says to be equal.
fn classes_of(alloc: Global, problem: &Problem, path: &Path) -> Result<Classes, Memory>
    ensures counted { IfOk result (λ classes. classes.count ≡ length problem.now.elements) }
    ensures pairs { IfOk result (λ classes. classes.pairs ≡ pairs_of (length problem.now.elements) path.now.facts) }
{
    let mut classes = Classes::new(alloc, problem)?;
    for (place, fact) in path.facts().iter().enumerate() {
        merge_by(&mut classes, fact, place)?;
    }
    Ok(classes)
}

/// The labels of so many elements.
fn labels_of(alloc: Global, classes: &Classes) -> Result<Vec<u32>, Memory>
    ensures { IfOk result (λ labels. HasLabels classes.now classes.now.count labels.items) }
{
    let mut labels = Vec::new(alloc);
    for place in 0..classes.count() {
        labels.push(classes.label(place + 1))?;
    }
    Ok(labels)
}

/// The classes of the elements that the path says to be equal, and the label of each element, the least of its class, by the elements' numbers less 1.
pub(crate) fn labelled(
    alloc: Global,
    problem: &Problem,
    path: &Path,
) -> Result<(Classes, Vec<u32>), Memory>
    ensures { IfOk result (λ both. AreLabelsOf problem.now path.now.facts both.0 both.1.items) }
{
    let classes = classes_of(alloc, problem, path)?;
    let labels = labels_of(alloc, &classes)?;
    Ok((classes, labels))
}
