//! What is due on a path.

ghost use Rattle.std.specs.Prelude.{◌≡◌, true, IfOk, MatchOption};
ghost use Rattle.std.specs.List.{AllByRecursion};
ghost use Rattle.sc_sorts.specs.Posed.{IsOfScript, IsIntless};
ghost use Rattle.sc_rules.specs.Boolean.{sign};
ghost use Rattle.sc_tree.specs.Events.{HasNoClash};
ghost use Rattle.sc_model.specs.Settled.{IsSettledBy};
ghost use Rattle.sc_model.specs.Modelling.{label_in};
ghost use Rattle.sc_model.specs.Deciding.{IsDue, AreLabelsOf};

use crate::equations::{due_differ, due_moves};
use crate::members::{due_apart, due_member, due_undecided};
use crate::signs::due_sign;
use crate::steps::Due;
use sc_classes::Classes;
use sc_facts::Path;
use sc_terms::{Memory, Problem};
use std::alloc::Global;

/// What is due on a path: a step that concludes a new fact, or, where no such step is found, a step whose two branches each bring one; nothing exactly where the path is settled by the labels, and so gives a model. The classes are those of the path's equations of elements, and the labels their least elements, in the order of the elements. The only error is want of memory.
///
/// The time is near linear in the number of memberships, of each set and each element, and of equations of sets and elements.
pub fn first_due(
    alloc: Global,
    problem: &Problem,
    path: &Path,
    classes: &Classes,
    labels: &[u32],
) -> Result<Option<Due>, Memory>
    requires script { IsOfScript problem.now }
    requires intless { IsIntless problem.now }
    requires roots { AllByRecursion (λ r. sign path.now.facts r true ≡ true) problem.now.roots }
    requires consistent { HasNoClash path.now.facts }
    requires labels { AreLabelsOf problem.now path.now.facts classes.now labels.now }
    ensures { IfOk result (λ due. MatchOption due (IsSettledBy problem.now path.now.facts (label_in labels.now)) (IsDue problem.now path.now.facts)) }
{
    let apart = due_apart(alloc, problem, path, classes, labels)?;
    let has_apart = apart.is_some();
    if has_apart {
        return Ok(apart);
    }
    let member = due_member(alloc, problem, path, classes, labels)?;
    let has_member = member.is_some();
    if has_member {
        return Ok(member);
    }
    let moved = due_moves(alloc, problem, path)?;
    let has_moved = moved.is_some();
    if has_moved {
        return Ok(moved);
    }
    let sign = due_sign(problem, path);
    let has_sign = sign.is_some();
    if has_sign {
        return Ok(sign);
    }
    let differ = due_differ(problem, path);
    let has_differ = differ.is_some();
    if has_differ {
        return Ok(differ);
    }
    Ok(due_undecided(problem, path))
}
