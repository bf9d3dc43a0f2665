//! When values are tried at a leaf that has open formulas. What is said here costs time alone.

use sc_deriv::{Step, Steps, Taken};
use sc_rules::PlainStep;

/// How often the leaves were begun, and when values are tried with guessed signs again: at the first leaf that a split made, and then ever more rarely, since each trial costs as much as the leaf.
#[derive(Clone, Copy)]
pub(crate) struct Trials {
    /// Whether a split leads to the leaf.
    is_split: bool,
    /// Whether values with guessed signs were tried at the leaf.
    is_tried: bool,
    /// Whether values without guessed signs were tried at the root's leaf though formulas were open.
    is_root_tried: bool,
    /// How many leaves that a split made were begun.
    leaves: u32,
    /// How many must have been begun before values are tried again.
    next: u32,
}

/// Whether a step has two branches.
fn is_split(taken: &Taken) -> bool {
    let Step::Plain(step) = &taken.step;
    matches!(step, PlainStep::Cut(_) | PlainStep::Differ(_, _))
}

/// Whether one of the steps has two branches.
fn has_split(steps: &Steps) -> bool {
    steps.as_slice().iter().any(is_split)
}

impl Trials {
    /// At the first leaf, to which these steps lead.
    pub(crate) fn new(steps: &Steps) -> Trials {
        let start = Trials {
            is_split: false,
            is_tried: false,
            is_root_tried: false,
            leaves: 0,
            next: 1,
        };
        start.at(steps)
    }

    /// At another leaf, to which these steps lead.
    pub(crate) fn at(&self, steps: &Steps) -> Trials {
        let is_split = has_split(steps);
        Trials {
            is_split,
            is_tried: false,
            is_root_tried: self.is_root_tried,
            leaves: self.leaves.saturating_add(is_split as u32),
            next: self.next,
        }
    }

    /// Whether signs may be guessed at the leaf, where no more steps can be taken or not.
    pub(crate) fn may_guess(&self, is_full: bool) -> bool {
        is_full || self.is_split
    }

    /// Whether values are to be tried without guesses of signs: once at the root's leaf, where many a script is satisfied by them.
    pub(crate) fn begin_plainly(&mut self) -> bool {
        let due = !self.is_split && !self.is_root_tried;
        self.is_root_tried = true;
        due
    }

    /// Whether values with guessed signs are to be tried now; then they are not tried at this leaf again.
    pub(crate) fn begin(&mut self, is_full: bool) -> bool {
        if self.is_tried {
            return false;
        }
        if is_full {
            self.is_tried = true;
            return true;
        }
        if !self.is_split || self.leaves < self.next {
            return false;
        }
        self.is_tried = true;
        self.next = self.leaves.saturating_mul(2);
        true
    }
}
