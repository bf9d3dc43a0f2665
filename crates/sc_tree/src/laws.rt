//! What holds of every path and of every history. Each function stands for the laws that its contract states, and does nothing.

ghost use Rattle.sc_tree.specs.Laws.{AllowedMayBeAsked, DoneHoldNone, OverHoldNone, GrowsHold, RootsHoldNone, SeatsHoldOne, TakesHold, ClosedAreNamed, ClosedAreTrees, ClosedLeavesClose, LeavesAreTried, LeavesStay, ModelsShow, StepsAreLean, SplitsAreLean, TicketsStay};

/// Whatever others do, a leaf that a seat holds keeps its mark, its path and its steps, and what a seat may ask, it may ask whatever others did since.
#[tactic(auto, using(crate::proofs::Tickets::leaves_stay, crate::proofs::Tickets::tickets_stay))]
pub fn tickets_stay()
    ensures leaves { LeavesStay }
    ensures tickets { TicketsStay }
{}

/// Each leaf of a legal history is as it should be: its steps lead to its path, which is lean and within the budget, and what became of it is right.
#[tactic(auto, using(crate::proofs::Tried::leaves_are_tried))]
pub fn leaves_are_tried()
    ensures { LeavesAreTried }
{}

/// The model of a legal history makes the roots true.
#[tactic(auto, using(crate::proofs::Models::models_show))]
pub fn models_show()
    ensures { ModelsShow }
{}

/// The tree of a legal history of which each leaf is closed is closed on the root path, and so can be written down.
#[tactic(auto, using(crate::proofs::ClosedTrees::tree_closed, crate::proofs::Spelt::closed_is_tree, crate::proofs::Spelt::closed_is_named))]
pub fn closed_trees_are_spelt()
    ensures closed { ClosedLeavesClose }
    ensures tree { ClosedAreTrees }
    ensures names { ClosedAreNamed }
{}

/// A seat holds at most one leaf, and at first none.
#[tactic(auto, using(crate::proofs::HoldingOn::seats_hold_one, crate::proofs::HoldingOn::roots_hold_none))]
pub fn seats_hold_one()
    ensures one { SeatsHoldOne }
    ensures none { RootsHoldNone }
{}

/// A seat that was handed a leaf holds it, with the path and the steps that it was told; where its path goes on, with those that are longer. What the leaf then allows, the seat may ask.
#[tactic(auto, using(crate::proofs::HoldingOn::takes_hold, crate::proofs::HoldingOn::grows_hold, crate::proofs::HoldingOn::allowed_may_be_asked))]
pub fn leaves_are_held()
    ensures takes { TakesHold }
    ensures grows { GrowsHold }
    ensures asks { AllowedMayBeAsked }
{}

/// A seat whose leaf was split, closed or given up, or that found a model, or was told that all is over, holds none.
pub fn leaves_are_given_up()
    ensures done { DoneHoldNone }
    ensures over { OverHoldNone }
{}

/// After lean steps a step of one branch that brings something new is lean.
pub fn steps_are_lean()
    ensures { StepsAreLean }
{}

/// After lean steps a step of two branches that brings something new in each is lean with either branch.
pub fn splits_are_lean()
    ensures { SplitsAreLean }
{}
