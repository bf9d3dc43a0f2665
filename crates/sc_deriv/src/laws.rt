//! Laws of the definitions.

ghost use Rattle.sc_deriv.specs.Laws.{AcceptsClosedTrees, RefusesFirstFailure, FailsByNodes, ClosedTreesRefute, LemmasRefute, LemmasFollow};
ghost use Rattle.sc_deriv.specs.Taking.{StepsLeadOn, StepsAdd};

use sc_rules::steps_are_sound;
use sc_terms::meanings_fit;

/// The judgement accepts exactly the lists of nodes that are one tree, in which each step applies on its path and each closing holds on its, from whichever path the tree begins.
pub fn accepts_closed_trees()
    ensures { AcceptsClosedTrees }
{}

/// Of a whole tree that is not closed the judgement names the first node in preorder that fails, and why: a step that does not apply, or a closing that does not hold.
pub fn refuses_first_failure()
    ensures first { RefusesFirstFailure }
    ensures reasons { FailsByNodes }
{}

/// No valuation that fits, and makes no lemma's hypotheses true, makes all facts true on which a closed tree begins.
pub fn closed_trees_refute()
    ensures { ClosedTreesRefute }
{
    steps_are_sound();
}

/// Where a tree is closed that begins with the roots and hypotheses, no valuation that fits makes both true, if it makes no hypotheses of the lemmas true that the tree may name; so, where those lemmas follow from the problem, no interpretation that makes the roots true makes all hypotheses true.
pub fn lemmas_follow()
    ensures valuations { LemmasRefute }
    ensures interpretations { LemmasFollow }
{
    closed_trees_refute();
    meanings_fit();
}

/// The path to which a list of steps leads is that to which the rest of the list leads from where its front led.
pub fn steps_lead_on()
    ensures { StepsLeadOn }
{}

/// Steps add to the path on which they begin; so a path to which steps lead from the root path begins with the roots' facts.
pub fn steps_add()
    ensures { StepsAdd }
{}
