//! Laws of the definitions.

ghost use Rattle.sc_rules.specs.Steps.{StepsAreSound};
ghost use Rattle.sc_rules.specs.Needs.{PremisesKeepSteps, PremisesStand, PremisesWhereStepsApply, PremisesHavePlaces, EarliestIsFirst};

/// The steps are sound: a valuation that makes the facts of the path true makes all facts of one branch true.
pub fn steps_are_sound()
    ensures { StepsAreSound }
{}

/// The premises of a step are all that it needs: on every list of facts of a path that has them, in whatever order, the step has the same branches as on the path.
pub fn premises_keep_steps()
    ensures { PremisesKeepSteps }
{}

/// The premises of a step stand on the path.
pub fn premises_stand()
    ensures { PremisesStand }
{}

/// A step has premises, or an empty list of them, exactly where it applies.
pub fn premises_where_steps_apply()
    ensures { PremisesWhereStepsApply }
{}

/// The premises of a step have places on the path, and those that are told are the first places of each, in the same order.
pub fn premises_have_places()
    ensures { PremisesHavePlaces }
{}

/// Where one of several facts would do as a premise, the one that is taken is the first fact of the path that is one of them.
pub fn earliest_is_first()
    ensures { EarliestIsFirst }
{}
