ghost use Rattle.justify_plans.specs.Laws.{FitsLaw, PassLaw, ImprovedLaw};

/// A job of a feasible schedule fits beside the others exactly where the schedule keeps every capacity once it is moved there.
pub fn fits_beside()
    ensures { FitsLaw }
{}

/// A pass makes exactly one schedule of a feasible one.
pub fn one_pass()
    ensures { PassLaw }
{}

/// A feasible schedule is improved to exactly one.
pub fn one_improved()
    ensures { ImprovedLaw }
{}
