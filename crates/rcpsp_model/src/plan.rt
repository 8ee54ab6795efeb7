ghost use Rattle.rcpsp_model.specs.Laws.{PlanLaw, SerialPlanLaw, OnePlanLaw, OneFirstPlanLaw, FirstPlanLaw, NoModeLaw};

/// What places all jobs in turn, after their predecessors, within the capacities and the budgets, is feasible.
pub fn placed_in_turn()
    ensures { PlanLaw }
{}

/// Where each job has an executable mode, the serial scheme places all jobs by either mode rule, and in one way only.
pub fn serial_plan()
    ensures exists { SerialPlanLaw }
    ensures one { OnePlanLaw }
{}

/// There is one first plan, or none; and it is feasible.
#[tactic(auto, using(crate::proofs::PlansFeasible::first_plan_law, crate::proofs::OnePlan::one_first_plan_law))]
pub fn first_plan()
    ensures one { OneFirstPlanLaw }
    ensures feasible { FirstPlanLaw }
{}

/// Where a job has no executable mode, no schedule is feasible.
pub fn no_executable_mode()
    ensures { NoModeLaw }
{}
