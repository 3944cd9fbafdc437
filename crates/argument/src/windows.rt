// Every job ends within its task's window.
ghost use Rattle.argument.specs.Theorems.{EveryJobEndsWithinItsWindow, OneJobAtATimeIsNotNeeded, EveryJobEndsWithinItsWindowInGeneral, AWindowCanBeReached, AWindowAloneIsNotEnough};

// In every log that keeps the laws, if every task of the plan has a window.
pub fn every_job_ends_within_its_window()
    ensures { EveryJobEndsWithinItsWindow }
{}

// The same, where jobs of one core may overlap.
pub fn one_job_at_a_time_is_not_needed()
    ensures { OneJobAtATimeIsNotNeeded }
{}

// The same, over turns: the theorem that the two above are instances of.
pub fn every_job_ends_within_its_window_in_general()
    ensures { EveryJobEndsWithinItsWindowInGeneral }
{}

// Some job ends in the very last tick of its task's window.
#[tactic(auto, using(crate::proofs::Witnesses::met_twice))]
pub fn a_window_can_be_reached()
    ensures { AWindowCanBeReached }
{}

// A covering number is no window while a task of another core is late.
#[tactic(auto, using(crate::proofs::Witnesses::late_neighbour))]
pub fn a_window_alone_is_not_enough()
    ensures { AWindowAloneIsNotEnough }
{}
