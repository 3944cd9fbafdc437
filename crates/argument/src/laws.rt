// The laws are not idle: without any one of these six, some job ends beyond its window.
ghost use Rattle.argument.specs.Logs.{possible_moments, spaced_releases, no_idling, right_choice, never_free, limits_kept};
ghost use Rattle.argument.specs.Theorems.{Needed};

// A phase longer than its task's.
#[tactic(auto, using(crate::proofs::Witnesses::longer_phase))]
pub fn the_bound_needs_possible_moments()
    ensures { Needed possible_moments }
{}

// Two jobs of a task released at once.
#[tactic(auto, using(crate::proofs::Witnesses::two_at_once))]
pub fn the_bound_needs_spacing()
    ensures { Needed spaced_releases }
{}

// A core that idles while a job is ready.
#[tactic(auto, using(crate::proofs::Witnesses::idle_tick))]
pub fn the_bound_needs_no_idling()
    ensures { Needed no_idling }
{}

// The wrong one of the ready jobs started.
#[tactic(auto, using(crate::proofs::Witnesses::wrong_order))]
pub fn the_bound_needs_the_right_choice()
    ensures { Needed right_choice }
{}

// A bus that is free while a turn waits.
#[tactic(auto, using(crate::proofs::Witnesses::free_tick))]
pub fn the_bound_needs_a_bus_never_free()
    ensures { Needed never_free }
{}

// More turns before a waiting one than its limit says.
#[tactic(auto, using(crate::proofs::Witnesses::two_passed))]
pub fn the_bound_needs_the_limits_kept()
    ensures { Needed limits_kept }
{}
