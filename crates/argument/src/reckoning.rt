// Demand can be reckoned: the share by taking the longest phases first, the outcome by jumps.
ghost use Rattle.argument.specs.Theorems.{TheShareIsTheGreatestTotalOfAnyChoice, LongestFirstReachesTheShare, TheOfferedPhasesInAnyOrder, DemandNeverFalls, AJumpPassesNoCoveringNumber, JumpingEndsAtTheOutcome, TheOutcomeIsFixed};

// Some choice of offered phases totals the share, and none totals more.
#[tactic(auto, using(crate::proofs::Reach::share_greatest))]
pub fn the_share_is_the_greatest_total_of_any_choice()
    ensures { TheShareIsTheGreatestTotalOfAnyChoice }
{}

// Of a list of the offered phases that falls by length.
#[tactic(auto, using(crate::proofs::LongestFirst::longest_first))]
pub fn longest_first_reaches_the_share()
    ensures { LongestFirstReachesTheShare }
{}

// So that the list may be kept in order as it grows.
#[tactic(auto, using(crate::proofs::LongestFirst::any_order))]
pub fn the_offered_phases_in_any_order()
    ensures { TheOfferedPhasesInAnyOrder }
{}

// More ticks, no less demand.
#[tactic(auto, using(crate::proofs::Least::demand_mono))]
pub fn demand_never_falls()
    ensures { DemandNeverFalls }
{}

// From w the search may go on at the demand of w.
#[tactic(auto, using(crate::proofs::Least::jump))]
pub fn a_jump_passes_no_covering_number()
    ensures { AJumpPassesNoCoveringNumber }
{}

// From 1, after at most D jumps.
#[tactic(auto, using(crate::proofs::Least::jumping_settles))]
pub fn jumping_ends_at_the_outcome()
    ensures { JumpingEndsAtTheOutcome }
{}

// Two outcomes of one task are equal.
#[tactic(auto, using(crate::proofs::Least::one_outcome))]
pub fn the_outcome_is_fixed()
    ensures { TheOutcomeIsFixed }
{}
