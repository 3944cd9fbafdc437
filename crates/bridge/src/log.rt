// The log of every run.
ghost use Rattle.bridge.specs.Promises.{EveryRunKeepsTheLaws, TheBusCarriesOnePhaseAtATime, TheLogIsSingle, PickedGrantsAreTheOnlyOnes};

use bus::arbiter::Arbiter;

// It keeps the laws, with the arbiter's limits, whatever the arbiter grants.
#[tactic(auto, using(crate::proofs::Lawfully::every_run_keeps_the_laws))]
pub fn every_run_keeps_the_laws()
    ensures { EveryRunKeepsTheLaws }
{}

// No two phases are on the bus together.
#[tactic(auto, using(crate::proofs::Lawfully::one_phase_at_a_time))]
pub fn the_bus_carries_one_phase_at_a_time()
    ensures { TheBusCarriesOnePhaseAtATime }
{}

// It follows from the script and the grants.
#[tactic(auto, using(crate::proofs::Single::the_log_is_single))]
pub fn the_log_is_single()
    ensures { TheLogIsSingle }
{}

// It follows from the script alone on an arbiter that leaves no choice.
pub fn picked_grants_are_the_only_ones<B: Arbiter>(_bus: &B)
    ensures { PickedGrantsAreTheOnlyOnes B.Arbiter.means }
{}
