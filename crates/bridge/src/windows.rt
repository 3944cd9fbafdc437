// Every job of every run ends within its window.
ghost use Rattle.bridge.specs.Promises.{EveryJobOfEveryRunEndsWithinItsWindow};

use bus::arbiter::Arbiter;

// On any arbiter that keeps the turn rule, if every task has a window for its limits.
#[tactic(auto, using(crate::proofs::Promised::promised))]
pub fn every_job_of_every_run_ends_within_its_window<B: Arbiter>(_bus: &B)
    ensures { EveryJobOfEveryRunEndsWithinItsWindow B.Arbiter.means }
{}
