// The end of every run.
ghost use Rattle.bridge.specs.Promises.{EveryRunEnds};

// By some moment every job has ended, however many rows the script has.
#[tactic(auto, using(crate::proofs::Ending::every_run_ends))]
pub fn every_run_ends()
    ensures { EveryRunEnds }
{}
