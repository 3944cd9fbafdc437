// Runs on the queue. Each function here only carries a theorem.
#![tactic(auto)]

ghost use Rattle.queue_runs.specs.Queued.{TheQueueLeavesNoChoice, AScriptHasOneRunOnTheQueue};
ghost use Rattle.queue_runs.specs.Box.{TheLogOfTheBoxOnTheQueue};

// Its grants are the only ones.
pub fn a_script_has_one_run_on_the_queue()
    ensures picks { TheQueueLeavesNoChoice }
    ensures single { AScriptHasOneRunOnTheQueue }
{}

// The box with three tasks.
pub fn the_log_of_the_box_on_the_queue()
    ensures { TheLogOfTheBoxOnTheQueue }
{}
