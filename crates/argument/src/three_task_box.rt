// The box with three tasks on two cores, and two smaller examples.
ghost use Rattle.argument.specs.Samples.{TheBoxAndItsLogKeepTheLaws, TheBoxUnderTheQueue, TheBoxWithPort0Favoured, TheBoxWithANearerDeadline, TheBoxWithALateTask, ThreeOfFourPhases, ALoneTaskNeedsItsOwnTicks};

// What the bound supposes can be had: a sound plan, and a log that keeps all laws.
#[tactic(auto, using(crate::proofs::Sample::log_keeps))]
pub fn the_three_task_boxs_own_log_keeps_the_laws()
    ensures { TheBoxAndItsLogKeepTheLaws }
{}

// Windows of 31, 31 and 20.
#[tactic(auto, using(crate::proofs::Sample::queue))]
pub fn the_box_under_the_queue()
    ensures { TheBoxUnderTheQueue }
{}

// Then task 3 has 30.
#[tactic(auto, using(crate::proofs::Sample::favoured))]
pub fn the_box_with_port_0_favoured()
    ensures { TheBoxWithPort0Favoured }
{}

// With D = 20 for task 3: 25, 25 and 20.
#[tactic(auto, using(crate::proofs::Sample::nearer))]
pub fn the_box_with_a_nearer_deadline()
    ensures { TheBoxWithANearerDeadline }
{}

// With D = 19 task 3 is late with 20, and task 1 keeps 25.
#[tactic(auto, using(crate::proofs::Sample::late))]
pub fn the_box_with_a_late_task()
    ensures { TheBoxWithALateTask }
{}

// Of 4, 4, 2, 2 at most three total 10, at most none 0.
#[tactic(auto, using(crate::proofs::Sample::phases))]
pub fn three_of_four_phases()
    ensures { ThreeOfFourPhases }
{}

// Phases 1, 1, 1 and T = D = 3: a window of 3.
#[tactic(auto, using(crate::proofs::Sample::one_task))]
pub fn a_lone_task_needs_its_own_ticks()
    ensures { ALoneTaskNeedsItsOwnTicks }
{}
