// Moments at which nothing is due.
ghost use Rattle.bridge.specs.Promises.{AQuietMomentChangesNothing, TimeMayJump};

// They change nothing.
#[tactic(auto, using(crate::proofs::Jumps::quiet_run))]
pub fn a_quiet_moment_changes_nothing()
    ensures { AQuietMomentChangesNothing }
{}

// So a program may leave them out.
#[tactic(auto, using(crate::proofs::Jumps::time_may_jump))]
pub fn time_may_jump()
    ensures { TimeMayJump }
{}
