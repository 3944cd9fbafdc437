// Step 1 of a moment: phases on the bus end.
ghost use Rattle.std.specs.Prelude.{◌≡◌, ℕ, List, length, MatchResult, OnOk};
ghost use Rattle.argument.specs.Plans.{Plan};
ghost use Rattle.bridge.specs.States.{State};
ghost use Rattle.bridge.specs.Moments.{finishes};
ghost use Rattle.runs.specs.declared.rows.Job.{Job};
ghost use Rattle.runs.specs.Pool.{Pool};
ghost use Rattle.runs.specs.Shown.{At, AllInside};

use crate::rows::LogRow;
use crate::stage::{Event, Stage};
use bus::arbiter::Arbiter;
use tasks::refusal::Refusal;

pub fn finish_all<B: Arbiter>(
    time: u64,
    stages: &mut [Stage],
    log: &[LogRow],
    arb: &mut B,
) -> Result<(), Refusal>
    requires { AllInside (length log.now) stages.old }
    ensures inside { OnOk result (AllInside (length log.now) stages.new) }
    ensures keeps { (n : ℕ) → AllInside n stages.old → AllInside n stages.new }
    ensures goes { (P : Plan) (jobs : List Job) (x : B) (pool : Pool) (S : State)
        → At B.Arbiter.means P jobs x arb.old time stages.old pool log.now S
        → MatchResult result (λ _. At B.Arbiter.means P jobs x arb.new time stages.new pool log.now (finishes (length stages.old) S)) (λ _. ⊥) }
{
    for stage in stages.iter_mut() {
        if stage.leaves_bus(log, time) {
            stage.on(Event::Ended);
            arb.done()?;
        }
    }
    Ok(())
}
