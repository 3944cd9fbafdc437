// Step 4 of a moment: if nothing is in service and a port waits, the arbiter grants.
ghost use Rattle.std.specs.Prelude.{◌≡◌, ◌^◌, ◌≤◌, length};
ghost use Rattle.argument.specs.Plans.{Plan};
ghost use Rattle.bridge.specs.States.{State};
ghost use Rattle.runs.specs.Pool.{Pool};
ghost use Rattle.runs.specs.Shown.{At, Granting, AllInside, Short};

use crate::rows::{Job, LogRow};
use crate::stage::{Event, Stage};
use bus::arbiter::Arbiter;

// The arbiter itself refuses a grant during a service or with nobody waiting, and then nothing happens.
pub fn grant<B: Arbiter>(
    jobs: &[Job],
    time: u64,
    stages: &mut [Stage],
    log: &mut [LogRow],
    arb: &mut B,
)
    requires stands { B.Arbiter.means.stands arb.old }
    requires ports { (B.Arbiter.means.meaning arb.old).ports ≡ length stages.old }
    requires rows { length log.old ≡ length jobs.now }
    requires inside { AllInside (length jobs.now) stages.old }
    requires fits { (time ≤ 2 ^ 60) × (Short jobs.now) }
    ensures inside { AllInside (length jobs.now) stages.new }
    ensures goes { (P : Plan) (x : B) (pool : Pool) (S : State)
        → At B.Arbiter.means P jobs.now x arb.old time stages.old pool log.old S
        → Granting B.Arbiter.means P jobs.now x arb.new time stages.new pool log.new S }
{
    let Ok(port) = arb.grant() else {
        return;
    };
    let stage = &mut stages[usize::from(port)];
    if let Stage::Waiting(turn, k) = *stage {
        stage.on(Event::Granted);
        log[k].serve(turn, &jobs[k], time);
    }
}
