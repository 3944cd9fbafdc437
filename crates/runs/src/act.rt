// Step 3 of a moment: cores act, from 0 upward.
ghost use Rattle.std.specs.Prelude.{◌≡◌, ◌≤◌, length, vec_len, vec_capacity, MatchResult, OnOk};
ghost use Rattle.argument.specs.Plans.{Plan};
ghost use Rattle.bridge.specs.States.{State};
ghost use Rattle.bridge.specs.Moments.{acts};
ghost use Rattle.runs.specs.Pool.{RowsBelow};
ghost use Rattle.runs.specs.Shown.{At, AllInside, AllReleased, script_of};

use crate::ready::{Ready, take_ready};
use crate::rows::{Job, LogRow};
use crate::stage::{Event, Stage};
use bus::arbiter::Arbiter;
use roster::Roster;
use tasks::refusal::Refusal;

// Of the jobs and of how many are released only the contract speaks: what this step asks of a job stands in its core's stage
// and among the ready ones.
pub fn act_all<B: Arbiter>(
    jobs: &[Job],
    cores: u8,
    time: u64,
    stages: &mut [Stage],
    upto: usize,
    ready: &mut Roster<Ready>,
    log: &mut [LogRow],
    arb: &mut B,
) -> Result<(), Refusal>
    requires few { length jobs.now ≤ 1024 }
    requires cores { length stages.old ≡ cores }
    requires rows { length log.old ≡ length jobs.now }
    requires inside { AllInside (length jobs.now) stages.old }
    requires below { RowsBelow (length jobs.now) ready.old.items.items }
    requires released { AllReleased jobs.now time upto }
    ensures inside { AllInside (length jobs.now) stages.new }
    ensures below { RowsBelow (length jobs.now) ready.new.items.items }
    ensures len { vec_len ready.new.items ≤ vec_len ready.old.items }
    ensures room { vec_capacity ready.new.items ≡ vec_capacity ready.old.items }
    ensures goes { (P : Plan) (x : B) (S : State)
        → At B.Arbiter.means P jobs.now x arb.old time stages.old (record { ready = ready.old.items.items; upto = upto }) log.old S
        → MatchResult result (λ _. At B.Arbiter.means P jobs.now x arb.new time stages.new (record { ready = ready.new.items.items; upto = upto }) log.new (acts P (script_of jobs.now) cores S)) (λ _. ⊥) }
{
    for (c, stage) in stages.iter_mut().enumerate() {
        let core = c as u8;
        if stage.has_executed(log, time) {
            stage.on(Event::Ended);
            arb.join(core)?;
        } else if stage.is_idle() {
            if let Some(k) = take_ready(ready, core) {
                stage.on(Event::Start(k));
                log[k].start = time;
                arb.join(core)?;
            }
        }
    }
    Ok(())
}
