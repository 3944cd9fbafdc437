// From moment to moment, until nothing is left to come.
ghost use Rattle.std.specs.Prelude.{◌≡◌, ◌≤◌, length, vec_len, vec_capacity, MatchResult};
ghost use Rattle.argument.specs.Plans.{Plan};
ghost use Rattle.bridge.specs.States.{begun};
ghost use Rattle.runs.specs.Pool.{RowsBelow};
ghost use Rattle.runs.specs.Shown.{At, Ran, AllInside, script_of, Short};

use crate::act::act_all;
use crate::finish::finish_all;
use crate::grant::grant;
use crate::moment::next_moment;
use crate::ready::Ready;
use crate::release::release_due;
use crate::rows::{Job, LogRow};
use crate::stage::Stage;
use bus::arbiter::Arbiter;
use roster::Roster;
use tasks::refusal::Refusal;

// Begins at moment 0, where some rows may be released already. Moment and count go on in the places that are lent.
pub fn drive<B: Arbiter>(
    jobs: &[Job],
    cores: u8,
    time: &mut u64,
    released: &mut usize,
    stages: &mut [Stage],
    ready: &mut Roster<Ready>,
    log: &mut [LogRow],
    arb: &mut B,
) -> Result<(), Refusal>
    requires few { length jobs.now ≤ 1024 }
    requires cores { length stages.old ≡ cores }
    requires rows { length log.old ≡ length jobs.now }
    requires inside { AllInside (length jobs.now) stages.old }
    requires below { RowsBelow (length jobs.now) ready.old.items.items }
    requires kept { vec_len ready.old.items ≤ released.old }
    requires room { length jobs.now ≤ vec_capacity ready.old.items }
    requires short { Short jobs.now }
    requires begins { (P : Plan) × At B.Arbiter.means P jobs.now arb.old arb.old time.old stages.old (record { ready = ready.old.items.items; upto = released.old }) log.old begun }
    ensures inside { AllInside (length jobs.now) stages.new }
    ensures below { RowsBelow (length jobs.now) ready.new.items.items }
    ensures within { released.new ≤ length jobs.now }
    ensures kept { vec_len ready.new.items ≤ released.new }
    ensures room { vec_capacity ready.old.items ≤ vec_capacity ready.new.items }
    ensures ran { (P : Plan) → At B.Arbiter.means P jobs.now arb.old arb.old time.old stages.old (record { ready = ready.old.items.items; upto = released.old }) log.old begun
        → MatchResult result (λ _. Ran B.Arbiter.means P (script_of jobs.now) arb.old arb.new log.new) (λ _. ⊥) }
{
    loop {
        finish_all(*time, stages, log, arb)?;
        *released = release_due(jobs, *time, *released, ready);
        act_all(jobs, cores, *time, stages, *released, ready, log, arb)?;
        grant(jobs, *time, stages, log, arb);
        match next_moment(jobs, *released, stages, log) {
            Some(next) => *time = next,
            None => return Ok(()),
        }
    }
}
