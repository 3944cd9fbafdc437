// From moment to moment, until nothing is left to come.
use crate::drive::drive;
use crate::progress::Progress;
use crate::rows::LogRow;
use bus::arbiter::Arbiter;
use tasks::refusal::Refusal;

impl Progress {
    ghost use Rattle.std.specs.Prelude.{◌≡◌, ◌≤◌, length, vec_len, MatchResult};
    ghost use Rattle.argument.specs.Plans.{Plan};
    ghost use Rattle.bridge.specs.States.{begun};
    ghost use Rattle.runs.specs.Shown.{Ran, script_of, Short};
    ghost use Rattle.runs.specs.Progress.{AtProgress};

    pub fn drive<B: Arbiter>(&mut self, log: &mut [LogRow], arb: &mut B) -> Result<(), Refusal>
        requires few { vec_len self.old.jobs ≤ 1024 }
        requires rows { length log.old ≡ vec_len self.old.jobs }
        requires short { Short self.old.jobs.items }
        requires begins { (P : Plan) × AtProgress B.Arbiter.means P arb.old arb.old self.old log.old begun }
        ensures jobs { self.new.jobs.items ≡ self.old.jobs.items }
        ensures cores { vec_len self.new.stages ≡ vec_len self.old.stages }
        ensures ran { (P : Plan) → AtProgress B.Arbiter.means P arb.old arb.old self.old log.old begun
            → MatchResult result (λ _. Ran B.Arbiter.means P (script_of self.old.jobs.items) arb.old arb.new log.new) (λ _. ⊥) }
    {
        let cores = self.stages.len() as u8;
        drive(
            &self.jobs,
            cores,
            &mut self.time,
            &mut self.released,
            &mut self.stages,
            &mut self.ready,
            log,
            arb,
        )
    }
}
