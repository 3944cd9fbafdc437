// Step 3 of a moment: cores act, from 0 upward.
use crate::act::act_all;
use crate::progress::Progress;
use crate::rows::LogRow;
use bus::arbiter::Arbiter;
use tasks::refusal::Refusal;

impl Progress {
    ghost use Rattle.std.specs.Prelude.{◌≡◌, ◌≤◌, length, vec_len, vec_capacity, MatchResult, OnOk};
    ghost use Rattle.argument.specs.Plans.{Plan};
    ghost use Rattle.bridge.specs.States.{State};
    ghost use Rattle.bridge.specs.Moments.{acts};
    ghost use Rattle.runs.specs.Shown.{AllReleased, script_of};
    ghost use Rattle.runs.specs.Progress.{Stays, AtProgress};

    pub fn act<B: Arbiter>(&mut self, log: &mut [LogRow], arb: &mut B) -> Result<(), Refusal>
        requires few { vec_len self.old.jobs ≤ 1024 }
        requires rows { length log.old ≡ vec_len self.old.jobs }
        requires caught_up { AllReleased self.old.jobs.items self.old.time self.old.released }
        ensures stays { Stays self.old self.new }
        ensures len { OnOk result (vec_len self.new.ready.items ≤ vec_len self.old.ready.items) }
        ensures room { OnOk result (vec_capacity self.new.ready.items ≡ vec_capacity self.old.ready.items) }
        ensures goes { (P : Plan) (x : B) (S : State)
            → AtProgress B.Arbiter.means P x arb.old self.old log.old S
            → MatchResult result (λ _. AtProgress B.Arbiter.means P x arb.new self.new log.new (acts P (script_of self.old.jobs.items) (vec_len self.old.stages) S)) (λ _. ⊥) }
    {
        let cores = self.stages.len() as u8;
        act_all(
            &self.jobs,
            cores,
            self.time,
            &mut self.stages,
            self.released,
            &mut self.ready,
            log,
            arb,
        )
    }
}
