// Step 1 of a moment: phases on the bus end.
use crate::finish::finish_all;
use crate::progress::Progress;
use crate::rows::LogRow;
use bus::arbiter::Arbiter;
use tasks::refusal::Refusal;

impl Progress {
    ghost use Rattle.std.specs.Prelude.{◌≡◌, List, length, vec_len, MatchResult};
    ghost use Rattle.argument.specs.Plans.{Plan};
    ghost use Rattle.bridge.specs.States.{State};
    ghost use Rattle.bridge.specs.Moments.{finishes};
    ghost use Rattle.runs.specs.declared.rows.Job.{Job};
    ghost use Rattle.runs.specs.Pool.{Pool};
    ghost use Rattle.runs.specs.Progress.{Stays};
    ghost use Rattle.runs.specs.Shown.{At, AllInside};

    pub fn finish<B: Arbiter>(&mut self, log: &[LogRow], arb: &mut B) -> Result<(), Refusal>
        requires { AllInside (length log.now) self.old.stages.items }
        ensures stays { Stays self.old self.new }
        ensures ready { self.new.ready ≡ self.old.ready }
        ensures goes { (P : Plan) (jobs : List Job) (x : B) (pool : Pool) (S : State)
            → At B.Arbiter.means P jobs x arb.old self.old.time self.old.stages.items pool log.now S
            → MatchResult result (λ _. At B.Arbiter.means P jobs x arb.new self.new.time self.new.stages.items pool log.now (finishes (vec_len self.old.stages) S)) (λ _. ⊥) }
    {
        finish_all(self.time, &mut self.stages, log, arb)
    }
}
