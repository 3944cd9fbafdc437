// Step 4 of a moment: if nothing is in service and a port waits, the arbiter grants.
use crate::grant::grant;
use crate::progress::Progress;
use crate::rows::LogRow;
use bus::arbiter::Arbiter;

impl Progress {
    ghost use Rattle.std.specs.Prelude.{◌≡◌, ◌^◌, ◌≤◌, length, vec_len};
    ghost use Rattle.argument.specs.Plans.{Plan};
    ghost use Rattle.bridge.specs.States.{State};
    ghost use Rattle.runs.specs.Pool.{Pool};
    ghost use Rattle.runs.specs.Progress.{Stays};
    ghost use Rattle.runs.specs.Shown.{At, Granting, Short};

    // The arbiter itself refuses a grant during a service or with nobody waiting, and then nothing happens.
    pub fn grant<B: Arbiter>(&mut self, log: &mut [LogRow], arb: &mut B)
        requires stands { B.Arbiter.means.stands arb.old }
        requires ports { (B.Arbiter.means.meaning arb.old).ports ≡ vec_len self.old.stages }
        requires rows { length log.old ≡ vec_len self.old.jobs }
        requires fits { (self.old.time ≤ 2 ^ 60) × (Short self.old.jobs.items) }
        ensures stays { Stays self.old self.new }
        ensures ready { self.new.ready ≡ self.old.ready }
        ensures goes { (P : Plan) (x : B) (pool : Pool) (S : State)
            → At B.Arbiter.means P self.old.jobs.items x arb.old self.old.time self.old.stages.items pool log.old S
            → Granting B.Arbiter.means P self.new.jobs.items x arb.new self.new.time self.new.stages.items pool log.new S }
    {
        grant(&self.jobs, self.time, &mut self.stages, log, arb);
    }
}
