// The demand of a task, with the limits of an arbiter.
ghost use Rattle.std.specs.Prelude.{◌≡◌, ◌+◌, ◌*◌, ◌<◌, ◌≤◌, not, ◌==◌};
ghost use Rattle.tasks.specs.Limits.{times};
ghost use Rattle.argument.specs.Sums.{sum, on};
ghost use Rattle.argument.specs.Demand.{demand as demandOf, share};
ghost use Rattle.demand.specs.Cases.{plan, limits, own_core};

use crate::cap::Cap;
use crate::case::Case;
use crate::own::{blocker, jobs_within};
use crate::share::share;
use bus::arbiter::Arbiter;

impl<'a, B: Arbiter> Case<'a, B> {
    // The demand of the task for w ticks: block, own jobs and all shares.
    pub fn demand(&self, w: u32) -> u64
        requires { w ≤ 10000000 }
        ensures { result ≡ demandOf (plan self.now) (limits self.now) self.now.place w }
    {
        let task = self.task();
        let blocker = blocker(self.tasks, task);
        let jobs = jobs_within(self.tasks, task, w);
        let turns = turns_of(jobs.count, blocker.is_some());
        u64::from(blocker.unwrap_or(0)) + jobs.ticks + self.shares(w, turns)
    }

    // What all other cores can put before so many turns of the task's own core.
    fn shares(&self, w: u32, turns: u32) -> u64
        requires { w ≤ 10000000 }
        ensures value { result ≡ sum (plan self.now).cores (λ core. on (not (core == own_core self.now)) (share (plan self.now) core w (times turns (limits self.now (own_core self.now) core)))) }
        ensures bound { result ≤ 255 * (128 * (30000000 * 10000000)) }
    {
        (0..self.arbiter.ports())
            .map(|core| self.share_of(core, w, turns))
            .sum()
    }

    // What one core can put before them: nothing where it is the task's own.
    #[tactic(auto, using(crate::proofs::Reckoning::few_offers))]
    fn share_of(&self, core: u8, w: u32, turns: u32) -> u64
        requires { core < (plan self.now).cores }
        ensures value { result ≡ on (not (core == own_core self.now)) (share (plan self.now) core w (times turns (limits self.now (own_core self.now) core))) }
        ensures bound { result ≤ 128 * ((w + 20000000) * 10000000) }
    {
        let own = self.task().row.core;
        if core == own {
            return 0;
        }
        match self.arbiter.limit(own, core) {
            Ok(limit) => share(self.offers, core, w, Cap::new(u64::from(turns), limit)),
            Err(_) => unreachable(),
        }
    }
}

// How often the core waits for the bus: twice in each job, and twice more if a job may be on it already.
fn turns_of(jobs: u64, blocked: bool) -> u32
    requires { jobs ≤ 2000000000 }
    ensures { result ≡ 2 * jobs + on blocked 2 }
{
    2 * (jobs as u32 + u32::from(blocked))
}
