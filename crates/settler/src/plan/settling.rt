// Settling a plan, and telling what was settled.
ghost use Rattle.std.specs.Prelude.{◌≡◌, Ok, Err, MatchResult};
ghost use Rattle.tasks.specs.Refusals.{told, answer};
ghost use Rattle.settler.specs.Contents.{content};
ghost use Rattle.settler.specs.Settling.{settle_verdict, SettledTo, window_answer};

use crate::plan::Plan;
use bus::arbiter::Arbiter;
use tasks::outcome::Outcome;
use tasks::refusal::Refusal;

impl Plan {
    // The outcome of every task on this arbiter, in place of any settled before; answers how many tasks are late: 14.
    pub fn settle<B: Arbiter>(&mut self, arbiter: &B) -> Result<usize, Refusal>
        ensures { MatchResult result (λ late. (settle_verdict (content self.old).cores (B.Arbiter.means.meaning arbiter.now).ports ≡ Ok tt) × SettledTo (content self.old) (B.Arbiter.means.meaning arbiter.now).limit late (content self.new)) (λ e. (settle_verdict (content self.old).cores (B.Arbiter.means.meaning arbiter.now).ports ≡ Err (told e)) × (content self.new ≡ content self.old)) }
    {
        if arbiter.ports() != self.table.platform().cores {
            return Err(Refusal::Ports);
        }
        let late = self
            .work
            .settle(self.table.rows(), arbiter, &mut self.outcomes);
        self.settled = true;
        Ok(late)
    }

    // What was settled for one task: 8, 13.
    pub fn window(&self, id: u16) -> Result<Outcome, Refusal>
        ensures { answer result ≡ window_answer (content self.now) id }
    {
        let place = self.table.place_of(id).ok_or(Refusal::Unknown)?;
        if !self.settled {
            return Err(Refusal::Edited);
        }
        Ok(self.outcomes[place])
    }
}
