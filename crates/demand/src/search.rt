// The search for one task's outcome.
ghost use Rattle.std.specs.Prelude.{◌≡◌, ℕ, ◌<◌, ◌≤◌, map, length, vec_capacity};
ghost use Rattle.argument.specs.Plans.{plan_of};
ghost use Rattle.argument.specs.Demand.{Settles};
ghost use Rattle.demand.specs.Cases.{plan, limits};
ghost use Rattle.demand.specs.Offers.{listed, kept};
ghost use Rattle.demand.specs.Rows.{rows_of, row_at};
ghost use Rattle.demand.specs.Settled.{AllSettled};

use crate::case::Case;
use crate::offer::Offer;
use bus::arbiter::Arbiter;
use tasks::outcome::Outcome;
use tasks::task::Task;

impl<'a, B: Arbiter> Case<'a, B> {
    // The least covering number from 1 to the deadline, or the demand at the deadline where there is none.
    // From a number that does not cover the search goes on at its demand: since demand never falls, no number in between covers.
    pub fn outcome(&self) -> Outcome
        ensures { Settles (plan self.now) (limits self.now) self.now.place result }
    {
        let deadline = self.task().row.deadline;
        let mut w: u32 = 1;
        loop {
            let needed = self.demand(w);
            if needed <= u64::from(w) {
                break Outcome::Window(u64::from(w));
            }
            if needed > u64::from(deadline) {
                break Outcome::Late(self.demand(deadline));
            }
            w = needed as u32;
        }
    }
}

// The outcome of every task, in the tasks' order.
pub fn tell_all<B: Arbiter>(
    tasks: &[Task],
    offers: &[Offer],
    arbiter: &B,
    outcomes: &mut Vec<Outcome>,
)
    requires few { length tasks.now ≤ 64 }
    requires placed { (u : ℕ) → u < length tasks.now → (row_at (rows_of tasks.now) u).core < (B.Arbiter.means.meaning arbiter.now).ports }
    requires fetched { map listed offers.now ≡ kept (row_at (rows_of tasks.now)) (length (rows_of tasks.now)) }
    requires room { 64 ≤ vec_capacity outcomes.old }
    ensures outcomes { AllSettled (plan_of (B.Arbiter.means.meaning arbiter.now).ports (rows_of tasks.now)) (B.Arbiter.means.meaning arbiter.now).limit outcomes.new.items }
    ensures room { vec_capacity outcomes.new ≡ vec_capacity outcomes.old }
{
    outcomes.clear();
    // a case names its task by the place, so the loop goes over places
    for place in 0..tasks.len() {
        let case = Case {
            tasks,
            offers,
            arbiter,
            place,
        };
        outcomes.push_reserved(case.outcome());
    }
}
