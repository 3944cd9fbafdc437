// Settling every task of a plan.
ghost use Rattle.std.specs.Prelude.{◌≡◌, ℕ, ◌<◌, ◌≤◌, true, map, length, vec_capacity};
ghost use Rattle.tasks.specs.Rows.{bounded};
ghost use Rattle.argument.specs.Plans.{plan_of};
ghost use Rattle.demand.specs.Offers.{listed, kept};
ghost use Rattle.demand.specs.Rows.{rows_of, row_at};
ghost use Rattle.demand.specs.Settled.{AllSettled, late_count};

use crate::late::late_count;
use crate::offer::{Offer, Phase};
use crate::search::tell_all;
use crate::work::Work;
use bus::arbiter::Arbiter;
use roster::Roster;
use std::alloc::{AllocError, Global};
use tasks::outcome::Outcome;
use tasks::task::{Row, Task};

impl Work {
    // Room for the tasks of any plan.
    pub fn new(heap: Global) -> Result<Work, AllocError> {
        Ok(Work {
            tasks: Vec::with_capacity(heap, 64)?,
            offers: Roster::with_capacity(heap, 128)?,
        })
    }

    // Makes the tasks of the rows, and keeps what they offer in order. No arbiter is known here.
    fn fetch(&mut self, rows: &[Row])
        requires few { length rows.now ≤ 64 }
        requires sound { (u : ℕ) → u < length rows.now → bounded (row_at rows.now u) ≡ true }
        ensures tasks { rows_of self.new.tasks.items ≡ rows.now }
        ensures offers { map listed self.new.offers.items.items ≡ kept (row_at rows.now) (length rows.now) }
    {
        self.tasks.clear();
        self.offers.clear();
        for (place, row) in rows.iter().enumerate() {
            let Ok(task) = Task::try_from(*row) else {
                unreachable()
            };
            self.tasks.push_reserved(task);
            self.offers.insert(Offer::new(task, place, Phase::A));
            self.offers.insert(Offer::new(task, place, Phase::R));
        }
    }

    // Settles the task of each row into a table that is given, in the rows' order, and answers how many are late.
    pub fn settle<B: Arbiter>(
        &mut self,
        rows: &[Row],
        arbiter: &B,
        outcomes: &mut Vec<Outcome>,
    ) -> usize
        requires few { length rows.now ≤ 64 }
        requires sound { (u : ℕ) → u < length rows.now → bounded (row_at rows.now u) ≡ true }
        requires placed { (u : ℕ) → u < length rows.now → (row_at rows.now u).core < (B.Arbiter.means.meaning arbiter.now).ports }
        requires room { 64 ≤ vec_capacity outcomes.old }
        ensures outcomes { AllSettled (plan_of (B.Arbiter.means.meaning arbiter.now).ports rows.now) (B.Arbiter.means.meaning arbiter.now).limit outcomes.new.items }
        ensures late { result ≡ late_count outcomes.new.items }
        ensures room { vec_capacity outcomes.new ≡ vec_capacity outcomes.old }
    {
        self.fetch(rows);
        tell_all(
            self.tasks.as_slice(),
            self.offers.as_slice(),
            arbiter,
            outcomes,
        );
        late_count(outcomes.as_slice())
    }
}
