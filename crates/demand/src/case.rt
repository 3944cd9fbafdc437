// One task of a plan whose outcome is asked for.
ghost use Rattle.std.specs.Prelude.{◌≡◌, ◌<◌, ◌≤◌, map, length};
ghost use Rattle.demand.specs.Offers.{listed, kept};
ghost use Rattle.demand.specs.Rows.{rows_of, row_at};

use crate::offer::Offer;
use bus::arbiter::Arbiter;
use tasks::task::Task;

// All tasks of the plan, what they offer, the arbiter between their cores, and the place of the task.
#[derive(Drop)]
pub struct Case<'a, B: Arbiter> {
    pub tasks: &'a [Task],
    pub offers: &'a [Offer],
    pub arbiter: &'a B,
    pub place: usize,
    ghost few: { length tasks.now ≤ 64 },
    ghost known: { place < length tasks.now },
    ghost port: { (row_at (rows_of tasks.now) place).core < (B.Arbiter.means.meaning arbiter.now).ports },
    ghost fetched: { map listed offers.now ≡ kept (row_at (rows_of tasks.now)) (length (rows_of tasks.now)) },
}

impl<'a, B: Arbiter> Case<'a, B> {
    // The task itself.
    pub(crate) fn task(&self) -> &'a Task
        ensures { result.now.row ≡ row_at (rows_of self.now.tasks.now) self.now.place }
    {
        &self.tasks[self.place]
    }
}
