// What a task offers.
ghost use Rattle.std.specs.Prelude.{◌≡◌, ◌+◌, ◌≤◌};
ghost use Rattle.argument.specs.Sums.{ceil};
ghost use Rattle.demand.specs.Offers.{listed, listing};

use crate::offer::{Offer, Phase};
use std::cmp::Reverse;
use tasks::task::Task;

impl Offer {
    // The phases of one kind of the task at a place.
    pub fn new(task: Task, place: usize, phase: Phase) -> Offer
        ensures { listed result ≡ listing task.row place phase }
    {
        let length = match phase {
            Phase::A => task.row.a,
            Phase::R => task.row.r,
        };
        Offer {
            length: Reverse(length),
            place,
            phase,
            core: task.row.core,
            spacing: task.row.spacing,
            deadline: task.row.deadline,
        }
    }

    // How many of these phases can be in the way within w ticks: one for each job.
    #[tactic(auto, using(crate::proofs::Ceiling::ceil_is))]
    pub fn many(&self, w: u32) -> u64
        ensures value { result ≡ ceil (w + self.now.deadline) self.now.spacing }
        ensures bound { result ≤ w + 20000000 }
    {
        let ticks = u64::from(w) + u64::from(self.deadline);
        ticks.div_ceil(u64::from(self.spacing))
    }
}
