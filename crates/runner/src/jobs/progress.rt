// The script's jobs are put into the record of the run itself.
use crate::jobs::JobList;
use runs::progress::Progress;
use runs::rows::Job;

impl JobList for Progress {
    ghost use Rattle.std.specs.Prelude.{◌≡◌, ◌≤◌, [], vec_capacity};

    ghost jobs = { λ progress. progress.jobs.items };

    ghost has_room = { λ progress. 1024 ≤ vec_capacity progress.jobs };

    // its room stays, and no core and no ready job is left
    ghost cleared = { λ before now. (vec_capacity now.jobs ≡ vec_capacity before.jobs) × (now.stages.items ≡ []) × (now.ready.items.items ≡ []) };

    fn clear(&mut self) {
        self.clear();
    }

    fn push(&mut self, job: Job) {
        self.add(job);
    }

    fn as_slice(&self) -> &[Job] {
        self.jobs()
    }
}
