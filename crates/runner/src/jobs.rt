// Where the jobs of a script are put as they are looked up.
ghost use Rattle.std.specs.Prelude.{◌≡◌, ◌<◌, ◌≤◌, ◌++◌, List, [], ◌∷◌, length, vec_capacity};
ghost use Rattle.runs.specs.declared.rows.Job.{Job};

use runs::rows::Job;

mod progress;

// A list that takes one job after the other: a vector, or the record of a run.
pub trait JobList {
    // The jobs, in their order.
    ghost jobs: { Self → List Job };

    // There is room for the jobs of every script that may be run.
    ghost has_room: { Self → Type 0 };

    // What is known of a list that was cleared and has taken jobs since: the list before, and the list now.
    ghost cleared: { Self → Self → Type 0 };

    // Takes all jobs out.
    fn clear(&mut self)
        ensures jobs { jobs self.new ≡ [] }
        ensures room { has_room self.old → has_room self.new }
        ensures cleared { cleared self.old self.new };

    // One more job, the last of the script. There is room for it, so no memory is wanted.
    fn push(&mut self, job: Job)
        requires few { length (jobs self.old) < 1024 }
        requires room { has_room self.old }
        ensures jobs { jobs self.new ≡ jobs self.old ++ job ∷ [] }
        ensures room { has_room self.new }
        ensures cleared { (before : Self) → cleared before self.old → cleared before self.new };

    // The jobs so far.
    fn as_slice(&self) -> &[Job]
        ensures { result.now ≡ jobs self.now };
}

impl JobList for Vec<Job> {
    ghost jobs = { λ list. list.items };

    ghost has_room = { λ list. 1024 ≤ vec_capacity list };

    ghost cleared = { λ before now. vec_capacity now ≡ vec_capacity before };

    fn clear(&mut self) {
        self.clear();
    }

    fn push(&mut self, job: Job) {
        self.push_reserved(job);
    }

    fn as_slice(&self) -> &[Job] {
        self.as_slice()
    }
}
