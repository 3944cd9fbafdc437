// Before a run.
ghost use Rattle.std.specs.Prelude.{◌≡◌, ◌<◌, ◌≤◌, ◌++◌, [], ◌∷◌, map, length, replicate, IfOk, vec_len, vec_capacity};
ghost use Rattle.runs.specs.declared.stage.Stage.TheVariants.{Idle};
ghost use Rattle.runs.specs.Rows.{opened};

use crate::progress::{MOST_JOBS, Progress};
use crate::rows::{self, Job, LogRow};
use crate::stage::idle_stages;
use bus::arbiter::MOST_PORTS;
use roster::Roster;
use std::alloc::{AllocError, Global};

impl Progress {
    // Room for any script that may be run, on any platform.
    pub fn new(heap: Global) -> Result<Progress, AllocError>
        ensures { IfOk result (λ progress. progress.jobs.items ≡ []) }
    {
        Ok(Progress {
            jobs: Vec::with_capacity(heap, MOST_JOBS)?,
            stages: Vec::with_capacity(heap, usize::from(MOST_PORTS))?,
            ready: Roster::with_capacity(heap, MOST_JOBS)?,
            time: 0,
            released: 0,
        })
    }

    pub fn jobs(&self) -> &[Job]
        ensures { result.now ≡ self.now.jobs.items }
    {
        self.jobs.as_slice()
    }

    // Forgets the run: no job is left, and no core.
    pub fn clear(&mut self)
        ensures jobs { self.new.jobs.items ≡ [] }
        ensures room { vec_capacity self.new.jobs ≡ vec_capacity self.old.jobs }
        ensures cores { self.new.stages.items ≡ [] }
        ensures ready { self.new.ready.items.items ≡ [] }
    {
        self.stages.clear();
        self.ready.clear();
        self.released = 0;
        self.jobs.clear();
    }

    // One more job, the last of the script.
    pub fn add(&mut self, job: Job)
        requires { vec_len self.old.jobs < 1024 }
        ensures jobs { self.new.jobs.items ≡ self.old.jobs.items ++ job ∷ [] }
        ensures room { vec_capacity self.new.jobs ≡ vec_capacity self.old.jobs }
        ensures cores { self.new.stages ≡ self.old.stages }
        ensures ready { self.new.ready ≡ self.old.ready }
    {
        self.jobs.push_reserved(job);
    }

    // Before moment 0: so many cores, all idle, and no job is released. The log's rows say whose they are, and no more.
    pub fn open(&mut self, cores: u8, log: &mut [LogRow])
        requires few { cores ≤ 16 }
        requires rows { length log.old ≡ vec_len self.old.jobs }
        ensures jobs { self.new.jobs.items ≡ self.old.jobs.items }
        ensures idle { self.new.stages.items ≡ replicate cores Idle }
        ensures ready { self.new.ready.items.items ≡ [] }
        ensures time { self.new.time ≡ 0 }
        ensures released { self.new.released ≡ 0 }
        ensures log { log.new ≡ map opened self.old.jobs.items }
    {
        self.stages.clear();
        let Ok(()) = self
            .stages
            .extend_from_slice(&idle_stages()[..usize::from(cores)])
        else {
            unreachable()
        };
        self.ready.clear();
        self.time = 0;
        self.released = 0;
        rows::open(&self.jobs, log);
    }
}
