// What a run reads and writes.
ghost use Rattle.std.specs.Prelude.{◌≡◌, ◌+◌, ◌^◌, ◌<◌, map, length};
ghost use Rattle.runs.specs.Machine.{served};
ghost use Rattle.runs.specs.Rows.{job_on, opened};

use crate::stage::Turn;
use tasks::task::Row;

// A row of a script: a job to come, and how long its phases will take.
#[derive(Clone, Copy, PartialEq, Eq, Debug)]
pub struct ScriptRow {
    pub id: u16,
    pub release: u64,
    pub a: u32,
    pub e: u32,
    pub r: u32,
}

// A row of a log.
#[derive(Clone, Copy, PartialEq, Eq, Debug)]
pub struct LogRow {
    pub id: u16,
    pub release: u64,
    pub start: u64,
    pub a_granted: u64,
    pub a_end: u64,
    pub e_end: u64,
    pub r_granted: u64,
    pub end: u64,
}

// A row of a script with what its task's row says: looked up once, before the run.
#[derive(Clone, Copy, Debug)]
pub struct Job {
    // the place of its task
    pub task: usize,
    pub id: u16,
    pub core: u8,
    pub rank: u8,
    pub release: u64,
    pub a: u64,
    pub e: u64,
    pub r: u64,
}

impl Job {
    // The job of a script's row whose task stands at this place of the plan.
    pub fn new(place: usize, task: &Row, row: &ScriptRow) -> Job
        ensures { result ≡ job_on place task.now row.now }
    {
        Job {
            task: place,
            id: task.id,
            core: task.core,
            rank: task.rank,
            release: row.release,
            a: u64::from(row.a),
            e: u64::from(row.e),
            r: u64::from(row.r),
        }
    }
}

// A job's row before the run.
impl From<&Job> for LogRow {
    ghost from_gives = { λ job row. row ≡ opened job.now };

    fn from(job: &Job) -> LogRow {
        LogRow {
            id: job.id,
            release: job.release,
            start: 0,
            a_granted: 0,
            a_end: 0,
            e_end: 0,
            r_granted: 0,
            end: 0,
        }
    }
}

// The rows of a log before the run: whose they are, and no more.
pub fn open(jobs: &[Job], log: &mut [LogRow])
    requires { length log.old ≡ length jobs.now }
    ensures { log.new ≡ map opened jobs.now }
{
    // Not over `log.iter_mut().zip(..)`: after that loop a proof knows nothing of what the rows hold.
    for (k, job) in jobs.iter().enumerate() {
        log[k] = LogRow::from(job);
    }
}

impl LogRow {
    // Writes what is known of a job once its turn begins.
    pub fn serve(&mut self, turn: Turn, job: &Job, time: u64)
        requires e_fits { time + job.now.a + job.now.e < 2 ^ 64 }
        requires r_fits { time + job.now.r < 2 ^ 64 }
        ensures { self.new ≡ served turn job.now time self.old }
    {
        match turn {
            Turn::First => {
                self.a_granted = time;
                self.a_end = time + job.a;
                self.e_end = self.a_end + job.e;
            }
            Turn::Last => {
                self.r_granted = time;
                self.end = time + job.r;
            }
        }
    }
}
