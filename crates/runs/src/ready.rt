// Ready jobs, kept in the roster: by core, then by rank, then by release.
ghost use Rattle.std.specs.Prelude.{◌≡◌, ℕ, ◌<◌, ◌≤◌, IfSome, vec_len, vec_capacity};
ghost use Rattle.runs.specs.Pool.{ready_of, chosen, without, RowsBelow};

use crate::rows::Job;
use roster::Roster;

// A job that is released and not started. The first of its core goes first.
#[derive(Clone, Copy, PartialEq, Eq, PartialOrd, Ord, Debug)]
pub struct Ready {
    pub core: u8,
    pub rank: u8,
    pub release: u64,
    // its row in the script
    pub row: usize,
}

impl Ready {
    // What is kept of the job that stands at this row of the script.
    pub fn new(row: usize, job: &Job) -> Ready
        ensures { result ≡ ready_of row job.now }
    {
        Ready {
            core: job.core,
            rank: job.rank,
            release: job.release,
            row,
        }
    }
}

// Takes out the core's first ready job.
pub fn take_ready(ready: &mut Roster<Ready>, core: u8) -> Option<usize>
    ensures job { result ≡ chosen core ready.old.items.items }
    ensures items { ready.new.items.items ≡ without core ready.old.items.items }
    ensures row { (n : ℕ) → RowsBelow n ready.old.items.items → IfSome result (λ k. k < n) }
    ensures below { (n : ℕ) → RowsBelow n ready.old.items.items → RowsBelow n ready.new.items.items }
    ensures len { vec_len ready.new.items ≤ vec_len ready.old.items }
    ensures room { vec_capacity ready.new.items ≡ vec_capacity ready.old.items }
{
    let i = ready.as_slice().iter().position(|job| job.core == core)?;
    Some(ready.take(i).row)
}
