// The next moment at which something is due.
ghost use Rattle.std.specs.Prelude.{◌≡◌, length};
ghost use Rattle.runs.specs.Shown.{AllInside};
ghost use Rattle.runs.specs.Soonest.{release_of, soonest};

use crate::rows::{Job, LogRow};
use crate::stage::Stage;

fn next_release(jobs: &[Job], upto: usize) -> Option<u64>
    ensures { result ≡ release_of jobs.now upto }
{
    jobs.get(upto).map(|job| job.release)
}

// The next release, or the end of a phase that goes on, whichever is sooner; none, if nothing is to come.
pub fn next_moment(jobs: &[Job], upto: usize, stages: &[Stage], log: &[LogRow]) -> Option<u64>
    requires { AllInside (length log.now) stages.now }
    ensures { result ≡ soonest jobs.now upto log.now stages.now }
{
    let ends = stages.iter().filter_map(|stage| stage.ends(log));
    next_release(jobs, upto).into_iter().chain(ends).min()
}
