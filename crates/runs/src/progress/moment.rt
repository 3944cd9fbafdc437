// The next moment at which something is due.
use crate::moment::next_moment;
use crate::progress::Progress;
use crate::rows::LogRow;

impl Progress {
    ghost use Rattle.std.specs.Prelude.{◌≡◌, length};
    ghost use Rattle.runs.specs.Shown.{AllInside};
    ghost use Rattle.runs.specs.Soonest.{soonest};

    // The next release, or the end of a phase that goes on, whichever is sooner; none, if nothing is to come.
    pub fn next_moment(&self, log: &[LogRow]) -> Option<u64>
        requires { AllInside (length log.now) self.now.stages.items }
        ensures { result ≡ soonest self.now.jobs.items self.now.released log.now self.now.stages.items }
    {
        next_moment(&self.jobs, self.released, &self.stages, log)
    }
}
