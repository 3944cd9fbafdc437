// Runs a script.
ghost use Rattle.std.specs.Prelude.{◌≡◌, ◌≤◌, length, MatchResult};
ghost use Rattle.argument.specs.Plans.{plan_of, SoundPlan};
ghost use Rattle.runner.specs.Outcomes.{Accepted, Refused};

use crate::lookup::look_up;
use crate::work::RunWork;
use bus::arbiter::Arbiter;
use runs::progress::Progress;
use runs::rows::{LogRow, ScriptRow};
use std::alloc::{AllocError, Global};
use tasks::refusal::Refusal;
use tasks::task::Row;

impl RunWork {
    // Room for any script that may be run.
    pub fn new(heap: Global) -> Result<RunWork, AllocError> {
        Ok(RunWork {
            progress: Progress::new(heap)?,
        })
    }

    // Runs the script, and writes its log into the first rows that are lent: how many.
    pub fn run<B: Arbiter>(
        &mut self,
        rows: &[Row],
        cores: u8,
        arb: &mut B,
        script: &[ScriptRow],
        log: &mut [LogRow],
    ) -> Result<usize, Refusal>
        requires few { length rows.now ≤ 64 }
        requires sound { SoundPlan (plan_of cores rows.now) }
        ensures { MatchResult result
            (λ n. Accepted B.Arbiter.means rows.now cores script.now arb.old arb.new log.old log.new n)
            (λ e. Refused B.Arbiter.means rows.now cores script.now arb.old log.old e × (arb.new ≡ arb.old) × (log.new ≡ log.old)) }
    {
        let count = script.len();
        if log.len() < count {
            return Err(Refusal::Narrow);
        }
        if arb.ports() != cores {
            return Err(Refusal::Ports);
        }
        if !arb.idle() {
            return Err(Refusal::Busy);
        }
        look_up(rows, script, &mut self.progress)?;
        let written = &mut log[..count];
        self.progress.open(cores, written);
        self.progress.drive(written, arb)?;
        Ok(count)
    }
}
