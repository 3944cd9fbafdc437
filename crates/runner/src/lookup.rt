// A script by ids, looked up in the rows of a plan.
ghost use Rattle.std.specs.Prelude.{◌≡◌, ℕ, ◌≤◌, [], ◌∷◌, true, false, length, IfSome, IfNone, OnOk, IfErr, slice_index_or};
ghost use Rattle.tasks.specs.Rows.{no_row};
ghost use Rattle.tasks.specs.Refusals.{told, numbered};
ghost use Rattle.argument.specs.Plans.{plan_of};
ghost use Rattle.bridge.specs.Scripts.{LawfulScript};
ghost use Rattle.runs.specs.Rows.{job_on};
ghost use Rattle.runner.specs.Lookups.{jobs_for, script_for, FirstFault, Possible, Apart, AllApart, Admitted};

use crate::jobs::JobList;
use rules::lookup::place_of;
use runs::progress::MOST_JOBS;
use runs::rows::{Job, ScriptRow};
use tasks::refusal::Refusal;
use tasks::task::Row;

// The last moment at which a job may be released.
const LAST_RELEASE: u64 = 1 << 40;

fn is_possible(task: &Row, row: &ScriptRow) -> bool
    ensures yes { result ≡ true → Possible task.now row.now }
    ensures no { result ≡ false → Possible task.now row.now → ⊥ }
{
    row.release <= LAST_RELEASE
        && 1 <= row.a
        && row.a <= task.a
        && 1 <= row.e
        && row.e <= task.e
        && 1 <= row.r
        && row.r <= task.r
}

fn is_apart(earlier: &Job, task: usize, spacing: u32, release: u64) -> bool
    ensures yes { result ≡ true → Apart earlier.now task spacing release }
    ensures no { result ≡ false → Apart earlier.now task spacing release → ⊥ }
{
    earlier.release <= release
        && (earlier.task != task || release - earlier.release >= u64::from(spacing))
}

fn are_apart(jobs: &[Job], task: usize, spacing: u32, release: u64) -> bool
    ensures yes { result ≡ true → AllApart jobs.now task spacing release }
    ensures no { result ≡ false → AllApart jobs.now task spacing release → ⊥ }
{
    jobs.iter()
        .all(|earlier| is_apart(earlier, task, spacing, release))
}

// The job of a script's row, if the row is admitted after the jobs before it.
fn admit(rows: &[Row], row: &ScriptRow, earlier: &[Job]) -> Option<Job>
    requires { length rows.now ≤ 64 }
    ensures some { IfSome result (λ job. (place : ℕ) × Admitted rows.now row.now earlier.now place × (job ≡ job_on place (slice_index_or rows.now place no_row) row.now)) }
    ensures none { IfNone result ((place : ℕ) → Admitted rows.now row.now earlier.now place → ⊥) }
{
    let place = place_of(rows, row.id)?;
    let task = &rows[place];
    if earlier.len() < MOST_JOBS
        && is_possible(task, row)
        && are_apart(earlier, place, task.spacing, row.release)
    {
        Some(Job::new(place, task, row))
    } else {
        None
    }
}

// Looks every row up, in order, and puts its job into the list.
// Refused: 19, the first faulty row.
pub fn look_up<L: JobList>(rows: &[Row], script: &[ScriptRow], jobs: &mut L) -> Result<(), Refusal>
    requires few { length rows.now ≤ 64 }
    requires room { L.has_room jobs.old }
    ensures found { OnOk result ((L.jobs jobs.new ≡ jobs_for rows.now script.now) × (length script.now ≤ 1024) × LawfulScript (plan_of 0 rows.now) (script_for rows.now script.now)) }
    ensures cleared { L.cleared jobs.old jobs.new }
    ensures fault { IfErr result (λ e. (k : ℕ) × (told e ≡ numbered 19 (k ∷ [])) × FirstFault rows.now script.now k) }
{
    jobs.clear();
    for (k, row) in script.iter().enumerate() {
        let job = admit(rows, row, jobs.as_slice()).ok_or(Refusal::Script(k))?;
        jobs.push(job);
    }
    Ok(())
}

#[cfg(test)]
mod tests {
    use super::look_up;
    use runs::progress::MOST_JOBS;
    use runs::rows::ScriptRow;
    use std::test::Fail;
    use tasks::refusal::Refusal;
    use tasks::task::Row;

    // Into a vector of one's own. The job of the first script is gone when the second is looked up.
    #[test]
    fn a_script_is_looked_up_into_a_vector(rt: HostRuntime) -> Result<(), Fail> {
        let task = Row {
            id: 7,
            core: 1,
            rank: 0,
            spacing: 20,
            deadline: 20,
            a: 2,
            e: 3,
            r: 1,
        };
        let row = ScriptRow {
            id: 7,
            release: 0,
            a: 2,
            e: 3,
            r: 1,
        };
        let mut jobs = Vec::with_capacity(rt.alloc(), MOST_JOBS)?;
        assert_eq!(rt; look_up(&[task], &[row], &mut jobs), Ok(()));
        assert_eq!(rt; jobs.len(), 1);
        let later = ScriptRow { release: 19, ..row };
        assert_eq!(rt;
            look_up(&[task], &[row, later], &mut jobs),
            Err(Refusal::Script(1))
        );
        assert_eq!(rt; jobs.len(), 1);
        Ok(())
    }
}
