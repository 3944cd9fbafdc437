// What the task's own core asks for: a blocker, and the jobs that go first.
ghost use Rattle.std.specs.Prelude.{◌≡◌, ℕ, ◌+◌, ◌*◌, ◌≤◌, length, is_some};
ghost use Rattle.std.specs.Option.{unwrap_or};
ghost use Rattle.argument.specs.Plans.{plan_of, lower};
ghost use Rattle.argument.specs.Demand.{block, jobs, own};
ghost use Rattle.demand.specs.Rows.{rows_of, lower_any, jobs_count};

use tasks::task::Task;

// The cost of the longest task that may be on the core already, if there is one: it has a rank number above the task's.
pub fn blocker(tasks: &[Task], task: &Task) -> Option<u32>
    ensures ticks { (cores : ℕ) → unwrap_or result 0 ≡ block (plan_of cores (rows_of tasks.now)) task.now.row }
    ensures some { is_some result ≡ lower_any (rows_of tasks.now) task.now.row }
{
    tasks
        .iter()
        .filter(|other| goes_after(task, other))
        .map(Task::cost)
        .max()
}

// Whether the other task is on the task's core, with a rank number above the task's.
fn goes_after(task: &Task, other: &Task) -> bool
    ensures { result ≡ lower task.now.row other.now.row }
{
    other.row.core == task.row.core && other.row.rank > task.row.rank
}

// Jobs that go before the task's own on its core, and those themselves.
#[derive(Clone, Copy, Debug)]
pub struct Jobs {
    pub count: u64,
    // what they take when they never wait
    pub ticks: u64,
}

// The jobs of so many ticks.
pub fn jobs_within(tasks: &[Task], task: &Task, w: u32) -> Jobs
    requires { length tasks.now ≤ 64 }
    ensures count { result.count ≡ jobs_count (rows_of tasks.now) task.now.row w }
    ensures ticks { (cores : ℕ) → result.ticks ≡ own (plan_of cores (rows_of tasks.now)) task.now.row w }
    ensures counted { result.count ≤ 64 * (w + 10000000) }
    ensures bound { result.ticks ≤ 64 * ((w + 10000000) * 10000000) }
{
    let mut count: u64 = 0;
    let mut ticks: u64 = 0;
    for other in tasks {
        let more = jobs_of(task, other, w);
        count += more;
        ticks += u64::from(other.cost()) * more;
    }
    Jobs { count, ticks }
}

// How many jobs the other task brings before the task's own in w ticks.
#[tactic(auto, using(crate::proofs::Ceiling::ceil_is))]
fn jobs_of(task: &Task, other: &Task, w: u32) -> u64
    ensures value { result ≡ jobs task.now.row w other.now.row }
    ensures bound { result ≤ w + 10000000 }
{
    if other.row.core != task.row.core || other.row.rank > task.row.rank {
        return 0;
    }
    u64::from(w).div_ceil(u64::from(other.row.spacing))
}
