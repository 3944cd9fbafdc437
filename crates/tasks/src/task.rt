// A row of plain numbers, and the task that is made of it by a check.
ghost use Rattle.std.specs.Prelude.{◌≡◌, ◌+◌, ◌≤◌, Ok, Err, MatchResult};
ghost use Rattle.tasks.specs.Refusals.{told};
ghost use Rattle.tasks.specs.Rows.{row_verdict};

use crate::refusal::Refusal;

// The longest spacing, in ticks.
pub const LONGEST: u32 = 10_000_000;

// What a plan keeps of a task: numbers, as its maker gave them.
#[derive(Clone, Copy, PartialEq, Eq, Debug)]
pub struct Row {
    pub id: u16,
    pub core: u8,
    // fixed priority on the core: the lower number goes first
    pub rank: u8,
    // the least number of ticks from one release to the next
    pub spacing: u32,
    // counted from the release
    pub deadline: u32,
    // the longest phases: a brings the pages in, e runs without the bus, r writes back
    pub a: u32,
    pub e: u32,
    pub r: u32,
}

// A task cannot break its bounds: they are part of its type.
#[derive(Clone, Copy, Debug)]
pub struct Task {
    pub row: Row,
    ghost ranked: { 1 ≤ row.rank },
    ghost some_a: { 1 ≤ row.a },
    ghost some_e: { 1 ≤ row.e },
    ghost some_r: { 1 ≤ row.r },
    ghost in_time: { row.a + row.e + row.r ≤ row.deadline },
    ghost constrained: { row.deadline ≤ row.spacing },
    ghost bounded: { row.spacing ≤ 10000000 },
}

// The task of a row, or the topmost refusal that the row alone earns.
impl TryFrom<Row> for Task {
    type Error = Refusal;

    ghost try_from_gives = { λ row r. MatchResult r (λ task. (row_verdict row ≡ Ok tt) × (task.row ≡ row)) (λ e. row_verdict row ≡ Err (told e)) };

    fn try_from(row: Row) -> Result<Task, Refusal> {
        if row.rank == 0 {
            return Err(Refusal::Rank);
        }
        if row.a == 0 || row.e == 0 || row.r == 0 {
            return Err(Refusal::Length);
        }
        let cost = u64::from(row.a) + u64::from(row.e) + u64::from(row.r);
        if cost > u64::from(row.deadline) || row.deadline > row.spacing || row.spacing > LONGEST {
            return Err(Refusal::Times);
        }
        Ok(Task { row })
    }
}

impl Task {
    // C, the ticks that a job of this task takes at most when it never waits.
    pub fn cost(&self) -> u32
        ensures { result ≡ self.now.row.a + self.now.row.e + self.now.row.r }
    {
        self.row.a + self.row.e + self.row.r
    }
}
