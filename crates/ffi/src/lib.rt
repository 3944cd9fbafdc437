// Settling for callers of another language: a plan in numbers comes in, its outcomes in numbers go out.
#![tactic(auto)]

ghost use Rattle.ffi.specs.Layout.{SameNumbers, TellsOutcome};

use bus_line::bus_of;
use settler::plan::Plan;
use std::alloc::Global;
use tasks::outcome::Outcome;
use tasks::refusal::Refusal;
use tasks::task::Row;

// A row of a plan, laid out as C lays it out: rows may gain a field without a change to what C callers pass.
#[repr(C)]
#[derive(Clone, Copy)]
pub struct Numbers {
    pub id: u16,
    pub core: u8,
    pub rank: u8,
    pub spacing: u32,
    pub deadline: u32,
    pub a: u32,
    pub e: u32,
    pub r: u32,
}

impl From<Numbers> for Row {
    ghost from_gives = { SameNumbers };

    fn from(task: Numbers) -> Row {
        Row {
            id: task.id,
            core: task.core,
            rank: task.rank,
            spacing: task.spacing,
            deadline: task.deadline,
            a: task.a,
            e: task.e,
            r: task.r,
        }
    }
}

// What settling found for one task: 1 if it is late, and the ticks. C has no enum with a number in each case.
#[repr(C)]
#[derive(Clone, Copy)]
pub struct Found {
    pub late: u64,
    pub ticks: u64,
}

impl From<Outcome> for Found {
    ghost from_gives = { TellsOutcome };

    fn from(outcome: Outcome) -> Found {
        match outcome {
            Outcome::Window(ticks) => Found { late: 0, ticks },
            Outcome::Late(ticks) => Found { late: 1, ticks },
        }
    }
}

// Makes a plan of the tasks, settles it so many times on the arbiter of its bus line, and tells each task's outcome as far as there is room.
// Answers how many tasks are late, or the greatest number there is where a call was refused, since C has no Result.
// The crate `ffi_c` gives it to C, whose callers pass plain numbers one by one.
pub fn settler_settle(
    heap: Global,
    cores: u8,
    bottom: u8,
    favours: &[u8],
    tasks: &[Numbers],
    times: u32,
    found: &mut [Found],
) -> usize {
    settled(heap, cores, bottom, favours, tasks, times, found).unwrap_or(usize::MAX)
}

fn settled(
    heap: Global,
    cores: u8,
    bottom: u8,
    favours: &[u8],
    tasks: &[Numbers],
    times: u32,
    found: &mut [Found],
) -> Result<usize, Refusal> {
    let mut plan = Plan::open(heap, cores, bottom, favours)?;
    for task in tasks {
        plan.add(Row::from(*task))?;
    }
    let platform = plan.platform();
    let bus = bus_of(platform.line, platform.cores)?;
    let mut late = 0;
    for _ in 0..times {
        late = plan.settle(&bus)?;
    }
    for (slot, task) in found.iter_mut().zip(tasks) {
        *slot = Found::from(plan.window(task.id)?);
    }
    Ok(late)
}
