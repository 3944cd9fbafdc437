// Opening a plan, and its edits. An accepted edit takes away what was settled: each says so in a line, where a closure would take two.
ghost use Rattle.std.specs.Prelude.{◌≡◌, true, ◌⊎◌, Ok, Err, IfOk, MatchResult};
ghost use Rattle.tasks.specs.Platforms.{cores_fit, bottom_number, favoured};
ghost use Rattle.tasks.specs.Refusals.{told, answer, no_memory};
ghost use Rattle.rules.specs.Rules.{open_verdict, add_verdict, remove_verdict, change_verdict, with_row, without, replaced};
ghost use Rattle.settler.specs.Contents.{content, empty, edited};

use crate::plan::Plan;
use demand::work::Work;
use rules::judge::MOST_TASKS;
use rules::table::Table;
use std::alloc::{AllocError, Global};
use tasks::platform::{BusLine, Platform};
use tasks::refusal::Refusal;
use tasks::task::Row;
use writing::text::Text;

impl Plan {
    // An empty plan. It reserves what every later call on the plan needs, so only this call may answer want of memory.
    pub fn open(heap: Global, cores: u8, bottom: u8, favours: &[u8]) -> Result<Plan, Refusal>
        ensures { MatchResult result (λ plan. (open_verdict cores bottom favours.now ≡ Ok tt) × (content plan ≡ empty cores bottom favours.now)) (λ e. (open_verdict cores bottom favours.now ≡ Err (told e)) ⊎ ((open_verdict cores bottom favours.now ≡ Ok tt) × (told e ≡ no_memory))) }
    {
        let line = BusLine::new(bottom, favours)?;
        let platform = Platform::new(cores, line)?;
        Ok(reserved(heap, platform)?)
    }

    // Its cores and its bus line.
    pub fn platform(&self) -> Platform
        ensures { (result.cores ≡ (content self.now).cores) × (bottom_number result.line.bottom ≡ (content self.now).bottom) × (favoured result.line.favours ≡ (content self.now).favours) × (cores_fit result.cores (favoured result.line.favours) ≡ true) }
    {
        self.table.platform()
    }

    // A new task, after those that are there: 6, 7, 9, 10, 11, 12.
    pub fn add(&mut self, row: Row) -> Result<(), Refusal>
        ensures answer { answer result ≡ add_verdict (content self.old).cores (content self.old).rows row }
        ensures content { content self.new ≡ edited result (content self.old) (with_row (content self.old).rows row) }
    {
        self.table.add(row)?;
        self.settled = false;
        Ok(())
    }

    // Takes a task away, and closes the gap: 8.
    pub fn remove(&mut self, id: u16) -> Result<(), Refusal>
        ensures answer { answer result ≡ remove_verdict (content self.old).rows id }
        ensures content { content self.new ≡ edited result (content self.old) (without (content self.old).rows id) }
    {
        self.table.remove(id)?;
        self.settled = false;
        Ok(())
    }

    // Replaces all of a task but its id, at the same place: 6, 8, 10, 11, 12.
    pub fn change(&mut self, row: Row) -> Result<(), Refusal>
        ensures answer { answer result ≡ change_verdict (content self.old).cores (content self.old).rows row }
        ensures content { content self.new ≡ edited result (content self.old) (replaced (content self.old).rows row) }
    {
        self.table.change(row)?;
        self.settled = false;
        Ok(())
    }
}

// An empty plan with room for all that its calls will ever need.
fn reserved(heap: Global, platform: Platform) -> Result<Plan, AllocError>
    requires { cores_fit platform.cores (favoured platform.line.favours) ≡ true }
    ensures { IfOk result (λ plan. content plan ≡ empty platform.cores (bottom_number platform.line.bottom) (favoured platform.line.favours)) }
{
    Ok(Plan {
        table: Table::new(heap, platform)?,
        outcomes: Vec::with_capacity(heap, MOST_TASKS)?,
        settled: false,
        work: Work::new(heap)?,
        spare: Table::new(heap, platform)?,
        text: Text::with_room(heap)?,
    })
}
