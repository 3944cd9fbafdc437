// The judges of the edits: each answers the first refusal of its own list that applies.
ghost use Rattle.std.specs.Prelude.{◌≡◌, Some, Ok, Err, MatchResult};
ghost use Rattle.tasks.specs.Refusals.{told, answer};
ghost use Rattle.rules.specs.Rules.{add_verdict, change_verdict, place_of};

use crate::lookup::{has_clash, place_of};
use tasks::refusal::Refusal;
use tasks::task::{Row, Task};

// The most tasks of a plan. Calls that are given rows ask for no more of them; they take any rows, and not only those of a table.
pub const MOST_TASKS: usize = 64;

// Whether the row may be added: 6, 7, 9, 10, 11, 12. Any rows are judged, also those that no table holds.
pub fn judge_add(cores: u8, rows: &[Row], row: Row) -> Result<(), Refusal>
    ensures { answer result ≡ add_verdict cores rows.now row }
{
    if row.core >= cores {
        return Err(Refusal::Core);
    }
    if place_of(rows, row.id).is_some() {
        return Err(Refusal::Known);
    }
    if rows.len() >= MOST_TASKS {
        return Err(Refusal::Full);
    }
    if has_clash(rows, row) {
        return Err(Refusal::Rank);
    }
    Task::try_from(row)?;
    Ok(())
}

// Whether the row may stand in place of the one with its id, and where that is: 6, 8, 10, 11, 12.
pub fn judge_change(cores: u8, rows: &[Row], row: Row) -> Result<usize, Refusal>
    ensures { MatchResult result (λ i. (change_verdict cores rows.now row ≡ Ok tt) × (place_of row.id rows.now ≡ Some i)) (λ e. change_verdict cores rows.now row ≡ Err (told e)) }
{
    if row.core >= cores {
        return Err(Refusal::Core);
    }
    let Some(i) = place_of(rows, row.id) else {
        return Err(Refusal::Unknown);
    };
    if has_clash(rows, row) {
        return Err(Refusal::Rank);
    }
    Task::try_from(row)?;
    Ok(i)
}
