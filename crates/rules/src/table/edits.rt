// Making a table, and its edits: each is judged first, and a refused one changes nothing.
ghost use Rattle.std.specs.Prelude.{◌≡◌, true, [], IfOk, vec_capacity};
ghost use Rattle.tasks.specs.Platforms.{cores_fit, favoured};
ghost use Rattle.tasks.specs.Refusals.{answer};
ghost use Rattle.rules.specs.Rules.{add_verdict, remove_verdict, change_verdict, with_row, without, replaced};
ghost use Rattle.rules.specs.Tables.{Edited};

use crate::judge::{MOST_TASKS, judge_add, judge_change};
use crate::table::Table;
use std::alloc::{AllocError, Global};
use tasks::platform::Platform;
use tasks::refusal::Refusal;
use tasks::task::Row;

impl Table {
    // A table without a task, with room for as many as a plan may have.
    pub fn new(heap: Global, platform: Platform) -> Result<Table, AllocError>
        requires { cores_fit platform.cores (favoured platform.line.favours) ≡ true }
        ensures { IfOk result (λ table. (table.platform ≡ platform) × (table.rows.items ≡ [])) }
    {
        Ok(Table {
            platform,
            rows: Vec::with_capacity(heap, MOST_TASKS)?,
        })
    }

    // Takes all tasks out, and goes on with another platform.
    pub fn begin(&mut self, platform: Platform)
        requires { cores_fit platform.cores (favoured platform.line.favours) ≡ true }
        ensures platform { self.new.platform ≡ platform }
        ensures rows { self.new.rows.items ≡ [] }
        ensures room { vec_capacity self.new.rows ≡ vec_capacity self.old.rows }
    {
        self.rows.clear();
        self.platform = platform;
    }

    // A new task, after those that are there: 6, 7, 9, 10, 11, 12.
    pub fn add(&mut self, row: Row) -> Result<(), Refusal>
        ensures answer { answer result ≡ add_verdict self.old.platform.cores self.old.rows.items row }
        ensures edited { Edited self.old result (with_row self.old.rows.items row) self.new }
    {
        judge_add(self.platform.cores, self.rows(), row)?;
        self.rows.push_reserved(row);
        Ok(())
    }

    // Takes a task away, and closes the gap: 8.
    pub fn remove(&mut self, id: u16) -> Result<(), Refusal>
        ensures answer { answer result ≡ remove_verdict self.old.rows.items id }
        ensures edited { Edited self.old result (without self.old.rows.items id) self.new }
    {
        let place = self.place_of(id).ok_or(Refusal::Unknown)?;
        self.rows.remove(place);
        Ok(())
    }

    // Replaces all of a task but its id, at the same place: 6, 8, 10, 11, 12.
    pub fn change(&mut self, row: Row) -> Result<(), Refusal>
        ensures answer { answer result ≡ change_verdict self.old.platform.cores self.old.rows.items row }
        ensures edited { Edited self.old result (replaced self.old.rows.items row) self.new }
    {
        let place = judge_change(self.platform.cores, self.rows(), row)?;
        self.rows[place] = row;
        Ok(())
    }
}
