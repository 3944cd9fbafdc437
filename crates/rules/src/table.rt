// The tasks of a plan, as rows in the order of adding, on the cores of a platform.
ghost use Rattle.std.specs.Prelude.{◌≡◌, ◌≤◌, true, vec_len, vec_capacity};
ghost use Rattle.tasks.specs.Platforms.{cores_fit, favoured};
ghost use Rattle.rules.specs.Rules.{place_of, EachATask, AllApart};

use crate::lookup::place_of;
use tasks::platform::Platform;
use tasks::task::Row;

pub mod edits;

// A table cannot hold a wrong task: each row is a task of one of the cores, and any two go together.
#[derive(Drop)]
pub struct Table {
    platform: Platform,
    rows: Vec<Row>,
    ghost fits: { cores_fit platform.cores (favoured platform.line.favours) ≡ true },
    ghost few: { vec_len rows ≤ 64 },
    ghost tasks: { EachATask platform.cores rows.items },
    ghost apart: { AllApart rows.items },
    // reserved at the making, so that no later call asks for memory
    ghost room: { 64 ≤ vec_capacity rows },
}

impl Table {
    pub fn platform(&self) -> Platform
        ensures value { result ≡ self.now.platform }
        ensures fits { cores_fit result.cores (favoured result.line.favours) ≡ true }
    {
        self.platform
    }

    pub fn rows(&self) -> &[Row]
        ensures { result.now ≡ self.now.rows.items }
    {
        self.rows.as_slice()
    }

    // Where the task with this id stands.
    pub fn place_of(&self, id: u16) -> Option<usize>
        ensures { result ≡ place_of id self.now.rows.items }
    {
        place_of(self.rows(), id)
    }
}
