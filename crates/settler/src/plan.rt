// A plan: the tasks of every core, and what was settled for them.
ghost use Rattle.std.specs.Prelude.{◌≡◌, ◌≤◌, true, vec_len, vec_capacity};

use demand::work::Work;
use rules::table::Table;
use tasks::outcome::Outcome;
use writing::text::Text;

pub mod edits;
pub mod settling;
pub mod sheet;

// A plan cannot hold a wrong task: its table cannot.
#[derive(Drop)]
pub struct Plan {
    // cores, bus line and tasks
    table: Table,
    // One for each row, as long as `settled` says so. They are no Option, and no part of the rows: their memory is reserved by
    // open and kept while nothing is settled, and a plan without a task is settled or not like any other.
    outcomes: Vec<Outcome>,
    settled: bool,
    // working memory: no content of the plan
    work: Work,
    spare: Table,
    // more than 64 tasks come to, as a sheet and as lines
    text: Text<8192>,
    ghost told_all: { settled ≡ true → vec_len outcomes ≡ vec_len table.rows },
    ghost outcome_room: { 64 ≤ vec_capacity outcomes },
}
