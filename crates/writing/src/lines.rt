// What was settled, as lines of text.
ghost use Rattle.std.specs.Prelude.{◌≡◌, ◌+◌, ◌≤◌, ◌++◌, length};
ghost use Rattle.writing.specs.Lines.{outcome_text, line, printed};

use crate::text::Text;
use demand::late::late_count;
use tasks::outcome::Outcome;
use tasks::task::Row;

// `window` or `late`, and the number.
fn add_outcome<const ROOM: usize>(text: &mut Text<ROOM>, outcome: Outcome)
    requires { length text.old.bytes + 28 ≤ ROOM }
    ensures bytes { text.new.bytes ≡ text.old.bytes ++ outcome_text outcome }
    ensures len { length text.new.bytes ≤ length text.old.bytes + 28 }
    ensures room { text.old.room ≤ text.new.room }
{
    match outcome {
        Outcome::Window(ticks) => {
            text.add(b" window ");
            text.add_number(ticks);
        }
        Outcome::Late(ticks) => {
            text.add(b" late ");
            text.add_number(ticks);
        }
    }
}

// One task: its id, its core, and its outcome.
fn add_line<const ROOM: usize>(text: &mut Text<ROOM>, row: Row, outcome: Outcome)
    requires { length text.old.bytes + 70 ≤ ROOM }
    ensures bytes { text.new.bytes ≡ text.old.bytes ++ line row outcome }
    ensures len { length text.new.bytes ≤ length text.old.bytes + 70 }
    ensures room { text.old.room ≤ text.new.room }
{
    text.add_number(u64::from(row.id));
    text.add(b" ");
    text.add_number(u64::from(row.core));
    add_outcome(text, outcome);
    text.add(b"\n");
}

// A line for each task, in plan order, and a last line with the number of late ones, in place of what the text held.
pub fn printed_text<const ROOM: usize>(text: &mut Text<ROOM>, rows: &[Row], outcomes: &[Outcome])
    requires few { length rows.now ≤ 64 }
    requires all { length outcomes.now ≡ length rows.now }
    requires room { 8192 ≤ ROOM }
    ensures bytes { text.new.bytes ≡ printed rows.now outcomes.now }
    ensures room { text.old.room ≤ text.new.room }
{
    text.clear();
    for (row, outcome) in rows.iter().zip(outcomes) {
        add_line(text, *row, *outcome);
    }
    text.add(b"late ");
    text.add_number(late_count(outcomes) as u64);
    text.add(b"\n");
}
