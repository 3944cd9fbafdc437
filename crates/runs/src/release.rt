// Step 2 of a moment: jobs become ready.
ghost use Rattle.std.specs.Prelude.{◌≡◌, ℕ, ◌<◌, ◌≤◌, length, vec_len, vec_capacity};
ghost use Rattle.argument.specs.Plans.{Plan};
ghost use Rattle.bridge.specs.Scripts.{LawfulScript};
ghost use Rattle.bridge.specs.States.{State};
ghost use Rattle.runs.specs.Pool.{Pooled, RowsBelow};
ghost use Rattle.runs.specs.Shown.{script_of, Fetched, AllReleased};

use crate::ready::Ready;
use crate::rows::Job;
use roster::Roster;

// Puts the rows that are released by now into the roster, from row `upto` on, and answers how many rows are released.
pub fn release_due(jobs: &[Job], time: u64, upto: usize, ready: &mut Roster<Ready>) -> usize
    requires within { upto ≤ length jobs.now }
    requires kept { vec_len ready.old.items ≤ upto }
    requires room { length jobs.now ≤ vec_capacity ready.old.items }
    requires below { RowsBelow (length jobs.now) ready.old.items.items }
    ensures within { result ≤ length jobs.now }
    ensures kept { vec_len ready.new.items ≤ result }
    ensures room { vec_capacity ready.old.items ≤ vec_capacity ready.new.items }
    ensures below { RowsBelow (length jobs.now) ready.new.items.items }
    ensures pooled { (P : Plan) (S : State) → ((k : ℕ) → k < length jobs.now → Fetched P jobs.now k) → S.now ≡ time
        → Pooled P (script_of jobs.now) (record { ready = ready.old.items.items; upto = upto }) S
        → Pooled P (script_of jobs.now) (record { ready = ready.new.items.items; upto = result }) S }
    ensures all { (P : Plan) → LawfulScript P (script_of jobs.now) → AllReleased jobs.now time result }
{
    // counted on from the rows that were released: their number is what this step finds
    let mut released = upto;
    for job in &jobs[upto..] {
        if job.release > time {
            break;
        }
        ready.insert(Ready::new(released, job));
        released += 1;
    }
    released
}
