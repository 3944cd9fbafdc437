// The memory that settling works in. It is reserved once, so that settling asks for none.
ghost use Rattle.std.specs.Prelude.{◌≤◌, vec_capacity};

use crate::offer::Offer;
use roster::Roster;
use tasks::task::Task;

mod settling;

#[derive(Drop)]
pub struct Work {
    // the tasks of the rows that are settled, and what they offer
    tasks: Vec<Task>,
    offers: Roster<Offer>,
    ghost task_room: { 64 ≤ vec_capacity tasks },
    ghost offer_room: { 128 ≤ vec_capacity offers.items },
}
