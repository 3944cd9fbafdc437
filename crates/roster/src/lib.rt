// A roster: things with a total order, kept in that order by insertion.
#![tactic(auto)]

ghost use Rattle.std.specs.Prelude.{◌≡◌, ◌+◌, ◌<◌, ◌≤◌, true, [], length, IfOk, vec_len, vec_capacity, slice_index_or};
ghost use Rattle.std.specs.Cmp.{IsTotalOrder};
ghost use Rattle.std.specs.List.{remove};
ghost use Rattle.roster.specs.Order.{insert_by, place_by, rises};

use std::alloc::{AllocError, Global};

// Its room stands in the clauses, and not in its type: how much there is, its maker says as the program runs.
#[derive(Drop)]
pub struct Roster<T: Ord> {
    items: Vec<T>,
}

// Where x belongs: before the first that it is less than, so that equals stay in the order in which they came.
// Looked for from the front: the answer is promised of any items, in order or not.
fn place<T: Ord>(items: &[T], x: &T) -> usize
    ensures within { result ≤ length items.now }
    ensures value { result ≡ place_by T.Ord.cmp x.now items.now }
{
    items
        .iter()
        .position(|y| x.cmp(y).is_lt())
        .unwrap_or(items.len())
}

impl<T: Ord + Drop> Roster<T> {
    // An empty roster with room for so many.
    pub fn with_capacity(heap: Global, room: usize) -> Result<Roster<T>, AllocError>
        ensures { IfOk result (λ roster. (roster.items.items ≡ []) × (room ≤ vec_capacity roster.items)) }
    {
        let items = Vec::with_capacity(heap, room)?;
        Ok(Roster { items })
    }

    // All of them, in order.
    pub fn as_slice(&self) -> &[T]
        ensures { result.now ≡ self.now.items.items }
    {
        self.items.as_slice()
    }

    // Takes all of them out, and keeps the room.
    pub fn clear(&mut self)
        ensures items { self.new.items.items ≡ [] }
        ensures room { vec_capacity self.new.items ≡ vec_capacity self.old.items }
    {
        self.items.clear();
    }

    // Puts one more at its place. Its caller has seen to the room, so no memory is wanted.
    pub fn insert(&mut self, x: T)
        requires { vec_len self.old.items < vec_capacity self.old.items }
        ensures items { self.new.items.items ≡ insert_by T.Ord.cmp x self.old.items.items }
        ensures rising { (o : IsTotalOrder T.Ord.cmp) → rises T.Ord.cmp self.old.items.items ≡ true → rises T.Ord.cmp self.new.items.items ≡ true }
        ensures len { vec_len self.new.items ≡ vec_len self.old.items + 1 }
        ensures room { vec_capacity self.old.items ≤ vec_capacity self.new.items }
    {
        let i = place(self.as_slice(), &x);
        let Ok(()) = self.items.insert(i, x) else {
            unreachable()
        };
    }

    // Takes out the one at a place. The others stay in order, and the room stays.
    pub fn take(&mut self, i: usize) -> T
        requires { i < vec_len self.old.items }
        ensures value { result ≡ slice_index_or self.old.items.items i result }
        ensures items { self.new.items.items ≡ remove self.old.items.items i }
        ensures len { vec_len self.new.items + 1 ≡ vec_len self.old.items }
        ensures room { vec_capacity self.new.items ≡ vec_capacity self.old.items }
    {
        self.items.remove(i)
    }
}
