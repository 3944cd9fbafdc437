// The phases that tasks of other cores offer.
ghost use Rattle.std.specs.Prelude.{◌≤◌};

use std::cmp::Reverse;

mod calls;

// The kinds of phase that a task offers, in the order that breaks a tie. A job's turns at the bus have no such order.
#[derive(Clone, Copy, PartialEq, Eq, PartialOrd, Ord, Debug)]
pub enum Phase {
    A,
    R,
}

// All phases of one kind that one task offers: kept once, since how many there are follows from w.
// Offers are ordered by falling length, then by the task's place in the plan, then A before R.
#[derive(Clone, Copy, PartialEq, Eq, PartialOrd, Ord, Debug)]
pub struct Offer {
    pub length: Reverse<u32>,
    pub place: usize,
    pub phase: Phase,
    pub core: u8,
    pub spacing: u32,
    pub deadline: u32,
    ghost some: { 1 ≤ spacing },
    ghost seldom: { spacing ≤ 10000000 },
    ghost due: { deadline ≤ 10000000 },
    ghost short: { length.0 ≤ 10000000 },
}
