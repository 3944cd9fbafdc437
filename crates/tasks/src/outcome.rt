// What settling found for one task. No Result: that a task is late is an answer too, with a number of its own.
#[derive(Clone, Copy, PartialEq, Eq, Debug)]
pub enum Outcome {
    // every job ends within so many ticks of its release
    Window(u64),
    // no number up to the deadline covers the demand; this is the demand at the deadline
    Late(u64),
}
