// The C interface of settling: the calls of `ffi` under their C names, in a static library.
#![tactic(auto)]

use ffi::{Found, Numbers};
use std::alloc::Global;

// Makes a plan of the tasks, settles it so many times on the arbiter of its bus line, and tells each task's outcome as far as there is room.
// Answers how many tasks are late, or the greatest number there is where a call was refused.
#[unsafe(no_mangle)]
pub extern "C" fn settler_settle(
    heap: Global,
    cores: u8,
    bottom: u8,
    favours: &[u8],
    tasks: &[Numbers],
    times: u32,
    found: &mut [Found],
) -> usize {
    ffi::settler_settle(heap, cores, bottom, favours, tasks, times, found)
}
