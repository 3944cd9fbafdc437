// What the program does: a sheet on standard input, the windows of its tasks on standard output.
#![tactic(auto)]

ghost use Rattle.std.specs.Prelude.{◌≤◌, length, IfOk};

use bus_line::bus_of;
use settler::plan::Plan;
use std::io;
use std::io::{Read, Write};
use tasks::refusal::Refusal;

// The most bytes of a sheet that are looked at.
const MOST_BYTES: usize = 65536;

// More than print writes of any plan.
const MOST_TEXT: usize = 8192;

// The first bytes of standard input, or all if there are fewer, read in blocks; answers how many there are. Not by `read_to_end`:
// its first blocks are short, which cuts a sheet that comes as one packet, and it grows past the most bytes.
fn read_sheet(rt: &HostRuntime, sheet: &mut [u8]) -> io::Result<usize>
    ensures { IfOk result (λ n. n ≤ length sheet.old) }
{
    let mut input = rt.stdin();
    let mut len = 0;
    while len < sheet.len() {
        let count = input.read(&mut sheet[len..])?;
        if count == 0 {
            break;
        }
        len += count;
    }
    Ok(len)
}

// Settles the plan on the arbiter of its own bus line, and answers how many bytes print wrote of it.
fn settled(plan: &mut Plan, out: &mut [u8]) -> Result<usize, Refusal> {
    let platform = plan.platform();
    let bus = bus_of(platform.line, platform.cores)?;
    plan.settle(&bus)?;
    plan.print(out)
}

// Loads the sheet, settles it on the arbiter of its bus line, and prints; a refused sheet is told with its number and its place.
pub fn report(rt: &HostRuntime) -> io::Result<()> {
    let heap = rt.alloc();
    let mut sheet = vec![in heap; 0u8; MOST_BYTES]?;
    let mut out = vec![in heap; 0u8; MOST_TEXT]?;
    let len = read_sheet(rt, &mut sheet)?;
    let mut plan = match Plan::open(heap, 1, 1, &[]) {
        Ok(plan) => plan,
        Err(why) => return println!(rt; "{why}"),
    };
    if let Err(fault) = plan.load(&sheet[0..len]) {
        return println!(rt; "{fault}");
    }
    match settled(&mut plan, &mut out) {
        Ok(count) => rt.stdout().write_all(&out[0..count.min(MOST_TEXT)]),
        Err(why) => println!(rt; "{why}"),
    }
}
