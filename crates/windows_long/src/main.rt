// The program once more, on 65,537 bytes. Its second record ends with the last of them, so it is whole, if of a wrong length,
// for whoever reads them all, and cut off for whoever takes the first 65,536. The gate runs a program on one input, so this one is a second program.
#![tactic(auto)]

use report::report;
use std::io;

fn main(rt: HostRuntime) -> io::Result<()> {
    report(&rt)
}
