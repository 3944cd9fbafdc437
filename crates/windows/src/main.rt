// The program: a sheet on standard input, the windows of its tasks on standard output.
#![tactic(auto)]

use report::report;
use std::io;

fn main(rt: HostRuntime) -> io::Result<()> {
    report(&rt)
}
