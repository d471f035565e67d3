//! Reads a file from standard input to its end, and prints the one line that it comes to.
#![tactic(auto)]

use file_check::report;
use std::io::Read;

fn main(rt: HostRuntime) -> anyhow::Result<()> {
    let mut bytes = Vec::new(rt.alloc());
    rt.stdin().read_to_end(&mut bytes)?;
    rt.println(report(&bytes))?;
    Ok(())
}
