//! Reads the bounds of a closed loop from standard input, one to a line, and prints their sum and
//! the verdict.
#![tactic(auto)]

use bounds::MarkedBound;
use loops::judge;
use std::io::Read;
use std::process::ExitCode;

fn main(rt: HostRuntime) -> anyhow::Result<ExitCode> {
    let mut text = Vec::new(rt.alloc());
    rt.stdin().read_to_end(&mut text)?;
    match judge::<MarkedBound>(&text) {
        Ok(verdict) => {
            rt.println(verdict)?;
            Ok(ExitCode::SUCCESS)
        }
        Err(bad) => {
            rt.eprintln(bad)?;
            Ok(ExitCode::FAILURE)
        }
    }
}
