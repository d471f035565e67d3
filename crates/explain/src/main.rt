//! Reads a file from standard input, and prints its net and its docket part in words or why they are refused.
#![tactic(auto)]

use file_words::explain_file;
use std::io::Read;

fn main(rt: HostRuntime) -> anyhow::Result<()> {
    let mut bytes = Vec::new(rt.alloc());
    rt.stdin().read_to_end(&mut bytes)?;
    let text = explain_file(rt.alloc(), &bytes)?;
    rt.print(text)?;
    Ok(())
}
