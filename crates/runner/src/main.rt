// Runs the trace on standard input on a new board of the standard fitting, and prints its lines to standard output.
#![tactic(auto)]

use standard::run_standard;
use std::env;
use std::io::{Eprint, Read, Write};
use std::process::ExitCode;
use trace::LONGEST_TRACE;

// One byte more than the longest trace, so that a longer one is seen to be too long.
const INPUT: u64 = LONGEST_TRACE as u64 + 1;

const OUTPUT: usize = 65_536;

fn main(rt: HostRuntime) -> anyhow::Result<ExitCode> {
    if env::args(&rt)?.count() > 1 {
        rt.eprintln(
            "usage: runner < TRACE\nRuns the trace on standard input, and prints its lines.",
        )?;
        return Ok(ExitCode::FAILURE);
    }
    let mut input = Vec::new(rt.alloc());
    rt.stdin().take(INPUT).read_to_end(&mut input)?;
    let mut output = vec![in rt.alloc(); 0u8; OUTPUT]?;
    let printed = run_standard(&input, &mut output);
    output.truncate(printed);
    rt.stdout().write_all(&output)?;
    Ok(ExitCode::SUCCESS)
}
