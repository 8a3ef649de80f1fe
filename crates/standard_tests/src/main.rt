// Runs each trace of its input on a new standard board, and prints its lines.
//
// A line that starts with # names a case and is printed. Any other line is a trace: words of hexadecimal bytes, which stand one
// behind the other; `N*BYTES` is those bytes N times.
#![tactic(auto)]

use anyhow::anyhow;
use standard::run_standard;
use std::alloc::Global;

const ROOM: usize = 65_536;

// The bytes of a word's digits.
fn push_bytes(trace: &mut Vec<u8>, digits: &str) -> anyhow::Result<()> {
    for at in (0..digits.len()).step_by(2) {
        let byte = digits
            .get(at..at + 2)
            .ok_or_else(|| anyhow!("half a byte in {digits}"))?;
        trace.push(u8::from_str_radix(byte, 16)?)?;
    }
    Ok(())
}

fn push_word(trace: &mut Vec<u8>, word: &str) -> anyhow::Result<()> {
    let (times, digits) = word.split_once('*').unwrap_or(("1", word));
    for _ in 0..times.parse::<u32>()? {
        push_bytes(trace, digits)?;
    }
    Ok(())
}

fn run_line(rt: &impl Print, heap: Global, line: &str) -> anyhow::Result<()> {
    let mut trace = Vec::new(heap);
    for word in line.split_whitespace() {
        push_word(&mut trace, word)?;
    }
    let mut out = vec![in heap; 0u8; ROOM]?;
    let printed = run_standard(&trace, &mut out);
    out.truncate(printed);
    print!(rt; "{}", String::from_utf8(out)?)?;
    Ok(())
}

fn main(rt: HostRuntime) -> anyhow::Result<()> {
    for line in rt.lines(rt.alloc()) {
        let line = line?;
        if line.starts_with('#') {
            println!(rt; "{line}")?;
        } else {
            run_line(&rt, rt.alloc(), line.as_str())?;
        }
    }
    Ok(())
}
