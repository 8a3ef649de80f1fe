// Plays a script on a pair and on a chip that stands alone, and prints what each word of the script shows.
//
// The script is the file stdin, and the file stdout is what the datasheet and the rules say of it. The table of OCW2 and
// the walks at its end come from a second model, written from the rules and not from this code.
#![tactic(auto)]

mod bench;
mod script;

use bench::Bench;
use script::Word;

// Each word that shows something prints a line.
fn play_line(rt: &impl Print, bench: &mut Bench, line: &str) -> anyhow::Result<()> {
    for text in line.split_whitespace() {
        match text.parse::<Word>() {
            Ok(word) => {
                if let Some(shown) = bench.play(word) {
                    println!(rt; "{text} {shown}")?;
                }
            }
            Err(no_word) => println!(rt; "{text} {no_word}")?,
        }
    }
    Ok(())
}

fn run(rt: &(impl Print + Input + Alloc)) -> anyhow::Result<()> {
    let mut bench = Bench::new();
    for line in rt.lines(rt.alloc()) {
        let line = line?;
        if line.starts_with('#') {
            println!(rt; "{line}")?;
        } else {
            play_line(rt, &mut bench, line.as_str())?;
        }
    }
    Ok(())
}

fn main(rt: HostRuntime) -> anyhow::Result<()> {
    run(&rt)
}
