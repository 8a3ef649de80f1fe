// Prints what a board answers.
use board::Board;
use i8259::{Chip, Which};
use mixtures::Step;
use rules::Answer;
use slots::Slots;
use std::fmt;

// An answer, as it is printed.
#[derive(Drop)]
struct Answered(Answer);

impl fmt::Display for Answered {
    fn fmt<W: fmt::Write>(&self, f: &mut fmt::Formatter<W>) -> fmt::Result {
        match self.0 {
            Answer::Edges(edges) => write!(f, "edges {edges}"),
            Answer::Byte(byte) => write!(f, "byte 0x{byte:02X}"),
            Answer::Done => write!(f, "done"),
            Answer::Requested(requested) => write!(f, "requests {}", u8::from(requested)),
            Answer::Refused(refusal) => {
                let number = refusal.number();
                let letter = char::from(refusal.layer().letter());
                write!(f, "refused {number} {letter}")
            }
        }
    }
}

// The registers of a chip, as the console shows them.
#[derive(Drop)]
struct Registers(Chip);

impl fmt::Display for Registers {
    fn fmt<W: fmt::Write>(&self, f: &mut fmt::Formatter<W>) -> fmt::Result {
        let irr = self.0.irr();
        let isr = self.0.isr();
        let imr = self.0.imr();
        write!(f, "irr=0x{irr:02X} isr=0x{isr:02X} imr=0x{imr:02X}")
    }
}

// The answers of a run, one a line, and the state that it left.
pub fn print_board<F: Slots>(
    rt: &impl Print,
    name: &str,
    title: &str,
    steps: &[Step],
    board: &Board<'_, F>,
) -> anyhow::Result<()> {
    println!(rt; "{name}: {title}")?;
    for step in steps {
        rt.println(Answered(step.answer))?;
    }
    let time = board.time();
    let pending = board.pending();
    let master = Registers(board.chip(Which::Master));
    let slave = Registers(board.chip(Which::Slave));
    println!(rt; "time={time} pending={pending} master {master} slave {slave}")?;
    Ok(())
}
