// Answers a line.
ghost use Rattle.std.specs.Prelude.{◌≡◌};
ghost use Rattle.board.specs.View.{view};
ghost use Rattle.session.specs.Answering.{Answers, Asked, CarriesOut, Gives, registers_of, state_of};

use board::Board;
use commands::{Command, parse};
use i8259::{Chip, Which};
use replies::{Registers, Reply, State};
use rules::{Answer, Call};
use slots::Slots;

fn registers(chip: Chip) -> Registers
    ensures { result ≡ registers_of chip }
{
    Registers {
        irr: chip.irr(),
        isr: chip.isr(),
        imr: chip.imr(),
    }
}

fn state<F: Slots>(board: &Board<'_, F>) -> State
    ensures { result ≡ state_of (view F.states board.now) }
{
    State {
        time: board.time(),
        pending: board.pending(),
        master: registers(board.chip(Which::Master)),
        slave: registers(board.chip(Which::Slave)),
    }
}

// Makes a call of the board, and replies with its answer.
fn make_call<F: Slots>(board: &mut Board<'_, F>, call: Call) -> Reply
    ensures { Gives F.states F.fitting (Asked.call call) board.old result board.new }
{
    match board.call(call) {
        Answer::Edges(edges) => Reply::Stepped {
            time: board.time(),
            edges,
        },
        Answer::Byte(byte) => Reply::Byte(byte),
        Answer::Done => Reply::Done,
        Answer::Requested(requests) => Reply::Requested(requests),
        Answer::Refused(refusal) => Reply::Refused(refusal),
    }
}

fn carry_out<F: Slots>(board: &mut Board<'_, F>, command: Command) -> Reply
    ensures { CarriesOut F.states F.fitting command board.old result board.new }
{
    match command {
        Command::Outb { port, byte } => make_call(board, Call::Write { port, byte }),
        Command::Inb(port) => make_call(board, Call::Read(port)),
        Command::ClockStep(ticks) => make_call(board, Call::Advance(ticks)),
        Command::Iack => make_call(board, Call::Acknowledge),
        Command::Irq => make_call(board, Call::CheckRequest),
        Command::Queue(write) => make_call(board, Call::Queue(write)),
        Command::State => Reply::State(state(board)),
        Command::Help => Reply::Help,
        Command::Quit => Reply::Quit,
    }
}

// Reads a line, given without its newline, and does what it asks for. A line that is no command leaves the board as it is.
pub fn answer<F: Slots>(board: &mut Board<'_, F>, line: &[u8]) -> Reply
    ensures { Answers F.states F.fitting line.now board.old result board.new }
{
    match parse(line) {
        Ok(command) => carry_out(board, command),
        Err(why) => Reply::Unreadable(why),
    }
}
