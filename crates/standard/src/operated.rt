// A board as what the records of a trace are carried out on.
ghost use Rattle.rules.specs.Board as rules;
ghost use Rattle.rules.specs.Trace.{on_board};
ghost use Rattle.board.specs.View.{view};
ghost use Rattle.standard.specs.Notes.{board_notes};

use board::Board;
use rules::{QueuedWrite, Refusal};
use slots::Slots;
use trace::{Elapsed, Machine};

// Neither the board nor what a trace runs on is of this crate, so a type of its own joins them.
#[derive(Drop)]
pub struct Operated<'a, F: Slots> {
    pub board: Board<'a, F>,
}

impl<'a, F: Slots> Machine for Operated<'a, F> {
    ghost State = { rules.Board F.Slots.S0 F.Slots.S1 F.Slots.S2 F.Slots.S3 };

    ghost state = { λ operated. view F.Slots.states operated.board };

    ghost performs = { on_board F.Slots.fitting };

    ghost notes = { board_notes F.Slots.fitting };

    fn advance(&mut self, ticks: u64) -> Result<Elapsed, Refusal> {
        let edges = self.board.advance(ticks)?;
        Ok(Elapsed {
            time: self.board.time(),
            edges,
        })
    }

    fn read(&mut self, port: u16) -> u8 {
        self.board.read(port)
    }

    fn write(&mut self, port: u16, byte: u8) {
        self.board.write(port, byte);
    }

    fn acknowledge(&mut self) -> u8 {
        self.board.acknowledge()
    }

    fn queue(&mut self, write: QueuedWrite) -> Result<(), Refusal> {
        self.board.queue(write)
    }
}
