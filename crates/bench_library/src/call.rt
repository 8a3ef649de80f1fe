// A call of the board, as the harness hands it over.
use board::Board;
use rules::{QueuedWrite, Refusal};
use slots::Slots;

// Kinds 0 to 4 are advance (of `number` ticks), read, write, acknowledge and queue (for tick `number`); every other does nothing.
#[repr(C)]
#[derive(Clone, Copy)]
pub struct Call {
    pub number: u64,
    pub port: u16,
    pub byte: u8,
    pub kind: u8,
}

// Answers of refused calls are those of no other call: an advance has fewer edges.
const REFUSED: u64 = 1 << 63;

fn refused(refusal: Refusal) -> u64 {
    REFUSED | u64::from(refusal.number())
}

// How many edges the advance had, or its refusal.
pub fn answer_of_advance(advanced: Result<u64, Refusal>) -> u64 {
    match advanced {
        Ok(edges) => edges,
        Err(refusal) => refused(refusal),
    }
}

impl Call {
    pub fn write(self) -> QueuedWrite {
        QueuedWrite {
            tick: self.number,
            port: self.port,
            byte: self.byte,
        }
    }

    // Carries out the call, and answers its answer as a number.
    pub fn perform<'a, F: Slots>(self, board: &mut Board<'a, F>) -> u64 {
        match self.kind {
            0 => answer_of_advance(board.advance(self.number)),
            1 => u64::from(board.read(self.port)),
            2 => {
                board.write(self.port, self.byte);
                0
            }
            3 => u64::from(board.acknowledge()),
            4 => match board.queue(self.write()) {
                Ok(()) => 0,
                Err(refusal) => refused(refusal),
            },
            _ => 0,
        }
    }
}
