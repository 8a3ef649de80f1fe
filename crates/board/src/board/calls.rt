// The calls that take no time.
ghost use Rattle.std.specs.Prelude.{◌≡◌, length};
ghost use Rattle.rules.specs.Board as rules;
ghost use Rattle.rules.specs.Mixtures.{HandsOver};
ghost use Rattle.i8259.specs.Views.{chip_of};
ghost use Rattle.board.specs.View.{view, Does};
ghost use Rattle.board.specs.Answers.{of_queue};

use super::handing::Ports;
use super::{Board, END_OF_TIME, quiet_after};
use agenda::Agenda;
use i8259::{Chip, Which};
use rules::{Answer, Call, QueuedWrite, Refusal};
use slots::Slots;

impl<'a, F: Slots> Board<'a, F> {
    // A board at time 0 with an empty queue. The levels that its devices show count as already handed over.
    pub fn new(slots: F, nodes: &'a mut [QueuedWrite]) -> Self
        ensures board { view F.states result ≡ rules.new_board F.fitting (length nodes.old) (F.states slots).slot_0 (F.states slots).slot_1 (F.states slots).slot_2 (F.states slots).slot_3 }
        ensures nodes { result.queue.nodes ≡ nodes.entry }
    {
        Board {
            time: 0,
            quiet_until: 0,
            ports: Ports::new(slots),
            queue: Agenda::new(nodes),
        }
    }

    // How many ticks have passed.
    pub fn time(&self) -> u64
        ensures { result ≡ (view F.states self.now).time }
    {
        self.time
    }

    // How many queued writes are pending.
    pub fn pending(&self) -> usize
        ensures { result ≡ length (view F.states self.now).pending }
    {
        self.queue.length()
    }

    // A copy of one of the interrupt controllers.
    pub fn chip(&self, which: Which) -> Chip
        ensures { result ≡ chip_of which (view F.states self.now).pair }
    {
        self.ports.pair.chip(which)
    }

    pub fn read(&mut self, port: u16) -> u8
        ensures { Does F.states F.fitting (Call.Read port) self.old (Answer.Byte result) self.new }
    {
        let target = F::target(port);
        let byte = self.ports.read(target);
        self.quiet_until = quiet_after(target, self.quiet_until);
        self.ports.hand_over();
        byte
    }

    pub fn write(&mut self, port: u16, byte: u8)
        ensures { Does F.states F.fitting (Call.Write port byte) self.old Answer.Done self.new }
    {
        let target = F::target(port);
        self.ports.write(target, byte);
        self.quiet_until = quiet_after(target, self.quiet_until);
        self.ports.hand_over();
    }

    pub fn acknowledge(&mut self) -> u8
        ensures { Does F.states F.fitting Call.Acknowledge self.old (Answer.Byte result) self.new }
    {
        let vector = self.ports.pair.acknowledge();
        self.ports.hand_over();
        vector
    }

    // Whether the controllers ask for an acknowledge: the master requests.
    pub fn requests(&self) -> bool
        ensures { Does F.states F.fitting Call.CheckRequest self.now (Answer.Requested result) self.now }
    {
        self.ports.pair.requests()
    }

    pub fn queue(&mut self, write: QueuedWrite) -> Result<(), Refusal>
        ensures { Does F.states F.fitting (Call.Queue write) self.old (of_queue result) self.new }
    {
        if write.tick <= self.time || END_OF_TIME < write.tick {
            return Err(Refusal::BadTick);
        }
        self.queue.insert(write)?;
        Ok(())
    }

    // Makes any of the six calls.
    pub fn call(&mut self, call: Call) -> Answer
        ensures same { Does F.states F.fitting call self.old result self.new }

        // The edges of an advance are the changes along the levels that are handed over.
        ensures handings { HandsOver F.fitting call (view F.states self.old) result (view F.states self.new) }
    {
        match call {
            Call::Advance(n) => match self.advance(n) {
                Ok(edges) => Answer::Edges(edges),
                Err(refusal) => Answer::Refused(refusal),
            },
            Call::Read(port) => Answer::Byte(self.read(port)),
            Call::Write { port, byte } => {
                self.write(port, byte);
                Answer::Done
            }
            Call::Queue(write) => match self.queue(write) {
                Ok(()) => Answer::Done,
                Err(refusal) => Answer::Refused(refusal),
            },
            Call::Acknowledge => Answer::Byte(self.acknowledge()),
            Call::CheckRequest => Answer::Requested(self.requests()),
        }
    }
}
