// What the records of a trace are carried out on.
ghost use Rattle.std.specs.Prelude.{◌≡◌, ℕ, List};
ghost use Rattle.rules.specs.Trace as rules;
ghost use Rattle.rules.specs.Trace.{Performed};
ghost use Rattle.trace.specs.Performing.{performed, advance_reply, queue_reply};

use rules::{QueuedWrite, Refusal};

// What an advance came to: the time after it, and how many edges were seen on the way.
#[derive(Clone, Copy, PartialEq, Eq, Debug)]
pub struct Elapsed {
    pub time: u64,
    pub edges: u64,
}

// A board, or what stands in for one. `performs` is what a record does to it, in the form that a run of the rules takes;
// it gives the line of the record at a place of the trace, and the state after.
pub trait Machine {
    ghost State: { Type 0 };

    ghost state: { Self → State };

    ghost performs: { rules.Record → ℕ → State → Performed State };

    fn advance(&mut self, ticks: u64) -> Result<Elapsed, Refusal>
        ensures { (place : ℕ) → performs (rules.Record.advance ticks) place (state self.old) ≡ performed (advance_reply result place) (state self.new) };

    fn read(&mut self, port: u16) -> u8
        ensures { (place : ℕ) → performs (rules.Record.read port) place (state self.old) ≡ performed (rules.access_line 82 port result) (state self.new) };

    // Port and byte are those of an OUT instruction; a struct for the two would be no plainer.
    fn write(&mut self, port: u16, byte: u8)
        ensures { (place : ℕ) → performs (rules.Record.write port byte) place (state self.old) ≡ performed (rules.access_line 87 port byte) (state self.new) };

    fn acknowledge(&mut self) -> u8
        ensures { (place : ℕ) → performs rules.Record.acknowledge place (state self.old) ≡ performed (rules.vector_line result) (state self.new) };

    fn queue(&mut self, write: QueuedWrite) -> Result<(), Refusal>
        ensures { (place : ℕ) → performs (rules.Record.queue write.tick write.port write.byte) place (state self.old) ≡ performed (queue_reply write.tick result place) (state self.new) };

    // A note is only printed.
    ghost notes: { (text : List ℕ) (place : ℕ) (s : State) → performs (rules.Record.note text) place s ≡ performed (rules.note_line text) s };
}
