// The six calls of a board as values, and what a board answers.
use crate::queued::QueuedWrite;
use crate::refusal::Refusal;

#[derive(Clone, Copy, PartialEq, Eq, Debug)]
pub enum Call {
    // Lets so many ticks pass.
    Advance(u64),
    // Reads a port.
    Read(u16),
    // Writes a byte to a port.
    Write { port: u16, byte: u8 },
    // Queues a write for its tick.
    Queue(QueuedWrite),
    // Takes the vector of the request that comes first.
    Acknowledge,
    // Asks whether the master requests.
    CheckRequest,
}

#[derive(Clone, Copy, PartialEq, Eq, Debug)]
pub enum Answer {
    // How many edges an advance had, which was taken.
    Edges(u64),
    // The byte that was read, or the vector.
    Byte(u8),
    // A write, or a queued write that was taken.
    Done,
    // Whether the master requests.
    Requested(bool),
    // Nothing was done.
    Refused(Refusal),
}
