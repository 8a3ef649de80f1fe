// The records of a trace.
use rules::QueuedWrite;

// A record as the trace has it: a note borrows its text from the trace, the others hold their numbers.
#[derive(Clone, Copy, PartialEq, Eq, Debug)]
pub enum Record<'a> {
    // Let so many ticks pass.
    Advance(u64),
    // Read a port.
    Read(u16),
    // Write a byte to a port.
    Write(u16, u8),
    // Acknowledge an interrupt.
    Acknowledge,
    // Write a byte to a port at a later tick.
    Queue(QueuedWrite),
    // Text that is only printed.
    Note(&'a [u8]),
}
