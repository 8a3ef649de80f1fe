// A write of a byte to a port that waits for its tick. Pending writes are carried out in the order of the fields.
#[derive(Clone, Copy, PartialEq, Eq, PartialOrd, Ord, Debug)]
pub struct QueuedWrite {
    pub tick: u64,
    pub port: u16,
    pub byte: u8,
}
