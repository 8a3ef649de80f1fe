// What the console replies.
use commands::Unreadable;
use rules::Refusal;

// A chip's registers that a state line shows.
#[derive(Clone, Copy, PartialEq, Eq, Debug)]
pub struct Registers {
    pub irr: u8,
    pub isr: u8,
    pub imr: u8,
}

// What a state line shows of a board.
#[derive(Clone, Copy, PartialEq, Eq, Debug)]
pub struct State {
    pub time: u64,
    // How many queued writes are pending.
    pub pending: usize,
    pub master: Registers,
    pub slave: Registers,
}

#[derive(Clone, Copy, PartialEq, Eq, Debug)]
pub enum Reply {
    // `OK`
    Done,
    // `OK 0xvv`
    Byte(u8),
    // `OK 1` where the master requests, and else `OK 0`
    Requested(bool),
    // `OK time edges`
    Stepped { time: u64, edges: u64 },
    // `OK time=T pending=P master irr=0xvv isr=0xvv imr=0xvv slave irr=0xvv isr=0xvv imr=0xvv`
    State(State),
    // `OK` and the commands
    Help,
    // `OK`, and no line is read any more
    Quit,
    // `FAIL number layer`
    Refused(Refusal),
    // `FAIL reason`
    Unreadable(Unreadable),
}
