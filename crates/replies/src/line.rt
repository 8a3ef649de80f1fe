// Prints a reply.
ghost use Rattle.std.specs.Prelude.{◌≡◌, ◌+◌, ◌%◌, ◌<◌, ◌≤◌, [], ◌++◌, length, decimal};
ghost use Rattle.rules.specs.Trace as rules;

use crate::reply::{Registers, Reply, State};
use arrayvec::ArrayVec;
use itoa::Buffer;

// How many bytes a line takes at most: a state line with two numbers of 20 digits, and its newline.
pub const LONGEST_LINE: usize = 125;

// The commands, in the words of their grammar.
const HELP: &str =
    "OK outb PORT BYTE, inb PORT, clock_step N, iack, irq, queue TICK PORT BYTE, state, help, quit";

// The bytes of a line. They lie in the value itself, and nothing is allocated.
#[derive(Drop)]
pub struct Line {
    bytes: ArrayVec<u8, LONGEST_LINE>,
}

// The upper-case hexadecimal digit of the lowest four bits.
fn hex_digit(n: u8) -> u8
    ensures { result ≡ rules.hex_digit (n % 16) }
{
    b"0123456789ABCDEF"[usize::from(n % 16)]
}

impl Line {
    ghost use Rattle.replies.specs.Printing.{bytes_of, byte_text, registers_text, text_of, state_text};

    fn new() -> Line
        ensures { bytes_of result ≡ [] }
    {
        Line {
            bytes: ArrayVec::new(),
        }
    }

    pub fn as_bytes(&self) -> &[u8]
        ensures bytes { result.now ≡ bytes_of self.now }
        ensures fits { length result.now ≤ LONGEST_LINE }
    {
        self.bytes.as_slice()
    }

    // Appends a text, for which there is room.
    fn text(&mut self, text: &[u8])
        requires { length (bytes_of self.old) + length text.now ≤ LONGEST_LINE }
        ensures bytes { bytes_of self.new ≡ bytes_of self.old ++ text.now }
        ensures len { length (bytes_of self.new) ≡ length (bytes_of self.old) + length text.now }
    {
        self.bytes.try_extend_from_slice(text).unwrap();
    }

    fn number(&mut self, n: u64)
        requires { length (bytes_of self.old) + 20 ≤ LONGEST_LINE }
        ensures bytes { bytes_of self.new ≡ bytes_of self.old ++ decimal n }
        ensures len { length (bytes_of self.new) ≤ length (bytes_of self.old) + 20 }
    {
        self.text(Buffer::new().format(n).as_bytes());
    }

    fn byte(&mut self, byte: u8)
        requires { length (bytes_of self.old) + 4 ≤ LONGEST_LINE }
        ensures bytes { bytes_of self.new ≡ bytes_of self.old ++ byte_text byte }
        ensures len { length (bytes_of self.new) ≡ length (bytes_of self.old) + 4 }
    {
        self.text(&[b'0', b'x', hex_digit(byte / 16), hex_digit(byte)]);
    }

    fn registers(&mut self, registers: Registers)
        requires { length (bytes_of self.old) + 27 ≤ LONGEST_LINE }
        ensures bytes { bytes_of self.new ≡ bytes_of self.old ++ registers_text registers }
        ensures len { length (bytes_of self.new) ≡ length (bytes_of self.old) + 27 }
    {
        self.text(b" irr=");
        self.byte(registers.irr);
        self.text(b" isr=");
        self.byte(registers.isr);
        self.text(b" imr=");
        self.byte(registers.imr);
    }

    fn state(&mut self, state: State)
        requires { bytes_of self.old ≡ [] }
        ensures bytes { bytes_of self.new ≡ state_text state }
        ensures len { length (bytes_of self.new) < LONGEST_LINE }
    {
        self.text(b"OK time=");
        self.number(state.time);
        self.text(b" pending=");
        self.number(state.pending as u64);
        self.text(b" master");
        self.registers(state.master);
        self.text(b" slave");
        self.registers(state.slave);
    }

    // Everything but the newline.
    fn reply(&mut self, reply: Reply)
        requires { bytes_of self.old ≡ [] }
        ensures bytes { bytes_of self.new ≡ text_of reply }
        ensures len { length (bytes_of self.new) < LONGEST_LINE }
    {
        match reply {
            Reply::Done | Reply::Quit => self.text(b"OK"),
            Reply::Byte(byte) => {
                self.text(b"OK ");
                self.byte(byte);
            }
            Reply::Requested(true) => self.text(b"OK 1"),
            Reply::Requested(false) => self.text(b"OK 0"),
            Reply::Stepped { time, edges } => {
                self.text(b"OK ");
                self.number(time);
                self.text(b" ");
                self.number(edges);
            }
            Reply::State(state) => self.state(state),
            Reply::Help => self.text(HELP.as_bytes()),
            Reply::Refused(refusal) => {
                self.text(b"FAIL ");
                self.number(u64::from(refusal.number()));
                self.text(&[b' ', refusal.layer().letter()]);
            }
            Reply::Unreadable(why) => {
                self.text(b"FAIL ");
                self.text(why.reason().as_bytes());
            }
        }
    }
}

impl From<Reply> for Line {
    ghost use Rattle.replies.specs.Printing.{bytes_of, line_of};

    ghost from_gives = { λ reply line. bytes_of line ≡ line_of reply };

    fn from(reply: Reply) -> Line {
        let mut line = Line::new();
        line.reply(reply);
        line.text(b"\n");
        line
    }
}
