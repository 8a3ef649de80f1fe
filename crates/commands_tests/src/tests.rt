// What the console's grammar says of these lines, and the bytes of these replies.
use commands::{Command, Unreadable, number, parse};
use replies::{LONGEST_LINE, Line, Registers, Reply, State};
use rules::{QueuedWrite, Refusal};

const OUTB: Command = Command::Outb {
    port: 0x20,
    byte: 0x11,
};

#[test]
fn commands(rt: HostRuntime) {
    let lines: [(&[u8], Command); 13] = [
        (b"outb 0x20 0x11", OUTB),
        (b"\toutb  32\t17 \r", OUTB),
        (
            b"outb 0x0000000000000000000020 000000000000000000000017",
            OUTB,
        ),
        (b"inb 0xffFF", Command::Inb(65_535)),
        (b"inb 65535", Command::Inb(65_535)),
        (
            b"clock_step 18446744073709551615",
            Command::ClockStep(u64::MAX),
        ),
        (
            b"clock_step 0xFFFFFFFFFFFFFFFF",
            Command::ClockStep(u64::MAX),
        ),
        (b"iack", Command::Iack),
        (b"irq", Command::Irq),
        (
            b"queue 10 0x3f8 0xff",
            Command::Queue(QueuedWrite {
                tick: 10,
                port: 0x3F8,
                byte: 0xFF,
            }),
        ),
        (b"state", Command::State),
        (b" help", Command::Help),
        (b"quit ", Command::Quit),
    ];
    for (line, command) in lines {
        assert_eq!(rt; parse(line), Ok(command));
    }
}

#[test]
fn unreadable_lines(rt: HostRuntime) {
    let lines: [(&[u8], Unreadable); 20] = [
        (b"", Unreadable::EmptyLine),
        (b" \t\r", Unreadable::EmptyLine),
        (b"IACK", Unreadable::UnknownCommand),
        (b"iack\n", Unreadable::UnknownCommand),
        (b"iack\r\r", Unreadable::UnknownCommand),
        (b"iack\xFF", Unreadable::UnknownCommand),
        (b"IRQ", Unreadable::UnknownCommand),
        (b"queue 1 2", Unreadable::MissingWord),
        (b"inb", Unreadable::MissingWord),
        (b"inb 1 2", Unreadable::ExtraWord),
        (b"state now", Unreadable::ExtraWord),
        (b"irq 1", Unreadable::ExtraWord),
        (b"inb 0x", Unreadable::NotANumber),
        (b"inb 0xG", Unreadable::NotANumber),
        (b"inb 0X1", Unreadable::NotANumber),
        (b"inb F", Unreadable::NotANumber),
        (b"inb 65536", Unreadable::TooLarge),
        (b"outb 0 256", Unreadable::TooLarge),
        (b"clock_step 18446744073709551616", Unreadable::TooLarge),
        (b"clock_step 0x10000000000000000", Unreadable::TooLarge),
    ];
    for (line, why) in lines {
        assert_eq!(rt; parse(line), Err(why));
    }
}

// The first fault from the left is the one that is told.
#[test]
fn first_fault(rt: HostRuntime) {
    assert_eq!(rt; parse(b"peek x 1 2 3"), Err(Unreadable::UnknownCommand));
    assert_eq!(rt; parse(b"outb x 256"), Err(Unreadable::NotANumber));
    assert_eq!(rt; parse(b"outb 65536 x"), Err(Unreadable::TooLarge));
    assert_eq!(rt; parse(b"outb 65536"), Err(Unreadable::TooLarge));
    assert_eq!(rt; parse(b"outb 1 256 1"), Err(Unreadable::TooLarge));
}

#[test]
fn numbers(rt: HostRuntime) {
    assert_eq!(rt; number(b"0"), Ok(0));
    assert_eq!(rt; number(b"0x00ff"), Ok(255));
    assert_eq!(rt; number(b"0xFFFFFFFFFFFFFFFFF"), Err(Unreadable::TooLarge));
    assert_eq!(rt;
        number(b"99999999999999999999z"),
        Err(Unreadable::NotANumber)
    );
    assert_eq!(rt; number(b""), Err(Unreadable::NotANumber));
}

#[test]
fn replies(rt: HostRuntime) {
    let lines: [(Reply, &[u8]); 9] = [
        (Reply::Done, b"OK\n"),
        (Reply::Quit, b"OK\n"),
        (Reply::Byte(0x0A), b"OK 0x0A\n"),
        (Reply::Requested(true), b"OK 1\n"),
        (Reply::Requested(false), b"OK 0\n"),
        (Reply::Stepped { time: 12, edges: 0 }, b"OK 12 0\n"),
        (Reply::Refused(Refusal::QueueFull), b"FAIL 9 Q\n"),
        (Reply::Refused(Refusal::OutputFull), b"FAIL 10 T\n"),
        (
            Reply::Unreadable(Unreadable::TooLarge),
            b"FAIL number too large\n",
        ),
    ];
    for (reply, line) in lines {
        assert!(rt; Line::from(reply).as_bytes() == line);
    }
}

#[test]
fn longest_line(rt: HostRuntime) {
    let registers = Registers {
        irr: 0xFE,
        isr: 0x01,
        imr: 0x90,
    };
    let state = State {
        time: u64::MAX,
        pending: usize::MAX,
        master: registers,
        slave: registers,
    };
    let line = Line::from(Reply::State(state));
    let expected: &[u8] =
        b"OK time=18446744073709551615 pending=18446744073709551615 master irr=0xFE isr=0x01 imr=0x90 slave irr=0xFE isr=0x01 imr=0x90\n";
    assert!(rt; line.as_bytes() == expected);
    assert_eq!(rt; line.as_bytes().len(), LONGEST_LINE);
}
