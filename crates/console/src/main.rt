// A text console for a live board: a line on standard input is a command, and a line on standard output answers it.
#![tactic(auto)]

use agenda::MOST_NODES;
use board::Board;
use commands::number;
use device::{Divider, Empty};
use i8254::Timer;
use pulse::Pulse;
use replies::{Line, Reply};
use rules::QueuedWrite;
use session::answer;
use slots::{Fitted, Slots};
use std::env;
use std::io::{self, BufRead, BufReader, Eprint, Write};
use std::process::ExitCode;

const USAGE: &str =
    "usage: console standard|pulses [NODES]\nReads commands from standard input, one a line, and answers each with a line.";

// How many nodes the queue has where no number is given.
const NODES: u64 = 256;

// A node that no write waits in.
const FREE: QueuedWrite = QueuedWrite {
    tick: 0,
    port: 0,
    byte: 0,
};

// Answers the lines of standard input until a `quit` or their end. Each answer is flushed, since another program may wait for it.
// A line may be as long as memory allows, and its bytes need be no text.
fn converse<F: Slots + Drop>(
    rt: &(impl Input + Print + AllocGlobal),
    slots: F,
    nodes: u64,
) -> anyhow::Result<()> {
    // A board uses no more nodes than these.
    let mut nodes = vec![in rt.alloc(); FREE; (nodes as usize).min(MOST_NODES)]?;
    let mut board = Board::new(slots, &mut nodes);
    let mut output = io::writer(rt);
    for line in BufReader::new(rt.alloc(), rt.reader())?.split(rt.alloc(), b'\n') {
        let reply = answer(&mut board, &line?);
        output.write_all(Line::from(reply).as_bytes())?;
        output.flush()?;
        if reply == Reply::Quit {
            break;
        }
    }
    Ok(())
}

fn usage(rt: &impl Eprint) -> anyhow::Result<ExitCode> {
    rt.eprintln(USAGE)?;
    Ok(ExitCode::FAILURE)
}

fn main(rt: HostRuntime) -> anyhow::Result<ExitCode> {
    let mut args = env::args(&rt)?.skip(1);
    let (Some(fitting), nodes, None) = (args.next(), args.next(), args.next()) else {
        return usage(&rt);
    };
    let Ok(nodes) = nodes.map_or(Ok(NODES), |nodes| number(nodes.as_bytes())) else {
        return usage(&rt);
    };
    let slot_0 = Divider::new(12, Timer::power_on());
    match fitting.as_str() {
        "standard" => {
            let slots = Fitted {
                slot_0,
                slot_1: Empty,
                slot_2: Empty,
                slot_3: Empty,
            };
            converse(&rt, slots, nodes)?;
        }
        "pulses" => {
            let slots = Fitted {
                slot_0,
                slot_1: Pulse::new(),
                slot_2: Divider::new(3, Pulse::new()),
                slot_3: Pulse::new(),
            };
            converse(&rt, slots, nodes)?;
        }
        _ => return usage(&rt),
    }
    Ok(ExitCode::SUCCESS)
}
