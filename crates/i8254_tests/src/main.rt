// Runs the timer through the cases of its input, and prints what channel 0 shows. A line that begins with # names a case,
// which starts at power on. The others are `write OFFSET BYTE`, `read OFFSET`, `announce`, `ticks N` and `byte-ticks N`, which
// show OUT and the counter, by both its bytes or by one, after each tick, `skip N`, which shows them, by one byte, after N ticks at
// once, and `jumps FROM TO`, which holds each skip of that many ticks against single ticks.
#![tactic(auto)]

use anyhow::anyhow;
use device::Device;
use i8254::Timer;
use std::error::Error;
use std::fmt;
use std::num::ParseIntError;
use std::str::FromStr;

const CONTROL_PORT: u16 = 3;

const LATCH_CHANNEL_0: u8 = 0;

// The bytes of a count that a channel shows.
#[derive(Clone, Copy)]
enum Bytes {
    One,
    Both,
}

// A byte in two hexadecimal digits.
#[derive(Clone, Copy)]
struct Hex(u8);

// A line of the input.
enum Command {
    // A case begins, at power on.
    Case,
    Write { offset: u16, byte: Hex },
    Read { offset: u16 },
    Announce,
    // OUT and the counter after each of n ticks.
    Ticks { n: u64, bytes: Bytes },
    // OUT and the counter after n ticks at once.
    Skip { n: u64 },
    Jumps { from: u64, to: u64 },
}

#[derive(Clone, Copy, PartialEq)]
struct Shown {
    counter: u16,
    out: bool,
    announced: Option<u64>,
}

// What channel 0 shows, on a copy, since reads leave traces.
fn look(timer: &Timer, bytes: Bytes) -> Shown {
    let mut copy = *timer;
    copy.write(CONTROL_PORT, LATCH_CHANNEL_0);
    let low = copy.read(0);
    let high = match bytes {
        Bytes::One => 0,
        Bytes::Both => copy.read(0),
    };
    Shown {
        counter: u16::from_le_bytes([low, high]),
        out: timer.level(),
        announced: timer.announce(),
    }
}

impl fmt::Display for Shown {
    fn fmt<W: fmt::Write>(&self, f: &mut fmt::Formatter<W>) -> fmt::Result {
        let level = if self.out { "high" } else { "low" };
        write!(f, "{} {level}", self.counter)
    }
}

fn tick_by_tick(rt: &impl Print, timer: &mut Timer, bytes: Bytes, n: u64) -> anyhow::Result<()> {
    for _ in 0..n {
        timer.skip(1);
        let now = look(timer, bytes);
        println!(rt; "{now}")?;
    }
    Ok(())
}

fn skip(rt: &impl Print, timer: &mut Timer, n: u64) -> anyhow::Result<()> {
    timer.skip(n);
    let now = look(timer, Bytes::One);
    println!(rt; "{now}")?;
    Ok(())
}

fn announce(rt: &impl Print, timer: &Timer) -> anyhow::Result<()> {
    match timer.announce() {
        Some(ticks) => println!(rt; "OUT changes after {ticks}")?,
        None => println!(rt; "OUT stays")?,
    }
    Ok(())
}

fn jumps(rt: &impl Print, timer: &Timer, from: u64, to: u64) -> anyhow::Result<()> {
    let mut walker = *timer;
    for n in 0..to {
        let mut jumper = *timer;
        jumper.skip(n);
        if from <= n && look(&jumper, Bytes::Both) != look(&walker, Bytes::Both) {
            println!(rt; "a jump of {n} ticks goes astray")?;
        }
        walker.skip(1);
    }
    let mut jumper = *timer;
    jumper.skip(to);
    let now = look(&jumper, Bytes::Both);
    println!(rt; "after {to}: {now}")?;
    Ok(())
}

// The word of a command that `what` describes.
fn parsed<T: FromStr>(word: Option<&str>, what: &str) -> anyhow::Result<T>
where
    T::Err: Error,
{
    match word {
        Some(word) => Ok(word.parse::<T>()?),
        None => Err(anyhow!("{what} is missing")),
    }
}

impl FromStr for Hex {
    type Err = ParseIntError;

    fn from_str(word: &str) -> Result<Hex, ParseIntError> {
        Ok(Hex(u8::from_str_radix(word, 16)?))
    }
}

impl FromStr for Command {
    type Err = anyhow::Error;

    fn from_str(line: &str) -> anyhow::Result<Command> {
        let mut words = line.split_whitespace();
        Ok(match words.next() {
            Some("#") => Command::Case,
            Some("write") => Command::Write {
                offset: parsed(words.next(), "an offset")?,
                byte: parsed(words.next(), "a byte")?,
            },
            Some("read") => Command::Read {
                offset: parsed(words.next(), "an offset")?,
            },
            Some("announce") => Command::Announce,
            Some("ticks") => Command::Ticks {
                n: parsed(words.next(), "a number")?,
                bytes: Bytes::Both,
            },
            Some("byte-ticks") => Command::Ticks {
                n: parsed(words.next(), "a number")?,
                bytes: Bytes::One,
            },
            Some("skip") => Command::Skip {
                n: parsed(words.next(), "a number")?,
            },
            Some("jumps") => Command::Jumps {
                from: parsed(words.next(), "a number")?,
                to: parsed(words.next(), "a number")?,
            },
            _ => return Err(anyhow!("no such command")),
        })
    }
}

fn run(rt: &impl Print, timer: &mut Timer, line: &str) -> anyhow::Result<()> {
    match line.parse::<Command>()? {
        Command::Case => {
            *timer = Timer::power_on();
            rt.println(line)?;
        }
        Command::Write {
            offset,
            byte: Hex(byte),
        } => timer.write(offset, byte),
        Command::Read { offset } => {
            let read = timer.read(offset);
            println!(rt; "read {read:02x}")?;
        }
        Command::Announce => announce(rt, timer)?,
        Command::Ticks { n, bytes } => tick_by_tick(rt, timer, bytes, n)?,
        Command::Skip { n } => skip(rt, timer, n)?,
        Command::Jumps { from, to } => jumps(rt, timer, from, to)?,
    }
    Ok(())
}

fn cases(rt: &(impl Print + Input + Alloc)) -> anyhow::Result<()> {
    let mut timer = Timer::power_on();
    for line in rt.lines(rt.alloc()) {
        run(rt, &mut timer, line?.as_str())?;
    }
    Ok(())
}

fn main(rt: HostRuntime) -> anyhow::Result<()> {
    cases(&rt)
}
