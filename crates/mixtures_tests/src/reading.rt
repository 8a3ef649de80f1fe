// Reads mixtures of calls.
use anyhow::{Context, anyhow, bail, ensure};
use commands::{Command, number, parse};
use mixtures::Step;
use rules::Call;
use std::alloc::Global;
use std::str::FromStr;

// A mixture, as it is and with its advances cut.
#[derive(Drop)]
pub struct Mixture {
    pub name: String,
    pub nodes: usize,
    pub whole: Vec<Step>,
    pub cut: Vec<Step>,
    // The ticks of the last call, if it is an advance that is not cut yet.
    uncut: Option<u64>,
}

// Equal parts of an advance.
#[derive(Drop)]
struct Parts {
    count: u64,
    ticks: u64,
}

fn read_number(word: &str) -> anyhow::Result<u64> {
    number(word.as_bytes()).map_err(|why| anyhow!("{word} is {}", why.reason()))
}

impl FromStr for Parts {
    type Err = anyhow::Error;

    fn from_str(word: &str) -> anyhow::Result<Parts> {
        // A word without a count may be hexadecimal, and begins with `0x` then.
        match word.split_once('x') {
            Some((count, ticks)) if count != "0" => Ok(Parts {
                count: read_number(count)?,
                ticks: read_number(ticks)?,
            }),
            _ => Ok(Parts {
                count: 1,
                ticks: read_number(word)?,
            }),
        }
    }
}

// A line as a call of a board.
fn read_call(line: &str) -> anyhow::Result<Call> {
    Ok(match parse(line.as_bytes()) {
        Ok(Command::Outb { port, byte }) => Call::Write { port, byte },
        Ok(Command::Inb(port)) => Call::Read(port),
        Ok(Command::ClockStep(ticks)) => Call::Advance(ticks),
        Ok(Command::Iack) => Call::Acknowledge,
        Ok(Command::Irq) => Call::CheckRequest,
        Ok(Command::Queue(write)) => Call::Queue(write),
        Ok(Command::State | Command::Help | Command::Quit) => bail!("no call of a board"),
        Err(why) => bail!("{}", why.reason()),
    })
}

impl Mixture {
    // With no calls yet, of the words behind `mixture`.
    fn begin(alloc: Global, words: &str) -> anyhow::Result<Mixture> {
        let mut words = words.split_whitespace();
        let (Some(name), Some(nodes), None) = (words.next(), words.next(), words.next()) else {
            bail!("a mixture has a name and a number of nodes");
        };
        Ok(Mixture {
            name: String::from_str(alloc, name)?,
            nodes: read_number(nodes)? as usize,
            whole: Vec::new(alloc),
            cut: Vec::new(alloc),
            uncut: None,
        })
    }

    fn push(&mut self, call: Call) -> anyhow::Result<()> {
        self.whole.push(Step::new(call))?;
        self.cut.push(Step::new(call))?;
        self.uncut = match call {
            Call::Advance(ticks) => Some(ticks),
            _ => None,
        };
        Ok(())
    }

    // Cuts the advance that was pushed last.
    fn cut_last(&mut self, words: &str) -> anyhow::Result<()> {
        let mut left = self
            .uncut
            .take()
            .ok_or_else(|| anyhow!("there is no advance to cut"))?;
        self.cut.pop();
        for word in words.split_whitespace() {
            let parts = word.parse::<Parts>()?;
            for _ in 0..parts.count {
                left = left
                    .checked_sub(parts.ticks)
                    .ok_or_else(|| anyhow!("the parts come to more than the advance"))?;
                self.cut.push(Step::new(Call::Advance(parts.ticks)))?;
            }
        }
        ensure!(
            left == 0,
            "the parts leave out {left} of the advance's ticks"
        );
        Ok(())
    }
}

fn take_line(alloc: Global, mixtures: &mut Vec<Mixture>, line: &str) -> anyhow::Result<()> {
    if line.trim().is_empty() || line.starts_with('#') {
        return Ok(());
    }
    let (word, rest) = line.split_once(' ').unwrap_or((line, ""));
    if word == "mixture" {
        mixtures.push(Mixture::begin(alloc, rest)?)?;
        return Ok(());
    }
    let mixture = mixtures
        .last_mut()
        .ok_or_else(|| anyhow!("no mixture has begun"))?;
    if word == "cut" {
        mixture.cut_last(rest)
    } else {
        mixture.push(read_call(line)?)
    }
}

pub fn read_mixtures(rt: &(impl Input + AllocGlobal)) -> anyhow::Result<Vec<Mixture>> {
    let mut mixtures = Vec::new(rt.alloc());
    for (n, line) in rt.lines(rt.alloc()).enumerate() {
        let line = line?;
        take_line(rt.alloc(), &mut mixtures, line.as_str()).context(format_args!(
            "line {}, `{line}`",
            n + 1
        ))?;
    }
    Ok(mixtures)
}
