// Reads a line as a command.
ghost use Rattle.std.specs.Prelude.{◌≡◌, ◌↔◌, Ok};
ghost use Rattle.std.specs.Str.Lines.{strip_carriage_return};
ghost use Rattle.commands.specs.Grammar.{Spells, ReadsBack};
ghost use Rattle.commands.specs.Meaning as meaning;
ghost use Rattle.commands.specs.Reading.{IsRead};
ghost use Rattle.commands.specs.declared.command.Command as declared;

use crate::command::{Command, Unreadable};
use crate::words::Words;
use rules::QueuedWrite;
use std::str;

// A name and its numbers.
fn command(words: &mut Words<'_>) -> Result<Command, Unreadable>
    ensures { IsRead meaning.command words.old result words.new }
{
    let name = words.next().ok_or(Unreadable::EmptyLine)?;
    match str::from_utf8(name) {
        Ok("outb") => Ok(Command::Outb {
            port: words.port()?,
            byte: words.byte()?,
        }),
        Ok("inb") => Ok(Command::Inb(words.port()?)),
        Ok("clock_step") => Ok(Command::ClockStep(words.number()?)),
        Ok("iack") => Ok(Command::Iack),
        Ok("irq") => Ok(Command::Irq),
        Ok("queue") => Ok(Command::Queue(QueuedWrite {
            tick: words.number()?,
            port: words.port()?,
            byte: words.byte()?,
        })),
        Ok("state") => Ok(Command::State),
        Ok("help") => Ok(Command::Help),
        Ok("quit") => Ok(Command::Quit),
        _ => Err(Unreadable::UnknownCommand),
    }
}

// A line may end in a carriage return, which is passed over.
fn text_of(line: &[u8]) -> &[u8]
    ensures { result.now ≡ strip_carriage_return line.now }
{
    match line {
        [text @ .., b'\r'] => text,
        _ => line,
    }
}

// The command of a line, given without its newline.
pub fn parse(line: &[u8]) -> Result<Command, Unreadable>
    ensures meaning { result ≡ meaning.meaning line.now }
    ensures taken { (c : declared.Command) → (result ≡ Ok c) ↔ Spells line.now c }
{
    let mut words = Words::new(text_of(line));
    let command = command(&mut words)?;
    words.end()?;
    Ok(command)
}

// A command that is written out reads back.
pub fn commands_read_back()
    ensures { ReadsBack }
{}
