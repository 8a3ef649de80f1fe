// Cuts a line into its words, and reads numbers off them.
ghost use Rattle.std.specs.Prelude.{◌≡◌, not};
ghost use Rattle.std.specs.List.{position, position_or_len};
ghost use Rattle.commands.specs.Words.{is_blank, words};

use crate::command::Unreadable;
use crate::numbers::number;

fn is_blank(byte: u8) -> bool
    ensures { result ≡ is_blank byte }
{
    matches!(byte, b' ' | b'\t')
}

// Where the first word starts, if there is one.
fn word_start(text: &[u8]) -> Option<usize>
    ensures { result ≡ position (λ byte. not (is_blank byte)) text.now }
{
    text.iter().position(|byte| !is_blank(*byte))
}

// Where a word at the start of the text ends.
fn word_end(text: &[u8]) -> usize
    ensures { result ≡ position_or_len is_blank text.now }
{
    text.iter()
        .position(|byte| is_blank(*byte))
        .unwrap_or(text.len())
}

// The words of a line that are left.
#[derive(Drop)]
pub struct Words<'a> {
    rest: &'a [u8],
}

impl<'a> Words<'a> {
    ghost use Rattle.commands.specs.Meaning as meaning;
    ghost use Rattle.commands.specs.Reading.{left, IsRead};

    pub fn new(text: &'a [u8]) -> Words<'a>
        ensures { left result ≡ words text.now }
    {
        Words { rest: text }
    }

    // Takes off the first word, as a number.
    pub fn number(&mut self) -> Result<u64, Unreadable>
        ensures { IsRead meaning.wide self.old result self.new }
    {
        number(self.next().ok_or(Unreadable::MissingWord)?)
    }

    pub fn port(&mut self) -> Result<u16, Unreadable>
        ensures { IsRead meaning.port self.old result self.new }
    {
        u16::try_from(self.number()?).map_err(|_| Unreadable::TooLarge)
    }

    pub fn byte(&mut self) -> Result<u8, Unreadable>
        ensures { IsRead meaning.byte self.old result self.new }
    {
        u8::try_from(self.number()?).map_err(|_| Unreadable::TooLarge)
    }

    // Whether no word is left.
    pub fn end(&mut self) -> Result<(), Unreadable>
        ensures { IsRead meaning.end self.old result self.new }
    {
        match self.next() {
            None => Ok(()),
            Some(_) => Err(Unreadable::ExtraWord),
        }
    }
}

impl<'a> Iterator for Words<'a> {
    ghost use Rattle.std.specs.Iterator.{YieldsFirstRef, item_count};
    ghost use Rattle.commands.specs.Reading.{left};

    type Item = &'a [u8];

    ghost next_gives = { YieldsFirstRef left };

    ghost remaining = { item_count left };

    fn next(&mut self) -> Option<&'a [u8]> {
        let (_, text) = self.rest.split_at(word_start(self.rest)?);
        let (word, rest) = text.split_at(word_end(text));
        self.rest = rest;
        Some(word)
    }
}
