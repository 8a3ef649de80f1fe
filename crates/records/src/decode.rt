// Takes the counted bytes of a record apart.
ghost use Rattle.std.specs.Prelude.{◌≡◌, ◌≢◌, take, drop, length, MatchResult};
ghost use Rattle.rules.specs.Trace as rules;
ghost use Rattle.rules.specs.declared.refusal.Refusal.TheVariants.{WrongLength};
ghost use Rattle.records.specs.Records.{decoded};

use crate::record::Record;
use rules::{QueuedWrite, Refusal};

// The kinds of records. They are constants, which slice patterns match; an enum would be matched a second time.
const ADVANCE: u8 = 1;

const READ: u8 = 2;

const WRITE: u8 = 3;

const ACKNOWLEDGE: u8 = 4;

const QUEUE: u8 = 5;

const NOTE: u8 = 6;

// A note's longest text.
const LONGEST_NOTE: usize = 80;

fn all_printable(text: &[u8]) -> bool
    ensures { result ≡ rules.all_printable text.now }
{
    text.iter().all(|byte| matches!(byte, b' '..=b'~'))
}

// The fields of a kind that has N bytes of them.
fn exactly<const N: usize>(fields: &[u8]) -> Result<[u8; N], Refusal>
    ensures { MatchResult result (λ bytes. (length fields.now ≡ N) × (bytes ≡ fields.now)) (λ e. (length fields.now ≢ N) × (e ≡ WrongLength)) }
{
    fields.try_into().map_err(|_| Refusal::WrongLength)
}

// Each kind has a function of its own, also where it is one expression: its contract is the rules' case of that kind, and
// `decode` only chooses.
fn advance(fields: &[u8]) -> Result<Record<'_>, Refusal>
    ensures { decoded result ≡ rules.sized 8 fields.now (rules.Record.advance (rules.big_endian fields.now)) }
{
    Ok(Record::Advance(u64::from_be_bytes(exactly(fields)?)))
}

fn read(fields: &[u8]) -> Result<Record<'_>, Refusal>
    ensures { decoded result ≡ rules.sized 2 fields.now (rules.Record.read (rules.big_endian fields.now)) }
{
    Ok(Record::Read(u16::from_be_bytes(exactly(fields)?)))
}

fn write(fields: &[u8]) -> Result<Record<'_>, Refusal>
    ensures { decoded result ≡ rules.sized 3 fields.now (rules.Record.write (rules.big_endian (take 2 fields.now)) (rules.big_endian (drop 2 fields.now))) }
{
    let [high, low, byte] = exactly::<3>(fields)?;
    Ok(Record::Write(u16::from_be_bytes([high, low]), byte))
}

fn acknowledge(fields: &[u8]) -> Result<Record<'_>, Refusal>
    ensures { decoded result ≡ rules.sized 0 fields.now rules.Record.acknowledge }
{
    let [] = exactly::<0>(fields)?;
    Ok(Record::Acknowledge)
}

fn queue(fields: &[u8]) -> Result<Record<'_>, Refusal>
    ensures { decoded result ≡ rules.sized 11 fields.now (rules.Record.queue (rules.big_endian (take 8 fields.now)) (rules.big_endian (take 2 (drop 8 fields.now))) (rules.big_endian (drop 10 fields.now))) }
{
    let (tick, rest) = fields.split_first_chunk::<8>().ok_or(Refusal::WrongLength)?;
    let [high, low, byte] = exactly::<3>(rest)?;
    Ok(Record::Queue(QueuedWrite {
        tick: u64::from_be_bytes(*tick),
        port: u16::from_be_bytes([high, low]),
        byte,
    }))
}

fn note(text: &[u8]) -> Result<Record<'_>, Refusal>
    ensures { decoded result ≡ rules.noted text.now }
{
    if text.len() > LONGEST_NOTE {
        Err(Refusal::WrongLength)
    } else if all_printable(text) {
        Ok(Record::Note(text))
    } else {
        Err(Refusal::NotPrintable)
    }
}

// The kind decides how the fields behind it are read.
pub fn decode(body: &[u8]) -> Result<Record<'_>, Refusal>
    ensures { decoded result ≡ rules.decode body.now }
{
    match body {
        [ADVANCE, fields @ ..] => advance(fields),
        [READ, fields @ ..] => read(fields),
        [WRITE, fields @ ..] => write(fields),
        [ACKNOWLEDGE, fields @ ..] => acknowledge(fields),
        [QUEUE, fields @ ..] => queue(fields),
        [NOTE, text @ ..] => note(text),
        _ => Err(Refusal::UnknownKind),
    }
}
