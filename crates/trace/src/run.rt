// Runs a trace: every record in turn, and its line.
ghost use Rattle.std.specs.Prelude.{◌≡◌, ℕ, ◌++◌, length, take, drop};
ghost use Rattle.rules.specs.Trace as rules;
ghost use Rattle.trace.specs.Performing.{performed, reply_bytes};
ghost use Rattle.lines.specs.Printing.{room_of};
ghost use Rattle.records.specs.Reading.{left};
ghost use Rattle.trace.specs.Running.{RunsTo};
ghost use Rattle.records.specs.Records.{meant};

use crate::machine::{Elapsed, Machine};
use lines::{Line, Output, Refused};
use records::{Reader, Record};
use rules::Refusal;

// Before each record that much output has to remain.
const ROOM_NEEDED: usize = 100;

// Carries a record out, and gives its line.
fn perform<'a, M: Machine>(machine: &mut M, record: Record<'a>) -> Result<Line<'a>, Refusal>
    ensures { (place : ℕ) → M.Machine.performs (meant «record».entry) place (M.Machine.state machine.old) ≡ performed (reply_bytes result place) (M.Machine.state machine.new) }
{
    Ok(match record {
        Record::Advance(ticks) => {
            let Elapsed { time, edges } = machine.advance(ticks)?;
            Line::Advanced { time, edges }
        }
        Record::Read(port) => Line::Read {
            port,
            byte: machine.read(port),
        },
        Record::Write(port, byte) => {
            machine.write(port, byte);
            Line::Wrote { port, byte }
        }
        Record::Acknowledge => Line::Acknowledged(machine.acknowledge()),
        Record::Queue(write) => {
            machine.queue(write)?;
            Line::Queued(write.tick)
        }
        Record::Note(text) => Line::Note(text),
    })
}

// Carries out what is left of a trace, and prints each record's line. The answer is how many records there were, or the
// refusal that ends the run. A record's place is taken before it is read, so this is no `while let`. The room comes before what
// the record itself is refused for.
fn run_records<M: Machine>(
    machine: &mut M,
    mut reader: Reader<'_>,
    output: &mut Output<'_>,
) -> Result<usize, Refused>
    ensures { RunsTo output.old (rules.run_from M.Machine.performs (length (left reader.entry)) (room_of output.old) reader.entry.place 0 (M.Machine.state machine.old) (left reader.entry)) result output.new (M.Machine.state machine.new) }
{
    let mut count = 0;
    loop {
        let place = reader.place();
        let Some(read) = reader.next() else {
            return Ok(count);
        };
        if output.room() < ROOM_NEEDED {
            return Err(Refused {
                refusal: Refusal::OutputFull,
                place,
            });
        }
        let record = read.map_err(|refusal| Refused { refusal, place })?;
        // `unwrap_or_else` was tried: the borrow checker does not cover it where the result has a lifetime.
        output.line(match perform(machine, record) {
            Ok(line) => line,
            Err(refusal) => Line::Refused(Refused { refusal, place }),
        });
        count += 1;
    }
}

// Runs a trace on a machine, and prints its lines into `out`, as far as there is room. The answer is how many bytes
// were printed; what lies behind them is not touched. The machine is left as the records that were carried out leave it.
pub fn run_trace<M: Machine>(machine: &mut M, trace: &[u8], out: &mut [u8]) -> usize
    ensures count { result ≡ length (take (length out.old) (rules.run_lines M.Machine.performs (length out.old) (M.Machine.state machine.old) trace.now)) }
    ensures lines { out.new ≡ take (length out.old) (rules.run_lines M.Machine.performs (length out.old) (M.Machine.state machine.old) trace.now) ++ drop result out.old }
    ensures machine { M.Machine.state machine.new ≡ rules.run_board M.Machine.performs (length out.old) (M.Machine.state machine.old) trace.now }
{
    let mut output = Output::new(out);
    let run = match Reader::new(trace) {
        Ok(reader) => run_records(machine, reader, &mut output),
        Err(refusal) => Err(Refused { refusal, place: 0 }),
    };
    output.line(match run {
        Ok(count) => Line::Records(count),
        Err(refused) => Line::Refused(refused),
    });
    output.place()
}
