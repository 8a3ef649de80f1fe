// Runs mixtures of calls on six new boards each, and prints what every board answers.
//
// The lines of the input, of which blank ones and those that begin with # are passed over:
//
//     mixture NAME NODES      a mixture begins, on boards with so many nodes
//     outb PORT BYTE          a call, in the words of the console; so are inb PORT, clock_step N, iack, irq and queue TICK PORT BYTE
//     cut PART PART ..        behind a clock_step: into which parts that advance is cut on the board `cut`. A part is N ticks, and
//                             COUNTxN is COUNT parts of N ticks. They add up to the advance; no part at all is an advance of 0
//
// The output has for each mixture the boards `whole`, `cut` and `exchanged 0` to `exchanged 3`: a heading, the answers in the order of
// the calls, and the state that they leave. On the board `exchanged k` no read reaches the device in slot k.
//
// The file stdout comes from a second model, which was written from the rules and not from this code, and steps tick by tick. It also
// held that cutting and exchanging change no more than they may, for each mixture but the one whose name says that its premise fails.
#![tactic(auto)]

mod boards;
mod printing;
mod reading;
mod unread;

use boards::play;
use reading::read_mixtures;

fn main(rt: HostRuntime) -> anyhow::Result<()> {
    for mixture in &read_mixtures(&rt)? {
        play(&rt, mixture)?;
    }
    Ok(())
}
