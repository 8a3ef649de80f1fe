// The agenda of pending writes alone.
use crate::call::Call;
use agenda::{Agenda, MOST_NODES};
use rules::QueuedWrite;

const UNUSED: QueuedWrite = QueuedWrite {
    tick: 0,
    port: 0,
    byte: 0,
};

// Depends on the order in which the writes come.
fn mixed(sum: u64, write: QueuedWrite) -> u64 {
    sum.wrapping_mul(31)
        .wrapping_add(write.tick ^ u64::from(write.port))
}

// Puts all entries into an empty agenda and takes them out again, for so many times.
#[unsafe(no_mangle)]
pub extern "C" fn bench_agenda_fill(entries: &[Call], times: u64) -> u64 {
    let mut nodes = [UNUSED; MOST_NODES];
    let mut agenda = Agenda::new(&mut nodes);
    let mut sum = 0u64;
    for _ in 0..times {
        for entry in entries {
            let _ = agenda.insert(entry.write());
        }
        for _ in entries {
            if let Some(write) = agenda.take() {
                sum = mixed(sum, write);
            }
        }
    }
    sum
}

// Fills an agenda with the entries, and then, for so many times and for each entry, takes one out and puts it back, later by that entry's
// number of ticks.
#[unsafe(no_mangle)]
pub extern "C" fn bench_agenda_steady(entries: &[Call], times: u64) -> u64 {
    let mut nodes = [UNUSED; MOST_NODES];
    let mut agenda = Agenda::new(&mut nodes);
    for entry in entries {
        let _ = agenda.insert(entry.write());
    }
    let mut sum = 0u64;
    for _ in 0..times {
        for entry in entries {
            if let Some(write) = agenda.take() {
                sum = mixed(sum, write);
                let later = QueuedWrite {
                    tick: write.tick.wrapping_add(entry.number),
                    ..write
                };
                let _ = agenda.insert(later);
            }
        }
    }
    sum
}
