// What the ports reach, and the handing over of levels: from the slots to the interrupt controllers.
ghost use Rattle.std.specs.Prelude.{◌≡◌, ℕ, ◌<◌, ◌≤◌, List};
ghost use Rattle.rules.specs.I8259.{bit, drive_lines, standing_pair};
ghost use Rattle.rules.specs.Board.{on_line, edges_between, byte_at, after_read_at, after_write_at, lines as wiring};
ghost use Rattle.rules.specs.declared.queued.QueuedWrite.{QueuedWrite};
ghost use Rattle.slots.specs.Slots.{levels_of, slots_after_read, slots_after_write, target_of};
ghost use Rattle.board.specs.Wiring.{with_line};
ghost use Rattle.board.specs.Placing.{placed};

use i8259::Pair;
use slots::{Slots, Target};

// The interrupt line of each slot.
const LINES: [u8; 4] = [0, 8, 4, 3];

// The line's bit is set where its level is 1.
fn with_line(lines: u16, line: u8, level: bool) -> u16
    requires { line < 16 }
    ensures { result ≡ with_line lines line level }
{
    if level { lines | (1 << line) } else { lines }
}

// Goes over the levels and their lines: what the lines are at, as one number with bit l for line l, and how many of the levels
// differ from those last handed over.
fn gather(handed: &[bool; 4], levels: &[bool; 4]) -> (u16, u64)
    ensures lines { (l : ℕ) → l < 16 → bit result.0 l ≡ on_line wiring levels.now l }
    ensures edges { result.1 ≡ edges_between handed.now levels.now }
    ensures few { result.1 ≤ 4 }
{
    let mut lines = 0;
    let mut edges = 0;
    for slot in 0..LINES.len() {
        lines = with_line(lines, LINES[slot], levels[slot]);
        edges += u64::from(handed[slot] != levels[slot]);
    }
    (lines, edges)
}

// What the ports reach: the slots and the interrupt controllers, and the level of each slot that the controllers were last given.
#[derive(Drop)]
pub(super) struct Ports<F> {
    pub(super) slots: F,
    pub(super) handed: [bool; 4],
    pub(super) pair: Pair,
}

impl<F: Slots> Ports<F> {
    // The levels that the slots show count as already handed over.
    pub(super) fn new(slots: F) -> Ports<F>
        ensures slots { result.slots ≡ slots }
        ensures handed_over { result.handed ≡ levels_of F.fitting (F.states slots) }
        ensures pair { result.pair ≡ standing_pair (on_line wiring (levels_of F.fitting (F.states slots))) }
        ensures driven { drive_lines (on_line wiring result.handed) result.pair ≡ result.pair }
    {
        let handed = slots.levels();
        let (lines, _) = gather(&handed, &handed);
        Ports {
            slots,
            handed,
            pair: Pair::with_inputs(lines),
        }
    }

    // The byte at a port; an open bus reads FFh.
    pub(super) fn read(&mut self, target: Target) -> u8
        ensures byte { (time nodes : ℕ) (pending : List QueuedWrite) → result ≡ byte_at F.fitting (target_of target) (placed F.states self.old time pending nodes) }
        ensures ports { (time nodes : ℕ) (pending : List QueuedWrite) → placed F.states self.new time pending nodes ≡ after_read_at F.fitting (target_of target) (placed F.states self.old time pending nodes) }
        ensures slots { F.states self.new.slots ≡ slots_after_read F.fitting target (F.states self.old.slots) }
    {
        match target {
            Target::Chip(which, at) => self.pair.read(which, at),
            _ => self.slots.read(target),
        }
    }

    pub(super) fn write(&mut self, target: Target, byte: u8)
        ensures slots { F.states self.new.slots ≡ slots_after_write F.fitting target byte (F.states self.old.slots) }
        ensures ports { (time nodes : ℕ) (pending : List QueuedWrite) → placed F.states self.new time pending nodes ≡ after_write_at F.fitting (target_of target) byte (placed F.states self.old time pending nodes) }
    {
        match target {
            Target::Chip(which, at) => self.pair.write(which, at, byte),
            _ => self.slots.write(target, byte),
        }
    }

    // Gives each slot's level to its line's input and the slave's request to the master, and counts the levels that changed.
    pub(super) fn hand_over(&mut self) -> u64
        ensures edges { result ≡ edges_between self.old.handed (levels_of F.fitting (F.states self.old.slots)) }
        ensures few { result ≤ 4 }
        ensures slots { self.new.slots ≡ self.old.slots }
        ensures handed_over { self.new.handed ≡ levels_of F.fitting (F.states self.old.slots) }
        ensures pair { self.new.pair ≡ drive_lines (on_line wiring (levels_of F.fitting (F.states self.old.slots))) self.old.pair }
        ensures driven { drive_lines (on_line wiring self.new.handed) self.new.pair ≡ self.new.pair }
    {
        let levels = self.slots.levels();
        let (lines, edges) = gather(&self.handed, &levels);
        self.pair.drive(lines);
        self.handed = levels;
        edges
    }
}
