// The deadlines of the slots, by which time jumps.
ghost use Rattle.std.specs.Prelude.{◌≡◌, ℕ, ◌+◌, ◌^◌, ◌<◌, ◌≤◌, length, Option, IsSome};
ghost use Rattle.agenda.specs.Nodes.{usable};
ghost use Rattle.agenda.specs.Waiting.{waiting};
ghost use Rattle.rules.specs.Device.{horizon};
ghost use Rattle.slots.specs.Slots.{slot_number, Foretold};
ghost use Rattle.board.specs.Deadlines.{comes_before, first_tick, in_order, NoneBefore, with_announced, TakesDue, Watched};

use agenda::{Agenda, Entry};
use slots::{Slot, Slots};

// A slot's level stays on the ticks before its deadline. Deadlines wait by tick, and then by slot.
#[derive(Clone, Copy, Debug, PartialEq, Eq, PartialOrd, Ord)]
pub(super) struct Deadline {
    tick: u64,
    slot: Slot,
}

impl Deadline {
    // What a node holds until it is used.
    pub(super) const UNUSED: Deadline = Deadline {
        tick: 0,
        slot: Slot::Zero,
    };
}

impl Entry for Deadline {
    ghost before = { comes_before };

    ghost order = { in_order };

    fn precedes(self, other: Deadline) -> bool {
        self < other
    }
}

// At most one deadline for each slot, in nodes that an advance lends. The level of a slot that has none stays for as long as an
// advance can take.
#[derive(Drop)]
pub(super) struct Deadlines<'n> {
    agenda: Agenda<'n, Deadline>,
}

impl<'n> Deadlines<'n> {
    // Has every slot announce.
    pub(super) fn new<F: Slots>(nodes: &'n mut [Deadline; 4], slots: &F, now: u64) -> Deadlines<'n>
        requires time { now < 2 ^ 62 }
        ensures watched { (n ahead : ℕ) → n < 4 → ahead ≤ horizon + 1 → Watched F.fitting n ahead now (waiting comes_before result.agenda) (F.states slots.now) }
    {
        let mut deadlines = Deadlines {
            agenda: Agenda::new(nodes),
        };
        for slot in Slot::ALL {
            deadlines.announce(slots, slot, now);
        }
        deadlines
    }

    // Has each slot whose deadline has come announce again.
    fn renew<F: Slots>(&mut self, slots: &F, now: u64)
        requires time { now < 2 ^ 62 }
        ensures ahead { (n : ℕ) → NoneBefore n (now + 1) (waiting comes_before self.new.agenda) }
        ensures watched { (n ahead : ℕ) → ahead ≤ horizon + 1 → Watched F.fitting n ahead now (waiting comes_before self.old.agenda) (F.states slots.now) → Watched F.fitting n ahead now (waiting comes_before self.new.agenda) (F.states slots.now) }
    {
        while let Some(deadline) = self.take_due(now) {
            self.announce(slots, deadline.slot, now);
        }
    }

    // Takes out the first deadline, if it has come.
    fn take_due(&mut self, now: u64) -> Option<Deadline>
        ensures taken { TakesDue now result (waiting comes_before self.old.agenda) (waiting comes_before self.new.agenda) }
        ensures room { IsSome result → self.new.agenda.len < usable self.new.agenda.nodes.now }
    {
        match self.agenda.first() {
            Some(deadline) if deadline.tick <= now => self.agenda.take(),
            _ => None,
        }
    }

    // Has a slot announce: it gets a deadline, unless its level stays for longer than an advance can take.
    fn announce<F: Slots>(&mut self, slots: &F, slot: Slot, now: u64)
        requires time { now < 2 ^ 62 }
        requires room { self.old.agenda.len < usable self.old.agenda.nodes.now }
        ensures announced { (announced : Option ℕ) × Foretold F.fitting (slot_number slot) announced (F.states slots.now) × (waiting comes_before self.new.agenda ≡ with_announced now slot announced (waiting comes_before self.old.agenda)) }
        ensures nodes { length self.new.agenda.nodes.now ≡ length self.old.agenda.nodes.now }
    {
        if let Some(ticks) = slots.announce(slot) {
            let tick = now + ticks;
            self.agenda.insert(Deadline { tick, slot }).unwrap();
        }
    }

    // The tick of the first deadline, if it comes before `known`, which else is the answer.
    fn first_tick(&self, known: u64) -> u64
        ensures most { result ≤ known }
        ensures none { (n : ℕ) → NoneBefore n result (waiting comes_before self.now.agenda) }
        ensures nearest { result ≡ first_tick known (waiting comes_before self.now.agenda) }
    {
        match self.agenda.first() {
            Some(deadline) => known.min(deadline.tick),
            None => known,
        }
    }

    // Before which tick no slot changes its level: that of the first deadline, and at most `known`. Each slot whose deadline has come
    // announces again.
    pub(super) fn next<F: Slots>(&mut self, slots: &F, now: u64, known: u64) -> u64
        requires time { now < 2 ^ 62 }
        requires some { now < known }
        ensures ahead { now < result }
        ensures most { result ≤ known }
        ensures none { (n : ℕ) → NoneBefore n result (waiting comes_before self.new.agenda) }
        ensures nearest { result ≡ first_tick known (waiting comes_before self.new.agenda) }
        ensures watched { (n ahead : ℕ) → ahead ≤ horizon + 1 → Watched F.fitting n ahead now (waiting comes_before self.old.agenda) (F.states slots.now) → Watched F.fitting n ahead now (waiting comes_before self.new.agenda) (F.states slots.now) }
    {
        self.renew(slots, now);
        self.first_tick(known)
    }
}
