// Tests of an agenda with two kinds of entry.
#![tactic(auto)]

ghost use Rattle.agenda_tests.specs.Orders.{deadline_before};
ghost use Rattle.agenda_tests.specs.Laws.{deadline_irreflexive, deadline_transitive, deadline_total};

use agenda::Entry;

pub mod desk;
#[cfg(test)]
mod tests;

#[derive(Clone, Copy, PartialEq, Eq, PartialOrd, Ord, Debug)]
pub struct Deadline {
    pub tick: u64,
    pub slot: u8,
}

impl Entry for Deadline {
    ghost before = { deadline_before };

    ghost order = { record { irreflexive = deadline_irreflexive; transitive = deadline_transitive; total = deadline_total } };

    fn precedes(self, other: Deadline) -> bool {
        self < other
    }
}
