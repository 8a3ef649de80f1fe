// An agenda: entries wait in nodes that the caller lends, and leave in ascending order.
#![tactic(auto)]

ghost use Rattle.std.specs.Prelude.{◌≡◌, Bool};
ghost use Rattle.agenda.specs.Order.{IsStrictTotalOrder};

pub mod agenda;
mod heap;
pub mod queued;

pub use agenda::{Agenda, Full};

// What can wait in an agenda. `before x y` says that x precedes y: a total order, so of two entries one precedes the other, or they are equal.
// It is no bound `Ord`: values that `cmp` calls equal may differ, and an entry may wait in another order than its own.
pub trait Entry: Copy {
    ghost before: { Self → Self → Bool };

    fn precedes(self, other: Self) -> bool
        ensures { result ≡ before self other };

    ghost order: { IsStrictTotalOrder before };
}

// The most nodes that an agenda uses of those it is lent.
pub const MOST_NODES: usize = 4096;
