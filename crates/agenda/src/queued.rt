// Pending writes wait in an agenda, by tick, then port, then byte.
ghost use Rattle.std.specs.Prelude.{◌≡◌};
ghost use Rattle.rules.specs.Board.{precedes};
ghost use Rattle.rules.specs.declared.refusal.Refusal.TheVariants.{QueueFull};
ghost use Rattle.agenda.specs.Writes.{precedes_irreflexive, precedes_transitive, precedes_total};

use crate::{Entry, Full};
use rules::{QueuedWrite, Refusal};

impl Entry for QueuedWrite {
    ghost before = { precedes };

    ghost order = { record { irreflexive = precedes_irreflexive; transitive = precedes_transitive; total = precedes_total } };

    fn precedes(self, other: QueuedWrite) -> bool {
        self < other
    }
}

// No node is free for one more write.
impl From<Full> for Refusal {
    ghost from_gives = { λ _ refusal. refusal ≡ QueueFull };

    fn from(_full: Full) -> Refusal {
        Refusal::QueueFull
    }
}
