// A holder of an agenda: heap order comes with the agenda's type, and the desk says nothing of it.
ghost use Rattle.std.specs.Prelude.{◌≡◌, ◌<◌, ◌↔◌, [], ◌∷◌, drop, MatchOption, IsOk, OnOk, OnErr};
ghost use Rattle.agenda.specs.Nodes.{usable};
ghost use Rattle.agenda.specs.Waiting.{waiting, first_of, Unchanged};
ghost use Rattle.rules.specs.Ascending.{insert as placed};
ghost use Rattle.agenda_tests.specs.Orders.{deadline_before};

use crate::Deadline;
use agenda::{Agenda, Full};

#[derive(Drop)]
pub struct Desk<'a> {
    queue: Agenda<'a, Deadline>,
}

impl<'a> Desk<'a> {
    pub fn new(nodes: &'a mut [Deadline]) -> Desk<'a>
        ensures lent { result.queue.nodes ≡ nodes.entry }
        ensures empty { waiting deadline_before result.queue ≡ [] }
    {
        Desk {
            queue: Agenda::new(nodes),
        }
    }

    pub fn add(&mut self, due: Deadline) -> Result<(), Full>
        ensures room { IsOk result ↔ (self.old.queue.len < usable self.old.queue.nodes.now) }
        ensures ok { OnOk result (waiting deadline_before self.new.queue ≡ placed deadline_before due (waiting deadline_before self.old.queue)) }
        ensures err { OnErr result (Unchanged self.old.queue self.new.queue) }
    {
        self.queue.insert(due)
    }

    pub fn next(&mut self) -> Option<Deadline>
        ensures { MatchOption result (waiting deadline_before self.old.queue ≡ []) (λ x. waiting deadline_before self.old.queue ≡ x ∷ waiting deadline_before self.new.queue) }
    {
        self.queue.take()
    }

    pub fn earliest(&self) -> Option<Deadline>
        ensures { result ≡ first_of (waiting deadline_before self.now.queue) }
    {
        self.queue.first()
    }
}

// The nodes past the usable ones come back as they were lent.
pub fn lend(nodes: &mut [Deadline], due: Deadline) -> Result<(), Full>
    ensures { drop (usable nodes.old) nodes.new ≡ drop (usable nodes.old) nodes.old }
{
    Agenda::new(nodes).insert(due)
}
