// A binary heap in the first of the nodes that the caller lends.
ghost use Rattle.std.specs.Prelude.{◌≡◌, ◌<◌, ◌↔◌, [], ◌∷◌, length, MatchOption, Some, IsOk, OnOk, OnErr, codes};
ghost use Rattle.agenda.specs.Nodes.{usable, Ready};
ghost use Rattle.rules.specs.Ascending.{insert as placed};

use crate::heap::{raise, sink};
use crate::{Entry, MOST_NODES};
use std::error::Error;
use std::fmt;

// Entries wait in the first `len` nodes, where none precedes its parent. The nodes are fixed and lent, since no call allocates:
// so the number of those taken stands beside them.
#[derive(Drop)]
pub struct Agenda<'a, E: Entry> {
    nodes: &'a mut [E],
    len: usize,
    ghost ready: { Ready E.Entry.before nodes.now len },
}

// Every usable node is taken.
#[derive(Clone, Copy, PartialEq, Eq, Debug)]
pub struct Full;

impl fmt::Display for Full {
    ghost output = { λ _. Some (codes "every node is taken") };

    fn fmt<W: fmt::Write>(&self, f: &mut fmt::Formatter<W>) -> fmt::Result {
        f.write_str("every node is taken")
    }
}

impl Error for Full {}

#[tactic(auto, using(crate::proofs::Heaps::agenda_facts))]
impl<'a, E: Entry> Agenda<'a, E> {
    ghost use Rattle.agenda.specs.Waiting.{waiting, first_of, Unchanged, Kept};

    pub fn new(nodes: &'a mut [E]) -> Agenda<'a, E>
        ensures lent { result.nodes ≡ nodes.entry }
        ensures empty { waiting E.Entry.before result ≡ [] }
    {
        Agenda { nodes, len: 0 }
    }

    // How many entries wait.
    pub fn length(&self) -> usize
        ensures count { result ≡ length (waiting E.Entry.before self.now) }
        ensures len { result ≡ self.now.len }
    {
        self.len
    }

    // How many entries can wait at a time.
    pub fn capacity(&self) -> usize
        ensures { result ≡ usable self.now.nodes.now }
    {
        self.nodes.len().min(MOST_NODES)
    }

    // The entry that comes first, which stays.
    pub fn first(&self) -> Option<E>
        ensures { result ≡ first_of (waiting E.Entry.before self.now) }
    {
        self.nodes[..self.len].first().copied()
    }

    // Takes in an entry, unless every usable node is taken.
    pub fn insert(&mut self, entry: E) -> Result<(), Full>
        ensures room { IsOk result ↔ (self.old.len < usable self.old.nodes.now) }
        ensures ok { OnOk result (waiting E.Entry.before self.new ≡ placed E.Entry.before entry (waiting E.Entry.before self.old)) }
        ensures err { OnErr result (Unchanged self.old self.new) }
        ensures kept { Kept self.old self.new }
    {
        if self.len == self.capacity() {
            return Err(Full);
        }
        raise(&mut self.nodes[..=self.len], entry);
        self.len += 1;
        Ok(())
    }

    // Takes out the entry that comes first.
    pub fn take(&mut self) -> Option<E>
        ensures taken { MatchOption result ((waiting E.Entry.before self.old ≡ []) × Unchanged self.old self.new) (λ x. waiting E.Entry.before self.old ≡ x ∷ waiting E.Entry.before self.new) }
        ensures kept { Kept self.old self.new }
    {
        let first = self.first()?;
        self.len -= 1;
        let last = self.nodes[self.len];
        if 0 < self.len {
            sink(&mut self.nodes[..self.len], last);
        }
        Some(first)
    }
}
