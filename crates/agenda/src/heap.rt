// The two moves of a binary heap, in a slice of its own. Node `i` has the children `2 * i + 1` and `2 * i + 2`: an index goes
// from a node to a parent or a child, which no range or iterator gives, so the loops are `while`.
ghost use Rattle.std.specs.Prelude.{◌≡◌, ◌+◌, ◌-◌, ◌*◌, ◌/◌, ◌<◌, ◌≤◌, true, length, slice_set};
ghost use Rattle.agenda.specs.Nodes.{held, heaped, Earliest};
ghost use Rattle.rules.specs.Ascending.{insert as placed};

use crate::Entry;

// Adds an entry to a heap that leaves the last node free: later parents move down, until the entry's place is free.
#[tactic(auto, using(crate::proofs::Sifts::rise_facts))]
pub fn raise<E: Entry>(nodes: &mut [E], rising: E)
    requires room { 0 < length nodes.old }
    requires heap { heaped E.Entry.before nodes.old (length nodes.old - 1) ≡ true }
    ensures heap { heaped E.Entry.before nodes.new (length nodes.new) ≡ true }
    ensures entries { held E.Entry.before nodes.new (length nodes.new) ≡ placed E.Entry.before rising (held E.Entry.before nodes.old (length nodes.old - 1)) }
{
    let mut at = nodes.len() - 1;
    while 0 < at {
        let parent = (at - 1) / 2;
        let above = nodes[parent];
        if !rising.precedes(above) {
            break;
        }
        nodes[at] = above;
        at = parent;
    }
    nodes[at] = rising;
}

// Puts an entry in the place of a heap's root: earlier children move up, until the entry's place is free.
#[tactic(auto, using(crate::proofs::Sifts::sink_facts))]
pub fn sink<E: Entry>(nodes: &mut [E], sinking: E)
    requires some { 0 < length nodes.old }
    requires heap { heaped E.Entry.before nodes.old (length nodes.old) ≡ true }
    ensures heap { heaped E.Entry.before nodes.new (length nodes.new) ≡ true }
    ensures entries { held E.Entry.before nodes.new (length nodes.new) ≡ held E.Entry.before (slice_set nodes.old 0 sinking) (length nodes.old) }
{
    let mut at = 0;
    while at < nodes.len() / 2 {
        let child = earliest_child(nodes, at);
        let below = nodes[child];
        if !below.precedes(sinking) {
            break;
        }
        nodes[at] = below;
        at = child;
    }
    nodes[at] = sinking;
}

// Of the children of node `at`, the one that comes first.
fn earliest_child<E: Entry>(nodes: &[E], at: usize) -> usize
    requires { at < length nodes.now / 2 }
    ensures child { (at * 2 + 1 ≤ result) × (result ≤ at * 2 + 2) × (result < length nodes.now) }
    ensures earliest { Earliest E.Entry.before nodes.now (length nodes.now) at result }
{
    let left = at * 2 + 1;
    let right = left + 1;
    // No branch: which of two children comes first is as good as random, and a processor would guess it wrong half of the time.
    let right_first = right < nodes.len() && nodes[right].precedes(nodes[left]);
    left + usize::from(right_first)
}
