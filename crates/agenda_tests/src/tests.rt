use super::desk::Desk;
use super::*;
use agenda::{Agenda, Full};
use rules::{QueuedWrite, Refusal};
use std::array;

// Entries that repeat and come in no order.
fn mixed(i: u64) -> u64 {
    let x = i.wrapping_mul(0x9E37_79B9_7F4A_7C15);
    (x ^ (x >> 29)).wrapping_mul(0xBF58_476D_1CE4_E5B9) >> 40
}

fn some_write(i: u64) -> QueuedWrite {
    let x = mixed(i);
    QueuedWrite {
        tick: x % 13,
        port: (x / 13 % 7) as u16,
        byte: (x / 91 % 5) as u8,
    }
}

fn some_deadline(i: u64) -> Deadline {
    let x = mixed(i);
    Deadline {
        tick: x % 1009,
        slot: (x / 1009 % 6) as u8,
    }
}

// Puts the entries in one by one, and says how many found a node.
fn fill<E: Entry>(agenda: &mut Agenda<'_, E>, entries: &[E]) -> usize {
    entries
        .iter()
        .filter(|entry| agenda.insert(**entry).is_ok())
        .count()
}

// Whether the entries come out as listed, and then none.
fn empties<E: Entry + PartialEq>(agenda: &mut Agenda<'_, E>, listed: &[E]) -> bool {
    let all = listed.iter().all(|entry| agenda.first() == Some(*entry)
        && agenda.take() == Some(*entry));
    all && agenda.length() == 0 && agenda.take().is_none()
}

// Whether the entries that `nodes` take in come out as listed.
fn passes<E: Entry + PartialEq>(nodes: &mut [E], entries: &[E], listed: &[E]) -> bool {
    let mut agenda = Agenda::new(nodes);
    let taken = fill(&mut agenda, entries);
    taken == listed.len() && agenda.length() == taken && empties(&mut agenda, listed)
}

#[test]
fn writes_leave_in_order(rt: HostRuntime) {
    let mut entries: [QueuedWrite; 300] = array::from_fn(|i| some_write(i as u64));
    let mut sorted = entries;
    sorted.sort_unstable();
    let mut nodes = [some_write(0); 300];
    assert!(rt; passes(&mut nodes, &entries, &sorted), "mixed");
    assert!(rt; passes(&mut nodes, &sorted, &sorted), "ascending");
    entries = sorted;
    entries.reverse();
    assert!(rt; passes(&mut nodes, &entries, &sorted), "descending");
}

#[test]
fn few_nodes(rt: HostRuntime) {
    let early = Deadline { tick: 1, slot: 9 };
    let late = Deadline { tick: 2, slot: 0 };
    let later = Deadline { tick: 2, slot: 1 };
    let entries = [later, early, late];
    let mut none: [Deadline; 0] = [];
    assert!(rt; passes(&mut none, &entries, &[]), "no node");
    let mut one = [late; 1];
    assert!(rt; passes(&mut one, &entries, &[later]), "one node");
    let mut two = [late; 2];
    assert!(rt; passes(&mut two, &entries, &[early, later]), "two nodes");
    let mut four = [late; 4];
    assert!(rt;
        passes(&mut four, &entries, &[early, late, later]),
        "a node too many"
    );
}

#[test]
fn equal_entries_all_stay(rt: HostRuntime) {
    let a = QueuedWrite {
        tick: 5,
        port: 0x3f2,
        byte: 1,
    };
    let b = QueuedWrite {
        tick: 5,
        port: 0x3f2,
        byte: 0,
    };
    let mut nodes = [a; 5];
    assert!(rt; passes(&mut nodes, &[a, b, a, b, a], &[b, b, a, a, a]));
}

#[test]
fn emptied_nodes_are_used_again(rt: HostRuntime) {
    let early = Deadline { tick: 1, slot: 0 };
    let middle = Deadline { tick: 1, slot: 1 };
    let late = Deadline { tick: 2, slot: 0 };
    let mut nodes = [late; 2];
    let mut desk = Desk::new(&mut nodes);
    assert_eq!(rt; desk.add(late), Ok(()));
    assert_eq!(rt; desk.add(early), Ok(()));
    assert_eq!(rt; desk.add(middle), Err(Full));
    assert_eq!(rt; desk.next(), Some(early));
    assert_eq!(rt; desk.add(middle), Ok(()));
    assert_eq!(rt; desk.add(early), Err(Full));
    assert_eq!(rt; desk.earliest(), Some(middle));
    assert_eq!(rt; desk.next(), Some(middle));
    assert_eq!(rt; desk.next(), Some(late));
    assert_eq!(rt; desk.next(), None);
}

// Of more than 4,096 nodes the others stay, and 4,096 entries wait.
#[test]
fn many_nodes(rt: HostRuntime) {
    let entries: [Deadline; 4097] = array::from_fn(|i| some_deadline(i as u64));
    let mut sorted = [some_deadline(0); 4096];
    sorted.copy_from_slice(&entries[0..4096]);
    sorted.sort_unstable();
    let unused = Deadline {
        tick: u64::MAX,
        slot: 7,
    };
    let mut nodes = [unused; 4096];
    assert!(rt; passes(&mut nodes, &entries, &sorted), "4,096 nodes");
    assert!(rt; passes(&mut nodes, &sorted, &sorted), "ascending");
    let mut reversed = sorted;
    reversed.reverse();
    assert!(rt; passes(&mut nodes, &reversed, &sorted), "descending");
    let mut nodes = [unused; 4097];
    assert_eq!(rt; Agenda::new(&mut nodes).capacity(), 4096);
    assert!(rt; passes(&mut nodes, &entries, &sorted), "4,097 nodes");
    assert_eq!(rt; nodes[4096], unused);
}

// A full agenda says so, and a queue of writes that is full refuses the next.
#[test]
fn full_says_so(rt: HostRuntime) {
    let text = format!(in rt.alloc(); "{Full}").expect(&rt, "memory");
    assert_eq!(rt; text.as_str(), "every node is taken");
    assert_eq!(rt; Refusal::from(Full), Refusal::QueueFull);
}
