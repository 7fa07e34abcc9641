//! Moves of entries up and down the heap. An entry on its way is held aside, and its slot in the
//! heap stands open for it: a hole, which moves.

ghost use Rattle.std.specs.Prelude.{◌≡◌, ℕ, ◌+◌, ◌^◌, ◌<◌, length, slice_set};
ghost use Rattle.sbpl_open.specs.Heap.{AreAgreed, HasHole, IsNotBefore, IsChild, IsHeap, SameKeys, filled, placed_at, rank_at};

use crate::Entry;
use sbpl_pages::Paged;

/// Puts the entry into the heap, which is in order except at the hole.
pub(crate) fn sift(heap: &mut [Entry], slots: &mut Paged<u32>, hole: usize, entry: Entry)
    requires few { length slots.old < 2 ^ 32 }
    requires hole { HasHole heap.old slots.old hole entry }
    ensures agreed { AreAgreed heap.new slots.new }
    ensures keys { SameKeys (filled heap.old hole entry) (placed_at slots.old hole entry) heap.new
        slots.new }
    ensures ordered { IsHeap (length heap.old) (rank_at heap.new) }
    ensures states { length slots.new ≡ length slots.old }
{
    let hole = sift_up(heap, slots, hole, entry);
    let hole = sift_down(heap, slots, hole, entry);
    fill(heap, slots, hole, entry);
}

/// Moves the hole up, as far as the entry comes before what is above it, and answers its slot.
fn sift_up(heap: &mut [Entry], slots: &mut Paged<u32>, mut hole: usize, entry: Entry) -> usize
    requires few { length slots.old < 2 ^ 32 }
    requires hole { HasHole heap.old slots.old hole entry }
    ensures hole { HasHole heap.new slots.new result entry }
    ensures keys { SameKeys (filled heap.old hole entry) (placed_at slots.old hole entry)
        (filled heap.new result entry) (placed_at slots.new result entry) }
    ensures not_before { IsNotBefore (rank_at (filled heap.new result entry)) result }
    ensures states { length slots.new ≡ length slots.old }
{
    while hole > 0 {
        let above = (hole - 1) / 4;
        let other = heap[above];
        if !entry.comes_before(other) {
            break;
        }
        fill(heap, slots, hole, other);
        hole = above;
    }
    hole
}

/// Moves the hole down, as far as what is below comes before the entry, and answers its slot.
fn sift_down(heap: &mut [Entry], slots: &mut Paged<u32>, mut hole: usize, entry: Entry) -> usize
    requires few { length slots.old < 2 ^ 32 }
    requires hole { HasHole heap.old slots.old hole entry }
    requires not_before { IsNotBefore (rank_at (filled heap.old hole entry)) hole }
    ensures hole { HasHole heap.new slots.new result entry }
    ensures keys { SameKeys (filled heap.old hole entry) (placed_at slots.old hole entry)
        (filled heap.new result entry) (placed_at slots.new result entry) }
    ensures ordered { IsHeap (length heap.old) (rank_at (filled heap.new result entry)) }
    ensures states { length slots.new ≡ length slots.old }
{
    while let Some(below) = first_child(heap, hole) {
        let other = heap[below];
        if !other.comes_before(entry) {
            break;
        }
        fill(heap, slots, hole, other);
        hole = below;
    }
    hole
}

/// The one of the slots below a slot whose entry comes first.
fn first_child(heap: &[Entry], slot: usize) -> Option<usize>
    requires slot { slot < length heap.now }
    ensures child { IsChild (length heap.now) (rank_at heap.now) slot result }
{
    let first = 4 * slot + 1;
    if first >= heap.len() {
        return None;
    }
    let mut best = first;
    for child in first + 1..heap.len().min(first + 4) {
        if heap[child].comes_before(heap[best]) {
            best = child;
        }
    }
    Some(best)
}

/// Writes an entry to a slot of the heap.
fn fill(heap: &mut [Entry], slots: &mut Paged<u32>, slot: usize, entry: Entry)
    requires slot { slot < length heap.old }
    requires few { slot + 1 < 2 ^ 32 }
    requires state { entry.state < length slots.old }
    ensures heap { heap.new ≡ slice_set heap.old slot entry }
    ensures slots { slots.new ≡ slice_set slots.old entry.state (slot + 1) }
{
    heap[slot] = entry;
    slots.set(entry.state, slot as u32 + 1);
}
