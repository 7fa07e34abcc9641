//! Entries that come into the heap and leave it.

ghost use Rattle.std.specs.Prelude.{◌≡◌, ℕ, [], ◌^◌, ◌<◌, ◌≤◌, Some, None, length, slice_index, vec_capacity};
ghost use Rattle.sbpl_open.specs.Entries.{key_of};
ghost use Rattle.sbpl_open.specs.Heap.{AreAgreed, HasHole, IsHeap, KeyChanges, filled, placed_at, rank_at};

use crate::Entry;
use crate::sift::sift;
use sbpl_pages::Paged;

/// The slot that stands open for an entry: that of its state, or one more at the end where the
/// state is not there yet.
pub(crate) fn hole_for(heap: &mut Vec<Entry>, slots: &Paged<u32>, entry: Entry) -> usize
    requires few { length slots.now < 2 ^ 32 }
    requires agreed { AreAgreed heap.old.items slots.now }
    requires ordered { IsHeap (length heap.old.items) (rank_at heap.old.items) }
    requires state { entry.state < length slots.now }
    requires room { length slots.now ≤ vec_capacity heap.old }
    ensures hole { HasHole heap.new.items slots.now result entry }
    ensures keys { KeyChanges heap.old.items slots.now (filled heap.new.items result entry)
        (placed_at slots.now result entry) entry.state (Some (key_of entry)) }
    ensures room { vec_capacity heap.new ≡ vec_capacity heap.old }
{
    let slot = slots.get(entry.state);
    if slot > 0 {
        return slot as usize - 1;
    }
    heap.push_reserved(entry);
    heap.len() - 1
}

/// Takes `s`, which is there, out of the heap. The last entry closes the gap.
pub(crate) fn remove(heap: &mut Vec<Entry>, slots: &mut Paged<u32>, s: u32)
    requires few { length slots.old < 2 ^ 32 }
    requires agreed { AreAgreed heap.old.items slots.old }
    requires ordered { IsHeap (length heap.old.items) (rank_at heap.old.items) }
    requires there { 0 < slice_index slots.old s }
    ensures agreed { AreAgreed heap.new.items slots.new }
    ensures keys { KeyChanges heap.old.items slots.old heap.new.items slots.new s None }
    ensures ordered { IsHeap (length heap.new.items) (rank_at heap.new.items) }
    ensures room { vec_capacity heap.new ≡ vec_capacity heap.old }
    ensures states { length slots.new ≡ length slots.old }
{
    let gap = slots.get(s) as usize - 1;
    let last = heap.len() - 1;
    let moved = heap[last];
    heap.truncate(last);
    slots.set(s, 0);
    if gap < last {
        sift(heap, slots, gap, moved);
    }
}

/// Takes all entries out of the heap.
pub(crate) fn empty(heap: &mut Vec<Entry>, slots: &mut Paged<u32>)
    requires agreed { AreAgreed heap.old.items slots.old }
    ensures heap { heap.new.items ≡ [] }
    ensures slots { (s : ℕ) → slice_index slots.new s ≡ 0 }
    ensures room { vec_capacity heap.new ≡ vec_capacity heap.old }
    ensures states { length slots.new ≡ length slots.old }
{
    while let Some(entry) = heap.pop() {
        slots.set(entry.state, 0);
    }
}
