//! Buckets of cells by their distances, which say which waiting cell is best taken next.

ghost use Rattle.std.specs.Prelude.{◌<◌};

use sbpl_serial::{FAR, NoMemory};
use std::alloc::Global;

/// The number of buckets: a power of two.
const RING: u32 = 1 << 12;

/// The number of bands: a power of two.
const BANDS: u32 = 1 << 6;

/// Neighbouring cells: a band has this power of two of them, before the next begins.
const BAND_SHIFT: u32 = 16;

/// No entry.
const NONE: u32 = u32::MAX;

/// A cell that is in a bucket, and the entry after it there.
#[derive(Clone, Copy)]
struct Entry {
    cell: u32,
    next: u32,
}

/// Cells by their distances to the goal: a ring of buckets, each of which has the cells whose distances lie in a range
/// of one width (Dial 1969), and those of later rounds wait in the last bucket. The cells of the first bucket are parted into
/// bands of rows, so that cells taken one after the other lie near each other in memory. A cell whose distance is lowered comes
/// in once more, and its earlier entry is dropped when its turn comes. Where there is no room for a cell it is left out, and
/// all are listed anew later.
/// Nothing rests on the order, nor on which cells it has: it only advises `take`, which looks at the marks themselves.
#[derive(Drop)]
pub(crate) struct Buckets {
    entries: Vec<Entry>,
    /// How many entries were ever used since the buckets were emptied; the others follow.
    used: u32,
    /// The first entry of those that are free again.
    free: u32,
    /// The first entry of each bucket, and then of each band.
    heads: Vec<u32>,
    /// A bucket is two to this power wide.
    shift: u32,
    /// The number of the bucket that cells are taken from, and the band.
    at: u64,
    band: u32,
    /// How many entries are in buckets and bands, and how many in bands.
    count: u32,
    near: u32,
    /// Whether a cell found no room.
    is_short: bool,
    ghost narrow: { shift < 64 },
}

/// The list in which the cells of the first bucket wait that lie in this cell's band.
fn band_of(cell: u32) -> u32 {
    RING + (cell >> BAND_SHIFT) % BANDS
}

impl Buckets {
    /// Empty buckets for this number of cells.
    pub(crate) fn new(alloc: Global, cells: u32) -> Result<Buckets, NoMemory> {
        let none = Entry {
            cell: 0,
            next: NONE,
        };
        let entries = vec![in alloc; none; cells as usize / 2 + RING as usize]?;
        let heads = vec![in alloc; NONE; RING as usize + BANDS as usize]?;
        Ok(Buckets {
            entries,
            used: 0,
            free: NONE,
            heads,
            shift: 0,
            at: 0,
            band: 0,
            count: 0,
            near: 0,
            is_short: false,
        })
    }

    /// Empties the buckets. Each is as wide as the least hop costs or narrower, so that a cell of the first one has its final
    /// distance, unless the greatest step would then be longer than all of them.
    pub(crate) fn clear(&mut self, costs: (u32, u32), first: u64) {
        let narrow = costs.0.max(1).ilog2();
        let wide = costs.1.max(1).ilog2().saturating_sub(3);
        self.shift = narrow.max(wide);
        self.restart(first);
    }

    /// Empties the buckets, which stay as wide.
    pub(crate) fn restart(&mut self, first: u64) {
        self.used = 0;
        self.free = NONE;
        self.heads.fill(NONE);
        self.at = first >> self.shift;
        self.band = 0;
        self.count = 0;
        self.near = 0;
        self.is_short = false;
    }

    /// Puts a cell into the bucket of its distance.
    pub(crate) fn put(&mut self, cell: u32, distance: u64) {
        let last = self.at.saturating_add(u64::from(RING) - 1);
        let key = (distance >> self.shift).max(self.at).min(last);
        let Some(entry) = self.vacant() else {
            self.is_short = true;
            return;
        };
        if key == self.at {
            self.near = self.near.wrapping_add(1);
            self.push(entry, cell, band_of(cell));
        } else {
            self.push(entry, cell, (key % u64::from(RING)) as u32);
        }
        self.count = self.count.wrapping_add(1);
    }

    /// Takes a free entry.
    fn vacant(&mut self) -> Option<u32> {
        if let Some(entry) = self.entries.get(self.free as usize) {
            let free = self.free;
            self.free = entry.next;
            return Some(free);
        }
        let fresh = self.used;
        if (fresh as usize) < self.entries.len() {
            self.used = fresh.wrapping_add(1);
            return Some(fresh);
        }
        None
    }

    /// Makes an entry the first of a list.
    fn push(&mut self, entry: u32, cell: u32, list: u32) {
        if let Some(head) = self.heads.get_mut(list as usize) {
            let next = *head;
            *head = entry;
            if let Some(place) = self.entries.get_mut(entry as usize) {
                *place = Entry { cell, next };
            }
        }
    }

    /// Takes the first entry of a list away: its number and its cell.
    fn pop(&mut self, list: u32) -> Option<(u32, u32)> {
        let head = self.heads.get_mut(list as usize)?;
        let entry = *head;
        let Entry { cell, next } = *self.entries.get(entry as usize)?;
        *head = next;
        Some((entry, cell))
    }

    /// Frees an entry.
    fn release(&mut self, entry: u32) {
        if let Some(place) = self.entries.get_mut(entry as usize) {
            place.next = self.free;
            self.free = entry;
            self.count = self.count.wrapping_sub(1);
        }
    }

    /// Parts the cells of the first bucket into bands, without those that are not marked any more.
    fn spread(&mut self, marks: &[bool]) {
        let bucket = (self.at % u64::from(RING)) as u32;
        for _ in 0..self.entries.len() {
            let Some((entry, cell)) = self.pop(bucket) else {
                return;
            };
            if let Some(true) = marks.get(cell as usize) {
                self.near = self.near.wrapping_add(1);
                self.push(entry, cell, band_of(cell));
            } else {
                self.release(entry);
            }
        }
    }

    /// Turns to the next bucket.
    fn advance(&mut self, marks: &[bool]) {
        self.at = self.at.wrapping_add(1);
        self.band = 0;
        self.spread(marks);
    }

    /// Takes a marked cell of the first bucket that has some.
    pub(crate) fn first(&mut self, marks: &[bool], distances: &[u64]) -> Option<u32> {
        for _ in 0..u64::MAX {
            if self.near == 0 {
                if self.count == 0 {
                    return None;
                }
                self.advance(marks);
                continue;
            }
            let Some((entry, cell)) = self.pop(RING + self.band % BANDS) else {
                self.band = self.band.wrapping_add(1);
                continue;
            };
            self.near = self.near.wrapping_sub(1);
            self.release(entry);
            if !*marks.get(cell as usize)? {
                continue;
            }
            let distance = *distances.get(cell as usize)?;
            if distance >> self.shift <= self.at || distance >= FAR {
                return Some(cell);
            }
            self.put(cell, distance);
        }
        None
    }

    /// Whether a cell found no room since the buckets were emptied.
    pub(crate) fn is_short(&self) -> bool {
        self.is_short
    }
}
