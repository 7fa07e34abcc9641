//! A list that is kept by pages.

ghost use Rattle.std.specs.Prelude.{◌≡◌, ℕ, ◌<◌, [], Some, IfOk, length, replicate, slice_get, slice_index, slice_set, vec_capacity};
ghost use Rattle.sbpl_pages.specs.Pages.{AreListed, IsKept, element, unopened};

use sbpl_fixed::NoMemory;
use std::alloc::Global;
use std::marker::Model;

/// The elements of a page.
const PAGE: u32 = 256;

/// A list whose length stays, and whose elements are all the same at first. It takes room for all of them when it is made, and
/// uses the room by pages, each when it is first written: memory that was never used is not resident. Only `new` asks for memory.
#[derive(Drop)]
pub struct Paged<T: Copy> {
    /// For each page the number of its frame, which is 0 until the page is written.
    table: Vec<u32>,
    /// Frames of as many elements as a page has. The first stays as it was made: with the initial element everywhere.
    frames: Vec<T>,
    /// The pages that were written, in the order of their frames.
    opened: Vec<u32>,
    initial: T,
    len: u32,
}

impl<T: Copy> Model for Paged<T> {
    ghost use Rattle.std.specs.Prelude.{◌*◌, ◌≤◌, List, length, vec_capacity};
    ghost use Rattle.sbpl_pages.specs.Pages.{elements, IsKept};

    ghost Value = { List T };

    ghost view = { λ a. elements a.table.items a.frames.items a.initial 0 a.len };

    ghost invariant = { λ a. IsKept a.table.items a.frames.items a.opened.items a.initial (vec_capacity a.frames) (vec_capacity a.opened)
        × (a.len ≤ 256 * length a.table.items) };
}

/// The frame of a page, which is opened where it has none.
#[inline]
fn own<T: Copy>(
    table: &mut [u32],
    frames: &mut Vec<T>,
    opened: &mut Vec<u32>,
    initial: T,
    page: u32,
) -> u32
    requires page { page < length table.old }
    requires kept { IsKept table.old frames.old.items opened.old.items initial (vec_capacity frames.old) (vec_capacity opened.old) }
    ensures kept { IsKept table.new frames.new.items opened.new.items initial (vec_capacity frames.new) (vec_capacity opened.new) }
    ensures same { (i : ℕ) → element table.new frames.new.items initial i ≡ element table.old frames.old.items initial i }
    ensures frame { slice_index table.new page ≡ result }
    ensures own { 0 < result }
    ensures pages { length table.new ≡ length table.old }
{
    let frame = table[page as usize];
    if frame > 0 {
        return frame;
    }
    open(table, frames, opened, initial, page)
}

/// Opens a page: it gets a frame of its own, with initial elements.
fn open<T: Copy>(
    table: &mut [u32],
    frames: &mut Vec<T>,
    opened: &mut Vec<u32>,
    initial: T,
    page: u32,
) -> u32
    requires page { page < length table.old }
    requires none { slice_index table.old page ≡ 0 }
    requires kept { IsKept table.old frames.old.items opened.old.items initial (vec_capacity frames.old) (vec_capacity opened.old) }
    ensures kept { IsKept table.new frames.new.items opened.new.items initial (vec_capacity frames.new) (vec_capacity opened.new) }
    ensures same { (i : ℕ) → element table.new frames.new.items initial i ≡ element table.old frames.old.items initial i }
    ensures frame { slice_index table.new page ≡ result }
    ensures own { 0 < result }
    ensures pages { length table.new ≡ length table.old }
{
    opened.push_reserved(page);
    let _ = frames.resize(frames.len() + PAGE as usize, initial);
    let frame = opened.len() as u32;
    table[page as usize] = frame;
    frame
}

/// Takes the frames of all pages away. It looks at the opened pages alone.
fn close_all(table: &mut [u32], opened: &mut Vec<u32>)
    requires listed { AreListed table.old opened.old.items }
    ensures closed { (page : ℕ) → slice_index table.new page ≡ 0 }
    ensures unopened { unopened table.new ≡ length table.old }
    ensures pages { length table.new ≡ length table.old }
    ensures none { opened.new.items ≡ [] }
    ensures room { vec_capacity opened.new ≡ vec_capacity opened.old }
{
    for page in opened.as_slice() {
        table[*page as usize] = 0;
    }
    opened.clear();
}

impl<T: Copy> Paged<T> {
    /// A list of this length with this element everywhere.
    pub fn new(alloc: Global, len: u32, initial: T) -> Result<Paged<T>, NoMemory>
        ensures list { IfOk result (λ list. list ≡ replicate len initial) }
    {
        let pages = len.div_ceil(PAGE) as usize;
        let table = vec![in alloc; 0; pages]?;
        let opened = Vec::with_capacity(alloc, pages)?;
        let mut frames = Vec::with_capacity(alloc, (pages + 1) * PAGE as usize)?;
        let _ = frames.resize(PAGE as usize, initial);
        Ok(Paged {
            table,
            frames,
            opened,
            initial,
            len,
        })
    }

    /// The length.
    pub fn len(&self) -> u32
        ensures value { result ≡ length self.now }
    {
        self.len
    }

    /// Element `i`.
    #[inline]
    pub fn get(&self, i: u32) -> T
        requires inside { i < length self.now }
        ensures value { slice_get self.now i ≡ Some result }
    {
        let frame = self.table[(i / PAGE) as usize];
        self.frames[frame as usize * PAGE as usize + (i % PAGE) as usize]
    }

    /// Gives element `i` this value.
    #[inline]
    pub fn set(&mut self, i: u32, value: T)
        requires inside { i < length self.old }
        ensures list { self.new ≡ slice_set self.old i value }
    {
        let frame = own(
            &mut self.table,
            &mut self.frames,
            &mut self.opened,
            self.initial,
            i / PAGE,
        );
        self.frames[frame as usize * PAGE as usize + (i % PAGE) as usize] = value;
    }

    /// Gives each element this value. It takes as long as there are pages that were written.
    pub fn fill(&mut self, value: T)
        ensures list { self.new ≡ replicate (length self.old) value }
    {
        close_all(&mut self.table, &mut self.opened);
        self.frames.clear();
        let _ = self.frames.resize(PAGE as usize, value);
        self.initial = value;
    }
}
