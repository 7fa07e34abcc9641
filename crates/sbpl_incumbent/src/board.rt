//! Boards.

ghost use Rattle.std.specs.Prelude.{◌≡◌, ◌<◌, ◌^◌, [], ◌∷◌, ◌++◌, length, max, IfOk, IfSome, IsOk};
ghost use Rattle.sbpl_incumbent.specs.Entries.{IsAsNew, IsHistory, found, next_entry};

use crate::rule::Cell;
use crate::slip::Slip;
use crate::steps::{
    join_note, join_reader, load_entry, move_reader, put_entry, settle_reader, split_note,
    split_reader,
};
use crate::{Entry, Note, Publisher, Reader};
use sbpl_fixed::NoMemory;
use std::alloc::Global;
use std::marker::Model;
use std::sync::Wait;

/// Where the newest entry stands. Threads share it by reference. Contracts see which board it is.
#[derive(Drop)]
pub struct Board {
    cell: Cell,
}

impl Model for Board {
    ghost use Rattle.atomic_table.specs.Seated.{TableId, table_id_coded};

    ghost Value = { TableId };

    ghost coded = { table_id_coded };

    ghost view = { λ a. a.cell.table.shared.table_id };
}

impl Board {
    /// A board on which nothing was published, and its publisher. The one error is that memory ran out.
    pub fn new(alloc: Global) -> Result<(Board, Publisher), NoMemory>
        ensures board { IfOk result (λ made. made.1.board ≡ made.0) }
        ensures published { IfOk result (λ made. made.1.published ≡ []) }
    {
        let none = Slip {
            number: 0,
            plan: 0,
            pass: 0,
            cost: 0,
            low: 0,
            high: 0,
        };
        let (cell, pass) = Cell::ruled(alloc, none)?;
        Ok((Board { cell }, Publisher { pass, count: 0 }))
    }

    /// Publishes the next entry: the path of this cost, and of this bound in thousandths, that this pass of a plan found.
    /// Fewer than
    /// 2^63 entries were published before, and the bound is below 2^100. It takes no memory, and may wait for another
    /// thread's call.
    pub fn publish<R: Wait>(
        &self,
        rt: &R,
        publisher: &mut Publisher,
        plan: u32,
        pass: u32,
        cost: u64,
        bound: u128,
    )
        requires board { publisher.old.board ≡ self.now }
        requires few { length publisher.old.published < 2 ^ 63 }
        requires bound { bound < 2 ^ 100 }
        ensures board { publisher.new.board ≡ publisher.old.board }
        ensures published { publisher.new.published ≡ publisher.old.published ++ next_entry publisher.old.published plan
            pass cost bound ∷ [] }
    {
        publisher.count += 1;
        let entry = Entry {
            number: publisher.count,
            plan,
            pass,
            cost,
            bound,
        };
        put_entry(rt, &self.cell, &mut publisher.pass, Slip::new(entry));
    }

    /// A reader that got nothing and was told of nothing. It takes no memory, so the error does not come.
    pub fn reader(&self, publisher: &mut Publisher) -> Result<Reader, NoMemory>
        requires board { publisher.old.board ≡ self.now }
        ensures made { IsOk result }
        ensures board { IfOk result (λ reader. reader.board ≡ publisher.old.board) }
        ensures got { IfOk result (λ reader. reader.got ≡ []) }
        ensures told { IfOk result (λ reader. reader.told ≡ 0) }
        ensures same { publisher.new ≡ publisher.old }
    {
        let pass = split_reader(&self.cell, &mut publisher.pass);
        Ok(Reader { pass })
    }

    /// The newest entry, or `None` where nothing is published yet. It is as new as all that this reader got or was told of.
    /// It takes no memory, and may wait for another thread's call.
    pub fn read<R: Wait>(&self, rt: &R, reader: &mut Reader) -> Option<Entry>
        requires board { reader.old.board ≡ self.now }
        ensures some { IfSome result (λ entry. 0 < entry.number) }
        ensures bound { IfSome result (λ entry. entry.bound < 2 ^ 100) }
        ensures as_new { IsAsNew reader.old.got reader.old.told (found result) }
        ensures board { reader.new.board ≡ reader.old.board }
        ensures got { reader.new.got ≡ reader.old.got ++ found result ∷ [] }
        ensures told { reader.new.told ≡ reader.old.told }
    {
        load_entry(rt, &self.cell, &mut reader.pass)
            .entry()
            .if_published()
    }

    /// A note of what is published now. It takes no memory, so the error does not come.
    pub fn note(&self, publisher: &mut Publisher) -> Result<Note, NoMemory>
        requires board { publisher.old.board ≡ self.now }
        ensures made { IsOk result }
        ensures board { IfOk result (λ note. note.board ≡ publisher.old.board) }
        ensures number { IfOk result (λ note. note.number ≡ length publisher.old.published) }
        ensures same { publisher.new ≡ publisher.old }
    {
        let pass = split_note(&self.cell, &mut publisher.pass);
        Ok(Note { pass })
    }

    /// Tells a reader of all that was published when the note was made. What it reads from then on is as new.
    pub fn learn(&self, reader: &mut Reader, note: Note)
        requires board { reader.old.board ≡ self.now }
        requires note { note.board ≡ self.now }
        ensures board { reader.new.board ≡ reader.old.board }
        ensures got { reader.new.got ≡ reader.old.got }
        ensures told { reader.new.told ≡ max reader.old.told note.number }
    {
        join_note(&self.cell, &mut reader.pass, note.pass);
    }

    /// Takes a reader back. This shows that each entry that it got is the entry of that number among those published, and that the
    /// numbers never fell. It may wait for another thread's call.
    pub fn give_back<R: Wait>(&self, rt: &R, publisher: &mut Publisher, reader: Reader)
        requires board { publisher.old.board ≡ self.now }
        requires reader { reader.board ≡ self.now }
        ensures history { IsHistory publisher.old.published reader.got }
        ensures same { publisher.new ≡ publisher.old }
    {
        let Reader { mut pass } = reader;
        let moved = move_reader(&self.cell, &mut pass);
        join_reader(&self.cell, &mut publisher.pass, moved);
        settle_reader(rt, &self.cell, &mut publisher.pass);
    }
}
