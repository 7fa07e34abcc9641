//! The steps of the cell, each over a pass.

ghost use Rattle.std.specs.Prelude.{◌≡◌, ◌+◌, [], length};
ghost use Rattle.crossbeam_utils.specs.Seq.{cell_view};
ghost use Rattle.sbpl_incumbent.specs.Known.{as_note, as_publisher, as_reader, joined_of, published_of, with_joined};
ghost use Rattle.sbpl_incumbent.specs.Entries.{IsHistory};
ghost use Rattle.sbpl_incumbent.specs.Slips.{IsFit, entry_in};
ghost use Rattle.sbpl_incumbent.specs.Steps.{IsLoaded, joined, learnt, none_got, note_of, published_with};

use crate::rule::{
    Cell, CellPass, Learnt, Loaded, Moved, NoteMade, Published, ReaderJoined, ReaderMade, Settled,
};
use crate::slip::Slip;
use std::sync::Wait;

/// Puts the next entry into the cell.
pub(crate) fn put_entry<R: Wait>(rt: &R, cell: &Cell, publisher: &mut CellPass, slip: Slip)
    requires cell { publisher.old.table_id ≡ cell.now.table.shared.table_id }
    requires publisher { cell_view publisher.old ≡ as_publisher (cell_view publisher.old) }
    requires number { slip.number ≡ length (published_of (cell_view publisher.old)) + 1 }
    requires fit { IsFit (entry_in slip) }
    ensures cell { publisher.new.table_id ≡ publisher.old.table_id }
    ensures published { cell_view publisher.new ≡ published_with (cell_view publisher.old) (entry_in slip) }
{
    cell.swap_as::<Published, R>(rt, publisher, slip);
}

/// Loads the cell for a reader.
pub(crate) fn load_entry<R: Wait>(rt: &R, cell: &Cell, reader: &mut CellPass) -> Slip
    requires cell { reader.old.table_id ≡ cell.now.table.shared.table_id }
    requires reader { cell_view reader.old ≡ as_reader (cell_view reader.old) }
    ensures cell { reader.new.table_id ≡ reader.old.table_id }
    ensures loaded { IsLoaded (cell_view reader.old) (entry_in result) (cell_view reader.new) }
{
    cell.load_as::<Loaded, R>(rt, reader)
}

/// Splits a new reader's pass off the publisher's.
pub(crate) fn split_reader(cell: &Cell, publisher: &mut CellPass) -> CellPass
    requires cell { publisher.old.table_id ≡ cell.now.table.shared.table_id }
    requires publisher { cell_view publisher.old ≡ as_publisher (cell_view publisher.old) }
    ensures cell { publisher.new.table_id ≡ publisher.old.table_id }
    ensures publisher { cell_view publisher.new ≡ cell_view publisher.old }
    ensures reader_cell { result.table_id ≡ publisher.old.table_id }
    ensures slots { result.me.1 ≡ [] }
    ensures reader { cell_view result ≡ none_got }
{
    cell.split_pass::<ReaderMade>(publisher)
}

/// Splits a note off the publisher's pass.
pub(crate) fn split_note(cell: &Cell, publisher: &mut CellPass) -> CellPass
    requires cell { publisher.old.table_id ≡ cell.now.table.shared.table_id }
    requires publisher { cell_view publisher.old ≡ as_publisher (cell_view publisher.old) }
    ensures cell { publisher.new.table_id ≡ publisher.old.table_id }
    ensures publisher { cell_view publisher.new ≡ cell_view publisher.old }
    ensures note_cell { result.table_id ≡ publisher.old.table_id }
    ensures slots { result.me.1 ≡ [] }
    ensures note { cell_view result ≡ note_of (cell_view publisher.old) }
{
    cell.split_pass::<NoteMade>(publisher)
}

/// Joins a note into a reader's pass.
pub(crate) fn join_note(cell: &Cell, reader: &mut CellPass, note: CellPass)
    requires cell { reader.old.table_id ≡ cell.now.table.shared.table_id }
    requires note_cell { note.table_id ≡ cell.now.table.shared.table_id }
    requires slots { note.me.1 ≡ [] }
    requires reader { cell_view reader.old ≡ as_reader (cell_view reader.old) }
    requires note { cell_view note ≡ as_note (cell_view note) }
    ensures cell { reader.new.table_id ≡ reader.old.table_id }
    ensures reader { cell_view reader.new ≡ learnt (cell_view reader.old) (cell_view note) }
{
    cell.join_pass::<Learnt>(reader, note);
}

/// Moves what a reader's pass knows to a new pass, which can be joined.
pub(crate) fn move_reader(cell: &Cell, reader: &mut CellPass) -> CellPass
    requires cell { reader.old.table_id ≡ cell.now.table.shared.table_id }
    requires reader { cell_view reader.old ≡ as_reader (cell_view reader.old) }
    ensures cell { result.table_id ≡ reader.old.table_id }
    ensures slots { result.me.1 ≡ [] }
    ensures reader { cell_view result ≡ cell_view reader.old }
{
    cell.split_pass::<Moved>(reader)
}

/// Joins a reader's pass into the publisher's.
pub(crate) fn join_reader(cell: &Cell, publisher: &mut CellPass, reader: CellPass)
    requires cell { publisher.old.table_id ≡ cell.now.table.shared.table_id }
    requires reader_cell { reader.table_id ≡ cell.now.table.shared.table_id }
    requires slots { reader.me.1 ≡ [] }
    requires publisher { cell_view publisher.old ≡ as_publisher (cell_view publisher.old) }
    requires reader { cell_view reader ≡ as_reader (cell_view reader) }
    ensures cell { publisher.new.table_id ≡ publisher.old.table_id }
    ensures publisher { cell_view publisher.new ≡ joined (cell_view publisher.old) (cell_view reader) }
{
    cell.join_pass::<ReaderJoined>(publisher, reader);
}

/// Shows that what the joined reader got was published, in order. Then none is joined.
pub(crate) fn settle_reader<R: Wait>(rt: &R, cell: &Cell, publisher: &mut CellPass)
    requires cell { publisher.old.table_id ≡ cell.now.table.shared.table_id }
    requires joined { cell_view publisher.old ≡ with_joined (cell_view publisher.old) }
    ensures cell { publisher.new.table_id ≡ publisher.old.table_id }
    ensures history { IsHistory (published_of (cell_view publisher.old)) (joined_of (cell_view publisher.old)) }
    ensures publisher { cell_view publisher.new ≡ as_publisher (cell_view publisher.old) }
{
    cell.load_as::<Settled, R>(rt, publisher);
}
