//! The lines that list what a primitive costs and which cells it sweeps.

ghost use Rattle.std.specs.Prelude.{◌≡◌, ◌<◌, ◌++◌, OnOk, IfOk, length};
ghost use Rattle.sbpl_report.specs.Listing.{cell_text, cells_text, end_text, listing_at, listing_text, prim_text};

use sbpl_cost::{Cell, Lattice, Prim};
use sbpl_job::NoMemory;
use sbpl_plan::Piece::{Bytes, Number, Signed};
use sbpl_plan::push_all;
use std::alloc::Global;

/// Appends the line of a cell.
#[tactic(auto, unfolding(crate::specs::Listing::cell_text, crate::specs::Listing::offset_text))]
fn push_cell(out: &mut Vec<u8>, word: &[u8], cell: Cell) -> Result<(), NoMemory>
    ensures appended { OnOk result (out.new.items ≡ out.old.items ++ cell_text word.now cell) }
{
    push_all(
        out,
        &[
            Bytes(word),
            Bytes(b" "),
            Signed(cell.x),
            Bytes(b" "),
            Signed(cell.y),
            Bytes(b"\n"),
        ],
    )
}

/// Appends the lines of cells.
fn push_cells(out: &mut Vec<u8>, word: &[u8], cells: &[Cell]) -> Result<(), NoMemory>
    ensures appended { OnOk result (out.new.items ≡ out.old.items ++ cells_text word.now cells.now) }
{
    for cell in cells {
        push_cell(out, word, *cell)?;
    }
    Ok(())
}

/// Appends where a primitive leads.
#[tactic(auto, unfolding(crate::specs::Listing::end_text, crate::specs::Listing::offset_text))]
fn push_end(out: &mut Vec<u8>, prim: &Prim) -> Result<(), NoMemory>
    ensures appended { OnOk result (out.new.items ≡ out.old.items ++ end_text prim.now) }
{
    push_all(
        out,
        &[
            Signed(i64::from(prim.dx)),
            Bytes(b" "),
            Signed(i64::from(prim.dy)),
            Bytes(b" "),
            Number(u64::from(prim.to)),
        ],
    )
}

/// Appends the line of a primitive.
#[tactic(auto, unfolding(crate::specs::Listing::prim_text))]
fn push_prim(out: &mut Vec<u8>, prim: &Prim, cost: u32) -> Result<(), NoMemory>
    ensures appended { OnOk result (out.new.items ≡ out.old.items ++ prim_text prim.now cost) }
{
    push_all(
        out,
        &[
            Bytes(b"prim "),
            Number(u64::from(prim.from)),
            Bytes(b" "),
            Number(u64::from(prim.id)),
            Bytes(b" to "),
        ],
    )?;
    push_end(out, prim)?;
    push_all(
        out,
        &[Bytes(b" cost "), Number(u64::from(cost)), Bytes(b"\n")],
    )
}

/// The lines of a primitive of this cost, with these centre cells and swept cells.
#[tactic(auto, unfolding(crate::specs::Listing::listing_text))]
fn listing_of(
    alloc: Global,
    prim: &Prim,
    cost: u32,
    centres: &[Cell],
    swept: &[Cell],
) -> Result<Vec<u8>, NoMemory>
    ensures text { IfOk result (λ text. text.items ≡ listing_text prim.now cost centres.now swept.now) }
{
    let mut text = Vec::new(alloc);
    push_prim(&mut text, prim, cost)?;
    push_cells(&mut text, b"centre", centres)?;
    push_cells(&mut text, b"swept", swept)?;
    Ok(text)
}

/// The lines of the primitive at place `i` of the file.
pub fn listing_at(alloc: Global, lattice: &Lattice, i: u32) -> Result<Vec<u8>, NoMemory>
    requires place { i < length lattice.now.prims.items }
    ensures text { IfOk result (λ text. text.items ≡ listing_at lattice.now i) }
{
    let prim = lattice.prims().get(i);
    let sweeps = lattice.sweeps();
    listing_of(
        alloc,
        prim,
        lattice.cost_of(i),
        sweeps.centre(i),
        sweeps.swept(i),
    )
}
