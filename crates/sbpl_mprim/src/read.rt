//! A primitive file is read.

ghost use Rattle.std.specs.Prelude.{◌≡◌, ◌≢◌, Ok, Err, IfOk, IfErr, OnOk};
ghost use Rattle.sbpl_fixed.specs.Formats.{Answers, reads_text};
ghost use Rattle.sbpl_mprim.specs.declared.fault.PrimFault.{PrimFault as AFault};
ghost use Rattle.sbpl_mprim.specs.declared.fault.PrimFault.TheVariants.{NoMemory as Memory};
ghost use Rattle.sbpl_mprim.specs.Faults.{told};
ghost use Rattle.sbpl_mprim.specs.Primitives.{Primitives};
ghost use Rattle.sbpl_mprim.specs.Reading.{prims_format};
ghost use Rattle.sbpl_mprim.specs.Text.{AreSizes, HasFault, IsTextOf};

use crate::fault::PrimFault;
use crate::prim::Prim;
use crate::prims::Prims;
use crate::reading::read_all;
use sbpl_fixed::Reader;
use std::alloc::Global;

/// Reads the primitives of a text.
#[tactic(auto, using(sbpl_fixed::proofs::Meaning::answering))]
fn read_items(alloc: Global, text: &[u8], cell: i64, headings: u32) -> Result<Vec<Prim>, PrimFault>
    ensures sizes { OnOk result (AreSizes cell headings) }
    ensures exact { Answers Memory (λ x. x.items) result (reads_text told (prims_format cell headings) text.now) }
{
    read_all(alloc, cell, headings, &mut Reader::new(text))
}

fn read_file(alloc: Global, text: &[u8], cell: i64, headings: u32) -> Result<Prims, PrimFault>
    ensures given { IfOk result (λ ps. (ps.cell ≡ cell) × (ps.headings ≡ headings)) }
    ensures sizes { OnOk result (AreSizes cell headings) }
    ensures exact { Answers Memory (λ ps. ps.items) result (reads_text told (prims_format cell headings) text.now) }
{
    let items = read_items(alloc, text, cell, headings)?;
    Ok(Prims::of(cell, headings, items))
}

/// Reads a primitive file of SBPL's form, for a cell size in nanometres and a number of headings. Where the format has no
/// such cell size or no such number of headings, no text stands for primitives. Any blanks separate its tokens. `Ok`
/// has the primitives that the text stands for, in file order. Any other text has exactly one first fault in reading
/// order, which is answered with its offset. `NoMemory` says nothing of the text.
pub fn read_prims(alloc: Global, text: &[u8], cell: i64, headings: u32) -> Result<Prims, PrimFault>
    // They are for the cell size and the headings that were passed.
    ensures given { IfOk result (λ ps. (ps.cell ≡ cell) × (ps.headings ≡ headings)) }
    // The text stands for what is read, token by token.
    ensures found { IfOk result (λ ps. IsTextOf text.now ps) }
    // What the text stands for is read, unless memory runs out.
    ensures only { (ps : Primitives) → ps.cell ≡ cell → ps.headings ≡ headings → IsTextOf text.now ps
        → Answers Memory (λ x. x) result (Ok ps) }
    // The fault is the first one, where it stands.
    ensures faulty { IfErr result (λ e. e ≢ Memory → HasFault cell headings text.now e) }
    // A first fault is answered, unless memory runs out.
    ensures only_faulty { (e : AFault) → HasFault cell headings text.now e → Answers Memory (λ x. x) result (Err e) }
    // All of this at once: the answer is what reading by the format gives.
    ensures exact { Answers Memory (λ ps. ps.items) result (reads_text told (prims_format cell headings) text.now) }
{
    read_file(alloc, text, cell, headings)
}
