//! The line of a refusal.

ghost use Rattle.std.specs.Prelude.{◌≡◌, IfOk};
ghost use Rattle.sbpl_live.specs.Refused.{refused_text};

use sbpl_map::Piece::{Bytes, Number};
use sbpl_map::{LineFault, ListOf, Message, NoMemory, push_line};
use std::alloc::Global;

/// The line that tells of a refused line of the input with this number, from 1, and of its fault.
pub fn refused_line(alloc: Global, number: u64, fault: LineFault) -> Result<Message, NoMemory>
    ensures text { IfOk result (λ m. m ≡ refused_text number fault) }
{
    let mut out = Vec::new(alloc);
    let line = [
        Bytes(b"refused"),
        Bytes(b"line"),
        Number(number),
        Bytes(fault.name().as_bytes()),
    ];
    push_line(&mut out, &line)?;
    Ok(ListOf::of(out))
}
