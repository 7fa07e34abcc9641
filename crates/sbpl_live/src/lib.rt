//! The lines of a session: what each says, which fault it has, and how a refusal is told.
#![tactic(auto)]

mod law;
mod read;
mod refused;
mod setting;
mod spoken;
mod wanting;

pub use law::lines_say_or_are_faulty;
pub use read::read_line;
pub use refused::refused_line;
pub use sbpl_job::{Planner, SearchJob};
pub use sbpl_map::{LineFault, Map, Message, NoMemory, Place, Write};
pub use spoken::{Spoken, Wants};
pub use wanting::wanted;
