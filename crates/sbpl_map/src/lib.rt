//! The map of cell costs, and what change files say: the lists of changes to it, and where a robot is.
#![tactic(auto)]

mod after;
mod changes;
mod fault;
mod judging;
mod line;
mod line_fault;
mod map;
mod message;
mod moves;
mod off_map;
mod read;
mod said;
mod text;
mod write;

pub use after::writes_lead_to_the_next_map;
pub use changes::Changes;
pub use fault::ChangeFault;
pub use judging::{lacks_form, read_three};
pub use line::first_field;
pub use line_fault::LineFault;
pub use map::Map;
pub use message::changes_message;
pub use moves::Moves;
pub use off_map::OffMap;
pub use read::{read_changes, read_moves};
pub use sbpl_cfg::{
    COST_WANTED, Env, EnvFault, Grid, HEIGHT_WANTED, ListOf, Message, NoMemory, NumFault,
    OBSTACLE_WANTED, Piece, Place, Row, START_WANTED, WIDTH_WANTED, count_before, message_at,
    push_line, read_env, read_nano, read_whole, wanted_at, with_limit,
};
pub use text::{texts_are_changes_or_faulty, texts_are_moves_or_faulty};
pub use write::Write;
