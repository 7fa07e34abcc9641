//! Environment files: the map, the robot's numbers, the start and the goal.
#![tactic(auto)]

mod env;
mod fault;
mod message;
mod parts;
mod place;
mod pose;
mod print;
mod read;
mod text;

pub use env::{Env, Grid};
pub use fault::EnvFault;
pub use message::{
    COST_WANTED, HEIGHT_WANTED, OBSTACLE_WANTED, START_WANTED, WIDTH_WANTED, count_before,
    environment_message, metres, on_map_text, with_limit,
};
pub use place::{TAU, cell_at, heading_at, place_at, places_in_plain_words};
pub use pose::{Place, Pose};
pub use print::print_env;
pub use read::read_env;
pub use sbpl_fixed::{NoMemory, NumFault, next_token, print_milli, read_nano, read_whole};
pub use sbpl_lists::{
    Before, Bits, ListOf, Message, Piece, Row, Runs, Word, is_named, message_at, message_on_line,
    plain_message, push_all, push_line, push_lines, value_before, wanted_after, wanted_at,
    word_before,
};
pub use text::texts_are_environments_or_faulty;
