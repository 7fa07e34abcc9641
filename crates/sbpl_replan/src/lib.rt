//! Plans while a map changes: one at first, and one after each batch of changes.
#![tactic(auto)]

mod change;
mod session;

pub use sbpl_adstar::{AdStar, Ara};
pub use sbpl_back::{Back, FromStart, Reversed, paths_turn_round, turned_round};
pub use sbpl_heur::{
    Best, Env, Grid, Lattice, Map, Pose, Sweeps, Write, are_on_map, place_at, read_prims,
};
pub use sbpl_plan::{Ask, FoundPath, Graph, Meter, NoMemory, Nobody, PlanResult, Time, Timer};
pub use session::{LatticeSession, Session};
