//! The generator of the command `demo`: an environment, primitives and changes from a seed.
#![tactic(auto)]

mod changes;
mod draws;
mod environment;
mod files;
mod primitives;
mod put;

pub use files::{Bytes, Demo, generate};
