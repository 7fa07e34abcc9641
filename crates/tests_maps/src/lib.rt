//! Worked examples of the crates that sweep, change and plan on maps, and of passes by several workers, as tests and
//! nothing else. They stand here, in one crate, since a crate with tests is proved twice, and each check of a crate reads
//! all that it stands on.
#![tactic(auto)]

#[cfg(test)]
mod change;
#[cfg(test)]
mod claims;
#[cfg(test)]
mod demo;
#[cfg(test)]
mod hall;
#[cfg(test)]
mod held;
#[cfg(test)]
mod heur;
#[cfg(test)]
mod judged;
#[cfg(test)]
mod lattice;
#[cfg(test)]
mod lattices;
#[cfg(test)]
mod lines;
#[cfg(test)]
mod map;
#[cfg(test)]
mod passes;
#[cfg(test)]
mod rows;
#[cfg(test)]
mod seats;
#[cfg(test)]
mod sweep;
#[cfg(test)]
mod texts;
#[cfg(test)]
mod watched;
