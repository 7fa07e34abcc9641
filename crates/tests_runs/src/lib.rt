//! Worked examples, as tests and nothing else: numbers, cells and headings, a desk in memory, and what `run` answers and
//! writes where workers are several, or a gate reads the newest path. They stand here, in one crate, since a crate with
//! tests is proved twice and reads its libraries each time. All other worked examples of files, words and runs are lines of
//! the session of `temjoask_runs`, which cost no proof.
#![tactic(auto)]

#[cfg(test)]
mod cells;
#[cfg(test)]
mod desk;
#[cfg(test)]
mod fixed;
#[cfg(test)]
mod newest;
#[cfg(test)]
mod parallel;
#[cfg(test)]
mod runs;
