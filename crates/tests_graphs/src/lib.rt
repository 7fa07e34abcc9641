//! Worked examples of the crates that plan on any graph, of grids with eight neighbours, of lists kept by pages, and of the board
//! on which the newest path stands, as tests and nothing else. They stand here, in one crate, since a crate with tests is proved
//! twice, and each check of a crate reads all that it stands on.
#![tactic(auto)]

#[cfg(test)]
mod adstar;
#[cfg(test)]
mod ara;
#[cfg(test)]
mod board_across;
#[cfg(test)]
mod board_alone;
#[cfg(test)]
mod cert;
#[cfg(test)]
mod grids;
#[cfg(test)]
mod labels;
#[cfg(test)]
mod late;
#[cfg(test)]
mod open;
#[cfg(test)]
mod pages;
#[cfg(test)]
mod plan;
#[cfg(test)]
mod table;
#[cfg(test)]
mod texts;
