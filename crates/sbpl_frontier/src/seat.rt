//! Seats.

ghost use Rattle.std.specs.Prelude.{◌≡◌, ◌<◌, [], All, IfOk, OnOk, sum_by, vec_len};
ghost use Rattle.sbpl_postings.specs.Steps.{nothing_came};
ghost use Rattle.sbpl_frontier.specs.Tally.{fresh_seats};

use crate::Second;
use crate::ledgers::TakesOf;
use sbpl_postings::{Drain, Lined, NoMemory, Pass, Queue, Sender};
use std::alloc::Global;
use std::marker::Model;
use std::sync::ledger::Share;

/// A worker's place at a frontier: its number, its share in the ledger of takes, and its right to put judgements into the line.
/// Contracts see it as its number, how many arcs it took, and which judgements it posted; share and right take no memory.
#[derive(Drop)]
pub struct Seat<N: Pass, M: Second, L: Lined> {
    pub(crate) number: u32,
    pub(crate) takes: Share<TakesOf<M>>,
    pub(crate) sender: Sender<N, M, L>,
}

impl<N: Pass, M: Second, L: Lined> Model for Seat<N, M, L> {
    ghost use Rattle.std.specs.Prelude.{◌≡◌, ◌<◌};
    ghost use Rattle.sbpl_frontier.specs.Tally.{Tally};

    ghost Value = { Tally };

    ghost view = { λ a. record { number = a.number; takes = a.takes.amount; posts = a.sender.posts } };

    ghost invariant = { λ a. (a.takes.parts ≡ 1) × (a.sender.seat ≡ a.number) × (a.number < M.parts) };
}

impl<N: Pass, M: Second, L: Lined> Seat<N, M, L> {
    /// The seat's number.
    pub fn number(&self) -> u32
        ensures value { result ≡ self.now.number }
    {
        self.number
    }
}

/// Seats with the numbers from 0 upwards, each with one part of the ledger, which nothing was added to, and a sender, which put
/// nothing in.
pub(crate) fn deal<N: Pass, M: Second, L: Lined>(
    alloc: Global,
    seats: u32,
    takes: Share<TakesOf<M>>,
    queue: &Queue<N, M, L>,
    drain: &mut Drain<N, M, L>,
) -> Result<Vec<Seat<N, M, L>>, NoMemory>
    requires parts { M.parts ≡ seats }
    requires takes { (takes.parts ≡ seats) × (takes.amount ≡ 0) }
    requires drain { drain.old ≡ nothing_came }
    ensures all { IfOk result (λ places. vec_len places ≡ seats) }
    ensures fresh { IfOk result (λ places. places.items ≡ fresh_seats seats) }
    ensures none { IfOk result (λ places. All (λ s. (s.takes ≡ 0) × (s.posts ≡ [])) places.items) }
    ensures came { OnOk result (drain.new.came ≡ []) }
{
    let mut places = Vec::new(alloc);
    let mut takes = takes;
    for number in 0..seats {
        places.push(Seat {
            number,
            takes: takes.split_off(1, 0),
            sender: drain.sender(queue),
        })?;
    }
    Ok(places)
}
