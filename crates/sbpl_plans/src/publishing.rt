//! The newest path, published as soon as it is found.

ghost use Rattle.std.specs.Prelude.{◌≡◌, IfOk};
ghost use Rattle.sbpl_worlds.specs.sbpl_promises.Published.{newest};
ghost use Rattle.sbpl_plans.specs.Boards.{IsSamePublisher, entries_of};

use crate::live_board::LiveBoard;
use sbpl_worlds::{Entry, NoMemory, Observer, told_readers_get_the_newest};
use std::sync::Wait;

impl<R: Wait> Observer for LiveBoard<'_, R> {
    ghost use Rattle.std.specs.Prelude.{◌≡◌, ◌-◌, ◌^◌, ◌++◌, ◌∷◌, [], length};
    ghost use Rattle.sbpl_worlds.specs.sbpl_incumbent.Entries.{next_entry};
    ghost use Rattle.sbpl_plans.specs.Boards.{IsSamePublisher, entries_of};

    ghost told = { λ old pass cost bound new.
        IsSamePublisher old new × (new.plan ≡ old.plan)
        × (entries_of new ≡ entries_of old ++ next_entry (entries_of old) old.plan pass cost bound ∷ []) };

    ghost room = { λ a. 2 ^ 63 - length (entries_of a) };

    fn path_found(&mut self, pass: u32, cost: u64, bound: u128) {
        self.board
            .publish(self.rt, self.publisher, self.plan, pass, cost, bound);
    }
}

impl<R> LiveBoard<'_, R> {
    /// Goes on to the plan of this number.
    pub(crate) fn begin(&mut self, plan: u32)
        ensures plan { self.new.plan ≡ plan }
        ensures same { IsSamePublisher self.old self.new }
        ensures entries { entries_of self.new ≡ entries_of self.old }
    {
        self.plan = plan;
    }
}

impl<R: Wait> LiveBoard<'_, R> {
    /// The newest entry on the board, if there is one, which a reader gets that was told of all that was published.
    pub(crate) fn newest(&mut self) -> Result<Option<Entry>, NoMemory>
        ensures newest { IfOk result (λ answer. answer ≡ newest (entries_of self.old)) }
        ensures same { IsSamePublisher self.old self.new }
        ensures published { entries_of self.new ≡ entries_of self.old }
    {
        told_readers_get_the_newest();
        let note = self.board.note(self.publisher)?;
        let mut reader = self.board.reader(self.publisher)?;
        self.board.learn(&mut reader, note);
        let answer = self.board.read(self.rt, &mut reader);
        self.board.give_back(self.rt, self.publisher, reader);
        Ok(answer)
    }
}
