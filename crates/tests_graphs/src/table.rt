//! Small graphs, kept as tables, with a guide.

ghost use Rattle.std.specs.Prelude.{◌≡◌, ◌<◌};
ghost use Rattle.tests_graphs.specs.Sample.{height, sample};

use sbpl_plan::{Graph, Guide};

/// States up to the last one, which is state 5 at most. Each has two arcs, as head and cost, and a height: how far it is from
/// the goal at least. An arc whose head is no state is none, and one that costs nothing is not free.
#[derive(Clone, Copy)]
pub(crate) struct Table {
    last: u32,
    arcs: [(u32, u32); 12],
    heights: [u32; 6],
}

/// No arc.
const NONE: (u32, u32) = (9, 0);

/// A way over states 1 and 3 that costs 7, and one over 2 and 4 that costs 10 but looks better.
pub(crate) const DETOUR: Table = Table {
    last: 5,
    arcs: [
        (1, 1),
        (2, 4),
        (3, 1),
        (6, 1),
        (4, 3),
        (0, 1),
        (5, 5),
        (5, 5),
        (5, 3),
        (5, 0),
        (4, 1),
        (4, 1),
    ],
    heights: [4, 4, 2, 4, 1, 0],
};

/// Two ways to state 3 that cost the same. No arc leads to state 4.
pub(crate) const TIE: Table = Table {
    last: 5,
    arcs: [
        (2, 2),
        (1, 2),
        (3, 1),
        (5, 0),
        (3, 1),
        (6, 3),
        (5, 1),
        (5, 1),
        (6, 1),
        (6, 1),
        (6, 1),
        (0, 1),
    ],
    heights: [0; 6],
};

/// Two arcs that lead to state 1: from state 0 at cost 5, and from itself at cost 1.
pub(crate) const LOOP: Table = Table {
    last: 2,
    arcs: [
        (1, 5),
        NONE,
        (1, 1),
        NONE,
        NONE,
        NONE,
        NONE,
        NONE,
        NONE,
        NONE,
        NONE,
        NONE,
    ],
    heights: [0; 6],
};

/// Three states in a row, where the first arc costs this, and the second this; 0 is for an arc that is not free.
pub(crate) fn row(first: u32, second: u32) -> Table
    ensures three { result.last ≡ 2 }
{
    let mut arcs = [NONE; 12];
    arcs[0] = (1, first);
    arcs[2] = (2, second);
    Table {
        last: 2,
        arcs,
        heights: [0; 6],
    }
}

impl Table {
    fn height(&self, s: u32) -> u32
        requires state { s < 6 }
        ensures value { result ≡ height self.now.heights s }
    {
        self.heights[s as usize].min(1000)
    }
}

impl Graph for Table {
    ghost network = { λ table. sample table.last table.arcs table.heights };

    fn states(&self) -> u32 {
        self.last.min(5) + 1
    }

    fn fan(&self, _s: u32) -> u32 {
        2
    }

    fn head(&self, s: u32, k: u32) -> Option<u32> {
        let head = self.arcs[(2 * s + k) as usize].0;
        (head <= self.last.min(5)).then_some(head)
    }

    fn judge(&self, s: u32, k: u32) -> Option<u32> {
        let (head, cost) = self.arcs[(2 * s + k) as usize];
        if head <= self.last.min(5) && cost > 0 {
            Some(
                cost.min(1000)
                    .max(self.height(s).saturating_sub(self.height(head))),
            )
        } else {
            None
        }
    }

    fn tail_fan(&self, _t: u32) -> u32 {
        2 * (self.last.min(5) + 1)
    }

    fn tail(&self, t: u32, j: u32) -> Option<(u32, u32)> {
        (self.arcs[j as usize].0 == t).then_some((j / 2, j % 2))
    }

    fn gap(&self, _a: u32, _b: u32) -> u64 {
        0
    }
}

impl Guide for Table {
    ghost use Rattle.std.specs.Prelude.{◌≡◌, ◌<◌};
    ghost use Rattle.std.proofs.Common.{arith};
    ghost use Rattle.std.proofs.lemmas.Bool.Decides.{nat_tests};
    ghost use Rattle.tests_graphs.specs.Sample.{height, sample};

    ghost distance = { λ table s. height table.heights s };

    ghost knows = { λ _ s. s < 6 };

    ghost guides = { λ table n goal. (n ≡ sample table.last table.arcs table.heights) × (height table.heights goal ≡ 0) };

    ghost consistent = { λ table n goal fit. record { at_goal = fit.1; along = λ s k t c arc. Prim.grind (arith, nat_tests, fit.0, arc.head, arc.cost) } };

    ghost covered = { λ table n goal s fit inside. Prim.grind (arith, fit.0) };

    ghost bounded = { λ table n goal s fit inside. Prim.omega arith };

    fn to_goal(&self, s: u32) -> u64 {
        u64::from(self.height(s))
    }
}
