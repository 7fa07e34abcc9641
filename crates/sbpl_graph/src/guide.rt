//! Guides to a goal.

ghost use Rattle.std.specs.Prelude.{◌≡◌, ℕ, ◌^◌, ◌<◌};
ghost use Rattle.sbpl_graph.specs.Network.{Network};
ghost use Rattle.sbpl_graph.specs.Laws.{IsConsistent};

/// A heuristic: a lower bound on the cost from each state to a goal, built for one graph and one goal.
pub trait Guide {
    ghost distance: { Self → ℕ → ℕ };

    /// The guide may be asked about this state.
    ghost knows: { Self → ℕ → Type 0 };

    /// The guide was built for this graph and this goal.
    ghost guides: { Self → Network → ℕ → Type 0 };

    /// The lower bound at `s`, below 2^55. It takes no memory.
    fn to_goal(&self, s: u32) -> u64
        requires state { knows self.now s }
        ensures value { result ≡ distance self.now s }
        ensures small { result < 2 ^ 55 };

    ghost consistent: { (guide : Self) (n : Network) (goal : ℕ) → guides guide n goal
        → IsConsistent n goal (distance guide) };

    ghost covered: { (guide : Self) (n : Network) (goal s : ℕ) → guides guide n goal → s < n.states → knows guide s };

    ghost bounded: { (guide : Self) (n : Network) (goal s : ℕ) → guides guide n goal → s < n.states
        → distance guide s < 2 ^ 55 };
}
