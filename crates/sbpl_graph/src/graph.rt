//! Graphs whose states and arcs are numbers.

ghost use Rattle.std.specs.Prelude.{◌≡◌, ℕ, ◌^◌, ◌<◌, ◌≤◌, IfSome, IsSome, Some};
ghost use Rattle.sbpl_graph.specs.Network.{Network};
ghost use Rattle.sbpl_graph.specs.Laws.{IsSound, HasExactTails, HasGaps};

/// A directed graph with costs. States are numbers below `states`, and the arcs of a state are
/// numbers below its fan, its out-degree. An arc has a head, unless it leads off the map, and a cost where it is
/// free. The tails of a state are its incoming arcs. No call takes memory, and the calls
/// give the same answers as long as the graph is not changed.
pub trait Graph {
    ghost network: { Self → Network };

    /// The number of states, 1 to 2^28.
    fn states(&self) -> u32
        ensures value { result ≡ (network self.now).states }
        ensures sound { IsSound (network self.now) }
        ensures tails { HasExactTails (network self.now) }
        ensures gaps { HasGaps (network self.now) };

    /// The number of arcs of `s`, at most 4096.
    fn fan(&self, s: u32) -> u32
        requires state { s < (network self.now).states }
        ensures value { result ≡ (network self.now).fan s }
        ensures few { result ≤ 4096 };

    /// The state that arc `k` of `s` leads to, or `None` where it leads to none.
    fn head(&self, s: u32, k: u32) -> Option<u32>
        requires state { s < (network self.now).states }
        requires number { k < (network self.now).fan s }
        ensures value { result ≡ (network self.now).head s k }
        ensures inside { IfSome result (λ t. t < (network self.now).states) };

    /// The cost of arc `k` of `s`, at least 1, or `None` exactly where the arc is not free. A free
    /// arc has a head.
    fn judge(&self, s: u32, k: u32) -> Option<u32>
        requires state { s < (network self.now).states }
        requires number { k < (network self.now).fan s }
        ensures value { result ≡ (network self.now).cost s k }
        ensures positive { IfSome result (λ c. 1 ≤ c) }
        ensures small { IfSome result (λ c. c < 2 ^ 32) }
        ensures headed { IfSome result (λ _. IsSome ((network self.now).head s k)) };

    /// A floor on the cost of arc `k` of `s`, at least 1: where the arc is free it costs no less. A search asks for it to
    /// leave out the judgement of an arc that cannot help, so it has to be quick. It is 1 where a graph knows no better.
    fn floor(&self, s: u32, k: u32) -> u32
        requires state { s < (network self.now).states }
        requires number { k < (network self.now).fan s }
        ensures positive { 1 ≤ result }
        ensures floor { (c : ℕ) → (network self.now).cost s k ≡ Some c → result ≤ c }
    {
        let _states = self.states();
        1
    }

    /// The number of tails of `t`, its in-degree, at most 4096: with `tail` they are exactly the arcs whose head is
    /// `t`, each once.
    fn tail_fan(&self, t: u32) -> u32
        requires state { t < (network self.now).states }
        ensures value { result ≡ (network self.now).tail_fan t }
        ensures few { result ≤ 4096 };

    /// Tail `j` of `t`, as its source and the arc's number there, or `None` where it comes
    /// from no state.
    fn tail(&self, t: u32, j: u32) -> Option<(u32, u32)>
        requires state { t < (network self.now).states }
        requires number { j < (network self.now).tail_fan t }
        ensures value { result ≡ (network self.now).tail t j }
        ensures inside { IfSome result (λ a. (a.0 < (network self.now).states) × (a.1 < (network self.now).fan a.0)) };

    /// A lower bound on the cost of each way from `a` to `b`, below 2^55.
    fn gap(&self, a: u32, b: u32) -> u64
        requires from { a < (network self.now).states }
        requires to { b < (network self.now).states }
        ensures value { result ≡ (network self.now).gap a b }
        ensures small { result < 2 ^ 55 };
}
