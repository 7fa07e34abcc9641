//! What holds of every reversed graph.

ghost use Rattle.sbpl_back.specs.Reversed.{ArcsTurnBack, ArcsTurnRound, PathsTurnBack, PathsTurnOnce, PathsTurnRound};
ghost use Rattle.sbpl_back.specs.Reversed.{ReversedKeepsLaws};

/// A graph's paths are those of its reversed graph, read backwards: where a free path of the reversed graph leads from `t`
/// to `s`, a free path of the graph with the same cost leads from `s` to `t`, along the same arcs turned round; and the
/// other way round. A path is turned round in one way. And a reversed graph keeps the laws of graphs. It does nothing.
pub fn paths_turn_round()
    ensures forwards { PathsTurnRound }
    ensures backwards { PathsTurnBack }
    ensures once { PathsTurnOnce }
    ensures laws { ReversedKeepsLaws }
{}

/// A graph's arcs are those of its reversed graph, read backwards: free where they are, at the same cost. It does nothing.
pub fn arcs_turn_round()
    ensures forwards { ArcsTurnRound }
    ensures backwards { ArcsTurnBack }
{}
