//! What labels on a graph prove, whatever search they came from.

ghost use Rattle.sbpl_graph.specs.Certificate.{BoundHolds, NoneHolds};

/// Where labels show their bound, every free path from the start to the goal costs at least that. For the proof take
/// the first state on the path whose v differs from its g, or the goal.
pub fn bound_holds()
    ensures every_path { BoundHolds }
{}

/// Where labels show that there is no path, no free path leads from the start to the goal.
pub fn none_holds()
    ensures no_path { NoneHolds }
{}
