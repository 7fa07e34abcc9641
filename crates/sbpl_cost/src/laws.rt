//! What holds of every lattice.

ghost use Rattle.sbpl_cost.specs.Alike.{AlikeWorldsAreOneGraph};
ghost use Rattle.sbpl_cost.specs.Gaps.{BoundsAreFloors, BoundsMayBeZero};
ghost use Rattle.sbpl_cost.specs.Lattices.{LatticeHasItsArcs, LatticeGapsRise, LatticeHasExactTails, LatticeHasGaps};
ghost use Rattle.sbpl_cost.specs.Reading.{UnreadArcsCostTheSame, MapsChangeCostsAlone, MapsChangeNoReads};
ghost use Rattle.sbpl_cost.specs.TailOrder.{LatticeTailsAreInOrder};

/// The arcs of the lattice, as a graph, are the motions that start at a state's heading, in the order of the file:
/// with their heads, their freedom and their costs. It does nothing.
pub fn lattice_has_its_arcs()
    ensures law { LatticeHasItsArcs }
{}

/// The tails of each state of the lattice are exactly its incoming arcs, each once, and its gaps are lower bounds
/// on costs. It does nothing.
pub fn lattice_has_its_tails()
    ensures tails { LatticeHasExactTails }
    ensures gaps { LatticeHasGaps }
{}

/// Along a free arc the gap from any state rises by the arc's cost at most: what `HasGaps` says of the way to a state, this says of
/// the way from one. It does nothing.
pub fn gaps_rise_along_arcs()
    ensures law { LatticeGapsRise }
{}

/// The tails of each state of the lattice stand in the order of the file: tail j is the arc by the j-th primitive that ends
/// at the state's heading, or none where that would come from off the map. It does nothing.
pub fn lattice_tails_are_in_order()
    ensures law { LatticeTailsAreInOrder }
{}

/// The bounds that gaps are made of: each is the floor of the least fraction of cost to cells, and 0 for a way that no
/// primitive goes. It does nothing.
pub fn gaps_are_floors()
    ensures floors { BoundsAreFloors }
    ensures zero { BoundsMayBeZero }
{}

/// An arc costs the same on two maps on which all cells that it reads cost the same. A map changes costs alone, and not which
/// cells an arc reads. It does nothing.
pub fn unread_arcs_cost_the_same()
    ensures costs { UnreadArcsCostTheSame }
    ensures rest { MapsChangeCostsAlone }
    ensures reads { MapsChangeNoReads }
{}

/// Two worlds with the same environment, the same primitives, the same map and the same radius (in nanometres) are one graph,
/// even where their tables of sweeps differ. It does nothing.
pub fn alike_worlds_are_one_graph()
    ensures law { AlikeWorldsAreOneGraph }
{}
