//! What holds of every grid.

ghost use Rattle.sbpl_nav2d.specs.Gap.{GapsArePlain};
ghost use Rattle.sbpl_nav2d.specs.Grids.{WorldsAreGrids, GridsHaveExactTails, GridsHaveGaps};

/// The arcs and the tails of the grid, as a graph, are the steps in the eight directions: with their heads, their
/// freedom and their costs. Its gaps are octile distances. It does nothing.
pub fn worlds_are_grids()
    ensures law { WorldsAreGrids }
{}

/// The tails of each state of the grid are exactly its incoming arcs, each once, and its gaps are lower bounds on
/// costs. It does nothing.
pub fn grids_have_their_tails()
    ensures tails { GridsHaveExactTails }
    ensures gaps { GridsHaveGaps }
{}

/// The octile distance is 1000 times the greater of the differences of x and of y and 414 times the lesser. It does
/// nothing.
pub fn gaps_in_plain_words()
    ensures law { GapsArePlain }
{}
