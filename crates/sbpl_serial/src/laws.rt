//! That the definitions leave nothing of a serial run open but its length, and what a change of the graph leaves exact.

ghost use Rattle.std.specs.Prelude.{true, false};
ghost use Rattle.sbpl_search.specs.Determined.{DeterminesBeginnings};
ghost use Rattle.sbpl_serial.specs.Determined.{EqualRunsAgree, GuideAtStates, RestEndsRuns, RunsGoOn, SerialIsDetermined};
ghost use Rattle.sbpl_serial.specs.Determined.{InitialLabelsAreOne};
ghost use Rattle.sbpl_serial.specs.Meant.{Begins};
ghost use Rattle.sbpl_serial.specs.Raised.{RaisingBegins, RaisingEnds, RaisingGoesOn, RaisingLowersNone};
ghost use Rattle.sbpl_serial.specs.Repaired.{ExactWhereSame};

/// A serial run is determined: of two runs of a query from the same labels the longer goes on from the
/// shorter, and two of the same length have the same steps and end with the same labels and back arcs.
/// No run is longer than one that rests. The guide matters at states alone. Initial labels are determined, and
/// so are those that the next plan begins with, initial or repaired.
pub fn run_is_determined()
    ensures longer { RunsGoOn }
    ensures as_long { EqualRunsAgree }
    ensures at_rest { RestEndsRuns }
    ensures guided { GuideAtStates }
    ensures determined { SerialIsDetermined }
    ensures initial { InitialLabelsAreOne }
    ensures anew { DeterminesBeginnings false (Begins false) }
    ensures repaired { DeterminesBeginnings true (Begins true) }
{}

/// Where labels are exact on one graph, each state but the start that has the same free arcs into it
/// on another graph, at the same costs, has on that graph what exact labels ask for. So a change needs to
/// touch only the heads of arcs whose cost or freedom it alters.
pub fn exact_where_same()
    ensures every_state { ExactWhereSame }
{}

/// Raising goes arc by arc: from exact labels it begins where v of an underconsistent state becomes infinite, it goes on as
/// each head whose back arc comes from that state is recomputed, by which no g falls, and after the last arc the state is
/// raised and the labels are exact again.
pub fn raising_goes_arc_by_arc()
    ensures begins { RaisingBegins }
    ensures goes_on { RaisingGoesOn }
    ensures lowers_none { RaisingLowersNone }
    ensures ends { RaisingEnds }
{}
