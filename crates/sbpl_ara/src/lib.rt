//! Anytime Repairing A* over any graph: serial passes with falling inflation.
#![tactic(auto)]

ghost use Rattle.sbpl_serial.specs.sbpl_search.Meaning.{MeanAlike};
ghost use Rattle.sbpl_ara.specs.Planner.{ara};

pub use sbpl_serial::{
    Anew, Budget, Closed, Graph, Guide, Key, Labels, NoMemory, Open, Parts, PassEnd, Repair,
    Search, Serial, Step, Steps, change_labels, raising_goes_arc_by_arc,
};

/// A search by Anytime Repairing A* (Likhachev, Gordon and Thrun 2003): a serial search whose labels are never underconsistent,
/// and initial again after a change of the graph. All its memory is taken when it is opened.
pub type Ara = Serial<Anew>;

/// As a planner `Ara` means what `ara` says, on any graph and with any guide. This does nothing when it runs.
pub fn means_ara<G: Graph, H: Guide>()
    ensures means { MeanAlike ⟦<Ara as Search<G, H>>⟧.meaning ara }
{}
