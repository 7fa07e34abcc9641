//! Anytime D*: a search whose labels are repaired after changes of the graph.
#![tactic(auto)]

ghost use Rattle.sbpl_ara.specs.sbpl_search.Meaning.{MeanAlike};
ghost use Rattle.sbpl_adstar.specs.Planner.{adstar};

mod raiser;

pub use raiser::Raiser;
pub use sbpl_ara::{
    Ara, Budget, Graph, Guide, Key, Labels, NoMemory, Open, PassEnd, Search, Step, change_labels,
    means_ara,
};
use sbpl_ara::{Repair, Serial};

/// A search by Anytime D* (Likhachev, Ferguson, Gordon, Stentz and Thrun 2005): a serial search whose labels are repaired after a
/// change of the graph, and not made initial again. All its memory is taken when it is opened.
pub type AdStar = Serial<Repair>;

/// As a planner `AdStar` means what `adstar` says, on any graph and with any guide. This does nothing when it runs.
pub fn means_adstar<G: Graph, H: Guide>()
    ensures means { MeanAlike ⟦<AdStar as Search<G, H>>⟧.meaning adstar }
{}
