//! Labels that are looked up by state.

ghost use Rattle.std.specs.Prelude.{◌≡◌, ◌<◌};
ghost use Rattle.sbpl_labels.specs.sbpl_graph.Certificate.{IsLabel};
ghost use Rattle.sbpl_cert.specs.Labelling.{IsLabelling, Labelling};

use crate::sparse_row::SparseRow;

/// The labels of the states of a graph, of which some are listed, upwards. All others have infinite labels.
pub(crate) trait LabelTable {
    ghost labelling: { Self → Labelling };

    /// How many states are listed.
    fn count(&self) -> u32
        ensures value { result ≡ (labelling self.now).count }
        ensures labels { IsLabelling (labelling self.now) };

    /// The listed state of this number, with its labels.
    fn row(&self, i: u32) -> SparseRow
        requires number { i < (labelling self.now).count }
        ensures state { result.state ≡ (labelling self.now).state i }
        ensures g { result.g ≡ (labelling self.now).g ((labelling self.now).state i) }
        ensures v { result.v ≡ (labelling self.now).v ((labelling self.now).state i) };

    /// g of a state.
    fn g(&self, s: u32) -> u64
        requires state { s < (labelling self.now).states }
        ensures value { result ≡ (labelling self.now).g s }
        ensures label { IsLabel result };
}
