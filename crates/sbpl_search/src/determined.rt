//! Searches whose passes are determined.

ghost use Rattle.sbpl_search.specs.Determined.{AreBeginningsDetermined, AreDetermined};

use crate::Search;
use sbpl_labels::{Graph, Guide};

/// A search whose passes are determined by the labels from which they begin, and by how many states they expand. A serial
/// search is; one with workers is not.
pub trait Determined<G: Graph, H: Guide>: Search<G, H> {
    /// Its passes are determined, and so are the labels from which its plans begin. This does nothing when it runs.
    fn is_determined()
        ensures passes { AreDetermined Self.meaning }
        ensures beginnings { AreBeginningsDetermined Self.meaning };
}
