//! The passes of a plan.

ghost use Rattle.std.specs.Prelude.{◌≡◌, true, [], IfOk, if◌then◌else◌};

use crate::found::Found;
use sbpl_lists::ListOf;
use sbpl_search::{Graph, Guide, NoMemory, Search};
use std::alloc::Global;

/// What a pass did, in order.
pub type Trace<N> = ListOf<N>;

/// One pass of a plan, by a search that records such actions.
#[derive(Debug, Drop)]
pub struct PassRecord<N> {
    /// The inflation, in thousandths.
    pub inflation: u32,
    /// How many states were expanded.
    pub expanded: u64,
    /// What the walk gave after the pass.
    pub found: Found,
    /// What the pass did, where it is to be told.
    pub trace: Trace<N>,
}

/// The passes of a plan in order.
pub type Passes<N> = ListOf<PassRecord<N>>;

/// What a pass did, where it is to be told.
pub(crate) fn trace_of<G: Graph, H: Guide, S: Search<G, H>>(
    alloc: Global,
    search: &S,
    traced: bool,
) -> Result<Trace<S::Action>, NoMemory>
    requires kept { traced ≡ true → (S.state search.now).kept ≡ true }
    ensures trace { IfOk result (λ t. t ≡ (if traced then (S.state search.now).actions else [])) }
{
    let mut trace = Vec::new(alloc);
    if traced {
        trace.extend_from_slice(search.actions())?;
    }
    Ok(Trace::of(trace))
}
