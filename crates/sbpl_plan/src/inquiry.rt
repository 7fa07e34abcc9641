//! What a plan is made on, and what it is asked for.

use crate::ask::Ask;

/// What stays the same over a plan: the graph, the guide and what is asked. The goal is that of the search.
#[derive(Drop)]
pub struct Inquiry<'a, G, H> {
    pub graph: &'a G,
    pub guide: &'a H,
    pub ask: &'a Ask,
}
