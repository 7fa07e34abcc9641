//! The name of a pass.

use std::marker::Brand;

/// What all values of one pass have in common. It stands in their types, and takes no memory: the graph, the guide, the inflation
/// and the goal; the counts of expansions and the labels with which the pass began; and whether its journal is kept.
pub trait Pass {
    ghost use Rattle.std.specs.Prelude.{Bool};
    ghost use Rattle.sbpl_frontier_rules.specs.sbpl_labels.Counts.{Counts};
    ghost use Rattle.sbpl_frontier_rules.specs.sbpl_labels.Marks.{Marks};
    ghost use Rattle.sbpl_frontier_rules.specs.sbpl_search.Query.{Query};

    ghost query: { Query };

    ghost counts: { Counts };

    ghost opening: { Marks };

    ghost keeps: { Bool };
}

impl Pass for Brand {
    ghost use Rattle.std.specs.Prelude.{false};
    ghost use Rattle.sbpl_frontier_core.specs.Nothing.{no_counts, no_marks, no_query};

    ghost query = { no_query };

    ghost counts = { no_counts };

    ghost opening = { no_marks };

    ghost keeps = { false };
}
