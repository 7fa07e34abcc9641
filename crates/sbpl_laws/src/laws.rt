//! That the definitions leave nothing open of the readings of files, nor of the records of plans by planners whose
//! passes are determined; and that no write is empty.

ghost use Rattle.sbpl_promises.specs.Clear.{SectionsAreClear, TextsAreClear};
ghost use Rattle.sbpl_promises.specs.Determined.{AreAlikeWorlds, FewAreFirst, RecordsAreOne};
ghost use Rattle.std.specs.Prelude.{◌≡◌};
ghost use Rattle.sbpl_promises.specs.GridSite.{grid_site};
ghost use Rattle.sbpl_promises.specs.LatticeSite.{lattice_site};
ghost use Rattle.sbpl_promises.specs.RunPromises.{RunsKeepPromises};
ghost use Rattle.sbpl_promises.specs.WriteTexts.{WritesAreCounted, WritesHaveTexts};

use sbpl_promises::{
    AdStar, Ara, Best, Lattice, alike_worlds_are_one_graph, causes_stand, cut_rows_are_one,
    first_flaws_are_one, paths_turn_round, plan_is_determined, run_is_determined,
    texts_are_changes_or_faulty, texts_are_environments_or_faulty, texts_are_grids_or_faulty,
    texts_are_moves_or_faulty, texts_are_primitives_or_faulty, texts_are_sections_or_faulty,
    writes_lead_to_the_next_map,
};

/// No text of a file has two readings: it stands for one value or has one first fault, and never both; and
/// a section of labels has one first flaw. It does nothing.
pub fn texts_are_clear()
    ensures files { TextsAreClear }
    ensures sections { SectionsAreClear }
{
    texts_are_environments_or_faulty();
    texts_are_primitives_or_faulty();
    texts_are_grids_or_faulty();
    texts_are_changes_or_faulty();
    texts_are_moves_or_faulty();
    texts_are_sections_or_faulty();
    first_flaws_are_one();
}

/// The records of all plans by a planner whose passes are determined are determined too: by the environment, the primitives,
/// the map, the radius and the batches of changes, and by what is asked; on a grid by its environment, its map and the
/// batches. So are each pass with its expansions, each result with its path, cost and bound, what was spent, and the final
/// labels. Records of the first few plans are the first of them. It does nothing.
pub fn records_are_determined()
    ensures law { RecordsAreOne lattice_site AreAlikeWorlds }
    ensures few { FewAreFirst lattice_site AreAlikeWorlds }
    ensures grids { RecordsAreOne grid_site (λ w v. w ≡ v) }
    ensures few_on_grids { FewAreFirst grid_site (λ w v. w ≡ v) }
{
    run_is_determined();
    plan_is_determined::<Lattice, Best, Ara>();
    plan_is_determined::<Lattice, Best, AdStar>();
    cut_rows_are_one();
    writes_lead_to_the_next_map();
    alike_worlds_are_one_graph();
    paths_turn_round();
}

/// No write of what a job means to do is empty. The writes of all plans are, for each plan, one to the report and one each to the
/// files of labels and of traces that are named, and then the last one. It does nothing.
pub fn writes_have_texts()
    ensures none_empty { WritesHaveTexts }
    ensures count { WritesAreCounted }
{}

/// However a run ends, it keeps every promise: its status, what was written and what was published come of the job that the
/// words name and of the files. It does nothing.
pub fn runs_keep_promises()
    ensures law { RunsKeepPromises }
{
    causes_stand();
    texts_are_clear();
    writes_lead_to_the_next_map();
    alike_worlds_are_one_graph();
    records_are_determined();
}
