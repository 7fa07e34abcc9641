//! The section of a plan, read and checked.

ghost use Rattle.std.specs.Prelude.{◌<◌, ◌≤◌, ℕ, length, IfErr, IfOk, OnOk};
ghost use Rattle.sbpl_worlds.specs.sbpl_fixed.Formats.{start_at};
ghost use Rattle.sbpl_worlds.specs.sbpl_fixed.Tokens.{tokens_from};
ghost use Rattle.sbpl_worlds.specs.sbpl_cert.Flaws.{HasNoFlaw, IsFirstFlaw};
ghost use Rattle.sbpl_worlds.specs.sbpl_cert.Sound.{IsSo, ShowsAll};
ghost use Rattle.sbpl_worlds.specs.sbpl_cert.Text.{AreTokensOf};
ghost use Rattle.sbpl_worlds.specs.sbpl_cert.Versions.{IsOf, arcs_of, claim_by, outcome_of};
ghost use Rattle.sbpl_worlds.specs.sbpl_promises.Checked.{IsReadStop, IsSectionStop, IsShownHolding, ground};

use sbpl_worlds::{
    Flaw, Graph, Guide, LabelFault, Outcome, Section, SectionStop, check, check_sparse, read_labels,
};
use std::alloc::Global;

/// Reads the section of a plan.
fn read_section(
    alloc: Global,
    text: &[u8],
    at: usize,
    plan: u32,
    states: u32,
) -> Result<(Section, usize), SectionStop>
    requires at { at ≤ length text.now }
    ensures of { IfOk result (λ x. IsOf plan states x.0) }
    ensures tokens { IfOk result (λ x. AreTokensOf (tokens_from text.now at) x.0 (tokens_from text.now x.1)) }
    ensures inside { IfOk result (λ x. x.1 ≤ length text.now) }
    ensures stop { IfErr result (IsReadStop plan states (start_at text.now at)) }
{
    match read_labels(alloc, text, at, plan, states) {
        Ok(read) => Ok(read),
        Err(LabelFault::NoMemory) => Err(SectionStop::NoMemory),
        Err(fault) => Err(SectionStop::Fault(fault)),
    }
}

/// Checks a section of either version on a graph, with a guide to the goal.
fn check_either<G: Graph, H: Guide>(
    graph: &G,
    guide: &H,
    start: u32,
    goal: u32,
    section: &Section,
) -> Result<(), Flaw>
    requires start { start < (G.network graph.now).states }
    requires goal { goal < (G.network graph.now).states }
    requires guide { H.guides guide.now (G.network graph.now) goal }
    requires of { (plan : ℕ) × IsOf plan (G.network graph.now).states section.now }
    ensures none { OnOk result (HasNoFlaw (G.network graph.now) start goal (claim_by (H.distance guide.now) section.now)) }
    ensures first { IfErr result (IsFirstFlaw (G.network graph.now) start goal (claim_by (H.distance guide.now) section.now)) }
    ensures shows { OnOk result (ShowsAll (G.network graph.now) start goal (claim_by (H.distance guide.now) section.now)) }
    ensures so { OnOk result (IsSo (G.network graph.now) start goal (arcs_of section.now) (outcome_of section.now)) }
{
    match section {
        Section::Full(set) => check(graph, start, goal, set),
        Section::Sparse(set) => check_sparse(graph, guide, start, goal, set),
    }
}

/// Reads the section of a plan and checks it on a graph, with a guide to the goal. Answers what the plan answered, and the
/// offset after the section.
pub(crate) fn check_section<G: Graph, H: Guide>(
    alloc: Global,
    graph: &G,
    guide: &H,
    start: u32,
    goal: u32,
    plan: u32,
    text: &[u8],
    at: usize,
) -> Result<(Outcome, usize), SectionStop>
    requires start { start < (G.network graph.now).states }
    requires goal { goal < (G.network graph.now).states }
    requires guide { H.guides guide.now (G.network graph.now) goal }
    requires at { at ≤ length text.now }
    ensures holds { IfOk result (λ x. IsShownHolding (ground (G.network graph.now) (H.distance guide.now)) start goal plan
        (start_at text.now at) x.0 (start_at text.now x.1)) }
    ensures inside { IfOk result (λ x. x.1 ≤ length text.now) }
    ensures stop { IfErr result (IsSectionStop (ground (G.network graph.now) (H.distance guide.now)) start goal plan
        (start_at text.now at)) }
{
    let (section, next) = read_section(alloc, text, at, plan, graph.states())?;
    match check_either(graph, guide, start, goal, &section) {
        Ok(()) => Ok((section.outcome(), next)),
        Err(flaw) => Err(SectionStop::Flaw(flaw)),
    }
}
