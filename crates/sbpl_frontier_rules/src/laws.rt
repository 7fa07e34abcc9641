//! What every list of events keeps.

ghost use Rattle.sbpl_frontier_rules.specs.Laws.{EachArcGoesOnce, EachOpensOnce, EventsKeep, FirstIsKept, IdleIsExact, IdleShows};
ghost use Rattle.sbpl_frontier_rules.specs.Laws.{SettledAtOne, TakesComeBack, TicketsGoOnce};
ghost use Rattle.sbpl_frontier_rules.specs.Passes.{CountsAreFree, OpenedByEvents, StartStaysFresh};

/// On every graph that keeps its laws, with a guide that is consistent on it and an inflation of at least 1: a frontier that is
/// opened from exact labels none of which is underconsistent, and which fit the run's count of expansions, is kept, and every list
/// of events keeps it. So at every moment, whatever results are missing, v of each opened state is at most the inflation times
/// the cost of every free path to it. Where no arc is ready and none is out, the labels are exact, and with their low they show a
/// bound of every path from the start to the goal. With inflation 1 each opened state has v = g. Each arc that was
/// handed out is out, or its judgement came back. No ticket is taken twice or posted twice, and each judgement is that of the arc
/// that an earlier event handed out under its ticket. Each arc of a state is handed out at most once. (ePA*SE, Mukherjee,
/// Aine and Likhachev 2022; the test of independence after PA*SE, Phillips, Likhachev and Koenig 2014.)
/// This does nothing when it runs.
pub fn events_keep()
    ensures first { FirstIsKept }
    ensures each { EventsKeep }
    ensures exact { IdleIsExact }
    ensures shows { IdleShows }
    ensures settled { SettledAtOne }
    ensures once { EachOpensOnce }
    ensures free { CountsAreFree }
    ensures marked { OpenedByEvents }
    ensures start { StartStaysFresh }
    ensures back { TakesComeBack }
    ensures tickets { TicketsGoOnce }
    ensures arcs { EachArcGoesOnce }
{}
