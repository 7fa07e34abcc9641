//! Limits of time for plans, and where the time is read.

ghost use Rattle.std.specs.Prelude.{◌≡◌, IsFalse};
ghost use Rattle.sbpl_labels.specs.Counts.{GoesOn};
ghost use Rattle.sbpl_labels.specs.declared.clock.Clock.TheVariants.{Never};

use crate::Time;
use std::time::{Duration, Instant};

/// Where plans get their clocks from.
#[derive(Clone, Copy)]
pub struct Timer {
    source: Source,
}

/// What tells the time.
#[derive(Clone, Copy)]
enum Source {
    Nothing,
    System(HostRuntime),
    Asks(u64),
}

impl Timer {
    /// No time is told: limits of time do not come to an end.
    pub fn off() -> Timer {
        Timer {
            source: Source::Nothing,
        }
    }

    /// The system's monotonic clock tells the time. Where it cannot be read, a plan is not late.
    pub fn of(rt: HostRuntime) -> Timer {
        Timer {
            source: Source::System(rt),
        }
    }

    /// For tests: a plan that has a limit is late from this many asks of its clock on, whatever the limit.
    pub fn after(asks: u64) -> Timer {
        Timer {
            source: Source::Asks(asks),
        }
    }

    /// The clock of a plan that begins now and has this limit, or none.
    pub(crate) fn start(self, limit: Option<Duration>) -> Clock
        ensures unlimited { limit ≡ None → result ≡ Never }
    {
        let Some(limit) = limit else {
            return Clock::Never;
        };
        match self.source {
            Source::Nothing => Clock::Never,
            Source::System(rt) => match end_of(rt, limit) {
                Some(end) => Clock::Until(rt, end),
                None => Clock::Never,
            },
            Source::Asks(asks) => Clock::After(asks),
        }
    }
}

/// When a limit that begins now comes to an end, where the clock can be read and goes as far.
fn end_of(rt: HostRuntime, limit: Duration) -> Option<Instant> {
    Instant::now(&rt).ok()?.checked_add(limit)
}

/// The clock of one plan.
#[derive(Clone, Copy)]
pub(crate) enum Clock {
    /// It is never late.
    Never,
    /// It is late from this instant of the system's clock on.
    Until(HostRuntime, Instant),
    /// It is late once it was asked so often.
    After(u64),
}

impl Clock {
    /// Asks whether the plan is late. Where the system's clock cannot be read, it is not.
    pub(crate) fn is_late(&mut self) -> bool
        ensures unlimited { self.old ≡ Never → IsFalse result }
    {
        match *self {
            Clock::Never => false,
            Clock::Until(rt, end) => match Instant::now(&rt) {
                Ok(now) => end <= now,
                Err(_) => false,
            },
            Clock::After(asks) => {
                let left = asks.saturating_sub(1);
                *self = Clock::After(left);
                left == 0
            }
        }
    }

    /// The time of a plan after its clock was asked, which it is only where the plan is in time.
    #[cold]
    pub(crate) fn time_after(&mut self, time: Time) -> Time
        ensures goes_on { GoesOn time result }
    {
        if time == Time::InTime && self.is_late() {
            Time::Late
        } else {
            time
        }
    }
}
