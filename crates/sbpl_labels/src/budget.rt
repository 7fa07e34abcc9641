//! What a plan may use: expansions, and time.

ghost use Rattle.std.specs.Prelude.{◌≡◌, ◌+◌, ◌^◌, ◌≤◌, ◌↔◌, IsTrue, IsFalse};
ghost use Rattle.sbpl_labels.specs.Counts.{AreCounts, GrowBy, HasLeft, IsSpent, time_of};
ghost use Rattle.sbpl_labels.specs.declared.time.Time.TheVariants.{Unlimited};

use crate::clock::Clock;
use crate::{Meter, Time, Timer};
use std::marker::Model;
use std::time::Duration;

/// The most expansions of a run.
const RUN: u64 = 1 << 30;

/// At which counts of a plan a meter is set: at each multiple of this one. At each count, passes would be slower.
const METERED: u64 = 64;

/// At which counts of a plan its clock is asked: at each multiple of this one, itself a multiple of `METERED`.
const TIMED: u64 = 256;

/// How many expansions a plan may make, how many it has made, and how many the run has made; and whether the plan has a limit of
/// time, and is late. A run makes at most 2^30 expansions.
#[derive(Drop)]
pub struct Budget {
    per_plan: u64,
    plan: u64,
    run: u64,
    time: Time,
    /// The clock of the present plan, and where the next plan gets one. Contracts see nothing of either.
    clock: Clock,
    timer: Timer,
    /// Tells other threads the run's count. Contracts see nothing of it.
    meter: Meter,
}

impl Model for Budget {
    ghost use Rattle.sbpl_labels.specs.Counts.{Counts, AreCounts};

    ghost Value = { Counts };

    ghost view = { λ a. record { per_plan = a.per_plan; plan = a.plan; run = a.run; time = a.time } };

    ghost invariant = { λ a. AreCounts (record { per_plan = a.per_plan; plan = a.plan; run = a.run; time = a.time }) };
}

impl Budget {
    /// A budget of `per_plan` expansions for each plan, 1 to 2^30, of which none was made, and with no limit of time. No time is
    /// told until `time_by`.
    pub fn new(per_plan: u64) -> Budget
        requires some { 1 ≤ per_plan }
        requires few { per_plan ≤ 2 ^ 30 }
        ensures fresh { result ≡ record { per_plan = per_plan; plan = 0; run = 0; time = Unlimited } }
    {
        Budget {
            per_plan,
            plan: 0,
            run: 0,
            time: Time::Unlimited,
            clock: Clock::Never,
            timer: Timer::off(),
            meter: Meter::off(),
        }
    }

    /// Sets this meter to the run's count at once, and from then on where a plan begins and at each 64th expansion of a plan.
    pub fn meter_by(&mut self, meter: &Meter)
        ensures same { self.new ≡ self.old }
    {
        meter.set(self.run);
        self.meter = meter.share();
    }

    /// The plans to come get their clocks from this timer. The present plan keeps its own.
    pub fn time_by(&mut self, timer: Timer)
        ensures same { self.new ≡ self.old }
    {
        self.timer = timer;
    }

    /// Begins a plan: its count is 0 and the run's stays. Where there is a limit of time, 0.001 s to 1,000,000 s from now on, the
    /// plan is in time until its clock, which is asked at each 256th expansion, says that it is late. Without a limit no clock is
    /// asked.
    pub fn next_plan(&mut self, limit: Option<Duration>)
        ensures begun { self.new ≡ record self.old { plan = 0; time = time_of limit } }
    {
        self.plan = 0;
        self.time = begun_with(limit);
        self.clock = self.timer.start(limit);
        self.meter.set(self.run);
    }

    /// The expansions of this plan.
    pub fn used(&self) -> u64
        ensures value { result ≡ self.now.plan }
        ensures counts { AreCounts self.now }
    {
        self.plan
    }

    /// Whether the plan's count is the budget, the run's count is 2^30, or the plan is late.
    pub fn spent(&self) -> bool
        ensures spent { IsTrue result ↔ IsSpent self.now }
        ensures left { IsFalse result ↔ HasLeft self.now }
        ensures counts { AreCounts self.now }
    {
        self.plan == self.per_plan || self.run == RUN || self.time == Time::Late
    }

    /// Counts one expansion. At each 256th of a plan with a limit of time, its clock is asked whether it is late.
    pub fn spend(&mut self)
        requires left { HasLeft self.old }
        ensures counted { GrowBy 1 self.old self.new }
    {
        self.plan += 1;
        self.run += 1;
        if self.plan % METERED == 0 {
            self.meter.set(self.run);
            if self.plan % TIMED == 0 {
                self.time = self.clock.time_after(self.time);
            }
        }
    }
}

/// The time of a plan that begins with this limit, or with none.
fn begun_with(limit: Option<Duration>) -> Time
    ensures begun { result ≡ time_of limit }
{
    match limit {
        Some(_) => Time::InTime,
        None => Time::Unlimited,
    }
}
