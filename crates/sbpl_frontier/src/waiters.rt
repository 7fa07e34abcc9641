//! Waiting for something to change.

use std::hint::spin_loop;
use std::sync::Wait;
use std::sync::atomic::{AtomicBool, AtomicU64, Ordering};

/// How often a worker looks again before it sleeps.
const LOOKS: u32 = 200;

/// Lets workers that have nothing to do sleep. A worker reads how many changes there were, finds that it has nothing to do, and
/// waits for another change: one that came in between ends its wait at once. Where more workers are awake than are of use, it
/// sleeps until it is woken.
///
/// Somebody is always awake until the first worker ends. A worker sleeps for a change only where there was none since it looked;
/// then an arc was out, and whoever posts its judgement looks again itself. It sleeps in spite of a change only where enough others
/// are awake, which the count of sleepers tells each of them in turn. From the first end on nobody sleeps.
#[derive(Drop)]
pub(crate) struct Waiters {
    seats: u64,
    changes: AtomicU64,
    sleepers: AtomicU64,
    over: AtomicBool,
}

impl Waiters {
    /// For this many workers.
    pub(crate) fn new(seats: u64) -> Waiters {
        Waiters {
            seats,
            changes: AtomicU64::new(0),
            sleepers: AtomicU64::new(0),
            over: AtomicBool::new(false),
        }
    }

    /// How many changes there were, modulo 2^64.
    pub(crate) fn changes(&self) -> u64 {
        self.changes.load(Ordering::SeqCst)
    }

    /// Notes a change. It wakes nobody.
    pub(crate) fn note(&self) {
        self.changes.fetch_add(1, Ordering::SeqCst);
    }

    /// Returns once there was a change after the first `seen`, or where this worker is woken, and may return for no reason. Of more
    /// than `most` workers awake it sleeps also where there was a change.
    pub(crate) fn wait<R: Wait>(&self, rt: &R, seen: u64, most: u64) {
        for _ in 0..LOOKS {
            if self.changes() != seen {
                break;
            }
            spin_loop();
        }
        let asleep = self.sleepers.fetch_add(1, Ordering::SeqCst);
        let now = self.changes();
        let others = self.seats.saturating_sub(asleep).saturating_sub(1);
        let has_reason = now == seen || others >= most.max(1);
        if has_reason && !self.over.load(Ordering::SeqCst) {
            self.changes.park(rt, (now % (1 << 32)) as u32);
        }
        self.sleepers.fetch_sub(1, Ordering::SeqCst);
    }

    /// Wakes one sleeper, where there is one and fewer than `most` workers are awake.
    pub(crate) fn wake_one(&self, most: u64) {
        let asleep = self.sleepers.load(Ordering::SeqCst);
        if asleep > 0 && self.seats.saturating_sub(asleep) < most {
            self.changes.wake_one();
        }
    }

    /// Wakes every sleeper, for good.
    pub(crate) fn wake_all(&self) {
        self.over.store(true, Ordering::SeqCst);
        self.note();
        self.changes.wake_all();
    }
}
