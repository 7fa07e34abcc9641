//! A lattice that holds the first judgement of an arc until another one has begun.

use sbpl_heur::Lattice;
use sbpl_plan::Graph;
use std::hint;
use std::sync::atomic::{AtomicBool, AtomicU64, Ordering};

/// How often a worker that is held up looks for another one.
const TURNS: u64 = 1 << 28;

/// A lattice whose first judgement waits until a second one has begun, or until the turns are used up.
#[derive(Drop)]
pub(crate) struct Watched<'l> {
    lattice: &'l Lattice,
    begun: AtomicU64,
    met: AtomicBool,
}

impl<'l> Watched<'l> {
    /// This lattice, of which no arc was judged.
    pub(crate) fn new(lattice: &'l Lattice) -> Watched<'l> {
        Watched {
            lattice,
            begun: AtomicU64::new(0),
            met: AtomicBool::new(false),
        }
    }

    /// Whether a second judgement began while the first was held.
    pub(crate) fn has_met(&self) -> bool {
        self.met.load(Ordering::SeqCst)
    }

    /// Waits until a second judgement has begun, or until the turns are used up.
    fn hold(&self) {
        for _ in 0..TURNS {
            if self.begun.load(Ordering::SeqCst) > 1 {
                self.met.store(true, Ordering::SeqCst);
                return;
            }
            hint::spin_loop();
        }
    }
}

impl<'l> Graph for Watched<'l> {
    ghost use Rattle.sbpl_heur.specs.sbpl_cost.Lattices.{network_of};

    ghost network = { λ watched. network_of watched.lattice.now };

    fn states(&self) -> u32 {
        self.lattice.states()
    }

    fn fan(&self, s: u32) -> u32 {
        self.lattice.fan(s)
    }

    fn head(&self, s: u32, k: u32) -> Option<u32> {
        self.lattice.head(s, k)
    }

    fn judge(&self, s: u32, k: u32) -> Option<u32> {
        if self.begun.fetch_add(1, Ordering::SeqCst) == 0 {
            self.hold();
        }
        self.lattice.judge(s, k)
    }

    fn tail_fan(&self, t: u32) -> u32 {
        self.lattice.tail_fan(t)
    }

    fn tail(&self, t: u32, j: u32) -> Option<(u32, u32)> {
        self.lattice.tail(t, j)
    }

    fn gap(&self, a: u32, b: u32) -> u64 {
        self.lattice.gap(a, b)
    }
}
