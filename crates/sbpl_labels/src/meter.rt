//! How many expansions a run has made, for other threads to read.

use std::alloc::Global;
use std::sync::Arc;
use std::sync::atomic::{AtomicU64, Ordering};

/// How many expansions a run has made so far, for another thread to show. No clause says which count is read, and no other result
/// depends on it.
#[derive(Drop)]
pub struct Meter {
    count: Option<Arc<AtomicU64, Global>>,
}

impl Meter {
    /// A meter at 0. Where memory is refused it stays there.
    pub fn new(alloc: Global) -> Meter {
        Meter {
            count: Arc::new(alloc, AtomicU64::new(0)).ok(),
        }
    }

    /// A meter that stays at 0. It takes no memory.
    pub fn off() -> Meter {
        Meter { count: None }
    }

    /// The same meter for another owner.
    pub(crate) fn share(&self) -> Meter {
        match &self.count {
            Some(count) => Meter {
                count: Arc::try_clone(count).ok(),
            },
            None => Meter::off(),
        }
    }

    /// The count.
    pub fn read(&self) -> u64 {
        match &self.count {
            Some(count) => count.load(Ordering::SeqCst),
            None => 0,
        }
    }

    /// Sets the count.
    pub(crate) fn set(&self, count: u64) {
        if let Some(shared) = &self.count {
            shared.store(count, Ordering::SeqCst);
        }
    }
}
