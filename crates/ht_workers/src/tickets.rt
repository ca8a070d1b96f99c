use std::sync::atomic::{AtomicU64, Ordering};

// The greatest number of a connection.
const LAST_NUMBER: u64 = 4_294_967_295;

/// How many connections were numbered, and how many workers are still at work. Contracts don't see
/// these counts, which any thread may change at any time.
#[derive(Drop)]
pub struct Tickets {
    numbered: AtomicU64,
    workers: AtomicU64,
}

impl Tickets {
    /// Tickets for so many workers, which are all at work.
    pub fn new(workers: u32) -> Tickets {
        Tickets {
            numbered: AtomicU64::new(0),
            workers: AtomicU64::new(u64::from(workers)),
        }
    }

    /// Says that no worker is at work any more.
    pub fn end(&self) {
        self.workers.store(0, Ordering::SeqCst);
    }

    // The number of the next connection, from 1 to 4294967295 and then from 1 again.
    pub(crate) fn next(&self) -> u32 {
        let before = self.numbered.fetch_add(1, Ordering::SeqCst);
        (before % LAST_NUMBER + 1) as u32
    }

    // Says that one worker less is at work. The count stops at 0.
    pub(crate) fn leave(&self) {
        let left = self.workers.fetch_sub(1, Ordering::SeqCst);
        if left == 0 {
            self.workers.store(0, Ordering::SeqCst);
        }
    }

    pub(crate) fn is_at_work(&self) -> bool {
        self.workers.load(Ordering::SeqCst) > 0
    }
}
