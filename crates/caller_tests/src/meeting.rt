//! A gate at which two callers meet.

use cstar_io::Gate;
use std::sync::atomic::{AtomicU64, Ordering};

/// Its first call turns until the second has come, or is late.
#[derive(Drop)]
pub struct Meeting {
    calls: AtomicU64,
    late: AtomicU64,
}

impl Meeting {
    pub fn new() -> Meeting {
        Meeting {
            calls: AtomicU64::new(0),
            late: AtomicU64::new(0),
        }
    }

    /// How many calls there were, and whether the first one waited in vain.
    pub fn seen(&self) -> (u64, bool) {
        (
            self.calls.load(Ordering::SeqCst),
            self.late.load(Ordering::SeqCst) > 0,
        )
    }
}

impl Gate for Meeting {
    fn at(&self, _block: u32) {
        if self.calls.fetch_add(1, Ordering::SeqCst) > 0 {
            return;
        }
        for _ in 0..50_000_000u64 {
            if self.calls.load(Ordering::SeqCst) > 1 {
                return;
            }
        }
        self.late.store(1, Ordering::SeqCst);
    }
}
