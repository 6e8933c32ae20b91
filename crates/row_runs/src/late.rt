//! A gate that keeps workers back.

use cstar_io::Gate;
use std::sync::atomic::{AtomicU32, Ordering};

/// Keeps each caller back for up to a thousand turns, another number each time, so that the blocks of
/// a pass are done in many orders.
#[derive(Drop)]
pub struct Late {
    calls: AtomicU32,
}

impl Late {
    pub fn new() -> Late {
        Late {
            calls: AtomicU32::new(0),
        }
    }
}

impl Gate for Late {
    fn at(&self, block: u32) {
        let call = self.calls.fetch_add(1, Ordering::SeqCst);
        let turns = (call ^ block).wrapping_mul(2_654_435_761) >> 22;
        for _ in 0..turns {
            self.calls.load(Ordering::SeqCst);
        }
    }
}
