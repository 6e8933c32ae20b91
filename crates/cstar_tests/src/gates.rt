//! The gate is called by the blocks that a run goes over, whatever else the run puts.

use crate::bench::{SOUND, command_by};
use cstar_io::Gate;
use std::sync::atomic::{AtomicU64, Ordering};

/// Counts its calls for the first block and for the second.
#[derive(Drop)]
struct Counts {
    first: AtomicU64,
    second: AtomicU64,
}

impl Counts {
    fn new() -> Counts {
        Counts {
            first: AtomicU64::new(0),
            second: AtomicU64::new(0),
        }
    }
}

impl Gate for Counts {
    fn at(&self, block: u32) {
        let count = if block == 0 {
            &self.first
        } else {
            &self.second
        };
        count.fetch_add(1, Ordering::SeqCst);
    }
}

/// Messages that meet, from two blocks.
const MEETING: &str =
    "shape [513]S; int:S p, q, d; int s;\nmain() { with (S) { p = pcoord(0);\n[p * 0]d += p; [p * 0]q += 1; printf(\"%d %d\\n\", [0]d, [0]q);\n} }\n";

#[test]
fn same_gate_calls(rt: HostRuntime) {
    let plain = Counts::new();
    let listed = Counts::new();
    let text = MEETING.as_bytes();
    let words = ["--workers", "2", "a.cs"];
    let Ok(done) = command_by(&rt, rt.alloc(), &words, text, SOUND, &plain) else {
        panic!(rt; "no memory");
    };
    assert_eq!(rt; done.status, 0);
    assert_eq!(rt; done.out.taken(), b"131328 513\n".as_slice());
    let words = ["--workers", "2", "--listing", "a.cs"];
    let Ok(done) = command_by(&rt, rt.alloc(), &words, text, SOUND, &listed) else {
        panic!(rt; "no memory");
    };
    assert_eq!(rt; done.status, 0);
    let first = plain.first.load(Ordering::SeqCst);
    let second = plain.second.load(Ordering::SeqCst);
    assert!(rt; second > 0);
    assert_eq!(rt; listed.first.load(Ordering::SeqCst), first);
    assert_eq!(rt; listed.second.load(Ordering::SeqCst), second);
}
