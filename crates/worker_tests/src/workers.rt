ghost use Rattle.std.specs.Prelude.{◌≡◌};

use block_store::{SetPlan, Store};
use cstar_io::Gate;
use elementwise::run;
use paris_code::{Field, Instr};
use std::sync::atomic::{AtomicU64, Ordering};
use std::test::Fail;
use vp_sets::Geometry;

/// Its first call turns until another has come.
#[derive(Drop)]
struct Meeting {
    calls: AtomicU64,
    late: AtomicU64,
}

impl Gate for Meeting {
    fn at(&self, _block: u32) {
        if self.calls.fetch_add(1, Ordering::SeqCst) > 0 {
            return;
        }
        for _ in 0..50_000_000u64 {
            if self.calls.load(Ordering::SeqCst) > 1 {
                return;
            }
        }
        self.late.store(1, Ordering::SeqCst);
    }
}

/// The field of the one set.
fn field() -> Field
    ensures set { result.set ≡ 0 }
    ensures offset { result.offset ≡ 0 }
    ensures len { result.len ≡ 32 }
{
    Field {
        set: 0,
        offset: 0,
        len: 32,
    }
}

#[test]
#[tactic(auto, unfolding(vp_sets::specs::Positions::position_count))]
fn two_workers_meet(rt: HostRuntime) -> Result<(), Fail> {
    let geometry = Geometry::new(&[1024]).expect(&rt, "a grid");
    let plans = vec![in rt.alloc(); SetPlan { geometry, bits: 32 }]?;
    let mut store = Store::new(rt.alloc(), plans)?;
    let gate = Meeting {
        calls: AtomicU64::new(0),
        late: AtomicU64::new(0),
    };
    let number = Instr::MyNewsCoordinate {
        dest: field(),
        axis: 0,
    };
    run(&rt, &mut store, &number, &[], 2, &gate);
    assert_eq!(rt; gate.late.load(Ordering::SeqCst), 0);
    assert_eq!(rt; store.read(field(), 1000), 1000);
    Ok(())
}
