ghost use Rattle.std.specs.Prelude.{◌≡◌, ℕ, ◌<◌};
ghost use Rattle.block_store.specs.Stored.{IsWhole, HasRoom, shapes_in};
ghost use Rattle.phase_meaning.specs.Apply.{IsPosition, IsRun};

use block_store::{SetPlan, Store};
use combine_send::{Send, go, prepare, write_back};
use cstar_base::{Elem, Winner};
use cstar_io::Gate;
use paris_code::{Field, Reduction};
use std::sync::atomic::{AtomicU64, Ordering};
use std::test::Fail;
use vp_sets::Geometry;

/// Its calls meet by twos: the first of two turns until the other has come, or is late.
#[derive(Drop)]
struct Meetings {
    calls: AtomicU64,
    late: AtomicU64,
}

impl Gate for Meetings {
    fn at(&self, _block: u32) {
        let before = self.calls.fetch_add(1, Ordering::SeqCst);
        if before % 2 == 1 {
            return;
        }
        for _ in 0..1_000_000_000u64 {
            if self.calls.load(Ordering::SeqCst) > before + 1 {
                return;
            }
        }
        self.late.store(1, Ordering::SeqCst);
    }
}

/// A field of the one set, of 32 bits.
fn field(offset: u32) -> Field
    ensures set { result.set ≡ 0 }
    ensures offset { result.offset ≡ offset }
    ensures len { result.len ≡ 32 }
{
    Field {
        set: 0,
        offset,
        len: 32,
    }
}

/// Writes to each of the first positions its own number.
fn number(store: &mut Store, run: Field, count: u32)
    requires whole { IsWhole store.old }
    requires run { IsRun (shapes_in store.old) run }
    requires positions { (p : ℕ) → p < count → IsPosition (shapes_in store.old) run.set p }
    requires room { HasRoom store.old }
    ensures whole { IsWhole store.new }
    ensures shapes { shapes_in store.new ≡ shapes_in store.old }
    ensures room { HasRoom store.new }
{
    for position in 0..count {
        store.write(run, position, position);
    }
}

/// Two workers fill the slots of a send at the same time, each a block; then each takes a claim, and
/// at the same time they combine the messages, which all go to one target.
#[test]
#[tactic(auto, unfolding(vp_sets::specs::Positions::position_count))]
fn two_senders_meet(rt: HostRuntime) -> Result<(), Fail> {
    let geometry = Geometry::new(&[1024]).expect(&rt, "a grid");
    let plans = vec![in rt.alloc(); SetPlan { geometry, bits: 96 }]?;
    let mut store = Store::new(rt.alloc(), plans)?;
    let send = Send {
        dest: field(0),
        kind: Elem::UNSIGNED,
        address: field(32),
        source: field(64),
        combiner: Some(Reduction::SAdd),
    };
    number(&mut store, send.source, 1024);
    let gate = Meetings {
        calls: AtomicU64::new(0),
        late: AtomicU64::new(0),
    };
    let ready = prepare(&rt, rt.alloc(), &store, &send, 2, &gate, Winner::High)?;
    let words = go(&rt, ready, 2, &gate);
    write_back(&mut store, &send, &words);
    assert_eq!(rt; gate.late.load(Ordering::SeqCst), 0);
    assert_eq!(rt; gate.calls.load(Ordering::SeqCst), 4);
    assert_eq!(rt; store.read(send.dest, 0), 523_776);
    for position in 1..1024 {
        assert_eq!(rt; store.read(send.dest, position), 0);
    }
    Ok(())
}
