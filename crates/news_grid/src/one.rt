//! The field of one processor.

ghost use Rattle.std.specs.Prelude.{◌≡◌, ◌<◌, ◌≤◌, length};
ghost use Rattle.cstar_base.specs.declared.operators.Winner.{Winner};
ghost use Rattle.paris_code.specs.Fetching.{at_one, word_of_one};
ghost use Rattle.paris_code.specs.Memory.{SameBits, processors};
ghost use Rattle.paris_code.specs.Writes.{written};
ghost use Rattle.phase_meaning.specs.Apply.{LiesIn};
ghost use Rattle.block_store.specs.Stored.{shapes_in, memory_in, IsWhole, HasRoom};

use block_store::Store;
use paris_code::Field;
use phase_meaning::arith::extended;

/// How many positions a set has.
fn positions(store: &Store, set: u16) -> u32
    requires { set < length (shapes_in store.now) }
    ensures { result ≡ processors (shapes_in store.now) set }
{
    store.plan(set).geometry.positions()
}

/// The source of one processor as a word, read signed or unsigned; 0 if there is none.
pub(crate) fn read_one(store: &Store, signed: bool, processor: u32, source: Field) -> u32
    requires whole { IsWhole store.now }
    requires source { LiesIn (shapes_in store.now) source }
    ensures { (w : Winner) → result ≡ word_of_one (shapes_in store.now) (memory_in store.now w) signed source processor }
{
    if positions(store, source.set) <= processor {
        return 0;
    }
    extended(signed, source.len, store.read(source, processor))
}

/// Writes to one processor, if there is such a one.
pub(crate) fn write_one(store: &mut Store, dest: Field, processor: u32, word: u32)
    requires whole { IsWhole store.old }
    requires room { HasRoom store.old }
    requires dest { LiesIn (shapes_in store.old) dest }
    ensures whole { IsWhole store.new }
    ensures room { HasRoom store.new }
    ensures shapes { shapes_in store.new ≡ shapes_in store.old }
    ensures memory { (w : Winner) → SameBits (shapes_in store.old) (memory_in store.new w) (written (at_one dest processor word) (memory_in store.old w)) }
{
    if positions(store, dest.set) <= processor {
        return;
    }
    store.write(dest, processor, word);
}
