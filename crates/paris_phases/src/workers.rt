//! How many workers pay.

ghost use Rattle.std.specs.Prelude.{◌+◌, ◌<◌, ◌≤◌, max, min};
ghost use Rattle.paris_phases.specs.Workers.{Pays};

/// What one more worker costs a pass, in nanoseconds: the start of its thread, and the planes that move
/// to the processor on which it runs.
const WORKER_NS: u64 = 60_000;

/// How many workers to give a pass over so many blocks, of which each keeps one worker for so many
/// nanoseconds: as many as are given, at least 1 and at most 64, but fewer where starting them takes
/// longer than they save, and never more than there are blocks.
///
/// With `w` workers the pass takes `work / w + w * WORKER_NS`, which is least where both are equal.
pub fn workers_for(block_ns: u32, blocks: u32, given: u32) -> u32
    requires { (1 ≤ given) × (given ≤ 64) }
    ensures one { 1 ≤ result }
    ensures given { result ≤ given }
    ensures blocks { result ≤ max 1 blocks }
    ensures pays { 1 < result → Pays block_ns blocks result }
    ensures most { result < min given blocks → Pays block_ns blocks (result + 1) → ⊥ }
{
    let work = u64::from(block_ns) * u64::from(blocks);
    let most = given.min(blocks);
    'more: for w in 1..most {
        let next = u64::from(w) + 1;
        if work < next * next * WORKER_NS {
            return w;
        }
    }
    most.max(1)
}
