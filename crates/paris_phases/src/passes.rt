//! What the pass of an instruction is over, and how long it takes.

ghost use Rattle.std.specs.Prelude.{◌≤◌};

use crate::workers::workers_for;
use block_store::Store;
use combine_send::are_few;
use cstar_base::Direction;
use instruction_runs::Batch;
use paris_code::{Field, Instr, Konst, Operation, Reduction};
use phase_elements::checked_set;

// How long a block keeps one worker, in nanoseconds.

/// An instruction, beside its planes: what it is, and in which lanes it writes.
const INSTRUCTION_NS: u32 = 16;
/// A bit of each position, a plane at a time.
const PLANE_NS: u32 = 6;
/// A NEWS shift, beside its planes: from where each lane takes.
const SHIFT_NS: u32 = 100;
/// A bit of each position from a neighbour, a window of lanes at a time; its source is held first.
const NEWS_NS: u32 = 13;
/// A product of each position: both numbers are lifted, and the product is put back.
const PRODUCT_NS: u32 = 1_400;
/// A number of each position, one after the other.
const LANES_NS: u32 = 4_000;
/// The coordinates of all positions: they are counted, and put into planes.
const COORDINATE_NS: u32 = 1_400;
/// A check: the planes that it asks about are compared with a number.
const CHECK_NS: u32 = 300;
/// A get: numbers are lifted and fetched.
const FETCH_NS: u32 = 10_000;
/// A bit of each position in a reduction to the least or the greatest: the lanes that stay are told.
const EXTREME_NS: u32 = 15;
/// Each of the two passes of a scan upward: numbers are lifted and folded.
const SCAN_NS: u32 = 1_500;
/// The two passes of a scan downward in which numbers are lifted and put back. The words are joined
/// between them by one worker.
const DOWN_SCAN_NS: u32 = 3_000;
/// A send on a board, as several workers do it: its slots are filled, and its claims are delivered.
const BOARD_NS: u32 = 6_600;
/// A send without a board: by one worker, or by several who have cells of their own.
const SEND_NS: u32 = 2_800;

/// The set that an instruction's passes go over, how long a block of it keeps one worker, and the set
/// that its messages go to, where it sends.
#[derive(Clone, Copy)]
struct Pass {
    set: u16,
    block_ns: u32,
    targets: Option<u16>,
}

/// The same for so many planes of a set.
fn planes(set: u16, count: u8) -> Pass {
    lanes(set, INSTRUCTION_NS + PLANE_NS * u32::from(count))
}

/// The same for a block that takes so long.
fn lanes(set: u16, block_ns: u32) -> Pass {
    Pass {
        set,
        block_ns,
        targets: None,
    }
}

/// The same for a send on a board.
fn send(set: u16, targets: u16) -> Pass {
    Pass {
        set,
        block_ns: BOARD_NS,
        targets: Some(targets),
    }
}

/// The pass of an operation on two fields into one of so many bits.
fn operation(op: Operation, set: u16, len: u8) -> Pass {
    match op {
        Operation::SAdd
        | Operation::SSubtract
        | Operation::Logand
        | Operation::Logior
        | Operation::Logxor
        | Operation::SMin
        | Operation::UMin
        | Operation::SMax
        | Operation::UMax => planes(set, len),
        Operation::SMultiply => lanes(set, PRODUCT_NS),
        Operation::STruncate
        | Operation::UTruncate
        | Operation::SRem
        | Operation::URem
        | Operation::SMod
        | Operation::UShiftLeft
        | Operation::SShiftRight
        | Operation::UShiftRight => lanes(set, LANES_NS),
    }
}

/// The same with a constant: shifts are moves of planes then, and so is most with a power of 2.
fn operation_with(op: Operation, set: u16, len: u8, constant: Konst) -> Pass {
    match (op, constant) {
        (Operation::UShiftLeft | Operation::SShiftRight | Operation::UShiftRight, _) => {
            planes(set, len)
        }
        (_, Konst::Imm(n)) if n.is_power_of_two() => planes(set, len),
        (op, _) => operation(op, set, len),
    }
}

/// The pass of an address of so many coordinates: a single one is moved.
fn address(dest: Field, coordinates: usize) -> Pass {
    if coordinates == 1 {
        planes(dest.set, dest.len)
    } else {
        lanes(dest.set, LANES_NS)
    }
}

/// The pass of a reduction of a field of so many bits: sums and bitwise ones count the ones of each
/// plane.
fn reduction(combiner: Reduction, set: u16, len: u8) -> Pass {
    match combiner {
        Reduction::SAdd | Reduction::Logand | Reduction::Logior | Reduction::Logxor => {
            planes(set, len)
        }
        Reduction::SMin | Reduction::UMin | Reduction::SMax | Reduction::UMax => {
            lanes(set, INSTRUCTION_NS + EXTREME_NS * u32::from(len))
        }
    }
}

/// The passes of a scan, as one.
fn scan(direction: Direction, set: u16) -> Pass {
    match direction {
        Direction::Upward => lanes(set, SCAN_NS),
        Direction::Downward => lanes(set, DOWN_SCAN_NS),
    }
}

/// The pass of a parallel instruction; none where it is about one position.
fn pass_of(instr: &Instr) -> Option<Pass> {
    let pass = match instr {
        Instr::Move { dest, .. }
        | Instr::MoveConstant { dest, .. }
        | Instr::MoveZeroAlways { dest }
        | Instr::MoveAlways { dest, .. }
        | Instr::Negate { dest, .. }
        | Instr::Lognot { dest, .. } => planes(dest.set, dest.len),
        Instr::Compare { left: source, .. } | Instr::EqZero { source } | Instr::NeZero { source } =>
            planes(source.set, source.len),
        Instr::LoadTest { source: flag }
        | Instr::StoreTest { dest: flag }
        | Instr::LoadContext { source: flag }
        | Instr::StoreContext { dest: flag } => planes(flag.set, 1),
        Instr::SetContext { set }
        | Instr::LogandContextWithTest { set }
        | Instr::LogandcContextWithTest { set } => planes(*set, 1),
        Instr::Operate { op, dest, .. } => operation(*op, dest.set, dest.len),
        Instr::OperateConstant {
            op,
            dest,
            right,
            ..
        } => operation_with(*op, dest.set, dest.len, *right),
        Instr::MyNewsCoordinate { dest, .. } => lanes(dest.set, COORDINATE_NS),
        Instr::MakeAddress {
            dest,
            coordinates,
            ..
        } => address(*dest, coordinates.len()),
        Instr::CheckTarget { .. } | Instr::CheckGrid { .. } | Instr::CheckDivisor { .. } => {
            lanes(checked_set(instr), CHECK_NS)
        }
        Instr::GetFromNews { dest, .. } | Instr::GetFromNewsAlways { dest, .. } => {
            lanes(dest.set, SHIFT_NS + NEWS_NS * u32::from(dest.len))
        }
        Instr::Get { dest, .. } => lanes(dest.set, FETCH_NS),
        Instr::Global {
            combiner,
            source,
            ..
        } => reduction(*combiner, source.set, source.len),
        Instr::Scan {
            dest,
            direction,
            ..
        } => scan(*direction, dest.set),
        Instr::SendWithOverwrite { dest, source, .. }
        | Instr::SendWithCombiner { dest, source, .. } => send(source.set, dest.set),
        // Single positions, and the front end's instructions.
        _ => return None,
    };
    Some(pass)
}

/// How many workers to give a pass.
fn workers_over(store: &Store, pass: Pass, given: u32) -> u32
    requires { (1 ≤ given) × (given ≤ 64) }
    ensures { (1 ≤ result) × (result ≤ given) }
{
    let Some(plan) = store.plans.get(usize::from(pass.set)) else {
        return 1;
    };
    workers_for(pass.block_ns, plan.geometry.block_count(), given)
}

/// How many positions a set has; none where there is no such set.
fn positions(store: &Store, set: u16) -> u32 {
    store
        .plans
        .get(usize::from(set))
        .map_or(0, |plan| plan.geometry.positions())
}

/// How many workers to give a send. Where the targets are few each worker has cells of its own. Else
/// they need a board, which one worker does without, so fewer than make up for that do not pay; nor do
/// any where there are fewer targets than senders: their messages are sure to collide, and workers
/// would take the targets' cells from each other.
fn workers_to_send(store: &Store, pass: Pass, targets: u16, given: u32) -> u32
    requires { (1 ≤ given) × (given ≤ 64) }
    ensures { (1 ≤ result) × (result ≤ given) }
{
    let (targets, senders) = (positions(store, targets), positions(store, pass.set));
    let apart = workers_over(store, lanes(pass.set, SEND_NS), given);
    if are_few(targets, senders, apart) {
        return apart;
    }
    let workers = workers_over(store, pass, given);
    if targets < senders || workers * SEND_NS < BOARD_NS {
        1
    } else {
        workers
    }
}

/// How many workers to give an instruction: one where it is about one position.
pub(crate) fn workers_of(store: &Store, instr: &Instr, given: u32) -> u32
    requires { (1 ≤ given) × (given ≤ 64) }
    ensures { (1 ≤ result) × (result ≤ given) }
{
    let Some(pass) = pass_of(instr) else {
        return 1;
    };
    match pass.targets {
        None => workers_over(store, pass, given),
        Some(targets) => workers_to_send(store, pass, targets, given),
    }
}

/// How many workers to give the one pass of all that wait.
pub(crate) fn workers_to_settle(store: &Store, batch: &Batch, given: u32) -> u32
    requires { (1 ≤ given) × (given ≤ 64) }
    ensures { (1 ≤ result) × (result ≤ given) }
{
    let mut block_ns: u32 = 0;
    for deferred in batch.as_slice() {
        if let Some(pass) = pass_of(deferred.instr()) {
            block_ns = block_ns.saturating_add(pass.block_ns);
        }
    }
    workers_over(store, lanes(batch.set(), block_ns), given)
}
