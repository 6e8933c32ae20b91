ghost use Rattle.std.specs.Prelude.{◌≡◌, ℕ, true, ◌+◌, ◌*◌, ◌^◌, ◌<◌, ◌≤◌, length, slice_index};
ghost use denote.Param.Send.{IsSync};
ghost use Rattle.combine_core.specs.Folded.{folded};
ghost use Rattle.combine_core.specs.Machine.{idle};
ghost use Rattle.combine_board.specs.Tree.{IsFinished};

use crate::board::Board;
use crate::pass::Pass;
use crate::words::Words;
use combine_core::Combine;
use cstar_io::Gate;
use std::thread::{Threads, join};

// Takes claims until there are no more, and delivers their messages. The gate is called once a claim.
fn take_claims<C: Combine, G: Gate>(board: &Board<C>, mut pass: Pass, gate: &G) -> Pass
    requires of { pass.board ≡ board.now }
    requires fresh { pass.worker ≡ idle true pass.worker.draws }
    requires draws { 2 ^ 32 ≤ pass.worker.draws }
    ensures of { result.board ≡ pass.board }
    ensures finished { IsFinished board.now.plan.slots pass.worker.draws result.worker }
{
    'claims: while let Some(claim) = board.claim(&mut pass) {
        gate.at(claim);
        board.deliver_rest(&mut pass);
    }
    pass
}

/// Workers in threads of their own take the claims of a board and deliver their messages. Each
/// pass is split before a fork and joined after it.
pub fn work<C: Combine + Sync, R: Threads + Sync, G: Gate + Sync>(
    rt: &R,
    board: &Board<C>,
    mut pass: Pass,
    gate: &G,
    workers: u32,
    depth: u32,
) -> Pass
    requires of { pass.board ≡ board.now }
    requires fresh { pass.worker ≡ idle true pass.worker.draws }
    requires workers { workers ≤ 2 ^ depth }
    requires draws { 2 ^ 32 * 2 ^ depth ≤ pass.worker.draws }
    ensures of { result.board ≡ pass.board }
    ensures finished { IsFinished board.now.plan.slots pass.worker.draws result.worker }
{
    if workers <= 1 || depth == 0 {
        return take_claims(board, pass, gate);
    }
    let half = workers / 2;
    let rest = workers - half;
    let below = depth - 1;
    let other = board.split(&mut pass);
    let (mut one, two) = join(
        rt,
        || -> Pass
            requires { IsSync R.row × IsSync C.row × IsSync G.row × (pass.board ≡ board.now) × (pass.worker ≡ idle true pass.worker.draws) × (rest ≤ 2 ^ below) × (2 ^ 32 * 2 ^ below ≤ pass.worker.draws) }
            ensures { (result.board ≡ pass.board) × IsFinished board.entry.now.plan.slots pass.worker.draws result.worker }
        { work(rt, board, pass, gate, rest, below) },
        || -> Pass
            requires { IsSync R.row × IsSync C.row × IsSync G.row × (other.board ≡ board.now) × (other.worker ≡ idle true other.worker.draws) × (half ≤ 2 ^ below) × (2 ^ 32 * 2 ^ below ≤ other.worker.draws) }
            ensures { (result.board ≡ other.board) × IsFinished board.entry.now.plan.slots other.worker.draws result.worker }
        { work(rt, board, other, gate, half, below) },
    );
    board.join(&mut one, two);
    one
}

/// All messages of a new board, combined by up to 64 workers: the fold of each target.
pub fn combine_all<C: Combine + Sync, R: Threads + Sync, G: Gate + Sync>(
    rt: &R,
    board: Board<C>,
    pass: Pass,
    gate: &G,
    workers: u32,
) -> Words
    requires of { pass.board ≡ board }
    requires fresh { pass.worker ≡ idle true (2 ^ 63) }
    requires workers { workers ≤ 64 }
    ensures len { length result ≡ length board.plan.home }
    ensures folded { (t : ℕ) → t < length board.plan.home → slice_index result t ≡ folded board.plan.kind t (slice_index board.plan.home t) board.plan.slots }
{
    let whole = work(rt, &board, pass, gate, workers, 6);
    board.close(whole)
}
