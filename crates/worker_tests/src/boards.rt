ghost use Rattle.std.specs.Prelude.{◌≡◌, ◌+◌, ◌-◌, ◌^◌, ◌<◌, IfOk, Some, length};
ghost use Rattle.combine_core.specs.declared.message.Message.{Message};
ghost use Rattle.combine_core.specs.Cells.{RisesFrom, TargetsBelow};

use combine_board::{Board, Pass, combine_all};
use combine_core::{Add, And, Combine, First, Last, MaxOf, Message, MinOf, Or, Xor};
use cstar_base::numbers::fold_step;
use cstar_io::Open;
use std::alloc::{AllocError, Global};
use std::process::Abort;
use std::test::Fail;
use std::thread::Threads;

// An odd number, by which the senders' values are scattered over the words.
const FACTOR: u32 = 2_654_435_761;

fn message(sender: u32, target: u32, value: u32) -> Option<Message>
    requires { sender < 2 ^ 32 - 1 }
    ensures { (m : Message) × (result ≡ Some m) × (m.sender ≡ sender) × (m.target ≡ target) }
{
    Some(Message {
        sender,
        target,
        value,
    })
}

// Claims, and says how many draws are left.
fn claim<C: Combine>(board: &Board<C>, pass: &mut Pass) -> Option<u32>
    requires of { pass.old.board ≡ board.now }
    requires some_left { 0 < pass.old.worker.draws }
    ensures of { pass.new.board ≡ pass.old.board }
    ensures draws { pass.new.worker.draws + 1 ≡ pass.old.worker.draws }
{
    board.claim(pass)
}

// Delivers the messages of these slots, each of which is next in its turn.
fn deliver<C: Combine>(rt: &impl Abort, board: &Board<C>, pass: &mut Pass, from: u32, to: u32)
    requires { pass.old.board ≡ board.now }
    ensures of { pass.new.board ≡ pass.old.board }
    ensures draws { pass.new.worker.draws ≡ pass.old.worker.draws }
{
    for slot in from..to {
        assert_eq!(rt; board.ahead(pass), Some(slot));
        board.deliver(pass, slot);
    }
}

#[test]
fn three_messages_in_one_claim(rt: HostRuntime) -> Result<(), Fail> {
    let alloc = rt.alloc();
    let slots = vec![in alloc; message(0, 0, 1), message(1, 0, 2), message(2, 1, 9)]?;
    let (board, mut pass) = Board::new(alloc, Add, vec![in alloc; 5, 0]?, slots)?;
    assert_eq!(rt; board.ahead(&pass), None);
    assert_eq!(rt; claim(&board, &mut pass), Some(0));
    deliver(&rt, &board, &mut pass, 0, 2);
    assert!(rt; !board.complete(&pass));
    deliver(&rt, &board, &mut pass, 2, 3);
    assert_eq!(rt; board.ahead(&pass), None);
    assert_eq!(rt; claim(&board, &mut pass), None);
    assert!(rt; board.complete(&pass));
    let words = board.close(pass);
    assert_eq!(rt; words.get(0), 8);
    assert_eq!(rt; words.get(1), 9);
    Ok(())
}

#[test]
fn an_empty_slot_is_passed_over(rt: HostRuntime) -> Result<(), Fail> {
    let alloc = rt.alloc();
    let slots = vec![in alloc; message(0, 0, 1), None, message(1, 0, 2), message(2, 1, 9)]?;
    let (board, mut pass) = Board::new(alloc, Add, vec![in alloc; 5, 0]?, slots)?;
    assert_eq!(rt; claim(&board, &mut pass), Some(0));
    deliver(&rt, &board, &mut pass, 0, 1);
    deliver(&rt, &board, &mut pass, 2, 4);
    assert!(rt; board.complete(&pass));
    let words = board.close(pass);
    assert_eq!(rt; words.get(0), 8);
    assert_eq!(rt; words.get(1), 9);
    Ok(())
}

#[test]
fn two_passes_share_two_claims(rt: HostRuntime) -> Result<(), Fail> {
    let alloc = rt.alloc();
    let slots = many(alloc, 513, 1, 0)?;
    let (board, mut one) = Board::new(alloc, Add, vec![in alloc; 0]?, slots)?;
    let mut two = board.split(&mut one);
    assert_eq!(rt; claim(&board, &mut one), Some(0));
    assert_eq!(rt; claim(&board, &mut two), Some(1));
    deliver(&rt, &board, &mut one, 0, 512);
    deliver(&rt, &board, &mut two, 512, 513);
    assert_eq!(rt; claim(&board, &mut one), None);
    assert_eq!(rt; claim(&board, &mut two), None);
    assert!(rt; !board.complete(&one));
    assert!(rt; !board.complete(&two));
    board.join(&mut one, two);
    assert!(rt; board.complete(&one));
    assert_eq!(rt; board.close(one).get(0), 513);
    Ok(())
}

#[test]
fn the_first_sender_wins(rt: HostRuntime) -> Result<(), Fail> {
    let alloc = rt.alloc();
    let slots = vec![in alloc; message(2, 0, 5), message(4, 0, 6)]?;
    let (board, pass) = Board::new(alloc, First, vec![in alloc; 7, 9]?, slots)?;
    let words = combine_all(&rt, board, pass, &Open, 1);
    assert_eq!(rt; words.get(0), 5);
    assert_eq!(rt; words.get(1), 9);
    Ok(())
}

// A sender's value: 1 for the factor 0, and for a large one all over the words.
fn value_of(sender: u32, factor: u32) -> u32 {
    sender.wrapping_mul(factor) | 1
}

// So many messages, the n-th of sender n, to the targets in turn.
fn many(
    alloc: Global,
    count: u32,
    targets: u32,
    factor: u32,
) -> Result<Vec<Option<Message>>, AllocError>
    requires count { count < 2000000 }
    requires targets { 0 < targets }
    ensures senders { IfOk result (λ v. RisesFrom 0 v.items) }
    ensures targets { IfOk result (λ v. TargetsBelow targets v.items) }
    ensures len { IfOk result (λ v. length v.items ≡ count) }
{
    let mut slots = Vec::new(alloc);
    for n in 0..count {
        slots.push(message(n, n % targets, value_of(n, factor)))?;
    }
    Ok(slots)
}

// What two workers combine is, for each target, the plain fold over the senders.
fn two_workers<R: Threads + Abort + Sync, C: Combine + Sync>(
    rt: &R,
    alloc: Global,
    combiner: C,
) -> Result<(), Fail> {
    let mut plain = [3, 1, 4, 1, 5, 9, u32::MAX];
    let home = plain.to_vec(alloc)?;
    let (kind, unsigned) = combiner.kind();
    let descending = combiner.descending();
    for n in 0..100_000 {
        let sender = if descending { 99_999 - n } else { n };
        let target = (sender % 7) as usize;
        plain[target] = fold_step(kind, unsigned, plain[target], value_of(sender, FACTOR));
    }
    let slots = many(alloc, 100_000, 7, FACTOR)?;
    let (board, pass) = Board::new(alloc, combiner, home, slots)?;
    let words = combine_all(rt, board, pass, &Open, 2);
    for target in 0..7 {
        assert_eq!(rt; words.get(target), plain[target as usize]);
    }
    Ok(())
}

#[test]
fn two_workers_give_the_folds(rt: HostRuntime) -> Result<(), Fail> {
    let alloc = rt.alloc();
    two_workers(&rt, alloc, Add)?;
    two_workers(&rt, alloc, And)?;
    two_workers(&rt, alloc, Or)?;
    two_workers(&rt, alloc, Xor)?;
    two_workers(&rt, alloc, MinOf { signed: true })?;
    two_workers(&rt, alloc, MinOf { signed: false })?;
    two_workers(&rt, alloc, MaxOf { signed: true })?;
    two_workers(&rt, alloc, MaxOf { signed: false })?;
    two_workers(&rt, alloc, Last)?;
    two_workers(&rt, alloc, First)
}
