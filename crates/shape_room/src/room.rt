//! The room that a typed program needs on each shape, in bits for each position.

ghost use Rattle.std.specs.Prelude.{◌≡◌, ◌+◌, ℕ, IfOk, None, Some, length, map, slice_get, slice_index, slice_set};
ghost use Rattle.cstar_tree.specs.Room.{beside, bits_of, expression_room, greatest, greatest_part, instance_room, need, of_shape, own_room, passed_bits, statement_room};
ghost use Rattle.cstar_tree.specs.Typed.{type_of};
ghost use Rattle.cstar_tree.specs.TypedParts.{concat, optional, optional_box, total};
ghost use Rattle.cstar_tree.specs.declared.typed.LocalVar.{LocalVar};
ghost use Rattle.cstar_tree.specs.declared.typed.Instance.{Instance};
ghost use Rattle.shape_room.specs.CallOrders.{HasCalls, IsCallOrder, numbers_in};
ghost use Rattle.shape_room.specs.Counted.{counted};
ghost use Rattle.shape_room.specs.RoomInParts.{joined, room_as, room_of};

use cstar_base::Memory;
use cstar_tree::typed::{Instance, LocalVar, TExpr, TStmt, VarInfo};
use std::alloc::Global;

/// The bits of a value and of its test flag.
const VALUE: u64 = 33;
/// The room of a get, a send, a scan or an enumerate.
const COMMUNICATION: u64 = 99;

/// Bits that only a value of the shape needs.
#[tactic(auto, unfolding(cstar_tree::specs::Room::of_shape))]
fn on_shape(at: Option<u16>, shape: u16, bits: u64) -> u64
    ensures { result ≡ of_shape shape at bits }
{
    if at == Some(shape) { bits } else { 0 }
}

/// The room of the part of the number, beside the values of the parts before it.
fn part(number: u64, room: u64) -> u64
    ensures { result ≡ counted (beside number room) }
{
    if room == 0 {
        0
    } else {
        VALUE.saturating_mul(number).saturating_add(room)
    }
}

/// Is the target of an assignment a send, maybe in brackets?
fn is_send(target: &TExpr) -> bool
    ensures { (shape : ℕ) → (room_of shape target.now).sends ≡ result }
{
    match target {
        TExpr::Brackets { inner, .. } => is_send(inner),
        TExpr::LeftIndex { ty, .. } => ty.shape.is_some(),
        _ => false,
    }
}

/// The bits of an expression's value on the value's own shape. Conversions and promotions need none
/// beside their operand.
fn value_bits(e: &TExpr, is_target: bool) -> u64
    ensures { (shape : ℕ) → (room_of shape e.now).own is_target ≡ of_shape shape (type_of e.now).shape result }
{
    match e {
        TExpr::Convert { .. } | TExpr::Promote { .. } => 0,
        TExpr::Assign { target, .. } => {
            if is_send(target) {
                COMMUNICATION
            } else {
                VALUE
            }
        }
        TExpr::LeftIndex { .. } => { if is_target { VALUE } else { COMMUNICATION } }
        TExpr::Scan { .. } | TExpr::Enumerate { .. } => COMMUNICATION,
        _ => VALUE,
    }
}

/// The room on the shape of an expression, which is maybe the target of an assignment.
#[cycle(room)]
fn expression(e: &TExpr, shape: u16, is_target: bool) -> u64
    ensures { result ≡ counted (room_as is_target (room_of shape e.now)) }
{
    let own = on_shape(e.ty().shape, shape, value_bits(e, is_target));
    own.saturating_add(parts(e, shape, is_target))
}

/// The greatest room of the parts of an expression.
#[cycle(room)]
fn parts(e: &TExpr, shape: u16, is_target: bool) -> u64
    ensures { result ≡ counted ((room_of shape e.now).parts is_target) }
{
    match e {
        TExpr::Assign { target, value, .. } => {
            let target = expression(target, shape, true);
            target.max(part(1, expression(value, shape, false)))
        }
        TExpr::Choice {
            test,
            then,
            otherwise,
            ..
        } => {
            let test = expression(test, shape, false);
            let then = part(1, expression(then, shape, false));
            let otherwise = part(2, expression(otherwise, shape, false));
            test.max(then).max(otherwise)
        }
        TExpr::LogicalOr { left, right, .. }
        | TExpr::LogicalAnd { left, right, .. }
        | TExpr::Binary { left, right, .. } => {
            let left = expression(left, shape, false);
            left.max(part(1, expression(right, shape, false)))
        }
        TExpr::Step { target, .. } => expression(target, shape, true),
        TExpr::Brackets { inner, .. } => expression(inner, shape, is_target),
        TExpr::Unary { operand, .. }
        | TExpr::Reduce { operand, .. }
        | TExpr::Casts { operand, .. }
        | TExpr::ParallelCast { operand, .. }
        | TExpr::Convert { operand, .. }
        | TExpr::Promote { operand, .. }
        | TExpr::Element { index: operand, .. }
        | TExpr::Scan {
            source: operand,
            ..
        } => expression(operand, shape, false),
        TExpr::Call {
            arguments: parts,
            ..
        }
        | TExpr::LeftIndex { indexes: parts, .. }
        | TExpr::Printf {
            arguments: parts,
            ..
        } => greatest_of(parts, shape),
        TExpr::Variable { .. }
        | TExpr::Number { .. }
        | TExpr::Dot { .. }
        | TExpr::Pcoord { .. }
        | TExpr::PositionsOf { .. }
        | TExpr::RankOf { .. }
        | TExpr::DimOf { .. }
        | TExpr::Enumerate { .. }
        | TExpr::GetChar { .. } => 0,
    }
}

/// The greatest room of parts as values, beside the values of the parts before each.
#[cycle(room)]
fn greatest_of(parts: &[TExpr], shape: u16) -> u64
    ensures { result ≡ counted (greatest_part 0 (map joined (map (room_of shape) parts.now))) }
{
    let mut greatest = 0u64;
    let mut number = 0u64;
    for e in parts {
        greatest = greatest.max(part(number, expression(e, shape, false)));
        number = number.saturating_add(1);
    }
    greatest
}

/// The room on the shape of an expression that maybe stands there.
fn optional_expression(e: &Option<TExpr>, shape: u16) -> u64
    ensures { result ≡ counted (greatest (map (expression_room shape) (optional e.now))) }
{
    match e {
        Some(e) => expression(e, shape, false),
        None => 0,
    }
}

/// The bits of the variable on the shape.
fn bits(info: &VarInfo, shape: u16) -> u64
    ensures { result ≡ counted (bits_of shape info.now) }
{
    let length = u64::from(info.array.unwrap_or(1));
    on_shape(
        info.shape,
        shape,
        u64::from(info.elem.bits).saturating_mul(length),
    )
}

/// The bits of the variables of a block.
fn declared(locals: &[LocalVar], shape: u16) -> u64
    ensures { result ≡ counted (total (map (λ (l : LocalVar). bits_of shape l.info) locals.now)) }
{
    let mut sum = 0u64;
    for local in locals {
        sum = sum.saturating_add(bits(&local.info, shape));
    }
    sum
}

/// The greatest room of the initialisers of a block.
fn initials(locals: &[LocalVar], shape: u16) -> u64
    ensures { result ≡ counted (greatest (map (expression_room shape) (concat (map (λ (l : LocalVar). optional l.initial) locals.now)))) }
{
    let mut greatest = 0u64;
    for local in locals {
        greatest = greatest.max(optional_expression(&local.initial, shape));
    }
    greatest
}

/// The room of a statement on the shape.
#[cycle(statement)]
fn statement(s: &TStmt, shape: u16) -> u64
    ensures { result ≡ counted (statement_room shape s.now) }
{
    match s {
        TStmt::Block { locals, statements } => {
            let parts = initials(locals, shape).max(greatest_statement(statements, shape));
            declared(locals, shape).saturating_add(parts)
        }
        TStmt::Expression(e) => expression(e, shape, false),
        TStmt::If {
            test,
            then,
            otherwise,
        } => expression(test, shape, false)
            .max(statement(then, shape))
            .max(optional_statement(otherwise, shape)),
        TStmt::Where {
            shape: current,
            test,
            then,
            otherwise,
        } => {
            let parts = expression(test, shape, false)
                .max(statement(then, shape))
                .max(optional_statement(otherwise, shape));
            on_shape(Some(*current), shape, 2).saturating_add(parts)
        }
        TStmt::Everywhere {
            shape: current,
            body,
        } => on_shape(Some(*current), shape, 1).saturating_add(statement(body, shape)),
        TStmt::While { test, body } | TStmt::Do { body, test } => {
            expression(test, shape, false).max(statement(body, shape))
        }
        TStmt::For {
            first,
            test,
            step,
            body,
        } => {
            let first = optional_expression(first, shape);
            let test = optional_expression(test, shape);
            let step = optional_expression(step, shape);
            first.max(test).max(step).max(statement(body, shape))
        }
        TStmt::With { body, .. } => statement(body, shape),
        TStmt::Return(value) => optional_expression(value, shape),
        TStmt::Empty | TStmt::Break | TStmt::Continue => 0,
    }
}

/// The room of a statement that maybe stands there.
#[cycle(statement)]
fn optional_statement(s: &Option<Box<TStmt>>, shape: u16) -> u64
    ensures { result ≡ counted (greatest (map (statement_room shape) (optional_box s.now))) }
{
    match s {
        Some(s) => statement(s, shape),
        None => 0,
    }
}

/// The greatest room of statements.
#[cycle(statement)]
fn greatest_statement(statements: &[TStmt], shape: u16) -> u64
    ensures { result ≡ counted (greatest (map (statement_room shape) statements.now)) }
{
    let mut greatest = 0u64;
    for s in statements {
        greatest = greatest.max(statement(s, shape));
    }
    greatest
}

/// The room of variables that are passed: parameters, or a result.
fn passed(infos: &[VarInfo], shape: u16) -> u64
    ensures { result ≡ counted (passed_bits shape infos.now) }
{
    let mut room = 0u64;
    for info in infos {
        room = room.saturating_add(on_shape(info.shape, shape, VALUE));
    }
    room
}

/// The room of what is answered, if anything is.
fn result_bits(answered: &Option<VarInfo>, shape: u16) -> u64
    ensures { result ≡ passed_bits shape (optional answered.now) }
{
    match answered {
        Some(info) => on_shape(info.shape, shape, VALUE),
        None => 0,
    }
}

/// The room of an instance on the shape, without the instances that it calls.
fn instance(instance: &Instance, shape: u16) -> u64
    ensures { result ≡ counted (own_room shape instance.now) }
{
    passed(&instance.params, shape)
        .saturating_add(result_bits(&instance.result, shape))
        .saturating_add(statement(&instance.body, shape))
}

/// The room that is kept for the number, or 0.
fn room_at(rooms: &[u64], number: usize) -> u64
    ensures { result ≡ slice_index rooms.now number }
{
    rooms.get(number).copied().unwrap_or(0)
}

/// The greatest room of those that the instance of the number calls.
fn greatest_called(rooms: &[u64], called: &[Vec<u32>], number: usize) -> u64
    ensures { result ≡ greatest (map (slice_index rooms.now) (numbers_in (slice_get called.now number))) }
{
    let Some(callees) = called.get(number) else {
        return 0;
    };
    let mut greatest = 0u64;
    for callee in callees {
        greatest = greatest.max(room_at(rooms, *callee as usize));
    }
    greatest
}

/// Gives the instance of the number its room, by the rooms of those that it calls.
fn give_room(
    rooms: &mut [u64],
    instances: &[Instance],
    called: &[Vec<u32>],
    number: usize,
    shape: u16,
)
    requires { length rooms.old ≡ length instances.now }
    ensures given { (i : Instance) → slice_get instances.now number ≡ Some i → rooms.new ≡ slice_set rooms.old number (counted (own_room shape i + greatest (map (slice_index rooms.old) (numbers_in (slice_get called.now number))))) }
    ensures none { slice_get instances.now number ≡ None → rooms.new ≡ rooms.old }
{
    let Some(caller) = instances.get(number) else {
        return;
    };
    let greatest = greatest_called(rooms, called, number);
    rooms[number] = instance(caller, shape).saturating_add(greatest);
}

/// The room of `main` on the shape, with all that it calls. `called` has for each instance those
/// that it calls, and `order` names each instance behind those.
fn main_room(
    alloc: Global,
    instances: &[Instance],
    called: &[Vec<u32>],
    order: &[usize],
    shape: u16,
) -> Result<u64, Memory>
    ensures { HasCalls instances.now called.now → IsCallOrder called.now order.now → IfOk result (λ room. room ≡ counted (instance_room (length instances.now) shape instances.now 0)) }
{
    let mut rooms = vec![in alloc; 0u64; instances.len()]?;
    for number in order {
        give_room(&mut rooms, instances, called, *number, shape);
    }
    Ok(room_at(&rooms, 0))
}

/// The bits of the variables of the file on the shape.
fn file_bits(vars: &[VarInfo], shape: u16) -> u64
    ensures { result ≡ counted (total (map (bits_of shape) vars.now)) }
{
    let mut sum = 0u64;
    for info in vars {
        sum = sum.saturating_add(bits(info, shape));
    }
    sum
}

/// How many bits for each position the program needs on the shape.
pub fn need(
    alloc: Global,
    vars: &[VarInfo],
    instances: &[Instance],
    called: &[Vec<u32>],
    order: &[usize],
    shape: u16,
) -> Result<u64, Memory>
    ensures { HasCalls instances.now called.now → IsCallOrder called.now order.now → IfOk result (λ found. found ≡ counted (need vars.now instances.now shape)) }
{
    let main = main_room(alloc, instances, called, order, shape)?;
    Ok(
        file_bits(vars, shape)
            .saturating_add(2)
            .saturating_add(main),
    )
}
