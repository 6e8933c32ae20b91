//! A run of an image, and the listing, the final values and the count that go with it.

ghost use Rattle.std.specs.Prelude.{◌≡◌, ◌≢◌, ◌⊎◌, ℕ, ◌++◌, ◌||◌, IfOk, IfSome, is_some, true, false, codes, decimal};
ghost use Rattle.block_store.specs.Stored.{AreWhole, stored};
ghost use Rattle.checkpoint.specs.Bytes.{IsHeld};
ghost use Rattle.cstar_base.specs.declared.operators.Winner.{Winner};
ghost use Rattle.cstar_io.specs.Faults.{RisesBy};
ghost use Rattle.cstar_io.specs.Output.{Takes, TakesNothing, TakesPrefix};
ghost use Rattle.cstar_top.specs.declared.answer.Answer.TheVariants as A;
ghost use Rattle.cstar_top.specs.Answers.{status_of};
ghost use Rattle.cstar_top.specs.Courses.{Reports, ReportsPart, answer_to_end, closing, closing_text, run_fault, steps_line, where_asked};
ghost use Rattle.cstar_top.specs.Runs.{IsEndOfRun};
ghost use Rattle.cstar_top.specs.Saved.{AllStay, CannotSaveRun, ComesWith, HoldsPoint, SavesOne};
ghost use Rattle.final_values.specs.Finals.{finals_text};
ghost use Rattle.front_end.specs.Kept.{KeptFits};
ghost use Rattle.paris_code.specs.Listing.{listing};
ghost use Rattle.paris_code.specs.Memory.{SameBits, fresh_memory};
ghost use Rattle.paris_code.specs.Shapes.{shapes_of};
ghost use Rattle.paris_machine.specs.Ends.{output_broke};
ghost use Rattle.paris_phases.specs.Doing.{CanDo, Did, Settled};
ghost use Rattle.paris_phases.specs.Machines.{AllReady, IsSettled, memory_of, sets_of};
ghost use Rattle.paris_text.specs.Puts.{Puts};
ghost use Rattle.point_bits.specs.Strings.{AreBits};
ghost use Rattle.point_runs.specs.Points.{point_with};
ghost use Rattle.point_runs.specs.Starts.{CanStart, memory_from, origin_of};

use crate::answer::Answer;
use crate::saved::keep_point;
use block_store::BlockSet;
use checkpoint::{Bits, Point};
use cstar_base::{Memory, RunFault, Winner};
use cstar_io::{Failed, Gate, Shelf, ShelfErr, Sink, Source};
use cstar_words::Options;
use final_values::put_finals;
use front_end::Kept;
use image_check::Sound;
use itoa::Buffer;
use paris_code::{Instr, Reply};
use paris_machine::{End, Outcome, resume};
use paris_phases::{Crew, ForkPhases, Machine};
use paris_text::print;
use phase_gate::Phases;
use point_bits::restored;
use point_runs::{Start, point_of};
use std::alloc::Global;
use std::thread::Threads;

/// The status of a run that spent its turns.
const STOPPED: u8 = 4;

/// What a run came to, and its point, where it stopped and is to be saved.
#[derive(Drop)]
struct Ran {
    answer: Answer,
    point: Option<Point>,
}

/// Runs an image on phases of a crew, and puts the listing, the final values and the number of
/// instructions where the options ask for them. What the run comes to, once all is sent on. Where it
/// stopped and is to be saved, its point is kept then; by that time the phases are let go.
pub fn run_image<R: Threads + Sync, S: Shelf, I: Source, O: Sink, G: Gate + Sync>(
    alloc: Global,
    crew: &Crew<R, G>,
    start: Start,
    options: &Options,
    shelf: &mut S,
    input: &mut I,
    out: &mut O,
) -> Answer
    requires { CanStart start }
    ensures end { IsEndOfRun options.now.turns result }
    ensures write_fault { status_of result ≡ 6 → RisesBy (O.faults out.old) (O.faults out.new) }
    ensures input_fault { status_of result ≡ 7 → RisesBy (I.faults input.old) (I.faults input.new) }
    ensures count { status_of result ≢ 6 → O.faults out.new ≡ O.faults out.old }
    ensures input_count { status_of result ≢ 6 → status_of result ≢ 7 → I.faults input.new ≡ I.faults input.old }
    ensures report { status_of result ≢ 6 → status_of result ≢ 8 → Reports O.agrees out.old out.new (I.left input.old) (I.left input.new) options.now (origin_of start) result
        (HoldsPoint S.tells S.file shelf.old shelf.new options.now (status_of result) (origin_of start)) }
    ensures part { ReportsPart O.agrees out.old out.new (I.left input.old) (I.left input.new) options.now (origin_of start) }
    ensures files { AllStay S.file shelf.old shelf.new ⊎ SavesOne S.file shelf.old shelf.new (I.left input.old) (I.left input.new) options.now (origin_of start) }
    ensures stay { status_of result ≢ 4 → status_of result ≢ 8 → status_of result ≢ 9 → AllStay S.file shelf.old shelf.new }
    ensures cannot_save { status_of result ≡ 9 → CannotSaveRun S.faults S.last_failed shelf.old shelf.new options.now }
    ensures shelf_count { status_of result ≢ 9 → S.faults shelf.new ≡ S.faults shelf.old }
{
    let Ran { answer, point } = run_on_phases(alloc, crew, start, options, input, out);
    let Some(point) = point else {
        return answer;
    };
    let Some(name) = options.save else {
        return answer;
    };
    match keep_point(alloc, name, point, shelf) {
        Ok(()) => answer,
        Err(ShelfErr::Failed) => Answer::CannotSave,
        Err(ShelfErr::Memory) => Answer::Memory,
    }
}

/// The same on phases that are let go at the end.
fn run_on_phases<R: Threads + Sync, I: Source, O: Sink, G: Gate + Sync>(
    alloc: Global,
    crew: &Crew<R, G>,
    start: Start,
    options: &Options,
    input: &mut I,
    out: &mut O,
) -> Ran
    requires { CanStart start }
    ensures end { IsEndOfRun options.now.turns result.answer }
    ensures own { status_of result.answer ≢ 9 }
    ensures write_fault { status_of result.answer ≡ 6 → RisesBy (O.faults out.old) (O.faults out.new) }
    ensures input_fault { status_of result.answer ≡ 7 → RisesBy (I.faults input.old) (I.faults input.new) }
    ensures count { status_of result.answer ≢ 6 → O.faults out.new ≡ O.faults out.old }
    ensures input_count { status_of result.answer ≢ 6 → status_of result.answer ≢ 7 → I.faults input.new ≡ I.faults input.old }
    ensures report { status_of result.answer ≢ 6 → status_of result.answer ≢ 8 → Reports O.agrees out.old out.new (I.left input.old) (I.left input.new) options.now (origin_of start) result.answer
        (ComesWith (is_some options.now.save) (origin_of start) result.point) }
    ensures part { ReportsPart O.agrees out.old out.new (I.left input.old) (I.left input.new) options.now (origin_of start) }
    ensures saved { IfSome result.point (λ point. IsHeld point × (status_of result.answer ≡ 4)) }
{
    let phase = |machine: &mut Machine, instr: &Instr, args: &[u32], winner: Winner| -> Reply
        requires { CanDo machine.now instr.now args.now }
        ensures { Did machine.entry.now instr.entry.now args.entry.now winner machine.exit.now result }
    { crew.apply(machine, instr, args, winner) };
    let settle = |machine: &mut Machine|
        requires { AllReady machine.now }
        ensures { Settled machine.entry.now machine.exit.now }
    { crew.settle(machine) };
    let Start {
        sound,
        kept,
        winner,
        bits,
    } = start;
    let mut phases = match phases_from(alloc, &sound, bits, phase, settle) {
        Ok(phases) => phases,
        Err(Memory) => {
            return Ran {
                answer: Answer::Memory,
                point: None,
            };
        }
    };
    phases.choose(winner);
    let (answer, kept) = run_on(alloc, &sound, kept, options, &mut phases, input, out);
    with_point(
        alloc,
        &sound,
        kept,
        winner,
        options,
        phases.into_sets(),
        answer,
    )
}

/// Phases that hold the bits of a point, or those of new phases where there are none.
fn phases_from<F: Fn(&mut Machine, &Instr, &[u32], Winner) -> Reply, S: Fn(&mut Machine)>(
    alloc: Global,
    sound: &Sound,
    bits: Option<Bits>,
    phase: F,
    settle: S,
) -> Result<ForkPhases<F, S>, Memory>
    requires { IfSome bits (AreBits (shapes_of sound.now)) }
    ensures phase { IfOk result (λ p. p.phase ≡ phase) }
    ensures settle { IfOk result (λ p. p.settle ≡ settle) }
    ensures ready { IfOk result (λ p. AllReady p.machine) }
    ensures settled { IfOk result (λ p. IsSettled p.machine) }
    ensures shapes { IfOk result (λ p. sets_of p.machine ≡ shapes_of sound.now) }
    ensures memory { IfOk result (λ p. (winner : Winner) → SameBits (shapes_of sound.now) (record { bit = (memory_of p.machine p.winner).bit; winner = winner }) (memory_from (shapes_of sound.now) winner bits)) }
{
    match bits {
        Some(bits) => match restored(alloc, sound, bits.into_bytes()) {
            Ok(sets) => ForkPhases::with_sets(alloc, sound, sets, phase, settle),
            Err(Memory) => Err(Memory),
        },
        None => ForkPhases::new(alloc, sound, phase, settle),
    }
}

/// The same on phases that hold the bits with which the run begins: the answer, and the state in which
/// the scalar code stopped.
fn run_on<P: Phases, I: Source, O: Sink>(
    alloc: Global,
    sound: &Sound,
    kept: Kept,
    options: &Options,
    phases: &mut P,
    input: &mut I,
    out: &mut O,
) -> (Answer, Kept)
    requires fits { KeptFits sound.now kept }
    requires shapes { P.shapes phases.old ≡ shapes_of sound.now }
    requires able { P.able phases.old }
    requires settled { P.settled phases.old }
    ensures end { IsEndOfRun options.now.turns result.0 }
    ensures own { status_of result.0 ≢ 9 }
    ensures write_fault { status_of result.0 ≡ 6 → RisesBy (O.faults out.old) (O.faults out.new) }
    ensures input_fault { status_of result.0 ≡ 7 → RisesBy (I.faults input.old) (I.faults input.new) }
    ensures count { status_of result.0 ≢ 6 → O.faults out.new ≡ O.faults out.old }
    ensures input_count { status_of result.0 ≢ 6 → status_of result.0 ≢ 7 → I.faults input.new ≡ I.faults input.old }
    ensures report { status_of result.0 ≢ 6 → status_of result.0 ≢ 8 → Reports O.agrees out.old out.new (I.left input.old) (I.left input.new) options.now
        (record { image = sound.now; kept = kept; memory = P.memory phases.old }) result.0
        (λ course. (course.stopped ≡ result.1) × (course.memory ≡ P.memory phases.new)) }
    ensures part { ReportsPart O.agrees out.old out.new (I.left input.old) (I.left input.new) options.now
        (record { image = sound.now; kept = kept; memory = P.memory phases.old }) }
    ensures fits { KeptFits sound.now result.1 }
    ensures settled { P.settled phases.new }
    ensures shapes { P.shapes phases.new ≡ P.shapes phases.old }
{
    match put_listing(sound, options, out) {
        Ok(()) => {}
        Err(_) => return (Answer::WriteFault, kept),
    }
    let (outcome, kept) = resume(alloc, sound, kept, options.turns, phases, input, out);
    phases.settle();
    (finish(sound, options, outcome, phases, out), kept)
}

/// The answer of a run, with the point at which it stopped, where it did and is to be saved; want of
/// memory where there is none for that.
fn with_point(
    alloc: Global,
    sound: &Sound,
    kept: Kept,
    winner: Winner,
    options: &Options,
    sets: Vec<BlockSet>,
    answer: Answer,
) -> Ran
    requires fits { KeptFits sound.now kept }
    requires sets { AreWhole (shapes_of sound.now) sets.items }
    ensures own { (result.answer ≡ answer) ⊎ ((status_of answer ≡ 4) × (result.answer ≡ A.Memory)) }
    ensures point { IfSome result.point (λ point. IsHeld point × (status_of answer ≡ 4) × (result.answer ≡ answer)
        × ((w : Winner) → point ≡ point_with sound.now kept winner (stored sets.items w))) }
    ensures none { result.answer ≡ answer → status_of answer ≡ 4 → is_some options.now.save ≡ true → is_some result.point ≡ true }
{
    if answer.status() != STOPPED || options.save.is_none() {
        return Ran {
            answer,
            point: None,
        };
    }
    match point_of(alloc, sound, kept, winner, sets) {
        Ok(point) => Ran {
            answer,
            point: Some(point),
        },
        Err(Memory) => Ran {
            answer: Answer::Memory,
            point: None,
        },
    }
}

/// Puts the listing, where it is asked for.
fn put_listing<O: Sink>(sound: &Sound, options: &Options, out: &mut O) -> Result<(), Failed>
    ensures { Puts O.agrees O.faults out.old out.new result (where_asked options.now.listing (listing sound.now)) }
{
    if options.listing {
        print(sound.image(), out)
    } else {
        Ok(())
    }
}

/// The fault of a run that has this number.
pub fn run_fault(kind: u8) -> RunFault
    ensures { result ≡ run_fault kind }
{
    if kind == RunFault::Index.number() {
        RunFault::Index
    } else {
        RunFault::DivZero
    }
}

/// The answer to the end of a run.
fn answer_of(end: End, turns: u32) -> Answer
    ensures { result ≡ answer_to_end turns end }
{
    match end {
        End::Done => Answer::Done,
        End::Fault {
            kind,
            place,
            position,
        } => Answer::Fault {
            fault: run_fault(kind),
            place,
            position,
        },
        End::Stopped => Answer::Stopped { turns },
        End::InputBroken => Answer::InputFault,
        End::OutputBroken => Answer::WriteFault,
        End::Memory => Answer::Memory,
    }
}

/// The answer of a run, once what stands behind its own output is put and all is sent on. After a
/// write fault nothing is put.
fn finish<P: Phases, O: Sink>(
    sound: &Sound,
    options: &Options,
    outcome: Outcome,
    phases: &P,
    out: &mut O,
) -> Answer
    requires shapes { P.shapes phases.now ≡ shapes_of sound.now }
    requires settled { P.settled phases.now }
    ensures end { IsEndOfRun options.now.turns result }
    ensures own { status_of result ≢ 6 → result ≡ answer_to_end options.now.turns outcome.end }
    ensures taken { status_of result ≢ 6 → Takes O.agrees out.old out.new (closing outcome.end (closing_text options.now sound.now outcome.steps (P.memory phases.now))) }
    ensures part { TakesPrefix O.agrees out.old out.new (closing outcome.end (closing_text options.now sound.now outcome.steps (P.memory phases.now))) }
    ensures silent { output_broke outcome.end ≡ true → (out.new ≡ out.old) × (status_of result ≡ 6) }
    ensures write_fault { output_broke outcome.end ≡ false → status_of result ≡ 6 → RisesBy (O.faults out.old) (O.faults out.new) }
    ensures count { status_of result ≢ 6 → O.faults out.new ≡ O.faults out.old }
{
    let answer = answer_of(outcome.end, options.turns);
    match outcome.end {
        End::Done | End::Fault { .. } | End::Stopped => {
            ended(sound, options, outcome.steps, phases, out, answer)
        }
        End::InputBroken | End::Memory => sent(out, answer),
        End::OutputBroken => answer,
    }
}

/// The answer of a run that came to its end, a fault or its last turn, once its final values and the
/// number of its instructions are put, where they are asked for, and the output is sent on.
fn ended<P: Phases, O: Sink>(
    sound: &Sound,
    options: &Options,
    steps: u64,
    phases: &P,
    out: &mut O,
    answer: Answer,
) -> Answer
    requires shapes { P.shapes phases.now ≡ shapes_of sound.now }
    requires settled { P.settled phases.now }
    ensures end { (turns : ℕ) → IsEndOfRun turns answer → IsEndOfRun turns result }
    ensures own { status_of result ≢ 6 → result ≡ answer }
    ensures taken { status_of result ≢ 6 → Takes O.agrees out.old out.new (closing_text options.now sound.now steps (P.memory phases.now)) }
    ensures part { TakesPrefix O.agrees out.old out.new (closing_text options.now sound.now steps (P.memory phases.now)) }
    ensures write_fault { status_of answer ≢ 6 → status_of result ≡ 6 → RisesBy (O.faults out.old) (O.faults out.new) }
    ensures count { status_of result ≢ 6 → O.faults out.new ≡ O.faults out.old }
{
    match put_end(sound, options, steps, phases, out) {
        Ok(()) => sent(out, answer),
        Err(_) => Answer::WriteFault,
    }
}

/// Puts what stands behind a run's own output: with final values or a listing a newline, then the
/// final values, then with a listing the number of instructions.
fn put_end<P: Phases, O: Sink>(
    sound: &Sound,
    options: &Options,
    steps: u64,
    phases: &P,
    out: &mut O,
) -> Result<(), Failed>
    requires shapes { P.shapes phases.now ≡ shapes_of sound.now }
    requires settled { P.settled phases.now }
    ensures { Puts O.agrees O.faults out.old out.new result (closing_text options.now sound.now steps (P.memory phases.now)) }
{
    match put_newline(options, out) {
        Ok(()) => put_values(sound, options, steps, phases, out),
        Err(failed) => Err(failed),
    }
}

/// Puts the newline before final values or the number of instructions.
fn put_newline<O: Sink>(options: &Options, out: &mut O) -> Result<(), Failed>
    ensures { Puts O.agrees O.faults out.old out.new result (where_asked (options.now.finals || options.now.listing) (codes "\n")) }
{
    if options.finals || options.listing {
        out.put(b"\n")
    } else {
        Ok(())
    }
}

/// Puts the final values and the number of instructions, where they are asked for.
fn put_values<P: Phases, O: Sink>(
    sound: &Sound,
    options: &Options,
    steps: u64,
    phases: &P,
    out: &mut O,
) -> Result<(), Failed>
    requires shapes { P.shapes phases.now ≡ shapes_of sound.now }
    requires settled { P.settled phases.now }
    ensures { Puts O.agrees O.faults out.old out.new result (where_asked options.now.finals (finals_text (shapes_of sound.now) (P.memory phases.now) sound.now.finals.items)
        ++ where_asked options.now.listing (steps_line steps)) }
{
    match put_finals_where(options.finals, sound, phases, out) {
        Ok(()) => put_steps(options.listing, steps, out),
        Err(failed) => Err(failed),
    }
}

/// Puts the final values, where they are asked for.
fn put_finals_where<P: Phases, O: Sink>(
    asked: bool,
    sound: &Sound,
    phases: &P,
    out: &mut O,
) -> Result<(), Failed>
    requires shapes { P.shapes phases.now ≡ shapes_of sound.now }
    requires settled { P.settled phases.now }
    ensures { Puts O.agrees O.faults out.old out.new result (where_asked asked (finals_text (shapes_of sound.now) (P.memory phases.now) sound.now.finals.items)) }
{
    if asked {
        put_finals(sound, phases, out)
    } else {
        Ok(())
    }
}

/// Puts `;; N instructions`, where it is asked for.
fn put_steps<O: Sink>(asked: bool, steps: u64, out: &mut O) -> Result<(), Failed>
    ensures { Puts O.agrees O.faults out.old out.new result (where_asked asked (steps_line steps)) }
{
    if asked { put_count(steps, out) } else { Ok(()) }
}

/// `;; N instructions`
fn put_count<O: Sink>(steps: u64, out: &mut O) -> Result<(), Failed>
    ensures { Puts O.agrees O.faults out.old out.new result (steps_line steps) }
{
    match out.put(b";; ") {
        Ok(()) => put_number(steps, out),
        Err(failed) => Err(failed),
    }
}

/// `N instructions`
fn put_number<O: Sink>(steps: u64, out: &mut O) -> Result<(), Failed>
    ensures { Puts O.agrees O.faults out.old out.new result (decimal steps ++ codes " instructions\n") }
{
    match out.put(Buffer::new().format(steps).as_bytes()) {
        Ok(()) => out.put(b" instructions\n"),
        Err(failed) => Err(failed),
    }
}

/// Puts the listing of an image.
pub fn list_image<O: Sink>(sound: &Sound, out: &mut O) -> Answer
    ensures listed { status_of result ≢ 6 → Takes O.agrees out.old out.new (listing sound.now) }
    ensures part { TakesPrefix O.agrees out.old out.new (listing sound.now) }
    ensures own { status_of result ≢ 6 → result ≡ A.Done }
    ensures write_fault { status_of result ≡ 6 → RisesBy (O.faults out.old) (O.faults out.new) }
    ensures count { status_of result ≢ 6 → O.faults out.new ≡ O.faults out.old }
{
    match print(sound.image(), out) {
        Ok(()) => sent(out, Answer::Done),
        Err(_) => Answer::WriteFault,
    }
}

/// The answer, once the output is sent on, or a write fault where that fails.
pub fn sent<O: Sink>(out: &mut O, answer: Answer) -> Answer
    ensures nothing { TakesNothing O.agrees out.old out.new }
    ensures end { (turns : ℕ) → IsEndOfRun turns answer → IsEndOfRun turns result }
    ensures own { status_of result ≢ 6 → result ≡ answer }
    ensures write_fault { status_of answer ≢ 6 → status_of result ≡ 6 → RisesBy (O.faults out.old) (O.faults out.new) }
    ensures count { status_of result ≢ 6 → O.faults out.new ≡ O.faults out.old }
{
    match out.flush() {
        Ok(()) => answer,
        Err(_) => Answer::WriteFault,
    }
}
