//! Mode drill: a program of a seed, run on no input, and a line on what it came to.

ghost use Rattle.std.specs.Prelude.{◌≡◌, ◌≢◌, ◌⊎◌, ℕ, List, IfOk};
ghost use Rattle.cstar_top.specs.Accepted.{IsImageOf, IsProgramOf};
ghost use Rattle.cstar_io.specs.Faults.{RisesBy};
ghost use Rattle.cstar_io.specs.Output.{Takes, TakesNothing, TakesPrefix};
ghost use Rattle.cstar_tree.specs.IsTyped.{IsTyped};
ghost use Rattle.cstar_words.specs.declared.options.Mode.TheVariants as M;
ghost use Rattle.lower_stmt.specs.Programs.{HasEveryUnit};
ghost use Rattle.paris_code.specs.declared.program.Image.{Image};
ghost use Rattle.paris_code.specs.Sound.{IsSound};
ghost use Rattle.paris_phases.specs.Doing.{CanDo, Did, Settled};
ghost use Rattle.paris_phases.specs.Machines.{AllReady};
ghost use Rattle.cstar_top.specs.Answers.{status_of};
ghost use Rattle.cstar_top.specs.Drills.{IsRunLine, PutsDrill, PutsPartOfDrill, drill_line};
ghost use Rattle.cstar_top.specs.Outcomes.{CanAnswer};

use crate::answer::Answer;
use crate::compile::{TypedText, accepted, compile};
use crate::run::{run_fault, sent};
use cstar_base::{Memory, Winner};
use cstar_io::{Gate, Sink, SureSink, SureSource};
use drill_text::drill_text;
use image_check::Sound;
use itoa::Buffer;
use paris_code::{Instr, Reply};
use paris_machine::{End, run};
use paris_phases::{Crew, ForkPhases, Machine};
use phase_gate::Phases;
use point_runs::NoImage;
use std::alloc::Global;
use std::thread::Threads;

/// The turns that a drill may spend.
const DRILL_TURNS: u32 = 1_000_000;

/// Makes the text of a seed, runs it on no input into a sink that counts, and puts one line on what
/// that came to. A text that is refused, ends in a fault or is stopped puts nothing.
pub fn drill<R: Threads + Sync, O: Sink, G: Gate + Sync>(
    alloc: Global,
    crew: &Crew<R, G>,
    seed: u32,
    winner: Winner,
    out: &mut O,
) -> Answer
    ensures can { CanAnswer M.Drill DRILL_TURNS result }
    ensures readable { status_of result ≢ 5 }
    ensures input { status_of result ≢ 7 }
    ensures refused { status_of result ≡ 3 → out.new ≡ out.old }
    ensures line { status_of result ≡ 0 → PutsDrill O.agrees out.old out.new seed winner }
    ensures part { TakesNothing O.agrees out.old out.new ⊎ PutsPartOfDrill O.agrees out.old out.new seed winner }
    ensures silent { status_of result ≢ 0 → status_of result ≢ 6 → out.new ≡ out.old }
    ensures write_fault { status_of result ≡ 6 → RisesBy (O.faults out.old) (O.faults out.new) }
    ensures count { status_of result ≢ 6 → O.faults out.new ≡ O.faults out.old }
{
    let Ok(text) = drill_text(alloc, seed) else {
        return Answer::Memory;
    };
    match accepted(alloc, text.as_slice()) {
        Ok(program) => drill_program(alloc, crew, &program, winner, out),
        Err(NoImage::Refused { fault, place }) => Answer::Refused { fault, place },
        Err(NoImage::Memory) => Answer::Memory,
    }
}

/// Runs the drill's program, each instance of which must have code.
fn drill_program<R: Threads + Sync, O: Sink, G: Gate + Sync>(
    alloc: Global,
    crew: &Crew<R, G>,
    program: &TypedText,
    winner: Winner,
    out: &mut O,
) -> Answer
    requires typed { IsTyped program.now.typed }
    requires units { HasEveryUnit program.now.typed }
    ensures can { CanAnswer M.Drill DRILL_TURNS result }
    ensures readable { status_of result ≢ 5 }
    ensures input { status_of result ≢ 7 }
    ensures refused { status_of result ≡ 3 → out.new ≡ out.old }
    ensures line { (text : List ℕ) → IsProgramOf text program.now.typed → status_of result ≡ 0
        → (line : List ℕ) × ((image : Image) × IsSound image × IsImageOf text image × IsRunLine image winner program.now.tokens line) × Takes O.agrees out.old out.new line }
    ensures part { (text : List ℕ) → IsProgramOf text program.now.typed → TakesNothing O.agrees out.old out.new
        ⊎ ((line : List ℕ) × ((image : Image) × IsSound image × IsImageOf text image × IsRunLine image winner program.now.tokens line) × TakesPrefix O.agrees out.old out.new line) }
    ensures silent { status_of result ≢ 0 → status_of result ≢ 6 → out.new ≡ out.old }
    ensures write_fault { status_of result ≡ 6 → RisesBy (O.faults out.old) (O.faults out.new) }
    ensures count { status_of result ≢ 6 → O.faults out.new ≡ O.faults out.old }
{
    match compile(alloc, &program.typed) {
        Ok(sound) => drill_image(alloc, crew, &sound, program.tokens, winner, out),
        Err(NoImage::Refused { fault, place }) => Answer::Refused { fault, place },
        Err(NoImage::Memory) => Answer::Memory,
    }
}

/// Runs the drill's image.
fn drill_image<R: Threads + Sync, O: Sink, G: Gate + Sync>(
    alloc: Global,
    crew: &Crew<R, G>,
    sound: &Sound,
    tokens: usize,
    winner: Winner,
    out: &mut O,
) -> Answer
    ensures can { CanAnswer M.Drill DRILL_TURNS result }
    ensures readable { status_of result ≢ 5 }
    ensures input { status_of result ≢ 7 }
    ensures refused { status_of result ≡ 3 → out.new ≡ out.old }
    ensures line { status_of result ≡ 0 → (line : List ℕ) × IsRunLine sound.now winner tokens line × Takes O.agrees out.old out.new line }
    ensures part { TakesNothing O.agrees out.old out.new ⊎ ((line : List ℕ) × IsRunLine sound.now winner tokens line × TakesPrefix O.agrees out.old out.new line) }
    ensures silent { status_of result ≢ 0 → status_of result ≢ 6 → out.new ≡ out.old }
    ensures write_fault { status_of result ≡ 6 → RisesBy (O.faults out.old) (O.faults out.new) }
    ensures count { status_of result ≢ 6 → O.faults out.new ≡ O.faults out.old }
{
    let phase = |machine: &mut Machine, instr: &Instr, args: &[u32], winner: Winner| -> Reply
        requires { CanDo machine.now instr.now args.now }
        ensures { Did machine.entry.now instr.entry.now args.entry.now winner machine.exit.now result }
    { crew.apply(machine, instr, args, winner) };
    let settle = |machine: &mut Machine|
        requires { AllReady machine.now }
        ensures { Settled machine.entry.now machine.exit.now }
    { crew.settle(machine) };
    let mut phases = match ForkPhases::new(alloc, sound, phase, settle) {
        Ok(phases) => phases,
        Err(_) => return Answer::Memory,
    };
    phases.choose(winner);
    let mut input = SureSource::new(Vec::new(alloc));
    let mut printed = SureSink::new();
    let outcome = run(
        alloc,
        sound,
        DRILL_TURNS,
        &mut phases,
        &mut input,
        &mut printed,
    );
    match outcome.end {
        End::Done => {
            let turns = DRILL_TURNS.saturating_sub(outcome.turns_left);
            report(alloc, tokens, turns, printed.count(), printed.sum(), out)
        }
        End::Fault {
            kind,
            place,
            position,
        } => Answer::Fault {
            fault: run_fault(kind),
            place,
            position,
        },
        End::Stopped => Answer::Stopped { turns: DRILL_TURNS },
        End::Memory => Answer::Memory,
        End::InputBroken | End::OutputBroken => unreachable!(),
    }
}

/// Puts the line on a drill that ran to its end.
fn report<O: Sink>(
    alloc: Global,
    tokens: usize,
    turns: u32,
    bytes: u64,
    total: u32,
    out: &mut O,
) -> Answer
    ensures status { (status_of result ≡ 0) ⊎ ((status_of result ≡ 6) ⊎ (status_of result ≡ 8)) }
    ensures line { status_of result ≡ 0 → Takes O.agrees out.old out.new (drill_line tokens turns bytes total) }
    ensures part { TakesPrefix O.agrees out.old out.new (drill_line tokens turns bytes total) }
    ensures silent { status_of result ≡ 8 → out.new ≡ out.old }
    ensures write_fault { status_of result ≡ 6 → RisesBy (O.faults out.old) (O.faults out.new) }
    ensures count { status_of result ≢ 6 → O.faults out.new ≡ O.faults out.old }
{
    match line(alloc, tokens, turns, bytes, total) {
        Ok(text) => put_line(text.as_slice(), out),
        Err(Memory) => Answer::Memory,
    }
}

/// Puts a line and sends it on.
fn put_line<O: Sink>(text: &[u8], out: &mut O) -> Answer
    ensures status { (status_of result ≡ 0) ⊎ (status_of result ≡ 6) }
    ensures line { status_of result ≢ 6 → Takes O.agrees out.old out.new text.now }
    ensures part { TakesPrefix O.agrees out.old out.new text.now }
    ensures write_fault { status_of result ≡ 6 → RisesBy (O.faults out.old) (O.faults out.new) }
    ensures count { status_of result ≢ 6 → O.faults out.new ≡ O.faults out.old }
{
    match out.put(text) {
        Ok(()) => sent(out, Answer::Done),
        Err(_) => Answer::WriteFault,
    }
}

/// `tokens T turns K bytes B sum Z`
#[tactic(auto, unfolding(crate::specs::Drills::drill_line))]
fn line(alloc: Global, tokens: usize, turns: u32, bytes: u64, total: u32) -> Result<Vec<u8>, Memory>
    ensures { IfOk result (λ text. text.items ≡ drill_line tokens turns bytes total) }
{
    let mut text = Vec::from_slice(alloc, b"tokens ")?;
    text.extend_from_slice(Buffer::new().format(tokens).as_bytes())?;
    text.extend_from_slice(b" turns ")?;
    text.extend_from_slice(Buffer::new().format(turns).as_bytes())?;
    text.extend_from_slice(b" bytes ")?;
    text.extend_from_slice(Buffer::new().format(bytes).as_bytes())?;
    text.extend_from_slice(b" sum ")?;
    text.extend_from_slice(Buffer::new().format(total).as_bytes())?;
    text.extend_from_slice(b"\n")?;
    Ok(text)
}
