ghost use Rattle.std.specs.Prelude.{◌≡◌, ◌+◌, ◌*◌, ◌<◌, ◌≤◌, ℕ, Bool, List, [], length, Option, Some, None, IsSome, IfNone, IfSome, is_some, true, false};
ghost use Rattle.cstar_io.specs.Faults.{RisesBy};
ghost use Rattle.cstar_io.specs.Input.{Took};
ghost use Rattle.paris_code.specs.declared.instr.Instr.{Instr};
ghost use Rattle.paris_code.specs.Code.{Fault, fault_at, opening};
ghost use Rattle.paris_code.specs.Shapes.{shapes_of};
ghost use Rattle.paris_code.specs.Sound.{KeepsRules};
ghost use Rattle.paris_code.specs.Units.{IsAt};
ghost use Rattle.phase_meaning.specs.Apply.{is_check};
ghost use Rattle.front_end.specs.declared.kept.Kept.{Kept};
ghost use Rattle.front_end.specs.Front.{state_of, Fits, joined};
ghost use Rattle.front_end.specs.Kept.{KeptFits};
ghost use Rattle.paris_machine.specs.Ends.{IsNumbered, input_broke, output_broke, input_broke_in, output_broke_in, Tells};
ghost use Rattle.paris_machine.specs.Asked.{IsAsked};
ghost use Rattle.paris_machine.specs.Bound.{most_left};
ghost use Rattle.paris_machine.specs.Runs.{AdvancesBy, IsPutEnd, Puts, Reads, RepliesTo, Runs, Stays, StaysOver, kept_state};

use crate::outcome::{End, Outcome};
use cstar_base::{Place, RunFault};
use cstar_io::{Sink, Source};
use front_end::{Ask, Front, Kept};
use image_check::Sound;
use paris_code::{Instr, Reply};
use phase_gate::Phases;
use std::alloc::Global;

/// The number that a read at the end of the input gives.
const END_OF_INPUT: u32 = u32::MAX;

/// The instruction at an index of the code.
fn instr_at(sound: &Sound, at: u32) -> &Instr
    requires { at < length sound.now.code.items }
    ensures is { IsAt sound.now at result.now }
    ensures keeps { KeepsRules sound.now at result.now }
{
    &sound.image().code[at as usize]
}

/// The fault of a check of the phases, and its place.
fn fault_of(instr: &Instr) -> Option<(RunFault, Place)>
    ensures some { is_some result ≡ is_check instr.now }
    ensures fault { (position : ℕ) → IfSome result (λ f. fault_at instr.now position ≡ Fault f.0 f.1 (Some position)) }
{
    match instr {
        Instr::CheckTarget { place, .. } | Instr::CheckGrid { place, .. } => Some((
            RunFault::Index,
            *place,
        )),
        Instr::CheckDivisor { place, .. } => Some((RunFault::DivZero, *place)),
        _ => None,
    }
}

/// Does the parallel instruction at an index of the code.
fn apply<P: Phases>(sound: &Sound, front: &mut Front, at: u32, p: &mut P) -> Option<End>
    requires fits { Fits sound.now (state_of front.old) }
    requires shapes { P.shapes p.old ≡ shapes_of sound.now }
    requires able { P.able p.old }
    requires asked { IsAsked sound.now at (state_of front.old) }
    ensures fits { Fits sound.now (state_of front.new) }
    ensures shapes { P.shapes p.new ≡ shapes_of sound.now }
    ensures able { P.able p.new }
    ensures ready { IfNone result (front.new.wanted ≡ None) }
    ensures numbered { IfSome result IsNumbered }
    ensures input { input_broke_in result ≡ false }
    ensures output { output_broke_in result ≡ false }
    ensures stays { Stays (state_of front.old) (state_of front.new) }
    ensures meaning { (instr : Instr) → IsAt sound.now at instr → RepliesTo sound.now instr (state_of front.old) (P.memory p.old) result (state_of front.new) (P.memory p.new) }
{
    let instr = instr_at(sound, at);
    match p.apply(instr, front.args()) {
        Reply::Nothing => None,
        Reply::Value(v) => {
            front.answer(v);
            None
        }
        Reply::Bad { position } => {
            let (fault, place) = fault_of(instr).unwrap();
            Some(End::Fault {
                kind: fault.number(),
                place,
                position: Some(position),
            })
        }
        Reply::Memory => Some(End::Memory),
    }
}

/// Prints bytes.
fn put<O: Sink>(bytes: &[u8], out: &mut O) -> Option<End>
    ensures tells { Tells (output_broke_in result) (O.faults out.old) (O.faults out.new) }
    ensures input { input_broke_in result ≡ false }
    ensures only { IsPutEnd result }
    ensures puts { Puts result O.agrees out.old out.new bytes.now }
{
    match out.put(bytes) {
        Ok(()) => None,
        Err(_failed) => Some(End::OutputBroken),
    }
}

/// Prints the bytes of an instruction.
fn put_literal<O: Sink>(sound: &Sound, at: u32, out: &mut O) -> Option<End>
    requires { at < length sound.now.code.items }
    ensures tells { Tells (output_broke_in result) (O.faults out.old) (O.faults out.new) }
    ensures input { input_broke_in result ≡ false }
    ensures puts { (bytes : List ℕ) → IsAt sound.now at (Instr.FrontPutBytes bytes) → IsPutEnd result × Puts result O.agrees out.old out.new bytes }
{
    match instr_at(sound, at) {
        Instr::FrontPutBytes { bytes } => put(bytes.bytes(), out),
        _ => None,
    }
}

/// Reads a byte into the register that wants it. A source that has ended is not asked.
fn read<I: Source>(sound: &Sound, front: &mut Front, ended: &mut bool, input: &mut I) -> Option<End>
    requires fits { Fits sound.now (state_of front.old) }
    requires asked { IsSome front.old.wanted }
    ensures fits { Fits sound.now (state_of front.new) }
    ensures ready { IfNone result (front.new.wanted ≡ None) }
    ensures tells { Tells (input_broke_in result) (I.faults input.old) (I.faults input.new) }
    ensures output { output_broke_in result ≡ false }
    ensures numbered { IfSome result IsNumbered }
    ensures over { ended.old ≡ true → (ended.new ≡ true) × (input.new ≡ input.old) }
    ensures empty { ended.old ≡ false → ended.new ≡ true → IfSome (I.left input.new) (λ rest. rest ≡ []) }
    ensures stays { Stays (state_of front.old) (state_of front.new) }
    ensures meaning { (taken : List ℕ) × Took (I.left input.old) taken (I.left input.new) × StaysOver ended.old result ended.new taken
        × Reads (state_of front.old) result (state_of front.new) ended.new taken }
{
    let byte = if *ended {
        None
    } else {
        match input.next() {
            Ok(byte) => byte,
            Err(_failed) => return Some(End::InputBroken),
        }
    };
    *ended = byte.is_none();
    front.answer(byte.map_or(END_OF_INPUT, u32::from));
    None
}

/// Begins instructions, at most so many, up to the first that asks for something, and does what that
/// asks for. The end, where the run comes to it, and how many instructions were begun.
fn advance<P: Phases, I: Source, O: Sink>(
    sound: &Sound,
    front: &mut Front,
    most: u64,
    ended: &mut bool,
    p: &mut P,
    input: &mut I,
    out: &mut O,
) -> (Option<End>, u64)
    requires some { 0 < most }
    requires fits { Fits sound.now (state_of front.old) }
    requires ready { front.old.wanted ≡ None }
    requires shapes { P.shapes p.old ≡ shapes_of sound.now }
    requires able { P.able p.old }
    ensures most { result.1 ≤ most }
    ensures fits { Fits sound.now (state_of front.new) }
    ensures shapes { P.shapes p.new ≡ shapes_of sound.now }
    ensures able { P.able p.new }
    ensures ready { IfNone result.0 (front.new.wanted ≡ None) }
    ensures input { Tells (input_broke_in result.0) (I.faults input.old) (I.faults input.new) }
    ensures output { Tells (output_broke_in result.0) (O.faults out.old) (O.faults out.new) }
    ensures over { ended.old ≡ true → (ended.new ≡ true) × (input.new ≡ input.old) }
    ensures empty { ended.old ≡ false → ended.new ≡ true → IfSome (I.left input.new) (λ rest. rest ≡ []) }
    ensures falls { IfNone result.0 (most_left sound.now front.new.at front.new.returns.items front.new.turns + result.1
        ≤ most_left sound.now front.old.at front.old.returns.items front.old.turns) }
    ensures meaning { (taken : List ℕ) × ((printed : List ℕ)
        × Took (I.left input.old) taken (I.left input.new) × Puts result.0 O.agrees out.old out.new printed × StaysOver ended.old result.0 ended.new taken
        × AdvancesBy sound.now result.1 (state_of front.old) (P.memory p.old) result.0 (state_of front.new) (P.memory p.new) ended.new taken printed) }
{
    let _image = sound.image();
    let (ask, begun) = front.run(sound, most);
    match ask {
        Ask::Ran => (None, begun),
        Ask::Apply { at } => (apply(sound, front, at, p), begun),
        Ask::Literal { at } => (put_literal(sound, at, out), begun),
        Ask::Digits { text, len } => (put(&text[..usize::from(len)], out), begun),
        Ask::Byte => (read(sound, front, ended, input), begun),
        Ask::Fault { kind, place } => {
            let end = End::Fault {
                kind,
                place,
                position: None,
            };
            (Some(end), begun)
        }
        Ask::Stopped => (Some(End::Stopped), begun),
        Ask::Halted => (Some(End::Done), begun),
    }
}

/// How many instructions a run can begin: between two turns none is begun twice.
fn most_steps(sound: &Sound, turns: u32) -> u64
    ensures { result ≡ (turns + 1) * length sound.now.code.items }
{
    (u64::from(turns) + 1) * sound.image().code.len() as u64
}

/// Begins instructions until the run ends.
fn drive<P: Phases, I: Source, O: Sink>(
    sound: &Sound,
    front: &mut Front,
    ended: &mut bool,
    p: &mut P,
    input: &mut I,
    out: &mut O,
) -> (End, u64)
    requires fits { Fits sound.now (state_of front.old) }
    requires ready { front.old.wanted ≡ None }
    requires shapes { P.shapes p.old ≡ shapes_of sound.now }
    requires able { P.able p.old }
    ensures fits { Fits sound.now (state_of front.new) }
    ensures shapes { P.shapes p.new ≡ shapes_of sound.now }
    ensures able { P.able p.new }
    ensures steps { result.1 ≤ (front.old.turns + 1) * length sound.now.code.items }
    ensures some { 1 ≤ result.1 }
    ensures numbered { IsNumbered result.0 }
    ensures input { Tells (input_broke result.0) (I.faults input.old) (I.faults input.new) }
    ensures output { Tells (output_broke result.0) (O.faults out.old) (O.faults out.new) }
    ensures over { ended.old ≡ true → (ended.new ≡ true) × (input.new ≡ input.old) }
    ensures empty { ended.old ≡ false → ended.new ≡ true → IfSome (I.left input.new) (λ rest. rest ≡ []) }
    ensures meaning { (taken : List ℕ) × ((printed : List ℕ)
        × Took (I.left input.old) taken (I.left input.new) × Puts (Some result.0) O.agrees out.old out.new printed × StaysOver ended.old (Some result.0) ended.new taken
        × Runs sound.now (λ rest. joined (state_of front.old) (P.memory p.old) rest []) result.0 result.1
        (λ rest. joined (state_of front.new) (P.memory p.new) rest printed) ended.new taken) }
{
    let _image = sound.image();
    let most = most_steps(sound, front.turns_left());
    let mut begun = 0;
    'steps: while begun < most {
        let (end, more) = advance(sound, front, most - begun, ended, p, input, out);
        begun += more;
        match end {
            Some(end) => return (end, begun),
            None => {}
        }
    }
    (End::Stopped, 0)
}

/// Runs the code of an image from a kept state, with so many turns, and gives the state where it
/// ended. Memory with 0 steps, and the kept state unchanged, is want of memory for the front end.
/// Else the bytes that were taken, followed by what the input may have left, lead by this many
/// instructions of the code to this end; the output took what they print, or the first of it where
/// it failed. A run that stopped stands at the turn that had none left. A source that has ended is
/// not asked.
pub fn resume<P: Phases, I: Source, O: Sink>(
    alloc: Global,
    sound: &Sound,
    kept: Kept,
    turns: u32,
    p: &mut P,
    input: &mut I,
    out: &mut O,
) -> (Outcome, Kept)
    requires fits { KeptFits sound.now kept }
    requires shapes { P.shapes p.old ≡ shapes_of sound.now }
    requires able { P.able p.old }
    ensures fits { KeptFits sound.now result.1 }
    ensures shapes { P.shapes p.new ≡ shapes_of sound.now }
    ensures able { P.able p.new }
    ensures numbered { IsNumbered result.0.end }
    ensures steps { result.0.steps ≤ (turns + 1) * length sound.now.code.items }
    ensures input { Tells (input_broke result.0.end) (I.faults input.old) (I.faults input.new) }
    ensures output { Tells (output_broke result.0.end) (O.faults out.old) (O.faults out.new) }
    ensures over { kept.ended ≡ true → (result.1.ended ≡ true) × (input.new ≡ input.old) }
    ensures empty { kept.ended ≡ false → result.1.ended ≡ true → IfSome (I.left input.new) (λ rest. rest ≡ []) }
    ensures none { result.0.steps ≡ 0 → (result.0.end ≡ End.Memory) × (result.0.turns_left ≡ turns) × (result.1 ≡ kept) × (p.new ≡ p.old) × (input.new ≡ input.old) × (out.new ≡ out.old) }
    ensures stopped { result.0.end ≡ End.Stopped → (result.0.turns_left ≡ 0) × IsAt sound.now result.1.at Instr.FrontTurn }
    ensures meaning { 0 < result.0.steps → (taken : List ℕ) × ((printed : List ℕ)
        × Took (I.left input.old) taken (I.left input.new) × Puts (Some result.0.end) O.agrees out.old out.new printed
        × StaysOver kept.ended (Some result.0.end) result.1.ended taken
        × Runs sound.now (λ rest. kept_state kept turns (P.memory p.old) rest []) result.0.end result.0.steps
        (λ rest. kept_state result.1 result.0.turns_left (P.memory p.new) rest printed) result.1.ended taken) }
{
    let mut ended = kept.ended;
    let mut front = match Front::from_kept(alloc, sound, kept, turns) {
        Ok(front) => front,
        Err(no_room) => {
            let outcome = Outcome {
                end: End::Memory,
                steps: 0,
                turns_left: turns,
            };
            return (outcome, no_room.kept);
        }
    };
    let (end, steps) = drive(sound, &mut front, &mut ended, p, input, out);
    let outcome = Outcome {
        end,
        steps,
        turns_left: front.turns_left(),
    };
    let mut kept = front.into_kept();
    kept.ended = ended;
    (outcome, kept)
}

/// Runs the code of an image from its start on new phases; else as `resume`.
pub fn run<P: Phases, I: Source, O: Sink>(
    alloc: Global,
    sound: &Sound,
    turns: u32,
    p: &mut P,
    input: &mut I,
    out: &mut O,
) -> Outcome
    requires shapes { P.shapes p.old ≡ shapes_of sound.now }
    requires able { P.able p.old }
    ensures shapes { P.shapes p.new ≡ shapes_of sound.now }
    ensures able { P.able p.new }
    ensures numbered { IsNumbered result.end }
    ensures steps { result.steps ≤ (turns + 1) * length sound.now.code.items }
    ensures input { Tells (input_broke result.end) (I.faults input.old) (I.faults input.new) }
    ensures output { Tells (output_broke result.end) (O.faults out.old) (O.faults out.new) }
    ensures none { result.steps ≡ 0 → (result.end ≡ End.Memory) × (result.turns_left ≡ turns) × (p.new ≡ p.old) × (input.new ≡ input.old) × (out.new ≡ out.old) }
    ensures meaning { 0 < result.steps → (ended : Bool) × ((stopped : Kept) × ((taken : List ℕ) × ((printed : List ℕ)
        × (ended ≡ true → IfSome (I.left input.new) (λ rest. rest ≡ []))
        × Took (I.left input.old) taken (I.left input.new) × Puts (Some result.end) O.agrees out.old out.new printed
        × Runs sound.now (opening sound.now (P.memory p.old) turns) result.end result.steps
        (λ rest. kept_state stopped result.turns_left (P.memory p.new) rest printed) ended taken))) }
{
    match Kept::new(alloc, sound) {
        Ok(kept) => resume(alloc, sound, kept, turns, p, input, out).0,
        Err(_memory) => Outcome {
            end: End::Memory,
            steps: 0,
            turns_left: turns,
        },
    }
}
