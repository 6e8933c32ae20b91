//! The command: its words, its file, and what they come to.

ghost use Rattle.std.specs.Prelude.{◌≡◌, ◌≢◌, ◌<◌, ◌≤◌, ℕ, List, true, false, ◌⊎◌, Err, Some, map, length, IfErr, IfOk};
ghost use Rattle.std.specs.String.{string_bytes};
ghost use Rattle.cstar_base.specs.declared.faults.Fault.{Fault};
ghost use Rattle.cstar_base.specs.declared.faults.Fault.TheVariants as F;
ghost use Rattle.cstar_base.specs.declared.operators.Place.{Place};
ghost use Rattle.cstar_io.specs.Faults.{RisesBy};
ghost use Rattle.cstar_io.specs.Output.{Takes, TakesNothing};
ghost use Rattle.cstar_words.specs.declared.options.Mode.{Mode};
ghost use Rattle.cstar_words.specs.declared.options.Mode.TheVariants as M;
ghost use Rattle.cstar_words.specs.declared.options.Options.{Options};
ghost use Rattle.cstar_words.specs.Reading.{Reads, is_command, rows_in};
ghost use Rattle.listed_images.specs.Meaning.{IsListable};
ghost use Rattle.paris_code.specs.Sound.{IsSound};
ghost use Rattle.point_runs.specs.declared.refusal.NoImage.TheVariants as N;
ghost use Rattle.point_runs.specs.Refusals.{TellsWhy, file_start};
ghost use Rattle.point_runs.specs.Starts.{CanStart, Origin, new_start, origin_of};
ghost use Rattle.cstar_top.specs.declared.answer.Answer.{Answer};
ghost use Rattle.cstar_top.specs.declared.answer.Answer.TheVariants as A;
ghost use Rattle.cstar_top.specs.Accepted.{IsImageOf};
ghost use Rattle.cstar_top.specs.Answers.{line_of, status_of, usage_line};
ghost use Rattle.cstar_top.specs.Drills.{DrillPartTaken, DrillTaken, PutsDrill, PutsPartOfDrill};
ghost use Rattle.cstar_top.specs.Listings.{TakesListing, TakesPartOfListing};
ghost use Rattle.cstar_top.specs.Modes.{AsksFor, LeavesInput, budget, leaves_input, limit_of, named, reads_file, runs_image, saved_name};
ghost use Rattle.cstar_top.specs.Outcomes.{CanAnswer};
ghost use Rattle.cstar_top.specs.Refusals.{AnswersWhy, CanName, HoldsLong, NamesOnly, RefusesLong, RefusesRun, answer_to_none};
ghost use Rattle.cstar_top.specs.Reported.{AsksToRun, Begins, Holds, IsWhole, ReportsText, ReportsTextPart};
ghost use Rattle.cstar_top.specs.Reports.{CannotFetch, PutsAnswer, PutsPartOfAnswer, told_name};
ghost use Rattle.cstar_top.specs.Saved.{AllStay, CannotKeep, CannotSaveRun, IsSaved, SavesOne};

use crate::answer::Answer;
use crate::compile::{accepted, checked, compile};
use crate::drill::drill;
use crate::report::report;
use crate::run::{list_image, run_image};
use cstar_base::{Memory, Winner};
use cstar_io::{Gate, Shelf, ShelfErr, Sink, Source};
use cstar_words::{Mode, Options, WordsErr, read};
use image_check::Sound;
use paris_phases::Crew;
use point_runs::{FILE_LIMIT, NoImage, POINT_LIMIT, Start, assembled, resumed};
use std::alloc::Global;
use std::thread::Threads;

/// What the command comes to.
#[tactic(auto, using(crate::proofs::Listings::nothing_taken))]
fn answer<R: Threads + Sync, S: Shelf, I: Source, O: Sink, G: Gate + Sync>(
    alloc: Global,
    crew: &Crew<R, G>,
    options: &Options,
    shelf: &mut S,
    input: &mut I,
    out: &mut O,
) -> Answer
    ensures can { CanAnswer options.now.mode (budget options.now.mode options.now.turns) result }
    ensures refused { status_of result ≡ 3 → (out.new ≡ out.old) × (input.new ≡ input.old) }
    ensures unreadable { status_of result ≡ 5 → (result ≡ A.CannotRead) × (out.new ≡ out.old) × (input.new ≡ input.old)
        × CannotFetch S.faults S.last_failed shelf.old shelf.new options.now.file.now }
    ensures too_long { reads_file options.now.mode ≡ true → HoldsLong S.tells S.file shelf.old (limit_of options.now.mode) options.now.file.now
        → (result ≡ A.Refused F.TooLong file_start) ⊎ ((status_of result ≡ 5) ⊎ (status_of result ≡ 8)) }
    ensures listed { options.now.mode ≡ M.List → status_of result ≡ 0
        → (text : List ℕ) × Holds S.tells S.file shelf.old options.now.file.now text × TakesListing O.agrees out.old out.new text }
    ensures part { options.now.mode ≡ M.List → TakesNothing O.agrees out.old out.new
        ⊎ ((text : List ℕ) × Holds S.tells S.file shelf.old options.now.file.now text × TakesPartOfListing O.agrees out.old out.new text) }
    ensures report { runs_image options.now.mode ≡ true → status_of result ≢ 3 → status_of result ≢ 5 → status_of result ≢ 6 → status_of result ≢ 8
        → (text : List ℕ) × Holds S.tells S.file shelf.old options.now.file.now text
        × ReportsText O.agrees out.old out.new (I.left input.old) (I.left input.new) options.now text result
        (IsSaved S.tells S.file shelf.old shelf.new options.now text (status_of result)) }
    ensures part_of_report { runs_image options.now.mode ≡ true → TakesNothing O.agrees out.old out.new
        ⊎ ((text : List ℕ) × Holds S.tells S.file shelf.old options.now.file.now text
        × ReportsTextPart O.agrees out.old out.new (I.left input.old) (I.left input.new) options.now text) }
    ensures why { runs_image options.now.mode ≡ true → status_of result ≡ 3
        → (text : List ℕ) × Holds S.tells S.file shelf.old options.now.file.now text × AnswersWhy (RefusesRun options.now.mode text) result }
    ensures drill { options.now.mode ≡ M.Drill → status_of result ≡ 0 → PutsDrill O.agrees out.old out.new options.now.seed options.now.winner }
    ensures part_of_drill { options.now.mode ≡ M.Drill → TakesNothing O.agrees out.old out.new ⊎ PutsPartOfDrill O.agrees out.old out.new options.now.seed options.now.winner }
    ensures silent_drill { options.now.mode ≡ M.Drill → status_of result ≢ 0 → status_of result ≢ 6 → out.new ≡ out.old }
    ensures silent { options.now.mode ≡ M.Check → out.new ≡ out.old }
    ensures unread { leaves_input options.now.mode ≡ true → input.new ≡ input.old }
    ensures write_fault { status_of result ≡ 6 → RisesBy (O.faults out.old) (O.faults out.new) }
    ensures input_fault { status_of result ≡ 7 → RisesBy (I.faults input.old) (I.faults input.new) }
    ensures count { status_of result ≢ 6 → O.faults out.new ≡ O.faults out.old }
    ensures input_count { status_of result ≢ 6 → status_of result ≢ 7 → I.faults input.new ≡ I.faults input.old }
    ensures shelf_count { status_of result ≢ 5 → status_of result ≢ 9 → S.faults shelf.new ≡ S.faults shelf.old }
    ensures files { AllStay S.file shelf.old shelf.new ⊎ ((runs_image options.now.mode ≡ true)
        × ((text : List ℕ) × Holds S.tells S.file shelf.old options.now.file.now text
        × ((from : Origin) × Begins options.now.mode options.now.winner text from
        × SavesOne S.file shelf.old shelf.new (I.left input.old) (I.left input.new) options.now from))) }
    ensures stay { status_of result ≢ 4 → status_of result ≢ 8 → status_of result ≢ 9 → AllStay S.file shelf.old shelf.new }
    ensures cannot_save { status_of result ≡ 9 → CannotSaveRun S.faults S.last_failed shelf.old shelf.new options.now }
{
    if let Mode::Drill = options.mode {
        return drill(alloc, crew, options.seed, options.winner, out);
    }
    let text = match shelf.fetch(options.file, limit(options.mode)) {
        Ok(text) => text,
        Err(ShelfErr::Failed) => return Answer::CannotRead,
        Err(ShelfErr::Memory) => return Answer::Memory,
    };
    if runs_image(options.mode) {
        run_text(alloc, crew, options, text, shelf, input, out)
    } else {
        compile_text(alloc, options.mode, text.as_slice(), out)
    }
}

/// The greatest length of a file.
fn limit(mode: Mode) -> u32
    ensures { result ≡ limit_of mode }
{
    match mode {
        Mode::Resume => POINT_LIMIT,
        Mode::Run | Mode::List | Mode::Check | Mode::Drill | Mode::Asm => FILE_LIMIT,
    }
}

/// Whether an image of the file is run.
fn runs_image(mode: Mode) -> bool
    ensures { result ≡ runs_image mode }
{
    match mode {
        Mode::Run | Mode::Asm | Mode::Resume => true,
        Mode::List | Mode::Check | Mode::Drill => false,
    }
}

/// What the command comes to on the text of a program that is not run.
fn compile_text<O: Sink>(alloc: Global, mode: Mode, text: &[u8], out: &mut O) -> Answer
    requires file { mode ≢ M.Drill }
    requires runs { runs_image mode ≡ false }
    ensures can { (turns : ℕ) → CanAnswer mode turns result }
    ensures own { (status_of result ≡ 0) ⊎ ((status_of result ≡ 3) ⊎ ((status_of result ≡ 6) ⊎ (status_of result ≡ 8))) }
    ensures refused { status_of result ≡ 3 → out.new ≡ out.old }
    ensures too_long { 1048576 < length text.now → result ≡ A.Refused F.TooLong file_start }
    ensures listed { mode ≡ M.List → status_of result ≡ 0 → TakesListing O.agrees out.old out.new text.now }
    ensures part { mode ≡ M.List → TakesNothing O.agrees out.old out.new ⊎ TakesPartOfListing O.agrees out.old out.new text.now }
    ensures silent { mode ≡ M.Check → out.new ≡ out.old }
    ensures write_fault { status_of result ≡ 6 → RisesBy (O.faults out.old) (O.faults out.new) }
    ensures count { status_of result ≢ 6 → O.faults out.new ≡ O.faults out.old }
{
    match mode {
        Mode::Check => match checked(alloc, text) {
            Ok(()) => Answer::Done,
            Err(no_image) => refusal(no_image),
        },
        Mode::List => match compiled(alloc, text) {
            Ok(sound) => list_image(&sound, out),
            Err(no_image) => refusal(no_image),
        },
        Mode::Run | Mode::Drill | Mode::Asm | Mode::Resume => unreachable!(),
    }
}

/// What the command comes to on the text of a file whose image is run.
fn run_text<R: Threads + Sync, S: Shelf, I: Source, O: Sink, G: Gate + Sync>(
    alloc: Global,
    crew: &Crew<R, G>,
    options: &Options,
    text: Vec<u8>,
    shelf: &mut S,
    input: &mut I,
    out: &mut O,
) -> Answer
    requires { runs_image options.now.mode ≡ true }
    ensures can { CanAnswer options.now.mode options.now.turns result }
    ensures readable { status_of result ≢ 5 }
    ensures refused { status_of result ≡ 3 → (out.new ≡ out.old) × (input.new ≡ input.old) }
    ensures too_long { limit_of options.now.mode < length text.items → result ≡ A.Refused F.TooLong file_start }
    ensures why { AnswersWhy (RefusesRun options.now.mode text.items) result }
    ensures report { status_of result ≢ 3 → status_of result ≢ 6 → status_of result ≢ 8
        → ReportsText O.agrees out.old out.new (I.left input.old) (I.left input.new) options.now text.items result
        (IsSaved S.tells S.file shelf.old shelf.new options.now text.items (status_of result)) }
    ensures part { TakesNothing O.agrees out.old out.new
        ⊎ ReportsTextPart O.agrees out.old out.new (I.left input.old) (I.left input.new) options.now text.items }
    ensures write_fault { status_of result ≡ 6 → RisesBy (O.faults out.old) (O.faults out.new) }
    ensures input_fault { status_of result ≡ 7 → RisesBy (I.faults input.old) (I.faults input.new) }
    ensures count { status_of result ≢ 6 → O.faults out.new ≡ O.faults out.old }
    ensures input_count { status_of result ≢ 6 → status_of result ≢ 7 → I.faults input.new ≡ I.faults input.old }
    ensures files { AllStay S.file shelf.old shelf.new ⊎ ((from : Origin) × Begins options.now.mode options.now.winner text.items from
        × SavesOne S.file shelf.old shelf.new (I.left input.old) (I.left input.new) options.now from) }
    ensures stay { status_of result ≢ 4 → status_of result ≢ 8 → status_of result ≢ 9 → AllStay S.file shelf.old shelf.new }
    ensures cannot_save { status_of result ≡ 9 → CannotSaveRun S.faults S.last_failed shelf.old shelf.new options.now }
    ensures shelf_count { status_of result ≢ 9 → S.faults shelf.new ≡ S.faults shelf.old }
{
    match start_of(alloc, options, text) {
        Ok(start) => run_image(alloc, crew, start, options, shelf, input, out),
        Err(no_image) => refusal(no_image),
    }
}

/// Where the run of a file's text begins. The text of a point is let go.
fn start_of(alloc: Global, options: &Options, text: Vec<u8>) -> Result<Start, NoImage>
    requires { runs_image options.now.mode ≡ true }
    ensures begins { IfOk result (λ start. Begins options.now.mode options.now.winner text.items (origin_of start)) }
    ensures can { IfOk result CanStart }
    ensures too_long { limit_of options.now.mode < length text.items → result ≡ Err (N.Refused F.TooLong file_start) }
    ensures refused { IfErr result (TellsWhy (RefusesRun options.now.mode text.items)) }
{
    match options.mode {
        Mode::Run => match compiled(alloc, text.as_slice()) {
            Ok(sound) => new_run(alloc, sound, options.winner),
            Err(no_image) => Err(no_image),
        },
        Mode::Asm => match assembled(alloc, text.as_slice()) {
            Ok(sound) => new_run(alloc, sound, options.winner),
            Err(no_image) => Err(no_image),
        },
        Mode::Resume => resumed(alloc, text),
        Mode::List | Mode::Check | Mode::Drill => unreachable!(),
    }
}

/// Where a new run of an image begins.
fn new_run(alloc: Global, sound: Sound, winner: Winner) -> Result<Start, NoImage>
    ensures new { IfOk result (λ start. origin_of start ≡ new_start sound winner) }
    ensures can { IfOk result CanStart }
    ensures memory { IfErr result (λ no_image. no_image ≡ N.Memory) }
{
    match Start::new(alloc, sound, winner) {
        Ok(start) => Ok(start),
        Err(Memory) => Err(NoImage::Memory),
    }
}

/// The image of a program.
fn compiled(alloc: Global, text: &[u8]) -> Result<Sound, NoImage>
    ensures compiled { IfOk result (λ sound. IsImageOf text.now sound) }
    ensures sound { IfOk result IsSound }
    ensures listable { IfOk result IsListable }
    ensures within { IfOk result (λ sound. length text.now ≤ FILE_LIMIT) }
    ensures too_long { FILE_LIMIT < length text.now → result ≡ Err (N.Refused F.TooLong file_start) }
    ensures refused { IfErr result (NamesOnly (CanName M.List)) }
{
    match accepted(alloc, text) {
        Ok(program) => compile(alloc, &program.typed),
        Err(no_image) => Err(no_image),
    }
}

/// The answer where there is no image.
fn refusal(no_image: NoImage) -> Answer
    ensures own { result ≡ answer_to_none no_image }
    ensures status { (status_of result ≡ 3) ⊎ (status_of result ≡ 8) }
{
    match no_image {
        NoImage::Refused { fault, place } => Answer::Refused { fault, place },
        NoImage::Memory => Answer::Memory,
    }
}

/// Does what the words of the command ask for, with the files of a shelf, an input and an output.
/// What the command says itself goes to `err`: one line at most. The answer is the status:
///
/// - 0 all went well; 1 the program ended in a fault; 4 it spent its turns;
/// - 2 the words are no command;
/// - 3 the file is refused for its first fault;
/// - 5 the shelf failed to fetch the file;
/// - 6 an output failed, and nothing more was put; 7 the input failed;
/// - 8 there was no memory; 9 the run was stopped, and its point cannot be kept.
///
/// The parallel instructions are done over blocks of 512 positions, by as many workers as pay and at
/// most as many as `--workers` gives, in threads that `rt` starts; `gate` is called for each block of
/// a pass. Neither has a part in what the command answers and puts.
#[tactic(auto, unfolding(crate::specs::Answers::line_of))]
pub fn cstar<R: Threads + Sync, S: Shelf, I: Source, O: Sink, E: Sink, G: Gate + Sync>(
    rt: &R,
    alloc: Global,
    words: &[String],
    shelf: &mut S,
    input: &mut I,
    out: &mut O,
    err: &mut E,
    gate: &G,
) -> u8
    ensures listed { result ≤ 9 }
    ensures line { result ≢ 6 → PutsAnswer E.agrees err.old err.new (map string_bytes words.now) result }
    ensures part { result ≡ 6 → PutsPartOfAnswer E.agrees err.old err.new (map string_bytes words.now) }
    ensures usage { result ≡ 2 → (is_command (map string_bytes words.now) ≡ false) × Takes E.agrees err.old err.new usage_line }
    ensures no_command { is_command (map string_bytes words.now) ≡ false → (out.new ≡ out.old) × (input.new ≡ input.old) × (shelf.new ≡ shelf.old) }
    ensures refused { result ≡ 3 → (out.new ≡ out.old) × (input.new ≡ input.old) }
    ensures too_long { is_command (map string_bytes words.now) ≡ true → (mode : Mode) → AsksFor mode (map string_bytes words.now) → reads_file mode ≡ true
        → HoldsLong S.tells S.file shelf.old (limit_of mode) (named (map string_bytes words.now))
        → RefusesLong E.agrees err.old err.new (named (map string_bytes words.now)) result }
    ensures unreadable { result ≡ 5 → (out.new ≡ out.old) × (input.new ≡ input.old)
        × CannotFetch S.faults S.last_failed shelf.old shelf.new (named (map string_bytes words.now)) }
    ensures listing { AsksFor M.List (map string_bytes words.now) → result ≡ 0
        → (text : List ℕ) × Holds S.tells S.file shelf.old (named (map string_bytes words.now)) text × TakesListing O.agrees out.old out.new text }
    ensures part_of_listing { AsksFor M.List (map string_bytes words.now) → TakesNothing O.agrees out.old out.new
        ⊎ ((text : List ℕ) × Holds S.tells S.file shelf.old (named (map string_bytes words.now)) text × TakesPartOfListing O.agrees out.old out.new text) }
    ensures report { AsksToRun (map string_bytes words.now) → IsWhole result
        → (options : Options) × Reads (rows_in (map string_bytes words.now)) options × ((text : List ℕ) × Holds S.tells S.file shelf.old options.file.now text
        × ((answer : Answer) × (status_of answer ≡ result) × Takes E.agrees err.old err.new (line_of (told_name options answer) answer)
        × ReportsText O.agrees out.old out.new (I.left input.old) (I.left input.new) options text answer
        (IsSaved S.tells S.file shelf.old shelf.new options text result))) }
    ensures part_of_report { AsksToRun (map string_bytes words.now) → TakesNothing O.agrees out.old out.new
        ⊎ ((options : Options) × Reads (rows_in (map string_bytes words.now)) options × ((text : List ℕ) × Holds S.tells S.file shelf.old options.file.now text
        × ReportsTextPart O.agrees out.old out.new (I.left input.old) (I.left input.new) options text)) }
    ensures why { (mode : Mode) → AsksFor mode (map string_bytes words.now) → runs_image mode ≡ true → result ≡ 3 → (text : List ℕ)
        × Holds S.tells S.file shelf.old (named (map string_bytes words.now)) text
        × ((fault : Fault) × ((place : Place) × RefusesRun mode text fault place
        × Takes E.agrees err.old err.new (line_of (named (map string_bytes words.now)) (A.Refused fault place)))) }
    ensures drill { AsksFor M.Drill (map string_bytes words.now) → result ≡ 0 → DrillTaken O.agrees out.old out.new (map string_bytes words.now) }
    ensures part_of_drill { AsksFor M.Drill (map string_bytes words.now) → DrillPartTaken O.agrees out.old out.new (map string_bytes words.now) }
    ensures silent_drill { AsksFor M.Drill (map string_bytes words.now) → result ≢ 0 → result ≢ 6 → result ≢ 8 → out.new ≡ out.old }
    ensures silent { AsksFor M.Check (map string_bytes words.now) → out.new ≡ out.old }
    ensures unread { LeavesInput (map string_bytes words.now) → input.new ≡ input.old }
    ensures write_fault { result ≡ 6 → RisesBy (O.faults out.old) (O.faults out.new) ⊎ RisesBy (E.faults err.old) (E.faults err.new) }
    ensures input_fault { result ≡ 7 → RisesBy (I.faults input.old) (I.faults input.new) }
    ensures counts { result ≢ 6 → (O.faults out.new ≡ O.faults out.old) × (E.faults err.new ≡ E.faults err.old) }
    ensures input_count { result ≢ 6 → result ≢ 7 → result ≢ 8 → I.faults input.new ≡ I.faults input.old }
    ensures shelf_count { result ≢ 5 → result ≢ 6 → result ≢ 8 → result ≢ 9 → S.faults shelf.new ≡ S.faults shelf.old }
    ensures cannot_save { result ≡ 9 → (name : List ℕ) × (saved_name (map string_bytes words.now) ≡ Some name)
        × CannotKeep S.faults S.last_failed shelf.old shelf.new name }
    ensures files { AllStay S.file shelf.old shelf.new ⊎ (AsksToRun (map string_bytes words.now)
        × ((options : Options) × Reads (rows_in (map string_bytes words.now)) options × ((text : List ℕ) × Holds S.tells S.file shelf.old options.file.now text
        × ((from : Origin) × Begins options.mode options.winner text from
        × SavesOne S.file shelf.old shelf.new (I.left input.old) (I.left input.new) options from)))) }
    ensures stay { result ≢ 4 → result ≢ 6 → result ≢ 8 → result ≢ 9 → AllStay S.file shelf.old shelf.new }
{
    match read(alloc, words) {
        Ok(options) => {
            let crew = Crew::new(rt, alloc, options.workers, gate);
            let answer = answer(alloc, &crew, &options, shelf, input, out);
            report(alloc, told_name(&options, answer), answer, err)
        }
        Err(WordsErr::Usage) => report(alloc, b"", Answer::Usage, err),
        Err(WordsErr::Memory) => report(alloc, b"", Answer::Memory, err),
    }
}

/// The name that the line of an answer tells.
fn told_name<'a>(options: &Options<'a>, answer: Answer) -> &'a [u8]
    ensures { result.now ≡ told_name options.now answer }
{
    match answer {
        Answer::CannotSave => match options.save {
            Some(name) => name.as_bytes(),
            None => b"",
        },
        Answer::Done
        | Answer::Fault { .. }
        | Answer::Usage
        | Answer::Refused { .. }
        | Answer::Stopped { .. }
        | Answer::CannotRead
        | Answer::WriteFault
        | Answer::InputFault
        | Answer::Memory => options.file.as_bytes(),
    }
}
