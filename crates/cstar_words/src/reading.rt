ghost use Rattle.std.specs.Prelude.{◌≡◌, true, false, map, option_map, Some, codes, IfOk, IfErr, IfSome, IfNone};
ghost use Rattle.std.specs.String.{string_bytes};
ghost use Rattle.clap.specs.Words.{found_of, kind_of, rows_of};
ghost use Rattle.cstar_words.specs.Numbers.{number_in};
ghost use Rattle.cstar_words.specs.Reading.{Reads, file_for, fits_line, given, has_flag, has_options, is_command, mode_in, mode_named, read_or, rows_in, winner_in, winner_named};
ghost use Rattle.cstar_words.specs.declared.reading.WordsErr.TheVariants.{Memory, Usage};

use crate::line::command;
use crate::number::number;
use crate::options::{Mode, Options};
use clap::error::ErrorKind;
use clap::{ArgMatches, Error};
use cstar_base::Winner;
use std::alloc::Global;

const DEFAULT_WORKERS: u32 = 4;

const MOST_WORKERS: u32 = 64;

const DEFAULT_TURNS: u32 = 1_000_000;

const DEFAULT_SEED: u32 = 1;

/// Why there are no options: the words are no command, or there is no memory.
#[derive(Clone, Copy, PartialEq, Eq)]
pub enum WordsErr {
    Usage,
    Memory,
}

/// What the words of the command, without the program's name, ask for. They are a command where
/// they fit its options, each value is one of its option's, and there is a FILE, without which only
/// mode drill can do. `Usage` comes only where they are none.
pub fn read<'a>(alloc: Global, words: &'a [String]) -> Result<Options<'a>, WordsErr>
    ensures command { IfOk result (λ options. is_command (map string_bytes words.entry.now) ≡ true) }
    ensures reads { IfOk result (Reads (rows_in (map string_bytes words.entry.now))) }
    ensures refused { IfErr result (λ error. error ≡ Usage → is_command (map string_bytes words.entry.now) ≡ false) }
{
    let matches = match matched(alloc, words) {
        Ok(matches) => matches,
        Err(error) => return Err(error),
    };
    match options_of(&matches) {
        Some(options) => Ok(options),
        None => Err(WordsErr::Usage),
    }
}

/// What clap makes of the words.
fn matched<'a>(alloc: Global, words: &'a [String]) -> Result<ArgMatches<'a>, WordsErr>
    ensures fits { IfOk result (λ matches. fits_line (map string_bytes words.entry.now) ≡ true) }
    ensures rows { IfOk result (λ matches. rows_of (found_of matches) ≡ rows_in (map string_bytes words.entry.now)) }
    ensures refused { IfErr result (λ error. error ≡ Usage → fits_line (map string_bytes words.entry.now) ≡ false) }
{
    let Ok(command) = command(alloc) else {
        return Err(WordsErr::Memory);
    };
    match command.try_get_matches_from(words) {
        Ok(matches) => Ok(matches),
        Err(error) => Err(refusal(&error)),
    }
}

fn refusal(error: &Error) -> WordsErr
    ensures { kind_of error.now ≡ ErrorKind.OutOfMemory → result ≡ Memory }
{
    match error.kind() {
        ErrorKind::OutOfMemory => WordsErr::Memory,
        _ => WordsErr::Usage,
    }
}

fn options_of<'a>(matches: &ArgMatches<'a>) -> Option<Options<'a>>
    ensures reads { IfSome result (Reads (rows_of (found_of matches.now))) }
    ensures none { IfNone result (has_options (rows_of (found_of matches.now)) ≡ false) }
{
    let mode = mode_of(matches)?;
    Some(Options {
        mode,
        file: file_of(matches, mode)?,
        workers: number_of(matches, "workers", 1, MOST_WORKERS, DEFAULT_WORKERS)?,
        turns: number_of(matches, "turns", 0, u32::MAX, DEFAULT_TURNS)?,
        finals: has_flag(matches, "finals"),
        listing: has_flag(matches, "listing"),
        seed: number_of(matches, "seed", 0, u32::MAX, DEFAULT_SEED)?,
        winner: winner_of(matches)?,
        save: value_of(matches, "save"),
    })
}

fn mode_of(matches: &ArgMatches) -> Option<Mode>
    ensures { result ≡ mode_in (rows_of (found_of matches.now)) }
{
    match value_of(matches, "mode") {
        Some(name) => mode_named(name),
        None => Some(Mode::Run),
    }
}

fn mode_named(name: &str) -> Option<Mode>
    ensures { result ≡ mode_named name.now }
{
    match name {
        "run" => Some(Mode::Run),
        "list" => Some(Mode::List),
        "check" => Some(Mode::Check),
        "drill" => Some(Mode::Drill),
        "asm" => Some(Mode::Asm),
        "resume" => Some(Mode::Resume),
        _ => None,
    }
}

fn file_of<'a>(matches: &ArgMatches<'a>, mode: Mode) -> Option<&'a str>
    ensures { option_map (λ file. file.now) result ≡ file_for mode (given (codes "FILE") (rows_of (found_of matches.now))) }
{
    match mode {
        Mode::Drill => Some("drill"),
        Mode::Run | Mode::List | Mode::Check | Mode::Asm | Mode::Resume => value_of(
            matches, "FILE",
        ),
    }
}

fn winner_of(matches: &ArgMatches) -> Option<Winner>
    ensures { result ≡ winner_in (rows_of (found_of matches.now)) }
{
    match value_of(matches, "winner") {
        Some(name) => winner_named(name),
        None => Some(Winner::High),
    }
}

fn winner_named(name: &str) -> Option<Winner>
    ensures { result ≡ winner_named name.now }
{
    match name {
        "high" => Some(Winner::High),
        "low" => Some(Winner::Low),
        _ => None,
    }
}

/// The number of the option of this name, between the two bounds, or the default.
fn number_of(matches: &ArgMatches, name: &str, low: u32, high: u32, default: u32) -> Option<u32>
    ensures { result ≡ read_or (number_in low high) default (given name.now (rows_of (found_of matches.now))) }
{
    match value_of(matches, name) {
        Some(text) => number(text, low, high),
        None => Some(default),
    }
}

/// Whether the option of this name, which takes no value, is there.
fn has_flag(matches: &ArgMatches, name: &str) -> bool
    ensures { result ≡ has_flag name.now (rows_of (found_of matches.now)) }
{
    match value_of(matches, name) {
        Some(text) => text == "true",
        None => false,
    }
}

/// The value of the option of this name.
fn value_of<'a>(matches: &ArgMatches<'a>, name: &str) -> Option<&'a str>
    ensures { given name.now (rows_of (found_of matches.now)) ≡ option_map (λ text. text.now) result }
{
    matches.get_str(name)
}
