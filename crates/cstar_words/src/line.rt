ghost use Rattle.std.specs.Prelude.{◌≡◌, IfOk};
ghost use Rattle.std.specs.Prelude.{false};
ghost use Rattle.clap.specs.Words.{app_of, rule_of};
ghost use Rattle.cstar_words.specs.Line.{command_line, valued_rule, flag_rule};

use clap::{Arg, ArgAction, Command};
use std::alloc::{AllocError, Global};

/// The command line: FILE and the options. There is no `--help` and no `--version`.
pub fn command<'a>(alloc: Global) -> Result<Command<'a>, AllocError>
    ensures { IfOk result (λ command. app_of command ≡ command_line) }
{
    Command::new(alloc, "cstar")
        .no_binary_name(true)
        .disable_help_flag(true)
        .arg(Arg::new(alloc, "FILE"))?
        .arg(valued(alloc, "mode"))?
        .arg(valued(alloc, "workers"))?
        .arg(valued(alloc, "turns"))?
        .arg(flag(alloc, "finals"))?
        .arg(flag(alloc, "listing"))?
        .arg(valued(alloc, "seed"))?
        .arg(valued(alloc, "winner"))?
        .arg(valued(alloc, "save"))
}

/// An option with a value, `--name VALUE` or `--name=VALUE`.
fn valued<'a>(alloc: Global, name: &'a str) -> Arg<'a>
    ensures rule { rule_of result ≡ valued_rule name.entry.now }
    ensures local { result.global ≡ false }
{
    Arg::new(alloc, name).long(name)
}

/// An option without a value, `--name`.
fn flag<'a>(alloc: Global, name: &'a str) -> Arg<'a>
    ensures rule { rule_of result ≡ flag_rule name.entry.now }
    ensures local { result.global ≡ false }
{
    Arg::new(alloc, name).long(name).action(ArgAction::SetTrue)
}
