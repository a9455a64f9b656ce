//! The command, as clap takes it.
//!
//! Values are taken as text, and that either a file or a grid is given is tested behind: so that for every list of words it
//! is known what clap answers.
#![tactic(auto)]

ghost use Rattle.std.specs.Prelude.{◌≡◌, ◌≢◌, ℕ, List, map, IfErr, IfOk, false};
ghost use Rattle.std.specs.List.{AllByRecursion};
ghost use Rattle.std.specs.Prelude.{IsUtf8};
ghost use Rattle.clap.specs.Words.{app_of, first_value, found_of, kind_of, rule_of};
ghost use Rattle.cd_options.specs.Program.{bare_program, file_arg, option_arg, option_names, program};
ghost use Rattle.cd_options.specs.Grammar.{AtMostOnce, Given, Spells, value_of};

use clap::error::ErrorKind;
use clap::{Arg, ArgAction, ArgMatches, Command, Error};
use std::alloc::{AllocError, Global};

/// An option of this name, with one value.
fn option<'a>(alloc: Global, name: &'a str) -> Arg<'a>
    ensures rule { rule_of result ≡ option_arg name.entry.now }
    ensures local { result.global ≡ false }
{
    Arg::new(alloc, name).long(name).action(ArgAction::Set)
}

/// The word that stands alone.
fn file<'a>(alloc: Global) -> Arg<'a>
    ensures rule { rule_of result ≡ file_arg }
    ensures local { result.global ≡ false }
{
    Arg::new(alloc, "file").action(ArgAction::Set)
}

/// The command before it has options.
fn bare<'a>(alloc: Global) -> Command<'a>
    ensures { app_of result ≡ bare_program }
{
    Command::new(alloc, "aquarius")
        .no_binary_name(true)
        .disable_help_flag(true)
        .disable_version_flag(true)
}

/// The command.
fn command<'a>(alloc: Global) -> Result<Command<'a>, AllocError>
    ensures { IfOk result (λ r. app_of r ≡ program) }
{
    bare(alloc)
        .arg(option(alloc, "peers"))?
        .arg(option(alloc, "steps"))?
        .arg(option(alloc, "allocate"))?
        .arg(option(alloc, "schedule"))?
        .arg(option(alloc, "grid"))?
        .arg(file(alloc))
}

/// What clap makes of the words: the values that they give, or an error, where no values are spelled by them or memory
/// ran out.
pub fn matched<'a>(alloc: Global, words: &'a [&'a str]) -> Result<ArgMatches<'a>, Error>
    requires { AllByRecursion (λ w. IsUtf8 w.now) words.now }
    ensures ok { IfOk result (λ m. (gs : List Given) × Spells option_names (map (λ w. w.now) words.entry.now) gs
        × AtMostOnce gs × ((id : List ℕ) → first_value (found_of m) id ≡ value_of gs id)) }
    ensures err { IfErr result (λ e. kind_of e ≢ ErrorKind.OutOfMemory → (gs : List Given)
        → Spells option_names (map (λ w. w.now) words.entry.now) gs → AtMostOnce gs → ⊥) }
{
    let command = command(alloc)?;
    command.try_get_matches_from(words)
}
