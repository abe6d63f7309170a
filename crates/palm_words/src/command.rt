// What `clap` is told of the words, and what it finds in them.
ghost use Rattle.std.specs.Prelude.{◌≡◌, ◌≢◌, [], IfOk, IfErr, false, map, string_bytes};
ghost use Rattle.clap.specs.Words.{app_of, found_of, kind_of, rows_of, matches_of, rule_of, fault_of};
ghost use Rattle.palm_words.specs.Command.{option_rule, command_for, palm_command};

use clap::error::ErrorKind;
use clap::{Arg, ArgAction, ArgMatches, Command, Error};
use std::alloc::{AllocError, Global};

// The names of the options.
const OPTIONS: [&str; 6] = ["workers", "batch", "window", "dump", "seed", "calls"];

// An option that stands once, with a VALUE.
fn option<'a>(alloc: Global, name: &'a str) -> Arg<'a>
    ensures rule { rule_of result ≡ option_rule name.entry.now }
    ensures local { result.global ≡ false }
{
    Arg::new(alloc, name).long(name).action(ArgAction::Set)
}

// The command with options of these names and one mode word, with nothing that `clap` adds by itself.
fn command_for<'a>(alloc: Global, names: &[&'a str]) -> Result<Command<'a>, AllocError>
    ensures { IfOk result (λ c. app_of c ≡ command_for (map (λ s. s.now) names.now)) }
{
    let mut command = Command::new(alloc, "palm")
        .no_binary_name(true)
        .disable_help_flag(true)
        .disable_version_flag(true);
    for name in names {
        command = command.arg(option(alloc, name))?;
    }
    let mode = Arg::new(alloc, "mode")
        .required(true)
        .action(ArgAction::Set);
    command.arg(mode)
}

/// What `clap` finds in the words, or its error: why it refuses them, or that memory was refused.
pub fn matches_in<'a>(alloc: Global, words: &'a Vec<String>) -> Result<ArgMatches<'a>, Error>
    ensures accepts { IfOk result (λ m. fault_of palm_command (map string_bytes words.now.items) ≡ []) }
    ensures rows { IfOk result (λ m.
        rows_of (found_of m) ≡ matches_of palm_command (map string_bytes words.now.items)) }
    ensures err { IfErr result (λ e.
        (kind_of e ≢ ErrorKind.OutOfMemory)
        → fault_of palm_command (map string_bytes words.now.items) ≢ []) }
{
    let command = command_for(alloc, &OPTIONS)?;
    command.try_get_matches_from(words.as_slice())
}
