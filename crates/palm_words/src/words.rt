// The words as a whole: what `clap` found in them is read, and makes the settings.
ghost use Rattle.std.specs.Prelude.{◌≡◌, Some, None, IfOk, IfSome, IsErrOf, map, string_bytes};
ghost use Rattle.clap.specs.Words.{found_of};
ghost use Rattle.palm_words.specs.Settings.{settings_of, AreWithin};
ghost use Rattle.palm_words.specs.Command.{set_by_matches};

use crate::command::matches_in;
use crate::settings::{
    DEFAULT_BATCH, DEFAULT_GENERATED_CALLS, DEFAULT_SEED, DEFAULT_WINDOW, DEFAULT_WORKERS,
    MOST_BATCH, MOST_SEED, MOST_WINDOW, Settings,
};
use crate::values::{dump_in, mode_named, number_in, small_number_in};
use clap::ArgMatches;
use clap::error::ErrorKind;
use palm_gen::MOST_GENERATED_CALLS;
use palm_share::MOST_WORKERS;
use std::alloc::Global;
use std::error::Error;
use std::fmt;

/// Why words set nothing.
#[derive(Clone, Copy, Debug, PartialEq, Eq)]
pub enum WordsFault {
    /// They aren't of the form.
    Usage,
    /// Memory was refused while they were read.
    NoMemory,
}

impl fmt::Display for WordsFault {
    ghost use Rattle.std.specs.Prelude.{Some};
    ghost use Rattle.palm_words.specs.Settings.{fault_text};

    ghost output = { λ fault. Some (fault_text fault) };

    fn fmt<W: fmt::Write>(&self, f: &mut fmt::Formatter<W>) -> fmt::Result {
        match self {
            WordsFault::Usage => write!(f, "usage"),
            WordsFault::NoMemory => write!(f, "no memory"),
        }
    }
}

impl Error for WordsFault {}

// The settings by the texts that were found: a line for each option, with its least number, its greatest and its
// default.
fn settings_in(matches: &ArgMatches) -> Option<Settings>
    ensures says { result ≡ set_by_matches (found_of matches.now) }
    ensures bounds { IfSome result AreWithin }
{
    let mode = mode_named(matches.get_str("mode")?)?;
    let workers = small_number_in(matches, "workers", 1, MOST_WORKERS, DEFAULT_WORKERS)?;
    let batch = small_number_in(matches, "batch", 1, MOST_BATCH, DEFAULT_BATCH)?;
    let window = small_number_in(matches, "window", 1, MOST_WINDOW, DEFAULT_WINDOW)?;
    let dump = dump_in(matches)?;
    let seed = number_in(matches, "seed", 0, MOST_SEED, DEFAULT_SEED)?;
    let calls = number_in(
        matches,
        "calls",
        0,
        MOST_GENERATED_CALLS,
        DEFAULT_GENERATED_CALLS,
    )?;
    Some(Settings {
        mode,
        workers,
        batch,
        window,
        dump,
        seed,
        calls,
    })
}

/// What the words after the program's name set, by the form of `specs/Settings.antt`.
///
/// `Usage` comes only where they aren't of the form. Words of the form set what they say, or end in `NoMemory`; so may
/// words that aren't of the form, since telling what is wrong with them wants memory too.
pub fn read_words(alloc: Global, words: &Vec<String>) -> Result<Settings, WordsFault>
    ensures ok { IfOk result (λ s. settings_of (map string_bytes words.now.items) ≡ Some s) }
    ensures usage { IsErrOf result WordsFault.Usage → settings_of (map string_bytes words.now.items) ≡ None }
    ensures bounds { IfOk result AreWithin }
{
    match matches_in(alloc, words) {
        Ok(matches) => settings_in(&matches).ok_or(WordsFault::Usage),
        Err(error) => match error.kind() {
            ErrorKind::OutOfMemory => Err(WordsFault::NoMemory),
            _ => Err(WordsFault::Usage),
        },
    }
}
