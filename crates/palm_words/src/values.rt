// The readers of mode words and of VALUEs, which `clap` hands on as texts.
ghost use Rattle.std.specs.Prelude.{◌≡◌, ◌≤◌, IfSome, is_some, codes};
ghost use Rattle.clap.specs.Words.{found_of};
ghost use Rattle.palm_base.specs.Numbers.{is_from_to};
ghost use Rattle.palm_words.specs.Command.{found_values};
ghost use Rattle.palm_words.specs.Settings.{mode_named, dump_named, is_dump, at_most_one, number_or, dump_or_never};

use crate::settings::Mode;
use clap::ArgMatches;
use palm_base::number_from_to;
use palm_script::DumpWhen;

/// The mode that a word names, and `None` where it names none.
pub fn mode_named(word: &str) -> Option<Mode>
    ensures { result ≡ mode_named word.now }
{
    match word {
        "replay" => Some(Mode::Replay),
        "deck" => Some(Mode::Deck),
        "gen" => Some(Mode::Gen),
        _ => None,
    }
}

/// When the VALUE of `dump` has the tree dumped, and `None` where it is none of the three.
pub fn dump_named(value: &str) -> Option<DumpWhen>
    ensures { result ≡ dump_named value.now }
{
    match value {
        "none" => Some(DumpWhen::Never),
        "end" => Some(DumpWhen::AtEnd),
        "all" => Some(DumpWhen::Always),
        _ => None,
    }
}

/// When the tree is dumped, by the VALUE that was found or by the default. `None` where the VALUE is none of the three.
pub fn dump_in(matches: &ArgMatches) -> Option<DumpWhen>
    ensures good { is_some result ≡ at_most_one is_dump (found_values (found_of matches.now) (codes "dump")) }
    ensures says { IfSome result (λ when.
        when ≡ dump_or_never (found_values (found_of matches.now) (codes "dump"))) }
{
    match matches.get_str("dump") {
        None => Some(DumpWhen::Never),
        Some(value) => dump_named(value),
    }
}

/// The number of the option of this name, or its default where it wasn't found. `None` where its VALUE is no number
/// field from `least` to `most`.
pub fn number_in(
    matches: &ArgMatches,
    name: &str,
    least: u64,
    most: u64,
    default: u64,
) -> Option<u64>
    requires least { least ≤ default }
    requires most { default ≤ most }
    ensures good { is_some result ≡ at_most_one (is_from_to least most)
        (found_values (found_of matches.now) name.now) }
    ensures says { IfSome result (λ n. n ≡ number_or default (found_values (found_of matches.now) name.now)) }
    ensures least { IfSome result (λ n. least ≤ n) }
    ensures most { IfSome result (λ n. n ≤ most) }
{
    match matches.get_str(name) {
        None => Some(default),
        Some(value) => number_from_to(value.as_bytes(), least, most),
    }
}

/// `number_in` for an option whose numbers have 32 bits, with `None` where it gives none.
pub fn small_number_in(
    matches: &ArgMatches,
    name: &str,
    least: u32,
    most: u32,
    default: u32,
) -> Option<u32>
    requires least { least ≤ default }
    requires most { default ≤ most }
    ensures good { is_some result ≡ at_most_one (is_from_to least most)
        (found_values (found_of matches.now) name.now) }
    ensures says { IfSome result (λ n. n ≡ number_or default (found_values (found_of matches.now) name.now)) }
    ensures least { IfSome result (λ n. least ≤ n) }
    ensures most { IfSome result (λ n. n ≤ most) }
{
    let value = number_in(
        matches,
        name,
        u64::from(least),
        u64::from(most),
        u64::from(default),
    )?;
    Some(value as u32)
}
