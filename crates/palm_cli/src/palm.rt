//! The top call: the words are read, the mode that they set is run, and the error stream is told how it ended.
ghost use Rattle.std.specs.Prelude.{◌≡◌, ◌≢◌, ◌+◌, ◌<◌, ◌^◌, ◌-◌, ◌⊎◌, [], map};
ghost use Rattle.std.specs.Prelude.{IfSome, None, string_bytes, List, ℕ};
ghost use Rattle.std.specs.Io.KnownBytes.{Consumes, IsAtEnd};
ghost use Rattle.std.proofs.Common.{zero};
ghost use Rattle.palm_base.specs.Lawful.{IsLawful};
ghost use Rattle.palm_deck.specs.declared.deck.DeckWhy.{DeckWhy};
ghost use Rattle.palm_tree.specs.TreeValue.{tree_in};
ghost use Rattle.palm_script.specs.Causes.{Rose};
ghost use Rattle.palm_script.specs.declared.line.LineFault.{LineFault};
ghost use Rattle.palm_words.specs.Settings.{AreWithin, settings_of};
ghost use Rattle.palm_words.specs.declared.settings.Mode.{Mode};
ghost use Rattle.palm_cli.specs.Decks.{IsBadDeck};
ghost use Rattle.palm_cli.specs.Ends.{IsDone, IsReadWhole, TookFew, IsCutShort, IsLong, IsUnwritten, IsStopped};
ghost use Rattle.palm_cli.specs.Ends.{EndsUnfailed, EndsAs, HasEnded};
ghost use Rattle.palm_cli.specs.Scripts.{IsBadScript};
ghost use Rattle.palm_cli.specs.Statuses.{code_of, status_text, line_told, row_told};
ghost use Rattle.palm_cli.specs.Streams.{HasReadPast, Told};
ghost use Rattle.palm_cli.specs.declared.status.Status.{Status};

use crate::deck::deck;
use crate::generate::generate;
use crate::replay::replay;
use crate::status::{Status, tell};
use palm_base::Steps;
use palm_engine::Engine;
use palm_script::{Sink, Source};
use palm_share::Gate;
use palm_words::{Mode, Settings, WordsFault, read_words};
use std::alloc::Global;
use std::sync::ledger::Ledger;
use std::thread::Threads;

// Runs the mode that the settings say.
fn run_mode<R: Threads + Sync, S: Source, O: Sink, G: Gate + Sync, L: Ledger>(
    rt: &R,
    alloc: Global,
    settings: &Settings,
    engine: &mut Engine,
    src: &mut S,
    out: &mut O,
    gate: &G,
    steps: &mut Steps<L>,
) -> Status
    requires settings { AreWithin settings.now }
    requires new { tree_in engine.old.tree ≡ (zero, []) }
    ensures end { EndsAs settings.now result
        (record {
          left = S.left src.old;
          rest = S.left src.new;
          taken = O.taken out.old;
          now = O.taken out.new;
          reads_before = S.faults src.old;
          reads_now = S.faults src.new;
          writes_before = O.faults out.old;
          writes_now = O.faults out.new;
          steps_before = steps.old;
          steps_now = steps.new;
        })
        (tree_in engine.new.tree) }
    ensures lawful { IsLawful (tree_in engine.new.tree) }
    ensures unread { settings.now.mode ≡ Mode.Gen → src.new ≡ src.old }
    ensures untouched { (code_of result ≡ 4) ⊎ (code_of result ≡ 7) ⊎ (code_of result ≡ 8)
        → settings.now.mode ≡ Mode.Deck
        → (out.new ≡ out.old) × (engine.new ≡ engine.old) × (steps.new ≡ steps.old) }
{
    match settings.mode {
        Mode::Replay => replay(rt, alloc, settings, engine, src, out, gate, steps),
        Mode::Deck => deck(rt, alloc, settings, engine, src, out, gate, steps),
        Mode::Gen => generate(rt, alloc, settings, engine, out, gate, steps),
    }
}

// Runs the program, without what it tells the error stream.
fn run_words<R: Threads + Sync, S: Source, O: Sink, G: Gate + Sync, L: Ledger>(
    rt: &R,
    alloc: Global,
    words: &Vec<String>,
    engine: &mut Engine,
    src: &mut S,
    out: &mut O,
    gate: &G,
    steps: &mut Steps<L>,
) -> Status
    requires new { tree_in engine.old.tree ≡ (zero, []) }
    ensures end { HasEnded (settings_of (map string_bytes words.now.items)) result
        (record {
          left = S.left src.old;
          rest = S.left src.new;
          taken = O.taken out.old;
          now = O.taken out.new;
          reads_before = S.faults src.old;
          reads_now = S.faults src.new;
          writes_before = O.faults out.old;
          writes_now = O.faults out.new;
          steps_before = steps.old;
          steps_now = steps.new;
        })
        (tree_in engine.new.tree) }
    ensures lawful { IsLawful (tree_in engine.new.tree) }
    ensures nothing { settings_of (map string_bytes words.now.items) ≡ None
        → (src.new ≡ src.old) × (out.new ≡ out.old) × (engine.new ≡ engine.old)
        × (steps.new ≡ steps.old) }
    ensures unread { IfSome (settings_of (map string_bytes words.now.items)) (λ settings.
        settings.mode ≡ Mode.Gen → src.new ≡ src.old) }
    ensures untouched { (code_of result ≡ 4) ⊎ (code_of result ≡ 7) ⊎ (code_of result ≡ 8)
        → IfSome (settings_of (map string_bytes words.now.items)) (λ settings.
        settings.mode ≡ Mode.Deck
        → (out.new ≡ out.old) × (engine.new ≡ engine.old) × (steps.new ≡ steps.old)) }
{
    match read_words(alloc, words) {
        Ok(settings) => run_mode(rt, alloc, &settings, engine, src, out, gate, steps),
        Err(WordsFault::Usage) => Status::Usage,
        Err(WordsFault::NoMemory) => Status::NoMemory,
    }
}

// Runs the program, and tells the error stream how it ended.
fn run_and_tell<R: Threads + Sync, S: Source, O: Sink, E: Sink, G: Gate + Sync, L: Ledger>(
    rt: &R,
    alloc: Global,
    words: &Vec<String>,
    engine: &mut Engine,
    src: &mut S,
    out: &mut O,
    err: &mut E,
    gate: &G,
    steps: &mut Steps<L>,
) -> Status
    requires new { tree_in engine.old.tree ≡ (zero, []) }
    ensures end { HasEnded (settings_of (map string_bytes words.now.items)) result
        (record {
          left = S.left src.old;
          rest = S.left src.new;
          taken = O.taken out.old;
          now = O.taken out.new;
          reads_before = S.faults src.old;
          reads_now = S.faults src.new;
          writes_before = O.faults out.old;
          writes_now = O.faults out.new;
          steps_before = steps.old;
          steps_now = steps.new;
        })
        (tree_in engine.new.tree) }
    ensures lawful { IsLawful (tree_in engine.new.tree) }
    ensures nothing { settings_of (map string_bytes words.now.items) ≡ None
        → (src.new ≡ src.old) × (out.new ≡ out.old) × (engine.new ≡ engine.old)
        × (steps.new ≡ steps.old) }
    ensures unread { IfSome (settings_of (map string_bytes words.now.items)) (λ settings.
        settings.mode ≡ Mode.Gen → src.new ≡ src.old) }
    ensures untouched { (code_of result ≡ 4) ⊎ (code_of result ≡ 7) ⊎ (code_of result ≡ 8)
        → IfSome (settings_of (map string_bytes words.now.items)) (λ settings.
        settings.mode ≡ Mode.Deck
        → (out.new ≡ out.old) × (engine.new ≡ engine.old) × (steps.new ≡ steps.old)) }
    ensures quiet { result ≡ Status.Done → err.new ≡ err.old }
    ensures told { Told (E.taken err.old) (E.taken err.new) (E.faults err.old) (E.faults err.new)
        (status_text result) }
{
    let status = run_words(rt, alloc, words, engine, src, out, gate, steps);
    tell(alloc, err, status)
}

/// The program over any streams and a new engine. Its words are read by the form of the command line, and say the
/// mode and the settings. It answers the program's exit status, of which it tells `err` one line where that isn't
/// 0. It always returns, and no answer depends on `gate` or on the number of workers.
///
/// - `replay` reads a script from `src`, runs its calls on the engine in the order of their lines, in batches of as
///   many as the settings say, and writes the transcript to `out`.
/// - `deck` reads a deck whole, runs its edits in batches, and writes the table that they leave as a deck.
/// - `gen` reads nothing, runs the calls that the seed makes in batches, and writes a summary of them.
///
/// The engine's tree is then the serial rule's for all calls of the transcript, the deck or the seed, but where
/// `out` failed or memory was refused: then it is a lawful tree.
///
/// | status | cause |
/// |---|---|
/// | 0 | what the mode reads was read to its end, all of it is good, and all that the mode writes was taken |
/// | 2 | the words aren't of the form; nothing was read or written |
/// | 3 | a line of the script has a fault; the transcript of the lines before it was taken |
/// | 4 | the source failed; the transcript of the lines that had ended was taken, and in `deck` nothing |
/// | 5 | `out` failed; what was taken begins what the mode writes, and in `deck` the deck is good |
/// | 6 | memory was refused; what was taken begins what the mode writes |
/// | 7 | the source has more than 64 MiB; what was taken is of the lines that ended within them, in `deck` nothing |
/// | 8 | a record of the deck has a fault; nothing was written |
///
/// Of the causes of 3, 4 and 7 the one counts that stands first in the source. The lines before it are run and
/// written first, so that there is 5 where `out` fails at these. Memory may be refused at any moment.
pub fn palm<R: Threads + Sync, S: Source, O: Sink, E: Sink, G: Gate + Sync, L: Ledger>(
    rt: &R,
    alloc: Global,
    words: &Vec<String>,
    engine: &mut Engine,
    src: &mut S,
    out: &mut O,
    err: &mut E,
    gate: &G,
    steps: &mut Steps<L>,
) -> u8
    requires new { tree_in engine.old.tree ≡ (zero, []) }

    // The engine's tree is lawful, however the run ends.
    ensures lawful { IsLawful (tree_in engine.new.tree) }

    // 0: what was read is good, and all that the mode writes of it was taken. The tree is that of all calls, no
    // more steps were counted than the batches may take, and the error stream was told nothing.
    ensures good { result ≡ 0
        → IfSome (settings_of (map string_bytes words.now.items)) (λ settings.
        IsDone settings.mode settings (S.left src.old) (O.taken out.old) (O.taken out.new)
        (tree_in engine.new.tree)) }
    ensures whole { result ≡ 0
        → IfSome (settings_of (map string_bytes words.now.items)) (λ settings.
        IsReadWhole settings.mode (S.left src.new)) }
    ensures ticks { result ≡ 0
        → IfSome (settings_of (map string_bytes words.now.items)) (λ settings.
        TookFew settings.mode settings (S.left src.old) steps.old steps.new) }
    ensures quiet { result ≡ 0 → err.new ≡ err.old }

    // 2 comes exactly where the words aren't of the form, but for want of memory, and then nothing is read or written.
    ensures usage { result ≡ 2 → settings_of (map string_bytes words.now.items) ≡ None }
    ensures refused { settings_of (map string_bytes words.now.items) ≡ None → (result ≡ 2) ⊎ (result ≡ 6) }
    ensures nothing { settings_of (map string_bytes words.now.items) ≡ None
        → (src.new ≡ src.old) × (out.new ≡ out.old) × (engine.new ≡ engine.old)
        × (steps.new ≡ steps.old) }

    // 3: this is the script's first faulty line, and it had ended in what was read. What was taken is the
    // transcript of the lines before it, and the tree is theirs.
    ensures bad_line { result ≡ 3 → (fault : LineFault)
        × IfSome (settings_of (map string_bytes words.now.items)) (λ settings.
        (settings.mode ≡ Mode.Replay)
        × ((read : List ℕ) × Consumes (S.left src.old) (S.left src.new) read
        × IfSome (S.left src.old) (λ b.
        IsBadScript settings b read fault (O.taken out.old) (O.taken out.new)
        (tree_in engine.new.tree))))
        × Told (E.taken err.old) (E.taken err.new) (E.faults err.old) (E.faults err.new) (line_told fault) }

    // 4: the source failed, before the byte too many was read. What was taken is the transcript of the lines
    // before, and the tree is theirs.
    ensures read { result ≡ 4 → Rose (S.faults src.old) (S.faults src.new) }
    ensures cut_short { result ≡ 4
        → IfSome (settings_of (map string_bytes words.now.items)) (λ settings.
        (read : List ℕ) × Consumes (S.left src.old) (S.left src.new) read
        × IsCutShort settings.mode settings read (O.taken out.old) (O.taken out.new)
        (tree_in engine.new.tree)) }

    // 5: the sink failed. What was taken begins what all that was read would give, which in `deck` is a good deck.
    ensures write { result ≡ 5 → Rose (O.faults out.old) (O.faults out.new) }
    ensures unwritten { result ≡ 5
        → IfSome (settings_of (map string_bytes words.now.items)) (λ settings.
        (read : List ℕ) × Consumes (S.left src.old) (S.left src.new) read
        × IsUnwritten settings.mode settings read (S.left src.new) (O.taken out.old)
        (O.taken out.new)) }

    // 6: what was taken begins what all that was read would give.
    ensures stopped { result ≡ 6
        → IfSome (settings_of (map string_bytes words.now.items)) (λ settings.
        (read : List ℕ) × Consumes (S.left src.old) (S.left src.new) read
        × IsStopped settings.mode settings read (S.left src.new) (O.taken out.old)
        (O.taken out.new)) }

    // 7: the source has a byte too many, and it was read, one more than is taken of it. What was taken is the
    // transcript of the lines before, and the tree is theirs.
    ensures past { result ≡ 7 → HasReadPast (S.left src.old) (S.left src.new) }
    ensures long { result ≡ 7
        → IfSome (settings_of (map string_bytes words.now.items)) (λ settings.
        IsLong settings.mode settings (S.left src.old) (O.taken out.old) (O.taken out.new)
        (tree_in engine.new.tree)) }

    // 8: the deck was read to its end, and this is its first faulty record.
    ensures bad_row { result ≡ 8 → (row : ℕ) × (why : DeckWhy)
        × IfSome (settings_of (map string_bytes words.now.items)) (λ settings.
        (settings.mode ≡ Mode.Deck) × IfSome (S.left src.old) (λ b. IsBadDeck b row why)
        × IsAtEnd (S.left src.new))
        × Told (E.taken err.old) (E.taken err.new) (E.faults err.old) (E.faults err.new) (row_told row why) }

    // `gen` reads nothing, and `deck` writes and runs nothing where it ends with 4, 7 or 8.
    ensures unread { IfSome (settings_of (map string_bytes words.now.items)) (λ settings.
        settings.mode ≡ Mode.Gen → src.new ≡ src.old) }
    ensures untouched { (result ≡ 4) ⊎ (result ≡ 7) ⊎ (result ≡ 8)
        → IfSome (settings_of (map string_bytes words.now.items)) (λ settings.
        settings.mode ≡ Mode.Deck
        → (out.new ≡ out.old) × (engine.new ≡ engine.old) × (steps.new ≡ steps.old)) }

    // The sink counted a fault at 5 alone, and the source none where it was read as far as it is taken.
    ensures kept { result ≢ 5 → O.faults out.new ≡ O.faults out.old }
    ensures unfailed { (result ≡ 0) ⊎ (result ≡ 7) ⊎ (result ≡ 8) → S.faults src.new ≡ S.faults src.old }

    // Where the words are of the form and nothing failed, each mode has these ends alone.
    ensures complete { IfSome (settings_of (map string_bytes words.now.items)) (λ settings.
        S.faults src.new ≡ S.faults src.old → S.faults src.old < 2 ^ 64 - 1
        → O.faults out.new ≡ O.faults out.old → O.faults out.old < 2 ^ 64 - 1
        → EndsUnfailed settings.mode result) }

    // The status is one of these eight, and its line was told.
    ensures told { (status : Status) × (code_of status ≡ result)
        × Told (E.taken err.old) (E.taken err.new) (E.faults err.old) (E.faults err.new) (status_text status) }
{
    let status = run_and_tell(rt, alloc, words, engine, src, out, err, gate, steps);
    status.code()
}
