// Words of the form and what they set, and words that aren't of the form.
use crate::{
    DEFAULT_BATCH, DEFAULT_GENERATED_CALLS, DEFAULT_SEED, DEFAULT_WINDOW, DEFAULT_WORKERS,
    MOST_BATCH, MOST_SEED, MOST_WINDOW, Mode, Settings, WordsFault, read_words,
};
use palm_script::DumpWhen;
use std::alloc::{AllocError, Global};
use std::process::Abort;
use std::test::Fail;

// The words of a line, which stand between single blanks.
fn words(alloc: Global, line: &str) -> Result<Vec<String>, AllocError> {
    let mut words = Vec::new(alloc);
    for word in line.split(' ') {
        words.push(String::from_str(alloc, word)?)?;
    }
    Ok(words)
}

fn read(alloc: Global, line: &str) -> Result<Result<Settings, WordsFault>, AllocError> {
    let words = words(alloc, line)?;
    Ok(read_words(alloc, &words))
}

const DEFAULTS: Settings = Settings {
    mode: Mode::Replay,
    workers: 1,
    batch: 4_096,
    window: 16,
    dump: DumpWhen::Never,
    seed: 0,
    calls: 1_000,
};

fn in_mode(mode: Mode) -> Settings {
    Settings { mode, ..DEFAULTS }
}

fn sized(workers: u32, batch: u32, window: u32) -> Settings {
    Settings {
        workers,
        batch,
        window,
        ..DEFAULTS
    }
}

fn dumped(dump: DumpWhen) -> Settings {
    Settings { dump, ..DEFAULTS }
}

fn made(seed: u64, calls: u64) -> Settings {
    Settings {
        seed,
        calls,
        ..DEFAULTS
    }
}

#[test]
fn words_of_the_form_set_what_they_say(rt: HostRuntime) -> Result<(), Fail> {
    for (line, settings) in [
        ("replay", DEFAULTS),
        ("-- replay", DEFAULTS),
        ("--batch=4 replay", sized(1, 4, 16)),
        ("--batch 4 -- replay", sized(1, 4, 16)),
        ("replay --batch 4 --window 007", sized(1, 4, 7)),
        ("--workers 64 --window=64 replay", sized(64, 4_096, 64)),
        ("--batch=65536 replay", sized(1, 65_536, 16)),
        ("replay --batch=1 --window 1", sized(1, 1, 1)),
        ("--dump none replay", DEFAULTS),
        ("--dump end replay", dumped(DumpWhen::AtEnd)),
        ("replay --dump=all", dumped(DumpWhen::Always)),
        ("--seed 18446744073709551615 replay", made(u64::MAX, 1_000)),
        ("--seed=00000000000000000001 replay", made(1, 1_000)),
        ("--calls 10000000 replay", made(0, 10_000_000)),
        ("replay --calls=0", made(0, 0)),
        ("deck", in_mode(Mode::Deck)),
        ("-- deck", in_mode(Mode::Deck)),
        ("gen", in_mode(Mode::Gen)),
        (
            "gen --seed 7 --calls 5",
            Settings {
                mode: Mode::Gen,
                ..made(7, 5)
            },
        ),
    ] {
        assert_eq!(rt; read(rt.alloc(), line)?, Ok(settings), "{line}");
    }
    Ok(())
}

// Asserts of each line that its words are refused.
fn are_wrong_usage(rt: &impl Abort, alloc: Global, lines: &[&str]) -> Result<(), Fail> {
    for line in lines {
        assert_eq!(rt; read(alloc, line)?, Err(WordsFault::Usage), "{line}");
    }
    Ok(())
}

#[test]
fn no_words_are_wrong_usage(rt: HostRuntime) {
    let none = Vec::new(rt.alloc());
    assert_eq!(rt; read_words(rt.alloc(), &none), Err(WordsFault::Usage));
}

// No mode, or no such mode, or two.
#[test]
fn words_without_one_mode_are_wrong_usage(rt: HostRuntime) -> Result<(), Fail> {
    let lines = [
        "",
        "-",
        "--",
        "-- --",
        "list",
        "help",
        "Replay",
        "Deck",
        "decks",
        "generate",
        "--batch 4",
        "--batch 4 --",
        "replay ",
        "replay list",
        "replay replay",
        "deck gen",
        "replay -- replay",
        "-- --batch",
    ];
    are_wrong_usage(&rt, rt.alloc(), &lines)
}

#[test]
fn words_with_no_such_option_are_wrong_usage(rt: HostRuntime) -> Result<(), Fail> {
    let lines = [
        "-h",
        "--help",
        "--version",
        "replay --help",
        "replay -x",
        "replay -é",
        "replay -b4",
        "replay --bat=4",
        "replay --Batch 4",
        "replay --mode=replay",
        "replay --=4",
    ];
    are_wrong_usage(&rt, rt.alloc(), &lines)
}

#[test]
fn words_with_an_option_twice_are_wrong_usage(rt: HostRuntime) -> Result<(), Fail> {
    let lines = ["replay --batch=4 --batch=4", "replay --dump end --dump end"];
    are_wrong_usage(&rt, rt.alloc(), &lines)
}

// No VALUE, or one that begins with a dash.
#[test]
fn options_without_a_value_are_wrong_usage(rt: HostRuntime) -> Result<(), Fail> {
    let lines = [
        "replay --batch",
        "replay --batch ",
        "replay --batch=",
        "replay --dump=",
        "replay --batch -",
        "replay --batch=-",
        "replay --batch --",
        "replay --batch -- 4",
        "replay --batch -4",
    ];
    are_wrong_usage(&rt, rt.alloc(), &lines)
}

#[test]
fn values_not_of_the_option_are_wrong_usage(rt: HostRuntime) -> Result<(), Fail> {
    let lines = [
        "replay --batch +4",
        "replay --batch 4x",
        "replay --batch=4=5",
        "replay --dump End",
        "replay --workers 0",
        "replay --workers 65",
        "replay --batch 0",
        "replay --batch 65537",
        "replay --window 0",
        "replay --window 65",
        "replay --seed 18446744073709551616",
        "replay --seed 000000000000000000001",
        "replay --calls 10000001",
        "gen --calls 10000001",
    ];
    are_wrong_usage(&rt, rt.alloc(), &lines)
}

// A word of 1,000 letters.
fn long_word(alloc: Global) -> Result<String, AllocError> {
    let mut word = String::new(alloc);
    for _ in 0..1_000 {
        word.push('a')?;
    }
    Ok(word)
}

#[test]
fn words_of_1_000_letters_are_wrong_usage(rt: HostRuntime) -> Result<(), Fail> {
    let alloc = rt.alloc();
    let long = long_word(alloc)?;
    for line in [
        format!(in alloc; "{long}")?,
        format!(in alloc; "-{long} replay")?,
        format!(in alloc; "--{long} replay")?,
        format!(in alloc; "--{long}={long} replay")?,
        format!(in alloc; "--batch {long} replay")?,
        format!(in alloc; "--batch={long} replay")?,
        format!(in alloc; "replay {long}")?,
        format!(in alloc; "replay -- {long}")?,
    ] {
        assert_eq!(rt; read(alloc, &line)?, Err(WordsFault::Usage));
    }
    Ok(())
}

#[test]
fn bounds_and_defaults(rt: HostRuntime) {
    assert_eq!(rt; (MOST_BATCH, MOST_WINDOW), (65_536, 64));
    assert_eq!(rt; MOST_SEED, 18_446_744_073_709_551_615);
    assert_eq!(rt;
        (DEFAULT_WORKERS, DEFAULT_BATCH, DEFAULT_WINDOW),
        (1, 4_096, 16)
    );
    assert_eq!(rt; (DEFAULT_SEED, DEFAULT_GENERATED_CALLS), (0, 1_000));
}

#[test]
fn faults_have_texts(rt: HostRuntime) -> Result<(), Fail> {
    let alloc = rt.alloc();
    for (fault, text) in [
        (WordsFault::Usage, "usage"),
        (WordsFault::NoMemory, "no memory"),
    ] {
        assert_eq!(rt; format!(in alloc; "{fault}")?.as_str(), text);
    }
    Ok(())
}
