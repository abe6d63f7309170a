//! Laws of the definitions of scripts and runs. Each function has an empty body: its contract is the law.

ghost use Rattle.palm_script.specs.Laws.{LinesReadBack, FaultsStand, StraightKeepsOrder, CutByCuts, SectionsJoin};
ghost use Rattle.palm_script.specs.Laws.{StraightIsStormy, TextShowsRun};

/// What `print_line` prints of a line whose caller is at most `MOST_CALLER` reads, without the line feed, as that line,
/// wherever in a script it stands.
pub fn lines_read_back()
    ensures { LinesReadBack }
{}

/// A faulty line stays the first one whatever follows it in the script.
pub fn faults_stand()
    ensures { FaultsStand }
{}

/// The entries of a script's run in the order of its lines keep each caller's order: they are the caller's calls, whole
/// and in order, numbered from 0.
pub fn straight_keeps_order()
    ensures { StraightKeepsOrder }
{}

/// Batches of `most` calls, and what is left, are a cutting, none longer than `most`.
pub fn cut_by_cuts()
    ensures { CutByCuts }
{}

/// The sections of a script's run in the order of its lines have the script's entries, whole and in order.
pub fn sections_join()
    ensures { SectionsJoin }
{}

/// The run in the order of the lines is one of those in which the callers of a section call beside each other.
pub fn straight_is_stormy()
    ensures { StraightIsStormy }
{}

/// A transcript determines its run: of all runs of a script in which the callers of a section call beside each
/// other, no two have one transcript.
pub fn text_shows_run()
    ensures { TextShowsRun }
{}
