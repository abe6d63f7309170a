// The search for a row in a table, which is sorted by key.
ghost use Rattle.std.specs.Prelude.{MatchResult};
ghost use Rattle.palm_base.specs.Table.{IsTable};
ghost use Rattle.palm_base.specs.Place.{IsRowAt, IsGapAt};

use crate::row::Row;

/// `Ok` of the place of the row with this key in a table, or `Err` of the place at which one would stand. It
/// searches by halves.
pub fn find_row(rows: &[Row], key: u64) -> Result<usize, usize>
    requires { IsTable rows.now }
    ensures { MatchResult result (IsRowAt rows.now key) (IsGapAt rows.now key) }
{
    rows.binary_search_by_key(&key, |row| row.prefix.key())
}
