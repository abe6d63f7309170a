// The rows of a leaf while its parts are resolved, one after another in the order of their arrival.
ghost use Rattle.std.specs.Prelude.{◌≡◌, true, ◌≤◌, ◌<◌, ◌+◌, [], ◌∷◌, length, map, take};
ghost use Rattle.std.specs.Prelude.{filter, vec_len, vec_capacity};
ghost use Rattle.std.specs.List.{AllByRecursion};
ghost use Rattle.palm_base.specs.Table.{rate_at, put, without, lies_within, after_all, IsTable};
ghost use Rattle.palm_route.specs.Edits.{edits_of};
ghost use Rattle.palm_leaf.specs.Routed.{HasKey};
ghost use Rattle.palm_leaf.specs.Answers.{answers_in, answer_of, after_part};
ghost use Rattle.palm_leaf.specs.Asked.{is_edit, keeps, all_keep, has_edit, set_count, answered, part_of, IsOpen};
ghost use Rattle.palm_leaf.specs.Asked.{FindsRoom};

use palm_base::{Amount, Digits, MOST_LEAF_ROWS, Row, find_row};
use palm_node::Leaf;
use palm_route::{Ask, Part};

/// A part of a leaf, with room for what it is answered.
#[derive(Debug, Drop)]
pub struct Asked {
    /// The part.
    pub part: Part,
    /// The rate that the part's key had before the part.
    pub rate: Option<Amount>,
    /// The rows that a List's part finds.
    pub found: Vec<Row>,
}

// The rate of the row with this key.
fn rate_of(rows: &[Row], key: u64) -> Option<Amount>
    requires { IsTable rows.now }
    ensures { result ≡ rate_at key rows.now }
{
    match find_row(rows, key) {
        Ok(place) => Some(rows[place].rate),
        Err(_) => None,
    }
}

// Puts a row in, for which there is room.
fn put_row(rows: &mut Vec<Row>, row: Row)
    requires table { IsTable rows.old.items }
    requires room { vec_len rows.old < vec_capacity rows.old }
    ensures rows { rows.new.items ≡ put row rows.old.items }
    ensures len { vec_len rows.new ≤ vec_len rows.old + 1 }
    ensures capacity { vec_capacity rows.new ≡ vec_capacity rows.old }
{
    match find_row(rows, row.prefix.key()) {
        Ok(place) => rows[place] = row,
        Err(place) => rows.insert(place, row).unwrap(),
    }
}

// Takes the row with this key out.
fn remove_row(rows: &mut Vec<Row>, key: u64)
    requires { IsTable rows.old.items }
    ensures rows { rows.new.items ≡ without key rows.old.items }
    ensures len { vec_len rows.new ≤ vec_len rows.old }
    ensures capacity { vec_capacity rows.new ≡ vec_capacity rows.old }
{
    if let Ok(place) = find_row(rows, key) {
        rows.remove(place);
    }
}

// Whether a row's key lies from one key to another, both included.
fn is_within(row: &Row, from: u64, to: u64) -> bool
    ensures { result ≡ lies_within from to row.now }
{
    let key = row.prefix.key();
    from <= key && key <= to
}

// Lists the rows from one key to another, both included, `limit` of them at most, for which there is room.
fn list_within(rows: &[Row], from: u64, to: u64, limit: usize, found: &mut Vec<Row>)
    requires empty { found.old.items ≡ [] }
    requires room { FindsRoom limit (length rows.now) (vec_capacity found.old) }
    ensures { found.new.items ≡ take limit (filter (lies_within from to) rows.now) }
{
    for row in rows {
        if found.len() == limit {
            break;
        }
        if is_within(row, from, to) {
            found.push_reserved(*row);
        }
    }
}

// The same of a table, whose rows before the first key it passes by, searching by halves.
fn list_range(rows: &[Row], from: u64, to: u64, limit: usize, found: &mut Vec<Row>)
    requires table { IsTable rows.now }
    requires empty { found.old.items ≡ [] }
    requires room { FindsRoom limit (length rows.now) (vec_capacity found.old) }
    ensures { found.new.items ≡ take limit (filter (lies_within from to) rows.now) }
{
    let first = rows.partition_point(|row| row.prefix.key() < from);
    list_within(&rows[first..], from, to, limit, found);
}

impl Asked {
    // Whether the part is an edit.
    fn is_edit(&self) -> bool
        ensures { result ≡ is_edit self.now.part.ask }
    {
        matches!(&self.part.ask, Ask::Set(_) | Ask::Del)
    }

    // Answers the part, a Set or a look-up, in a leaf, and writes there what it sets.
    fn write(&mut self, leaf: &mut Leaf)
        requires keeps { keeps self.old.part.ask ≡ true }
        requires key { HasKey self.old.part }
        requires room { length leaf.old + set_count (self.old.part ∷ []) ≤ MOST_LEAF_ROWS }
        ensures answer { answered self.new ≡ record {
          part = self.old.part;
          answer = answer_of leaf.old self.old.part;
        } }
        ensures rows { leaf.new ≡ after_part leaf.old self.old.part }
        ensures no_fewer { length leaf.old ≤ length leaf.new }
        ensures few { length leaf.new ≤ length leaf.old + set_count (self.old.part ∷ []) }
    {
        let key = self.part.key;
        self.rate = leaf.get(key);
        match &self.part.ask {
            Ask::Set(rate) => leaf.put(Row {
                prefix: Digits::of_key(key),
                rate: *rate,
            }),
            Ask::Look => {}
            Ask::Del | Ask::List { .. } => unreachable!(),
        }
    }

    // Answers the part on the rows, for which there is room.
    fn answer(&mut self, rows: &[Row])
        requires table { IsTable rows.now }
        requires open { IsOpen (length rows.now) self.old }
        ensures answer { answered self.new ≡ record {
          part = self.old.part;
          answer = answer_of rows.now self.old.part;
        } }
        ensures part { self.new.part ≡ self.old.part }
    {
        match &self.part.ask {
            Ask::Set(_) | Ask::Del | Ask::Look => self.rate = rate_of(rows, self.part.key),
            Ask::List { from, to, limit } => list_range(
                rows,
                from.key(),
                to.key(),
                limit.get() as usize,
                &mut self.found,
            ),
        }
    }

    // Does the part's edit, where it is one. There is room for the row that a Set may add.
    fn edit(&self, rows: &mut Vec<Row>)
        requires table { IsTable rows.old.items }
        requires room { vec_len rows.old + set_count (self.now.part ∷ []) ≤ vec_capacity rows.old }
        requires key { HasKey self.now.part }
        ensures rows { rows.new.items ≡ after_part rows.old.items self.now.part }
        ensures table { IsTable rows.new.items }
        ensures len { vec_len rows.new ≤ vec_len rows.old + set_count (self.now.part ∷ []) }
        ensures capacity { vec_capacity rows.new ≡ vec_capacity rows.old }
    {
        let key = self.part.key;
        match &self.part.ask {
            Ask::Set(rate) => {
                let row = Row {
                    prefix: Digits::of_key(key),
                    rate: *rate,
                };
                put_row(rows, row);
            }
            Ask::Del => remove_row(rows, key),
            Ask::Look | Ask::List { .. } => {}
        }
    }

    // Answers the part on the rows, and does its edit. There is room for the row that a Set may add.
    fn resolve(&mut self, rows: &mut Vec<Row>)
        requires table { IsTable rows.old.items }
        requires room { vec_len rows.old + set_count (self.old.part ∷ []) ≤ vec_capacity rows.old }
        requires open { IsOpen (length rows.old.items) self.old }
        ensures answer { answered self.new ≡ record {
          part = self.old.part;
          answer = answer_of rows.old.items self.old.part;
        } }
        ensures rows { rows.new.items ≡ after_part rows.old.items self.old.part }
        ensures table { IsTable rows.new.items }
        ensures len { vec_len rows.new ≤ vec_len rows.old + set_count (self.old.part ∷ []) }
        ensures capacity { vec_capacity rows.new ≡ vec_capacity rows.old }
    {
        self.answer(rows);
        self.edit(rows);
    }
}

/// Whether one of a leaf's parts is an edit.
pub fn has_edit(asked: &[Asked]) -> bool
    ensures { result ≡ has_edit (map part_of asked.now) }
{
    for one in asked {
        if one.is_edit() {
            return true;
        }
    }
    false
}

/// Whether each of a leaf's parts is a Set or a look-up.
pub fn all_keep(asked: &[Asked]) -> bool
    ensures { result ≡ all_keep (map part_of asked.now) }
{
    for one in asked {
        if !matches!(&one.part.ask, Ask::Set(_) | Ask::Look) {
            return false;
        }
    }
    true
}

/// Resolves a leaf's parts, Sets and look-ups, in the leaf itself, which has room for the rows that they may add.
pub fn write_all(leaf: &mut Leaf, asked: &mut [Asked])
    requires keep { all_keep (map part_of asked.old) ≡ true }
    requires keys { AllByRecursion (λ one. HasKey one.part) asked.old }
    requires room { length leaf.old + set_count (map part_of asked.old) ≤ MOST_LEAF_ROWS }
    ensures answers { map answered asked.new ≡ answers_in leaf.old (map part_of asked.old) }
    ensures rows { leaf.new ≡ after_all leaf.old (edits_of (map part_of asked.old)) }
    ensures no_fewer { length leaf.old ≤ length leaf.new }
    ensures len { length asked.new ≡ length asked.old }
{
    for one in asked.iter_mut() {
        one.write(leaf);
    }
}

/// Resolves a leaf's parts on its rows in their order. There is room for the rows that their Sets may add.
pub fn resolve(rows: &mut Vec<Row>, asked: &mut [Asked])
    requires table { IsTable rows.old.items }
    requires room { vec_len rows.old + set_count (map part_of asked.old) ≤ vec_capacity rows.old }
    requires open { AllByRecursion (IsOpen (vec_len rows.old + set_count (map part_of asked.old))) asked.old }
    ensures answers { map answered asked.new ≡ answers_in rows.old.items (map part_of asked.old) }
    ensures rows { rows.new.items ≡ after_all rows.old.items (edits_of (map part_of asked.old)) }
    ensures table { IsTable rows.new.items }
    ensures len { vec_len rows.new ≤ vec_len rows.old + set_count (map part_of asked.old) }
{
    for one in asked.iter_mut() {
        one.resolve(rows);
    }
}
