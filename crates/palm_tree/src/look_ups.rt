// Look-ups abreast: several go down the tree together, level by level, so that their waits for memory fall
// together. One that isn't done at its leaf goes down once more, with those that are taken next.
ghost use Rattle.std.specs.Prelude.{◌≡◌, ◌+◌, ◌≤◌, ◌⊎◌, length, map, OnOk, IfOk};
ghost use Rattle.palm_base.specs.LookUps.{looked};
ghost use Rattle.palm_base.specs.Table.{rate_at};
ghost use Rattle.palm_base.specs.Tree.{rows_of};
ghost use Rattle.palm_tree.specs.Floors.{IsSpotFor};
ghost use Rattle.palm_tree.specs.LookLanes.{AreSteps, AreUnderWay, EachSpot, GoesBy, IsFork, IsLess, IsLook};
ghost use Rattle.palm_tree.specs.LookLanes.{way_left, work_left};
ghost use Rattle.palm_tree.specs.TreeValue.{tree_in};

use crate::floor::{Jump, Spot, jump_from};
use crate::tree::Tree;
use arrayvec::ArrayVec;
use palm_arena::Arena;
use palm_base::{Amount, Call, Entry, NoMemory, Reply};
use palm_node::Node;

// How many look-ups go down together.
const LANES: usize = 8;

// A look-up on its way: the place of its entry, and the key that it goes down by.
#[derive(Clone, Copy, Debug, Default)]
struct Lane {
    place: usize,
    key: u64,
}

// What is found for an entry: its answer, or the key that it goes down by next.
#[derive(Drop)]
enum Look {
    Answer(Option<Reply>),
    Again(u64),
}

// Goes one level down in each lane.
fn step_down(arena: &Arena, lanes: &[Lane], spots: &mut [Spot])
    requires room { length lanes.now ≤ length spots.old }
    requires node { EachSpot (λ _ spot. IsFork arena.now.places spot.id) lanes.now spots.old }
    ensures { AreSteps arena.now.places lanes.now spots.old spots.new }
{
    for i in 0..lanes.len() {
        let key = lanes[i].key;
        let spot = spots[i];
        let Node::Inner(inner) = arena.read(spot.id) else {
            unreachable!()
        };
        let place = inner.route(key);
        spots[i] = Spot {
            id: inner.child(place),
            low: inner.low_of_child(place, spot.low),
        };
    }
}

impl Tree {
    // The leaf of each lane's key.
    fn find_leaves(&self, lanes: &[Lane]) -> [Spot; LANES]
        requires { length lanes.now ≤ LANES }
        ensures { EachSpot (λ lane spot. IsSpotFor self.now lane.key spot) lanes.now result }
    {
        let root = Spot {
            id: self.shape.root,
            low: 0,
        };
        let mut spots = [root; LANES];
        for _level in 1..self.shape.levels {
            step_down(&self.arena, lanes, &mut spots);
        }
        spots
    }

    // The rate of a key, whose leaf this is.
    fn rate_in(&self, key: u64, spot: Spot) -> Option<Amount>
        requires { IsSpotFor self.now key spot }
        ensures { result ≡ rate_at key (rows_of (tree_in self.now)) }
    {
        let Node::Leaf(leaf) = self.arena.read(spot.id) else {
            unreachable!()
        };
        leaf.get(key)
    }

    // What is found for an entry before it goes down.
    fn begin(&self, entry: &Entry) -> Result<Look, NoMemory>
        ensures { IfOk result (IsLook (rows_of (tree_in self.now)) entry.now) }
    {
        match &entry.call {
            Call::Set { .. } | Call::Del { .. } => Ok(Look::Answer(None)),
            Call::Get { prefix } => Ok(Look::Again(prefix.key())),
            Call::Rate { .. } if self.rows == 0 => Ok(Look::Answer(Some(Reply::Absent))),
            Call::Rate { number } => Ok(Look::Again(number.key())),
            Call::List { from, to, limit } => {
                let rows = self.list(from, to, *limit)?;
                Ok(Look::Answer(Some(Reply::Rows(rows))))
            }
        }
    }

    // What is found for an entry at the leaf of the key that it went down by.
    fn look(&self, entry: &Entry, key: u64, spot: Spot) -> Look
        requires key { GoesBy (rows_of (tree_in self.now)) entry.now.call key }
        requires leaf { IsSpotFor self.now key spot }
        ensures look { IsLook (rows_of (tree_in self.now)) entry.now result }
        ensures less { IsLess key result }
    {
        match &entry.call {
            Call::Get { .. } => match self.rate_in(key, spot) {
                Some(rate) => Look::Answer(Some(Reply::Value(rate))),
                None => Look::Answer(Some(Reply::Absent)),
            },
            Call::Rate { number } => match jump_from(self.floor_at(key, spot), number) {
                Jump::Done(Some(row)) => Look::Answer(Some(Reply::Hit(row))),
                Jump::Done(None) => Look::Answer(Some(Reply::Absent)),
                Jump::To(len) => Look::Again(number.front(len).key()),
            },
            Call::Set { .. } | Call::Del { .. } | Call::List { .. } => unreachable!(),
        }
    }

    // Answers what is done at the leaves of its keys, and gives back the lanes that go down once more.
    fn settle(
        &self,
        entries: &[Entry],
        lanes: &[Lane],
        spots: &[Spot],
        answers: &mut Vec<Option<Reply>>,
    ) -> ArrayVec<Lane, LANES>
        requires room { length lanes.now ≤ length spots.now }
        requires few { length lanes.now ≤ LANES }
        requires leaves { EachSpot (λ lane spot. IsSpotFor self.now lane.key spot) lanes.now spots.now }
        requires under_way { AreUnderWay (rows_of (tree_in self.now)) entries.now lanes.now
            answers.old.items }
        ensures under_way { AreUnderWay (rows_of (tree_in self.now)) entries.now result.items
            answers.new.items }
        ensures same { length answers.new.items ≡ length answers.old.items }
        ensures less { way_left result.items + length lanes.now ≤ way_left lanes.now }
    {
        let mut left = ArrayVec::new();
        for i in 0..lanes.len() {
            let place = lanes[i].place;
            match self.look(&entries[place], lanes[i].key, spots[i]) {
                Look::Answer(answer) => answers[place] = answer,
                Look::Again(key) => left.push(Lane { place, key }),
            }
        }
        left
    }

    // Takes entries until all lanes are taken or no entry is left. Those that don't go down are answered at once.
    fn fill(
        &self,
        entries: &[Entry],
        lanes: &mut ArrayVec<Lane, LANES>,
        answers: &mut Vec<Option<Reply>>,
    ) -> Result<(), NoMemory>
        requires { AreUnderWay (rows_of (tree_in self.now)) entries.now lanes.old.items answers.old.items }
        ensures under_way { OnOk result
            (AreUnderWay (rows_of (tree_in self.now)) entries.now lanes.new.items
            answers.new.items) }
        ensures full { OnOk result
            ((length lanes.new.items ≡ LANES)
            ⊎ (length answers.new.items ≡ length entries.now)) }
        ensures less { OnOk result
            (work_left entries.now lanes.new.items answers.new.items ≤ work_left entries.now
            lanes.old.items answers.old.items) }
    {
        while !lanes.is_full() {
            let place = answers.len();
            if place == entries.len() {
                return Ok(());
            }
            match self.begin(&entries[place])? {
                Look::Answer(answer) => answers.push(answer)?,
                Look::Again(key) => {
                    answers.push(None)?;
                    lanes.push(Lane { place, key });
                }
            }
        }
        Ok(())
    }

    /// The answers to the look-ups among entries, on the tree as it stands, each at its entry's place. Those of
    /// edits are `None`. `NoMemory` where room for them was refused. Gets and Rates go down `LANES` abreast; no
    /// memory is taken for one of them.
    pub fn answer_look_ups(&self, entries: &[Entry]) -> Result<Vec<Option<Reply>>, NoMemory>
        ensures { IfOk result (λ answers.
            answers.items ≡ map (looked (rows_of (tree_in self.now))) entries.now) }
    {
        let mut answers = Vec::with_capacity(self.arena.allocator(), entries.len())?;
        let mut lanes = ArrayVec::new();
        loop {
            self.fill(entries, &mut lanes, &mut answers)?;
            if lanes.is_empty() {
                return Ok(answers);
            }
            let spots = self.find_leaves(&lanes);
            lanes = self.settle(entries, &lanes, &spots, &mut answers);
        }
    }
}
