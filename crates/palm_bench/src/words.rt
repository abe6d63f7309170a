// What the program's words plan.
ghost use Rattle.std.specs.Prelude.{◌≡◌, map, string_bytes, IfSome, IfNone};
ghost use Rattle.palm_bench.specs.Kinds.{kind_named};
ghost use Rattle.palm_bench.specs.Plans.{IsCount, SayPlan, value_of};
ghost use Rattle.palm_bench.specs.declared.plan.Plan.{Plan};

use crate::feed::Kind;
use crate::plan::{MOST_COUNT, Plan};
use palm_batch::MOST_CALLS;
use palm_share::MOST_WORKERS;

fn read_kind(word: &str) -> Option<Kind>
    ensures { result ≡ kind_named word.now }
{
    match word {
        "load" => Some(Kind::Load),
        "sets" => Some(Kind::Sets),
        "edits" => Some(Kind::Edits),
        "gets" => Some(Kind::Gets),
        "rates" => Some(Kind::Rates),
        "nested" => Some(Kind::Nested),
        "narrow" => Some(Kind::Narrow),
        "wide" => Some(Kind::Wide),
        "looks" => Some(Kind::Looks),
        "half" => Some(Kind::Half),
        _ => None,
    }
}

// The number that a word spells, from 1 to `most`.
fn read_number(word: &str, most: u64) -> Option<u64>
    ensures found { IfSome result (λ number. IsCount most word.now × (number ≡ value_of word.now)) }
    ensures none { IfNone result (IsCount most word.now → ⊥) }
{
    let Ok(number) = word.parse::<u64>() else {
        return None;
    };
    if number < 1 || number > most {
        return None;
    }
    Some(number)
}

/// The plan of the words KIND COUNT BATCH WORKERS. `None` exactly where they are not of this form.
pub fn read(words: &Vec<String>) -> Option<Plan>
    ensures found { IfSome result (λ plan. SayPlan (map string_bytes words.now.items) plan) }
    ensures none { IfNone result ((plan : Plan) → SayPlan (map string_bytes words.now.items) plan → ⊥) }
{
    let [kind, count, batch, workers] = words.as_slice() else {
        return None;
    };
    let kind = read_kind(kind.as_str())?;
    let count = read_number(count.as_str(), MOST_COUNT)?;
    let batch = read_number(batch.as_str(), MOST_CALLS as u64)? as u32;
    let workers = read_number(workers.as_str(), u64::from(MOST_WORKERS))? as u32;
    Some(Plan {
        kind,
        count,
        batch,
        workers,
    })
}
