// From what the leaves answer the parts of a batch to the replies of the batch.
ghost use Rattle.std.specs.Prelude.{◌≡◌, ◌≤◌, ◌++◌, ℕ, List, length, map, take, IfOk, OnOk};
ghost use Rattle.std.specs.List.{AllByRecursion};
ghost use Rattle.palm_base.specs.History.{replies_to};
ghost use Rattle.palm_base.specs.declared.row.Row.{Row};
ghost use Rattle.palm_arena.specs.Leaves.{LeafPlace};
ghost use Rattle.palm_route.specs.Edits.{EditsPrefix};
ghost use Rattle.palm_batch.specs.Replies.{unanswered, with_rate, with_found, joined, replies_joined, FindsRate};
ghost use Rattle.palm_batch.specs.Replies.{FindsRows, Fits, FitsEntry, IsSoFar, RatesPrefix, AreAnswers};

use palm_base::{Amount, Call, Digits, Entry, NoMemory, Reply, Row, RowList};
use palm_leaf::{AnswerList, LeafAnswer, PartAnswer};
use std::alloc::Global;

// The reply to a call before anything is joined to it.
fn begin_reply(alloc: Global, call: &Call) -> Reply
    ensures reply { result ≡ unanswered call.now }
    ensures prefix { RatesPrefix call.now }
{
    match call {
        Call::Set { .. } | Call::Del { .. } | Call::Get { .. } => Reply::Absent,
        Call::Rate { number } => {
            // its length says of a number that it is a prefix
            let _ = number.len();
            Reply::Absent
        }
        Call::List { .. } => Reply::Rows(RowList::new(alloc)),
    }
}

// The replies to a batch before anything is joined to them.
fn begin_replies(alloc: Global, batch: &[Entry]) -> Result<Vec<Reply>, NoMemory>
    ensures replies { IfOk result (λ replies.
        replies.items ≡ map (λ entry. unanswered entry.call) batch.now) }
    ensures prefixes { OnOk result (AllByRecursion (λ entry. RatesPrefix entry.call) batch.now) }
{
    let mut replies = Vec::with_capacity(alloc, batch.len())?;
    for entry in batch {
        replies.push_reserved(begin_reply(alloc, &entry.call));
    }
    Ok(replies)
}

// Joins to a call's reply the rate that a part by this key found, or that there is none. The fronts of a Rate come
// in rising order, so that the last that has a rate is the longest.
fn join_rate(call: &Call, key: u64, rate: Option<Amount>, reply: &mut Reply)
    requires { FindsRate call.now key }
    ensures { reply.new ≡ with_rate call.now key rate reply.old }
{
    *reply = match (*call, rate) {
        (Call::Set { .. }, None) => Reply::New,
        (Call::Set { .. }, Some(rate)) => Reply::Was(rate),
        (Call::Del { .. }, Some(rate)) => Reply::Gone(rate),
        (Call::Get { .. }, Some(rate)) => Reply::Value(rate),
        (Call::Del { .. } | Call::Get { .. }, None) => Reply::Absent,
        (Call::Rate { .. }, Some(rate)) => Reply::Hit(Row {
            prefix: Digits::of_key(key),
            rate,
        }),
        (Call::Rate { .. }, None) => return,
        (Call::List { .. }, _) => unreachable!(),
    };
}

// Puts rows behind others, as many as a limit allows. Where there are none yet they are moved.
fn append_rows(rows: &mut RowList, found: RowList, limit: usize) -> Result<(), NoMemory>
    requires within { length rows.old ≤ limit }
    requires few { length found ≤ limit }
    ensures ok { OnOk result (rows.new ≡ take limit (rows.old ++ found)) }
{
    if rows.is_empty() {
        *rows = found;
        return Ok(());
    }
    let room = (limit - rows.len()).min(found.len());
    for row in &found.as_slice()[..room] {
        rows.push(*row)?;
    }
    Ok(())
}

// Joins to a List's reply the rows that one more leaf found.
fn join_rows(call: &Call, found: RowList, reply: &mut Reply) -> Result<(), NoMemory>
    requires finds { FindsRows call.now (length found) }
    requires so_far { IsSoFar call.now reply.old }
    ensures ok { OnOk result (reply.new ≡ with_found call.now found reply.old) }
{
    let Call::List { limit, .. } = *call else {
        unreachable!()
    };
    let Reply::Rows(rows) = reply else {
        unreachable!()
    };
    append_rows(rows, found, limit.get() as usize)
}

// Joins to a call's reply what a leaf answers one of its parts.
fn join_answer(call: &Call, answer: PartAnswer, reply: &mut Reply) -> Result<(), NoMemory>
    requires fits { Fits call.now answer }
    requires so_far { IsSoFar call.now reply.old }
    ensures ok { OnOk result (reply.new ≡ joined call.now reply.old answer) }
{
    let PartAnswer { part, answer } = answer;
    match answer {
        LeafAnswer::Old(rate) => {
            join_rate(call, part.key, rate, reply);
            Ok(())
        }
        LeafAnswer::Found(found) => join_rows(call, found, reply),
    }
}

// Joins each answer to the reply at the place of its entry.
fn join_all(batch: &[Entry], answers: AnswerList, replies: &mut [Reply]) -> Result<(), NoMemory>
    requires unanswered { replies.old ≡ map (λ entry. unanswered entry.call) batch.now }
    requires fit { AllByRecursion (FitsEntry batch.now) answers }
    ensures ok { OnOk result (replies.new ≡ replies_joined 0 batch.now answers) }
{
    for answer in answers.into_list() {
        let place = answer.part.entry as usize;
        join_answer(&batch[place].call, answer, &mut replies[place])?;
    }
    Ok(())
}

/// The replies to a batch, in the order of its entries, from what the leaves answer its parts in the order of the
/// leaves. The rows of a List's first leaf are moved, and those of the others are copied behind them, as many as
/// its limit allows.
///
/// `NoMemory` where memory is refused for the replies.
pub fn join_answers(
    alloc: Global,
    batch: &[Entry],
    answers: AnswerList,
) -> Result<Vec<Reply>, NoMemory>
    requires prefixes { AllByRecursion (λ entry. EditsPrefix entry.call) batch.now }
    requires answers { (places : List LeafPlace) × (lows : List ℕ) × (rows : List Row)
        × AreAnswers places lows rows batch.now answers }
    ensures replies { IfOk result (λ replies.
        (places : List LeafPlace) (lows : List ℕ) (rows : List Row)
        → AreAnswers places lows rows batch.now answers
        → replies.items ≡ replies_to rows batch.now) }
{
    let mut replies = begin_replies(alloc, batch)?;
    join_all(batch, answers, &mut replies)?;
    Ok(replies)
}
