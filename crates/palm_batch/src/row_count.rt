// How many rows a table has after a batch, by the replies to it.
ghost use Rattle.std.specs.Prelude.{◌≡◌, ◌+◌, ◌≤◌, ◌<◌, ◌^◌, length, count_by};
ghost use Rattle.palm_batch.specs.Replies.{is_new, is_gone};

use palm_base::Reply;

fn count_new(replies: &[Reply]) -> usize
    ensures { result ≡ count_by is_new replies.now }
{
    replies
        .iter()
        .filter(|reply| matches!(reply, Reply::New))
        .count()
}

fn count_gone(replies: &[Reply]) -> usize
    ensures { result ≡ count_by is_gone replies.now }
{
    replies
        .iter()
        .filter(|reply| matches!(reply, Reply::Gone(_)))
        .count()
}

/// The number of rows after a batch that is replied so, where there were `rows` before.
pub(crate) fn rows_after(rows: u64, replies: &[Reply]) -> u64
    requires fits { rows + length replies.now < 2 ^ 64 }
    requires gone { count_by is_gone replies.now ≤ rows + count_by is_new replies.now }
    ensures { result + count_by is_gone replies.now ≡ rows + count_by is_new replies.now }
{
    rows + count_new(replies) as u64 - count_gone(replies) as u64
}
