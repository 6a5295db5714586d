// Calls with plain parameters above the lent forms: an accumulator, or the first of 64, in a local that is lent to the form.
ghost use Rattle.std.specs.Prelude.{◌≡◌, ◌≤◌, take};
ghost use Rattle.accum_laws.specs.Calls.{accum_alone, accum_at, accum_listed};
ghost use Rattle.model_laws.specs.Tables.{model_of};

use crate::lent::{accum_at, accum_one};
use accum_judge::list_fine;
use accum_laws::{Accumulator, Kept};
use accum_update::gather::{gather, spread};
use model::answer::Answer;
use model::{Counts, Refusal};

// Accum on one accumulator by d, lent to the call.
pub fn accum_alone_lent(
    c: Counts,
    links: &[u32],
    axis: &[u32],
    times: &[u64],
    marks: &[u8],
    x: Accumulator,
    d: i64,
) -> Kept
    ensures { result ≡ accum_alone c (model_of links.now axis.now times.now marks.now) x d }
{
    let mut value = x;
    let answer = accum_one(c, links, axis, times, marks, &mut value, d);
    Kept { value, answer }
}

// 64 accumulators after a call on the first of them, and the call's answer.
#[derive(Clone, Copy)]
struct Relisted {
    list: [Accumulator; 64],
    answer: Result<Answer, Refusal>,
}

// Accum by d on number k of the first n of 64 accumulators, lent to the call.
fn accum_at_first(
    c: Counts,
    links: &[u32],
    axis: &[u32],
    times: &[u64],
    marks: &[u8],
    list: [Accumulator; 64],
    n: usize,
    k: u32,
    d: i64,
) -> Relisted
    requires { n ≤ 64 }
    ensures { record { list = take n result.list; answer = result.answer }
        ≡ accum_at c (model_of links.now axis.now times.now marks.now) k d (take n list) }
{
    let mut after = list;
    let answer = accum_at(c, links, axis, times, marks, &mut after[..n], k, d);
    Relisted {
        list: after,
        answer,
    }
}

// Accum on number k of `count` accumulators by d, in a flat list of three words for each. They are copied to structs, which are lent to the
// call, and back.
pub fn accum_listed_lent(
    c: Counts,
    links: &[u32],
    axis: &[u32],
    times: &[u64],
    marks: &[u8],
    count: u32,
    words: &mut [i64],
    k: u32,
    d: i64,
) -> Result<Answer, Refusal>
    ensures { record { words = words.exit.now; answer = result }
        ≡ accum_listed c (model_of links.now axis.now times.now marks.now) count k d
        words.entry.now }
{
    if !list_fine(count, words.len()) {
        return Err(Refusal::Size);
    }
    let n = count as usize;
    let list = gather(words, n);
    let r = accum_at_first(c, links, axis, times, marks, list, n, k, d);
    let after = r.list;
    let answer = r.answer;
    spread(after, n, words);
    answer
}
