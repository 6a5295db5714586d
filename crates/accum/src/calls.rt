// The public calls of accum: lent the whole model, refusing in the order 1, 2, 3, 7. A refused call changes no word.
ghost use Rattle.std.specs.Prelude.{◌≡◌, ◌≤◌};
ghost use Rattle.model.specs.Counts.{limit};
ghost use Rattle.model_laws.specs.Tables.{model_of};
ghost use Rattle.accum_laws.specs.Calls.{accum_one, accum_alone, accum_listed};

use accum_judge::{judge_list, list_fine, number_fine, time_of};
use accum_laws::{Accumulator, Kept};
use accum_update::flat::update_in;
use accum_update::update::updated;
use model::answer::Answer;
use model::{Counts, Refusal};
use model_judge::judge_tables;

// Accum at a time: the new accumulator, or refusal 7 and the old one.
pub(crate) fn accum_at_time(x: Accumulator, time: u64, d: i64) -> Kept
    requires { time ≤ limit }
    ensures { result ≡ accum_one x time d }
{
    match updated(x, time, d) {
        Ok(value) => Kept {
            value,
            answer: Ok(Answer::Done),
        },
        Err(q) => Kept {
            value: x,
            answer: Err(q),
        },
    }
}

// Accum on one accumulator by d.
pub fn accum_alone(
    c: Counts,
    links: &[u32],
    axis: &[u32],
    times: &[u64],
    marks: &[u8],
    x: Accumulator,
    d: i64,
) -> Kept
    ensures { result ≡ accum_alone c (model_of links.now axis.now times.now marks.now) x d }
{
    match judge_tables(c, links, axis, times, marks) {
        Err(refusal) => Kept {
            value: x,
            answer: Err(refusal),
        },
        Ok(()) => {
            let t = time_of(c, links, axis, times, marks);
            accum_at_time(x, t, d)
        }
    }
}

// Accum on number k of `count` accumulators by d, in a flat list of three words for each.
pub fn accum_listed(
    c: Counts,
    links: &[u32],
    axis: &[u32],
    times: &[u64],
    marks: &[u8],
    count: u32,
    words: &mut [i64],
    k: u32,
    d: i64,
) -> Result<Answer, Refusal>
    ensures { record { words = words.exit.now; answer = result }
        ≡ accum_listed c (model_of links.now axis.now times.now marks.now) count k d
        words.entry.now }
{
    let list = list_fine(count, words.len());
    let number = number_fine(count as usize, k);
    judge_list(c, links, axis, times, marks, list, number)?;
    let t = time_of(c, links, axis, times, marks);
    update_in(words, k, t, d)
}
