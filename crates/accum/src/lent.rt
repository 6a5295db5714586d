// Accumulators lent as structs: thin functions over the calls by value.
ghost use Rattle.std.specs.Prelude.{◌≡◌};
ghost use Rattle.accum_laws.specs.Calls.{accum_alone, accum_at};
ghost use Rattle.model_laws.specs.Tables.{model_of};

use crate::calls::{accum_alone, accum_at_time};
use accum_judge::pick;
use accum_laws::Accumulator;
use model::answer::Answer;
use model::{Counts, Refusal};

// Accum by d on an accumulator that is lent to the call.
pub fn accum_one(
    c: Counts,
    links: &[u32],
    axis: &[u32],
    times: &[u64],
    marks: &[u8],
    x: &mut Accumulator,
    d: i64,
) -> Result<Answer, Refusal>
    ensures { record { value = x.new; answer = result }
        ≡ accum_alone c (model_of links.now axis.now times.now marks.now) x.old d }
{
    let r = accum_alone(c, links, axis, times, marks, *x, d);
    *x = r.value;
    r.answer
}

// Accum by d on number k, from 1, of a list of accumulators that is lent to the call.
pub fn accum_at(
    c: Counts,
    links: &[u32],
    axis: &[u32],
    times: &[u64],
    marks: &[u8],
    xs: &mut [Accumulator],
    k: u32,
    d: i64,
) -> Result<Answer, Refusal>
    ensures { record { list = xs.new; answer = result }
        ≡ accum_at c (model_of links.now axis.now times.now marks.now) k d xs.old }
{
    let p = pick(c, links, axis, times, marks, xs.len(), k)?;
    let r = accum_at_time(xs[p.at], p.time, d);
    xs[p.at] = r.value;
    r.answer
}
