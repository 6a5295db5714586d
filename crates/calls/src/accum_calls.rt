// Accum on a numbered element of the list and on its first alone.
use crate::call::AccumCall;
use accum::calls::{accum_alone, accum_listed};
use accum::lending::{accum_alone_lent, accum_listed_lent};
use accum_laws::{Accumulator, Kept};
use calls_served::head::Head;
use model::Refusal;
use model::answer::Answer;

// The first of the list, by value in and out of the call.
fn first_alone<F: FnOnce(Accumulator) -> Kept + Drop>(
    accums: &mut [i64],
    call: F,
) -> Result<Answer, Refusal>
    requires { F.IsAlwaysCallable call }
{
    let [a, b, c, ..] = accums else {
        return Err(Refusal::Size);
    };
    let kept = call(Accumulator {
        a: *a,
        b: *b,
        c: *c,
    });
    *a = kept.value.a;
    *b = kept.value.b;
    *c = kept.value.c;
    kept.answer
}

pub(crate) fn answer(
    call: AccumCall,
    head: Head,
    links: &[u32],
    axis: &[u32],
    times: &[u64],
    marks: &[u8],
    accums: &mut [i64],
) -> Result<Answer, Refusal> {
    let c = head.counts;
    let d = head.t;
    let count = head.sizes.accums;
    match call {
        AccumCall::ListedLent(x) => {
            accum_listed_lent(c, links, axis, times, marks, count, accums, x, d)
        }
        AccumCall::Listed(x) => accum_listed(c, links, axis, times, marks, count, accums, x, d),
        AccumCall::AloneLent => first_alone(accums, |v| {
            accum_alone_lent(c, links, axis, times, marks, v, d)
        }),
        AccumCall::Alone => {
            first_alone(accums, |v| accum_alone(c, links, axis, times, marks, v, d))
        }
    }
}
