// Hold, passivate, cancel and finish on sound tables: refusals 4 and 5, or the published procedure.
ghost use Rattle.std.specs.Prelude.{◌<◌, ◌≤◌};
ghost use Rattle.ring.specs.Rings.{Kept};
ghost use Rattle.model.specs.Counts.{limit};
ghost use Rattle.simulation_laws.specs.Procedures.{held_at, held, passivated, cancelled, finished_marks};
ghost use Rattle.simulation_laws.specs.Promise.{sqs, Left, Answers, AnswersMarked, First, Led, Noticed};

use crate::axis::{drop, drop_first, mark, move_to, set_time};
use model::answer::Answer;
use model::{Refusal, TIME_LIMIT};
use ring::RingsMut;
use simulation_axis::{due, first, idle, lone, next, time_at};

// x's notice gets the time u; where the next is due by then, it goes behind all due by then.
pub(crate) fn hold_at(axis: &mut RingsMut<'_>, times: &mut [u64], x: u32, u: u64)
    requires first { First axis.old.m x axis.old.words.now times.old }
    requires u_le_limit { u ≤ limit }
    ensures left { Left axis.old.m (held_at axis.old.m x u (sqs axis.old.words.now times.old)) axis.new.words.now times.new }
    ensures kept { Kept axis.old axis.new }
{
    let s = next(axis.reading(), x) as usize;
    if s == axis.m - 1 || u < time_at(times, s) {
        set_time(times, x as usize, u);
        return;
    }
    move_to(axis, times, x, u + 1, u);
}

// Hold by the first notice, x's, whose time is given; d is T where that is above 0, else 0.
pub fn hold_first(
    axis: &mut RingsMut<'_>,
    times: &mut [u64],
    x: u32,
    time: u64,
    d: u64,
) -> Result<Answer, Refusal>
    requires led { Led axis.old.m axis.old.words.now times.old }
    requires noticed { Noticed axis.old.m x time axis.old.words.now times.old }
    ensures answers { Answers axis.old.m (held axis.old.m d (sqs axis.old.words.now times.old)) axis.new.words.now times.new result }
    ensures kept { Kept axis.old axis.new }
{
    if d > TIME_LIMIT - time {
        return Err(Refusal::TimeLimit);
    }
    hold_at(axis, times, x, time + d);
    Ok(Answer::Done)
}

// Hold.
pub fn hold(axis: &mut RingsMut<'_>, times: &mut [u64], d: u64) -> Result<Answer, Refusal>
    requires { Led axis.old.m axis.old.words.now times.old }
    ensures answers { Answers axis.old.m (held axis.old.m d (sqs axis.old.words.now times.old)) axis.new.words.now times.new result }
    ensures kept { Kept axis.old axis.new }
{
    let x = first(axis.reading());
    let time = due(times, x as usize);
    if time > TIME_LIMIT {
        return Err(Refusal::TimeLimit);
    }
    hold_first(axis, times, x, time, d)
}

// Passivate.
pub fn passivate(axis: &mut RingsMut<'_>, times: &mut [u64]) -> Result<Answer, Refusal>
    requires { Led axis.old.m axis.old.words.now times.old }
    ensures answers { Answers axis.old.m (passivated axis.old.m (sqs axis.old.words.now times.old)) axis.new.words.now times.new result }
    ensures kept { Kept axis.old axis.new }
{
    let now = axis.reading();
    if lone(now) {
        return Err(Refusal::NoNotice);
    }
    let x = first(now);
    drop_first(axis, times, x);
    Ok(Answer::Done)
}

// Cancel.
pub fn cancel(axis: &mut RingsMut<'_>, times: &mut [u64], x: u32) -> Result<Answer, Refusal>
    requires { x < axis.old.m }
    ensures answers { Answers axis.old.m (cancelled axis.old.m x (sqs axis.old.words.now times.old)) axis.new.words.now times.new result }
    ensures kept { Kept axis.old axis.new }
{
    let now = axis.reading();
    if idle(now, x) {
        return Ok(Answer::Done);
    }
    if lone(now) {
        return Err(Refusal::NoNotice);
    }
    drop(axis, times, x);
    Ok(Answer::Done)
}

// Finish: current is marked terminated, then passivated.
pub fn finish(
    axis: &mut RingsMut<'_>,
    times: &mut [u64],
    marks: &mut [u8],
) -> Result<Answer, Refusal>
    requires { Led axis.old.m axis.old.words.now times.old }
    ensures answers { AnswersMarked axis.old.m (passivated axis.old.m (sqs axis.old.words.now times.old))
        (finished_marks axis.old.m marks.old (sqs axis.old.words.now times.old)) axis.new.words.now times.new
        marks.new result }
    ensures kept { Kept axis.old axis.new }
{
    let now = axis.reading();
    if lone(now) {
        return Err(Refusal::NoNotice);
    }
    let x = first(now);
    mark(marks, x as usize);
    drop_first(axis, times, x);
    Ok(Answer::Done)
}
