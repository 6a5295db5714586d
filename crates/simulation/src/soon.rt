// Activation with no clause and after a delay, where the first notice's place and time are known: the short ways that runs take.
ghost use Rattle.std.specs.Prelude.{false, ◌<◌, ◌≤◌, pos};
ghost use Rattle.model_laws.specs.Now.{half};
ghost use Rattle.ring.specs.Rings.{Kept};
ghost use Rattle.simulation_laws.specs.Procedures.{activated};
ghost use Rattle.simulation_laws.specs.Calls.{timed_step};
ghost use Rattle.simulation_laws.specs.Promise.{sqs, Answers, Judged, Noticed};

use crate::steps::{axis_of, process_or_none};
use model::answer::Answer;
use model::{Counts, Refusal, TIME_LIMIT};
use ring::RingsMut;
use simulation_procedures::activation::{above_zero, is_vain, schedule};

// Activate with no clause, where the first notice's place and time are known: where it has an effect, X's notice is the first now.
fn direct(
    axis: &mut RingsMut<'_>,
    times: &mut [u64],
    marks: &[u8],
    f: u32,
    time: u64,
    x: u32,
) -> Result<Answer, Refusal>
    requires x_lt_m { x < axis.old.m }
    requires m_bound { axis.old.m ≤ 1026 }
    requires noticed { Noticed axis.old.m f time axis.old.words.now times.old }
    ensures answers { Answers axis.old.m (activated axis.old.m false 0 x 0 0 marks.now (sqs axis.old.words.now times.old))
        axis.new.words.now times.new result }
    ensures kept { Kept axis.old axis.new }
{
    if is_vain(axis.reading(), marks, false, 0, x, 0) {
        return Ok(Answer::Done);
    }
    schedule(axis, times, 0, x, 0, time, time);
    Ok(Answer::Done)
}

// Activate after a delay, with the same known.
fn delayed(
    axis: &mut RingsMut<'_>,
    times: &mut [u64],
    marks: &[u8],
    f: u32,
    time: u64,
    x: u32,
    d: u64,
) -> Result<Answer, Refusal>
    requires x_lt_m { x < axis.old.m }
    requires m_bound { axis.old.m ≤ 1026 }
    requires noticed { Noticed axis.old.m f time axis.old.words.now times.old }
    ensures answers { Answers axis.old.m (activated axis.old.m false 2 x 0 d marks.now (sqs axis.old.words.now times.old))
        axis.new.words.now times.new result }
    ensures kept { Kept axis.old axis.new }
{
    if is_vain(axis.reading(), marks, false, 2, x, 0) {
        return Ok(Answer::Done);
    }
    if d > TIME_LIMIT - time {
        return Err(Refusal::TimeLimit);
    }
    schedule(axis, times, 2, x, 0, time, time + d);
    Ok(Answer::Done)
}

// Activate with no clause, where current's place and time are known.
pub fn activate_now(
    c: Counts,
    axis: &mut [u32],
    times: &mut [u64],
    marks: &[u8],
    f: u32,
    time: u64,
    x: u32,
) -> Result<Answer, Refusal>
    requires judged { Judged c axis.old }
    requires noticed { Noticed (half c) f time axis.old times.old }
    ensures { Answers (half c) (timed_step c false 0 x 0 (pos 0) marks.now (sqs axis.old times.old))
        axis.new times.new result }
{
    if !process_or_none(c, x) {
        return Err(Refusal::Operand);
    }
    direct(&mut axis_of(c, axis), times, marks, f, time, c.place_of(x))
}

// Activate after a delay, with the same known.
pub fn activate_after(
    c: Counts,
    axis: &mut [u32],
    times: &mut [u64],
    marks: &[u8],
    f: u32,
    time: u64,
    x: u32,
    t: i64,
) -> Result<Answer, Refusal>
    requires judged { Judged c axis.old }
    requires noticed { Noticed (half c) f time axis.old times.old }
    ensures { Answers (half c) (timed_step c false 2 x 0 t marks.now (sqs axis.old times.old))
        axis.new times.new result }
{
    if !process_or_none(c, x) {
        return Err(Refusal::Operand);
    }
    delayed(
        &mut axis_of(c, axis),
        times,
        marks,
        f,
        time,
        c.place_of(x),
        above_zero(t),
    )
}
