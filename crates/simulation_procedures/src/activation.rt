// ACTIVATE on sound tables: no effect, refusals 4 and 5, or the new notice where its clause says.
ghost use Rattle.std.specs.Prelude.{◌≡◌, ◌<◌, ◌≤◌};
ghost use Rattle.ring.specs.Rings.{Kept};
ghost use Rattle.model.specs.Counts.{limit};
ghost use Rattle.simulation_laws.specs.Procedures.{place_for, put_by_clause, activated};
ghost use Rattle.simulation_laws.specs.Plain.{above};
ghost use Rattle.simulation_laws.specs.Promise.{sqs, Left, Answers, Place, Vain, BesideIdle, Due};

use crate::axis::{drop, mark_at, plus, put};
use crate::procedures::cancel;
use model::answer::Answer;
use model::{Refusal, TIME_LIMIT};
use ring::{Rings, RingsMut};
use simulation_axis::{due, first, idle, prev, seek};

// Whether ACTIVATE has no effect.
pub fn is_vain(axis: Rings<'_>, marks: &[u8], again: bool, k: u8, x: u32, y: u32) -> bool
    requires { x < axis.m }
    ensures { Vain again k x y marks.now axis.entry.words.now result }
{
    if x == 0 || mark_at(marks, x as usize) != 0 {
        return true;
    }
    !idle(axis, x) && (!again || k >= 5 && x == y)
}

// The new notice's time, capped.
pub(crate) fn due_at(times: &[u64], k: u8, y: u32, d: u64, time: u64) -> u64
    ensures { Due k y d time times.now result }
{
    if k == 0 {
        return plus(time, 0);
    }
    if k >= 5 {
        return plus(due(times, y as usize), 0);
    }
    if k == 2 || k == 4 {
        return plus(time, d);
    }
    if d < time {
        return plus(time, 0);
    }
    plus(d, 0)
}

// Whether the clause is before or after, and Y is idle.
pub(crate) fn beside_idle(axis: Rings<'_>, k: u8, y: u32) -> bool
    requires { y < axis.m }
    ensures { BesideIdle k y axis.entry.words.now result }
{
    k >= 5 && idle(axis, y)
}

// Behind which place the new notice stands.
pub(crate) fn place_for(axis: Rings<'_>, times: &[u64], k: u8, y: u32, time: u64, u: u64) -> u32
    requires y_lt_m { y < axis.m }
    requires m_bound { axis.m ≤ 1026 }
    requires u_le_limit { u ≤ limit }
    ensures { Place axis.entry.m (place_for axis.entry.m k y time u (sqs axis.entry.words.now times.now)) result }
{
    if k == 5 {
        return prev(axis, y);
    }
    if k == 6 {
        return y;
    }
    if k == 1 || k == 2 {
        return seek(axis, times, u + 1);
    }
    if u == time {
        return (axis.m - 1) as u32;
    }
    seek(axis, times, u)
}

// X's old notice goes, and the new one stands where the clause says. Called, it would put the axis into memory in the two short ways.
#[inline(always)]
pub fn schedule(
    axis: &mut RingsMut<'_>,
    times: &mut [u64],
    k: u8,
    x: u32,
    y: u32,
    time: u64,
    u: u64,
)
    requires x_lt_m { x < axis.old.m }
    requires y_lt_m { y < axis.old.m }
    requires m_bound { axis.old.m ≤ 1026 }
    requires u_le_limit { u ≤ limit }
    ensures left { Left axis.old.m (put_by_clause axis.old.m k x y time u (sqs axis.old.words.now times.old)) axis.new.words.now
        times.new }
    ensures kept { Kept axis.old axis.new }
{
    drop(axis, times, x);
    let q = place_for(axis.reading(), times, k, y, time, u);
    put(axis, times, x, q, u);
}

// The same, called: where any clause may come, the search has registers of its own.
#[inline(never)]
fn schedule_apart(
    axis: &mut RingsMut<'_>,
    times: &mut [u64],
    k: u8,
    x: u32,
    y: u32,
    time: u64,
    u: u64,
)
    requires x_lt_m { x < axis.old.m }
    requires y_lt_m { y < axis.old.m }
    requires m_bound { axis.old.m ≤ 1026 }
    requires u_le_limit { u ≤ limit }
    ensures left { Left axis.old.m (put_by_clause axis.old.m k x y time u (sqs axis.old.words.now times.old)) axis.new.words.now
        times.new }
    ensures kept { Kept axis.old axis.new }
{
    schedule(axis, times, k, x, y, time, u);
}

// Activate, and again: reactivate; x and y are places, 0 for none. Called, so that a run's loop has its registers for the short ways.
#[inline(never)]
pub fn activate(
    axis: &mut RingsMut<'_>,
    times: &mut [u64],
    marks: &[u8],
    again: bool,
    k: u8,
    x: u32,
    y: u32,
    d: u64,
) -> Result<Answer, Refusal>
    requires x_lt_m { x < axis.old.m }
    requires y_lt_m { y < axis.old.m }
    requires m_bound { axis.old.m ≤ 1026 }
    ensures answers { Answers axis.old.m (activated axis.old.m again k x y d marks.now (sqs axis.old.words.now times.old))
        axis.new.words.now times.new result }
    ensures kept { Kept axis.old axis.new }
{
    let now = axis.reading();
    if is_vain(now, marks, again, k, x, y) {
        return Ok(Answer::Done);
    }
    let time = due(times, first(now) as usize);
    let u = due_at(times, k, y, d, time);
    if u > TIME_LIMIT {
        return Err(Refusal::TimeLimit);
    }
    if beside_idle(now, k, y) {
        return cancel(axis, times, x);
    }
    schedule_apart(axis, times, k, x, y, time, u);
    Ok(Answer::Done)
}

// T where that is above 0, else 0.
pub fn above_zero(t: i64) -> u64
    ensures { result ≡ above t }
{
    if t < 0 { 0 } else { t as u64 }
}
