// The sequencing calls on the tables of a judged model: refusal 3 by the operands' kinds, of wait 10 by the set's room, or the procedure.
// Runs use these too. As in simset's steps, the words are lent beside the counts.
ghost use Rattle.std.specs.Prelude.{◌≡◌, ◌+◌, ◌-◌, ◌<◌, ◌≤◌};
ghost use Rattle.ring_laws.specs.Table.{Sound};
ghost use Rattle.model.specs.Counts.{is_process, linkage_at, total};
ghost use Rattle.model_laws.specs.Now.{AxisSound, half, first_of};
ghost use Rattle.simset_laws.specs.Calls.{or_none};
ghost use Rattle.simset_laws.specs.KnownRoom.{Roomy};
ghost use Rattle.simset_laws.specs.BoundLaws.{Covers};
ghost use Rattle.simulation_laws.specs.Plain.{timed_need};
ghost use Rattle.simulation_laws.specs.Calls.{y_place, hold_step, passivate_step, cancel_step, timed_step, finish_step, wait_step};
ghost use Rattle.simulation_laws.specs.Promise.{sqs, Answers, Judged, Takeable, Noticed};
ghost use Rattle.simulation_laws.specs.StepPromise.{FinishMade, WaitMade};
ghost use Rattle.simulation_laws.specs.WaitPromise.{WaitEntered};

use model::answer::Answer;
use model::{Counts, Refusal};
use ring::RingsMut;
use simset::procedures::precede;
use simset::room::no_room;
use simset::steps::{head_or_none, sets};
use simulation_axis::{first, lone};
use simulation_procedures::activation::above_zero;
use simulation_procedures::axis::drop_first;
use simulation_procedures::{activation, procedures};

// A process, or none.
pub fn process_or_none(c: Counts, x: u32) -> bool
    ensures { result ≡ or_none (is_process c x) x }
{
    x == 0 || c.is_process(x)
}

// The time axis of a model with these counts, as rings.
pub(crate) fn axis_of(c: Counts, axis: &mut [u32]) -> RingsMut<'_>
    requires { AxisSound (half c) axis.old }
    ensures value { (result.words.now ≡ axis.old) × (result.m ≡ half c) }
    ensures same { result.words.ghost_name ≡ axis.entry.ghost_name }
{
    RingsMut {
        words: axis,
        m: c.processes as usize + 2,
    }
}

pub fn hold(c: Counts, axis: &mut [u32], times: &mut [u64], t: i64) -> Result<Answer, Refusal>
    requires { Takeable c axis.old times.old }
    ensures { Answers (half c) (hold_step c t (sqs axis.old times.old)) axis.new times.new
        result }
{
    procedures::hold(&mut axis_of(c, axis), times, above_zero(t))
}

// Hold, where current's place and time are known.
pub fn hold_now(
    c: Counts,
    axis: &mut [u32],
    times: &mut [u64],
    f: u32,
    time: u64,
    t: i64,
) -> Result<Answer, Refusal>
    requires takeable { Takeable c axis.old times.old }
    requires noticed { Noticed (half c) f time axis.old times.old }
    ensures { Answers (half c) (hold_step c t (sqs axis.old times.old)) axis.new times.new
        result }
{
    procedures::hold_first(&mut axis_of(c, axis), times, f, time, above_zero(t))
}

pub fn passivate(c: Counts, axis: &mut [u32], times: &mut [u64]) -> Result<Answer, Refusal>
    requires { Takeable c axis.old times.old }
    ensures { Answers (half c) (passivate_step c (sqs axis.old times.old)) axis.new
        times.new result }
{
    procedures::passivate(&mut axis_of(c, axis), times)
}

pub fn cancel(c: Counts, axis: &mut [u32], times: &mut [u64], x: u32) -> Result<Answer, Refusal>
    requires { Judged c axis.old }
    ensures { Answers (half c) (cancel_step c x (sqs axis.old times.old)) axis.new times.new
        result }
{
    if !process_or_none(c, x) {
        return Err(Refusal::Operand);
    }
    procedures::cancel(&mut axis_of(c, axis), times, c.place_of(x))
}

// The clause and the parties it uses are of their kinds.
fn parties_fine(c: Counts, clause: u32, x: u32, y: u32) -> bool
    ensures { result ≡ timed_need c clause x y }
{
    clause <= 6 && (process_or_none(c, x) && (clause < 5 || process_or_none(c, y)))
}

// Y's place where the clause uses it.
fn y_place(c: Counts, clause: u32, y: u32) -> u32
    ensures { result ≡ y_place c clause y }
{
    if clause < 5 { 0 } else { c.place_of(y) }
}

// Activate, and again: reactivate.
pub fn activate(
    c: Counts,
    axis: &mut [u32],
    times: &mut [u64],
    marks: &[u8],
    again: bool,
    clause: u32,
    x: u32,
    y: u32,
    t: i64,
) -> Result<Answer, Refusal>
    requires { Judged c axis.old }
    ensures { Answers (half c) (timed_step c again clause x y t marks.now (sqs axis.old times.old))
        axis.new times.new result }
{
    if !parties_fine(c, clause, x, y) {
        return Err(Refusal::Operand);
    }
    let q = c.place_of(x);
    let s = y_place(c, clause, y);
    activation::activate(
        &mut axis_of(c, axis),
        times,
        marks,
        again,
        clause as u8,
        q,
        s,
        above_zero(t),
    )
}

pub fn finish(
    c: Counts,
    axis: &mut [u32],
    times: &mut [u64],
    marks: &mut [u8],
) -> Result<Answer, Refusal>
    requires { Takeable c axis.old times.old }
    ensures { FinishMade c (finish_step c marks.old (sqs axis.old times.old)) axis.new
        times.new marks.new result }
{
    let mut notices = axis_of(c, axis);
    let f = first(notices.reading());
    if f == 1 {
        return Err(Refusal::Operand);
    }
    procedures::finish(&mut notices, times, marks)
}

// The number of the process at a place of the axis.
pub fn current_link(c: Counts, f: u32) -> u32
    requires { (c.heads ≤ 64) × (f ≤ 1024) }
    ensures { result ≡ c.heads + f }
{
    c.heads + f
}

// Wait, where y is a head whose set has room for current, or none.
pub fn wait_known(
    c: Counts,
    links: &mut [u32],
    axis: &mut [u32],
    times: &mut [u64],
    y: u32,
) -> Result<Answer, Refusal>
    requires takeable { Takeable c axis.old times.old }
    requires sound { Sound (total c + 1) links.old }
    requires roomy { Roomy c links.old (linkage_at c (first_of (half c) axis.old)) y }
    ensures { WaitMade c (wait_step c y links.old (sqs axis.old times.old)) links.new
        axis.new times.new result }
{
    let mut notices = axis_of(c, axis);
    let now = notices.reading();
    if lone(now) {
        return Err(Refusal::NoNotice);
    }
    let at = first(now);
    precede(&mut sets(c, links), current_link(c, at), y);
    drop_first(&mut notices, times, at);
    Ok(Answer::Done)
}

pub fn wait(
    c: Counts,
    links: &mut [u32],
    axis: &mut [u32],
    times: &mut [u64],
    y: u32,
    bounds: &mut [u32],
) -> Result<Answer, Refusal>
    requires takeable { Takeable c axis.old times.old }
    requires sound { Sound (total c + 1) links.old }
    requires covers { Covers c 0 links.old bounds.old }
    ensures { WaitEntered c links.old (wait_step c y links.old (sqs axis.old times.old))
        links.new axis.new times.new bounds.new result }
{
    if !head_or_none(c, y) {
        return Err(Refusal::Operand);
    }
    let mut notices = axis_of(c, axis);
    let now = notices.reading();
    let f = first(now);
    let x = current_link(c, f);
    if no_room(c, links, x, y, bounds) {
        return Err(Refusal::Full);
    }
    if lone(now) {
        return Err(Refusal::NoNotice);
    }
    precede(&mut sets(c, links), x, y);
    drop_first(&mut notices, times, f);
    Ok(Answer::Done)
}
