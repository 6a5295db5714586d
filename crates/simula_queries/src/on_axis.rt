// The sequencing queries on the tables of a judged model: refusal 3 by the operand's kind, or the answer.
ghost use Rattle.std.specs.Prelude.{◌≡◌, ◌+◌};
ghost use Rattle.model_laws.specs.Now.{AxisSound, half};
ghost use Rattle.simulation_laws.specs.Calls.{current_told, time_told, idle_told, terminated_told, evtime_told, nextev_told};
ghost use Rattle.simulation_laws.specs.Promise.{sqs, Judged};

use model::answer::Answer;
use model::{Counts, Refusal};
use ring::Rings;
use simulation::steps::current_link;
use simulation_axis::{due, first, next};
use simulation_procedures::axis::mark_at;

// The time axis of a model with these counts, as rings.
fn notices(c: Counts, axis: &[u32]) -> Rings<'_>
    requires { AxisSound (half c) axis.now }
    ensures { (result.words.now ≡ axis.now) × (result.m ≡ half c) }
{
    Rings {
        words: axis,
        m: c.processes as usize + 2,
    }
}

pub fn current(c: Counts, axis: &[u32], times: &[u64]) -> Result<Answer, Refusal>
    requires { Judged c axis.now }
    ensures { result ≡ current_told c (sqs axis.now times.now) }
{
    let f = first(notices(c, axis));
    Ok(Answer::Linkage(current_link(c, f)))
}

pub fn time(c: Counts, axis: &[u32], times: &[u64]) -> Result<Answer, Refusal>
    requires { Judged c axis.now }
    ensures { result ≡ time_told c (sqs axis.now times.now) }
{
    let f = first(notices(c, axis));
    Ok(Answer::Number(due(times, f as usize)))
}

pub fn idle(c: Counts, axis: &[u32], times: &[u64], x: u32) -> Result<Answer, Refusal>
    requires { Judged c axis.now }
    ensures { result ≡ idle_told c x (sqs axis.now times.now) }
{
    if !c.is_process(x) {
        return Err(Refusal::Operand);
    }
    Ok(Answer::Truth(simulation_axis::idle(notices(c, axis), c.place_of(x))))
}

pub fn terminated(c: Counts, marks: &[u8], x: u32) -> Result<Answer, Refusal>
    ensures { result ≡ terminated_told c x marks.now }
{
    if !c.is_process(x) {
        return Err(Refusal::Operand);
    }
    let q = c.place_of(x) as usize;
    Ok(Answer::Truth(mark_at(marks, q) == 1))
}

pub fn evtime(c: Counts, axis: &[u32], times: &[u64], x: u32) -> Result<Answer, Refusal>
    requires { Judged c axis.now }
    ensures { result ≡ evtime_told c x (sqs axis.now times.now) }
{
    if !c.is_process(x) {
        return Err(Refusal::Operand);
    }
    let q = c.place_of(x);
    if simulation_axis::idle(notices(c, axis), q) {
        return Err(Refusal::Idle);
    }
    Ok(Answer::Number(due(times, q as usize)))
}

pub fn nextev(c: Counts, axis: &[u32], times: &[u64], x: u32) -> Result<Answer, Refusal>
    requires { Judged c axis.now }
    ensures { result ≡ nextev_told c x (sqs axis.now times.now) }
{
    if !c.is_process(x) {
        return Err(Refusal::Operand);
    }
    let now = notices(c, axis);
    let q = c.place_of(x);
    if simulation_axis::idle(now, q) {
        return Ok(Answer::Linkage(0));
    }
    let s = next(now, q);
    if s as usize == now.m - 1 {
        return Ok(Answer::Linkage(0));
    }
    Ok(Answer::Linkage(current_link(c, s)))
}
