// What public calls of accum look at before an update: the model's time, and refusals 1, 2 and 3 of a list and a number in it.
#![tactic(auto)]

ghost use Rattle.std.specs.Prelude.{◌≡◌};
ghost use Rattle.model_laws.specs.Ready.{Ready};
ghost use Rattle.model_laws.specs.Now.{half, time_of};
ghost use Rattle.model_laws.specs.Tables.{model_of};
ghost use Rattle.accum_laws.specs.Calls.{count_fine, list_fine, number_fine, list_judged, pick_of};

use accum_laws::Picked;
use model::{Counts, Refusal};
use model_judge::judge_tables;
use ring::Rings;
use simulation_axis::{first, time_at};

// The time of a judged model: that of the first notice.
pub fn time_of(c: Counts, links: &[u32], axis: &[u32], times: &[u64], marks: &[u8]) -> u64
    requires { Ready c (model_of links.now axis.now times.now marks.now) }
    ensures { result ≡ time_of (half c) axis.now times.now }
{
    let notices = Rings {
        words: axis,
        m: c.processes as usize + 2,
    };
    time_at(times, first(notices) as usize)
}

// May a list have this many accumulators?
#[tactic(auto, unfolding(accum_laws::specs::Calls::count_fine))]
fn count_fine(count: usize) -> bool
    ensures { result ≡ count_fine count }
{
    1 <= count && count <= 64
}

// Are these so many words for this many accumulators?
#[tactic(auto, unfolding(accum_laws::specs::Calls::list_fine))]
pub fn list_fine(count: u32, words: usize) -> bool
    ensures { result ≡ list_fine count words }
{
    count_fine(count as usize) && words == 3 * count as usize
}

// Is there an accumulator of this number among so many?
#[tactic(auto, unfolding(accum_laws::specs::Calls::number_fine))]
pub fn number_fine(count: usize, k: u32) -> bool
    ensures { result ≡ number_fine count k }
{
    1 <= k && k as usize <= count
}

// Refusals 1, 2 and 3 of a list and a number that were looked at, and of the model.
pub fn judge_list(
    c: Counts,
    links: &[u32],
    axis: &[u32],
    times: &[u64],
    marks: &[u8],
    list: bool,
    number: bool,
) -> Result<(), Refusal>
    ensures { result ≡ list_judged list number c (model_of links.now axis.now times.now
        marks.now) }
{
    if !list {
        return Err(Refusal::Size);
    }
    judge_tables(c, links, axis, times, marks)?;
    if !number {
        return Err(Refusal::Operand);
    }
    Ok(())
}

// The element that number k picks of `count` accumulators, and the model's time; or the refusal.
pub fn pick(
    c: Counts,
    links: &[u32],
    axis: &[u32],
    times: &[u64],
    marks: &[u8],
    count: usize,
    k: u32,
) -> Result<Picked, Refusal>
    ensures { result ≡ pick_of c (model_of links.now axis.now times.now marks.now) count k }
{
    let list = count_fine(count);
    let number = number_fine(count, k);
    judge_list(c, links, axis, times, marks, list, number)?;
    Ok(Picked {
        at: k as usize - 1,
        time: time_of(c, links, axis, times, marks),
    })
}
