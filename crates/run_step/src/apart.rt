// The calls that are made apart from a stretch of turns: the rarer ones, those that have to count a set, and finish.
ghost use Rattle.std.specs.Prelude.{◌≡◌, ◌≢◌, true};
ghost use Rattle.model_laws.specs.Ready.{Ready};
ghost use Rattle.model_laws.specs.Tables.{model_of};
ghost use Rattle.simset_laws.specs.BoundLaws.{Covers, Linking};
ghost use Rattle.sheet.specs.Sheet.{record_offset, record_from};
ghost use Rattle.run_laws.specs.Needs.{Callable};
ghost use Rattle.run_laws.specs.Run.{record_got};
ghost use Rattle.run_laws.specs.Performed.{goes_to, Leaves, performed};
ghost use Rattle.run_laws.specs.Tried.{apart};

use model::{Counts, Refusal};
use run_arms::arms::{cancel_of, timed_of, wait_of};
use run_arms::set_arms::{clear_of, follow_of, into_of, precede_of};
use run_arms::unless_refused;
use run_laws::Effect;
use sheet::records::{RecordBytes, record_offset};
use simulation::steps::{finish, passivate};

// Where the process is after an accepted call; next is its record's.
pub fn goes_to(e: Result<Effect, Refusal>, next: u32) -> u32
    ensures { result ≡ goes_to e next }
{
    match e {
        Ok(Effect::Jumps(y)) => y,
        Ok(Effect::Stays | Effect::Moves | Effect::Apart) | Err(_) => next,
    }
}

// The record: an arm for each operation, and one for activate and reactivate. No accumulator is changed.
fn apart_at(
    c: Counts,
    call: RecordBytes<'_>,
    f: u32,
    links: &mut [u32],
    axis: &mut [u32],
    times: &mut [u64],
    marks: &[u8],
    bounds: &mut [u32],
) -> Result<Effect, Refusal>
    requires callable { Callable c call.sheet.now call.at f (model_of links.old axis.old times.old marks.now) }
    requires i_value { apart (record_from call.sheet.now call.at) ≡ true }
    requires covers { Covers c 0 links.old bounds.old }
    ensures leaves { Leaves (performed c (record_from call.entry.sheet.now call.entry.at) f
        (model_of links.old axis.old times.old marks.now))
        (model_of links.new axis.new times.new marks.now) result }
    ensures covers_2 { Linking c links.old → Covers c 0 links.new bounds.new }
{
    let op = call.operation();
    match op {
        2 => unless_refused(follow_of(c, call, links, f, bounds), Ok(Effect::Stays)),
        3 => unless_refused(precede_of(c, call, links, f, bounds), Ok(Effect::Stays)),
        4 => unless_refused(into_of(c, call, links, f, bounds), Ok(Effect::Stays)),
        5 => unless_refused(clear_of(c, call, links, f), Ok(Effect::Stays)),
        7 => unless_refused(passivate(c, axis, times), Ok(Effect::Moves)),
        8 => unless_refused(
            wait_of(c, call, links, axis, times, f, bounds),
            Ok(Effect::Moves),
        ),
        9 => unless_refused(cancel_of(c, call, links, axis, times, f), Ok(Effect::Moves)),
        _ => unless_refused(
            timed_of(c, call, links, axis, times, marks, f, op == 11),
            Ok(Effect::Moves),
        ),
    }
}

// Record r, or finish at 0; f is current's place.
pub fn perform_apart(
    c: Counts,
    sheet: &[u8],
    r: u32,
    f: u32,
    links: &mut [u32],
    axis: &mut [u32],
    times: &mut [u64],
    marks: &mut [u8],
    bounds: &mut [u32],
) -> Result<Effect, Refusal>
    requires callable { r ≢ 0 → Callable c sheet.now (record_offset c.processes r) f
        (model_of links.old axis.old times.old marks.old) }
    requires ready { Ready c (model_of links.old axis.old times.old marks.old) }
    requires r_value { apart (record_got c.processes sheet.now r) ≡ true }
    requires covers { Covers c 0 links.old bounds.old }
    ensures leaves { Leaves (performed c (record_got c.processes sheet.now r) f
        (model_of links.old axis.old times.old marks.old))
        (model_of links.new axis.new times.new marks.new) result }
    ensures covers_2 { Linking c links.old → Covers c 0 links.new bounds.new }
{
    if r == 0 {
        return unless_refused(finish(c, axis, times, marks), Ok(Effect::Moves));
    }
    let at = record_offset(c.processes, r);
    let call = RecordBytes { sheet, at };
    apart_at(c, call, f, links, axis, times, marks, bounds)
}
