// The calls that a stretch of turns makes itself, on judged tables, and what they mean for current.
ghost use Rattle.std.specs.Prelude.{◌≡◌, ◌≢◌, ◌<◌};
ghost use Rattle.sheet.specs.Sheet.{record_offset, record_from};
ghost use Rattle.run_laws.specs.Needs.{Readable, Performable};
ghost use Rattle.run_laws.specs.Run.{record_got};
ghost use Rattle.run_laws.specs.Performed.{branched};
ghost use Rattle.run_laws.specs.Tried.{tried, room_known};
ghost use Rattle.model_laws.specs.Tables.{model_of};
ghost use Rattle.simset_laws.specs.BoundLaws.{Covers, Linking};

use model::{Counts, Refusal};
use run_arms::arms::{accum_of, hold_of, wait_known_of};
use run_arms::set_arms::{into_known_of, out_of, room_of};
use run_arms::soon::{delayed_of, direct_of};
use run_arms::unless_refused;
use run_laws::Effect;
use sheet::records::{RecordBytes, record_offset};

// 12: x is a head, or refusal 3; where it is empty, the process goes to y. No operand but a head's number stands for a head.
fn branch(c: Counts, call: RecordBytes<'_>, links: &[u32], f: u32) -> Result<Effect, Refusal>
    requires readable { Readable c call.sheet.now call.at links.now f (record_from call.sheet.now call.at).x }
    requires f_nonzero { 0 < f }
    ensures { result ≡ branched c (record_from call.entry.sheet.now call.entry.at) f links.now }
{
    let x = call.x();
    if !c.is_head(x) {
        return Err(Refusal::Operand);
    }
    if links[x as usize] == x {
        return Ok(Effect::Jumps(call.y()));
    }
    Ok(Effect::Stays)
}

// The record: an arm for each operation that is made here.
fn perform_at(
    c: Counts,
    call: RecordBytes<'_>,
    f: u32,
    time: u64,
    links: &mut [u32],
    axis: &mut [u32],
    times: &mut [u64],
    marks: &[u8],
    accums: &mut [i64],
    bounds: &mut [u32],
) -> Result<Effect, Refusal>
    requires performable { Performable c call.sheet.now call.at f time (model_of links.old axis.old times.old marks.now) accums.old }
    requires covers { Covers c 0 links.old bounds.old }
    ensures result_after { record {
      tables = model_of links.new axis.new times.new marks.now;
      words = accums.new;
      effect = result;
    }
        ≡ tried c (record_from call.entry.sheet.now call.entry.at) f (model_of links.old axis.old times.old
        marks.now) accums.old
        (room_known c (record_from call.entry.sheet.now call.entry.at) bounds.old) }
    ensures covers_2 { Linking c links.old → Covers c 0 links.new bounds.new }
{
    let op = call.operation();
    match op {
        1 => unless_refused(out_of(c, call, links, f), Ok(Effect::Stays)),
        4 => {
            if !room_of(c, call, bounds) {
                return Ok(Effect::Apart);
            }
            unless_refused(into_known_of(c, call, links, f), Ok(Effect::Stays))
        }
        6 => unless_refused(hold_of(c, call, axis, times, f, time), Ok(Effect::Moves)),
        8 => {
            if !room_of(c, call, bounds) {
                return Ok(Effect::Apart);
            }
            unless_refused(
                wait_known_of(c, call, links, axis, times, f),
                Ok(Effect::Moves),
            )
        }
        10 => {
            let k = call.clause();
            if k == 2 {
                return delayed_of(c, call, links, axis, times, marks, f, time);
            }
            if k == 0 {
                return direct_of(c, call, links, axis, times, marks, f, time);
            }
            Ok(Effect::Apart)
        }
        12 => branch(c, call, links, f),
        13 => unless_refused(accum_of(call, accums, time), Ok(Effect::Stays)),
        _ => Ok(Effect::Apart),
    }
}

// Record r, where its call is made here; f is current's place, and time its time.
pub fn perform(
    c: Counts,
    sheet: &[u8],
    r: u32,
    f: u32,
    time: u64,
    links: &mut [u32],
    axis: &mut [u32],
    times: &mut [u64],
    marks: &[u8],
    accums: &mut [i64],
    bounds: &mut [u32],
) -> Result<Effect, Refusal>
    requires performable { r ≢ 0 → Performable c sheet.now (record_offset c.processes r) f time
        (model_of links.old axis.old times.old marks.now) accums.old }
    requires covers { Covers c 0 links.old bounds.old }
    ensures result_after { record {
      tables = model_of links.new axis.new times.new marks.now;
      words = accums.new;
      effect = result;
    }
        ≡ tried c (record_got c.processes sheet.now r) f
        (model_of links.old axis.old times.old marks.now) accums.old
        (room_known c (record_got c.processes sheet.now r) bounds.old) }
    ensures covers_2 { Linking c links.old → Covers c 0 links.new bounds.new }
{
    if r == 0 {
        return Ok(Effect::Apart);
    }
    let at = record_offset(c.processes, r);
    let call = RecordBytes { sheet, at };
    perform_at(c, call, f, time, links, axis, times, marks, accums, bounds)
}
