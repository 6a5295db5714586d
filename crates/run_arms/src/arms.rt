// The sequencing calls and accum of a record, one for each operation that reads operands: an operand is resolved
// where its call uses it.
ghost use Rattle.std.specs.Prelude.{◌≡◌, true, false, ◌+◌, ◌*◌, ◌≤◌, length};
ghost use Rattle.model.specs.Counts.{limit, linkage_at};
ghost use Rattle.model_laws.specs.Now.{half, first_of};
ghost use Rattle.simulation_laws.specs.Calls.{hold_step, cancel_step, timed_step, wait_step};
ghost use Rattle.simulation_laws.specs.Promise.{sqs, Answers, Judged, Takeable, Noticed};
ghost use Rattle.simset_laws.specs.BoundLaws.{Covers};
ghost use Rattle.simset_laws.specs.KnownRoom.{Roomy};
ghost use Rattle.simulation_laws.specs.StepPromise.{WaitMade};
ghost use Rattle.simulation_laws.specs.WaitPromise.{WaitEntered};
ghost use Rattle.accum_laws.specs.Flat.{updated_in};
ghost use Rattle.sheet.specs.Sheet.{record_from, record_bytes};
ghost use Rattle.run_laws.specs.OnTables.{operand_with};
ghost use Rattle.run_laws.specs.Needs.{Readable};

use crate::reading::{x_of, y_of};
use accum_update::flat::update_in;
use model::answer::Answer;
use model::{Counts, Refusal};
use sheet::records::RecordBytes;
use simulation::steps::{activate, cancel, hold_now, wait, wait_known};

pub fn hold_of(
    c: Counts,
    call: RecordBytes<'_>,
    axis: &mut [u32],
    times: &mut [u64],
    f: u32,
    time: u64,
) -> Result<Answer, Refusal>
    requires takeable { Takeable c axis.old times.old }
    requires noticed { Noticed (half c) f time axis.old times.old }
    ensures { Answers (half c) (hold_step c (record_from call.entry.sheet.now call.entry.at).t (sqs axis.old times.old))
        axis.new times.new result }
{
    let t = call.t();
    hold_now(c, axis, times, f, time, t)
}

pub fn wait_of(
    c: Counts,
    call: RecordBytes<'_>,
    links: &mut [u32],
    axis: &mut [u32],
    times: &mut [u64],
    f: u32,
    bounds: &mut [u32],
) -> Result<Answer, Refusal>
    requires readable { Readable c call.sheet.now call.at links.old f (record_from call.sheet.now call.at).y }
    requires takeable { Takeable c axis.old times.old }
    requires covers { Covers c 0 links.old bounds.old }
    ensures { WaitEntered c links.old (wait_step c (operand_with c false links.old f
        (record_from call.entry.sheet.now call.entry.at).y) links.old (sqs axis.old times.old)) links.new
        axis.new times.new bounds.new result }
{
    let y = y_of(c, call, links, f, false);
    wait(c, links, axis, times, y, bounds)
}

// Wait, where room is known.
pub fn wait_known_of(
    c: Counts,
    call: RecordBytes<'_>,
    links: &mut [u32],
    axis: &mut [u32],
    times: &mut [u64],
    f: u32,
) -> Result<Answer, Refusal>
    requires readable { Readable c call.sheet.now call.at links.old f (record_from call.sheet.now call.at).y }
    requires takeable { Takeable c axis.old times.old }
    requires roomy { Roomy c links.old (linkage_at c (first_of (half c) axis.old)) (record_from call.sheet.now call.at).y }
    ensures { WaitMade c (wait_step c (operand_with c false links.old f (record_from call.entry.sheet.now call.entry.at).y)
        links.old (sqs axis.old times.old)) links.new axis.new times.new
        result }
{
    let y = call.y();
    wait_known(c, links, axis, times, y)
}

pub fn cancel_of(
    c: Counts,
    call: RecordBytes<'_>,
    links: &[u32],
    axis: &mut [u32],
    times: &mut [u64],
    f: u32,
) -> Result<Answer, Refusal>
    requires readable { Readable c call.sheet.now call.at links.now f (record_from call.sheet.now call.at).x }
    requires judged { Judged c axis.old }
    ensures { Answers (half c) (cancel_step c (operand_with c true links.now f (record_from call.entry.sheet.now call.entry.at).x)
        (sqs axis.old times.old)) axis.new times.new result }
{
    let process = x_of(c, call, links, f, true);
    cancel(c, axis, times, process)
}

// Activate, and again: reactivate.
pub fn timed_of(
    c: Counts,
    call: RecordBytes<'_>,
    links: &[u32],
    axis: &mut [u32],
    times: &mut [u64],
    marks: &[u8],
    f: u32,
    again: bool,
) -> Result<Answer, Refusal>
    requires readable { Readable c call.sheet.now call.at links.now f (record_from call.sheet.now call.at).x }
    requires readable_2 { Readable c call.sheet.now call.at links.now f (record_from call.sheet.now call.at).y }
    requires judged { Judged c axis.old }
    ensures { Answers (half c) (timed_step c again (record_from call.entry.sheet.now call.entry.at).clause
        (operand_with c true links.now f (record_from call.entry.sheet.now call.entry.at).x)
        (operand_with c true links.now f (record_from call.entry.sheet.now call.entry.at).y) (record_from call.entry.sheet.now call.entry.at).t
        marks.now (sqs axis.old times.old)) axis.new times.new result }
{
    let x = x_of(c, call, links, f, true);
    let y = y_of(c, call, links, f, true);
    let k = call.clause() as u32;
    let t = call.t();
    activate(c, axis, times, marks, again, k, x, y, t)
}

pub fn accum_of(call: RecordBytes<'_>, accums: &mut [i64], time: u64) -> Result<Answer, Refusal>
    requires bound { (1 ≤ (record_from call.sheet.now call.at).x) × (3 * (record_from call.sheet.now call.at).x ≤ length accums.old) × (time ≤ limit) }
    ensures { record { words = accums.new; answer = result }
        ≡ updated_in (record_from call.entry.sheet.now call.entry.at).x time (record_from call.entry.sheet.now call.entry.at).t accums.old }
{
    let k = call.x();
    let t = call.t();
    update_in(accums, k, time, t)
}
