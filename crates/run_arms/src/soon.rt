// Activate with no clause or after a delay, where x with no walk is a process or none: the short ways that a stretch of turns takes. Where
// a link stands first in the queue, or the operand is of another kind, the call is left, to be made apart.
ghost use Rattle.std.specs.Prelude.{◌≡◌, Bool};
ghost use Rattle.model_laws.specs.Now.{half};
ghost use Rattle.model_laws.specs.Tables.{model_of};
ghost use Rattle.simulation_laws.specs.Promise.{Noticed};
ghost use Rattle.sheet.specs.Sheet.{record_from};
ghost use Rattle.run_laws.specs.Needs.{Callable};
ghost use Rattle.run_laws.specs.Performed.{Leaves};
ghost use Rattle.run_laws.specs.Tried.{tried};

use crate::reading::x_of;
use crate::unless_refused;
use model::{Counts, Refusal};
use run_laws::Effect;
use sheet::records::RecordBytes;
use simulation::soon::{activate_after, activate_now};
use simulation::steps::process_or_none;

// With no clause.
pub fn direct_of(
    c: Counts,
    call: RecordBytes<'_>,
    links: &[u32],
    axis: &mut [u32],
    times: &mut [u64],
    marks: &[u8],
    f: u32,
    time: u64,
) -> Result<Effect, Refusal>
    requires callable { Callable c call.sheet.now call.at f (model_of links.now axis.old times.old marks.now) }
    requires noticed { Noticed (half c) f time axis.old times.old }
    requires i_value { ((record_from call.sheet.now call.at).operation ≡ 10) × ((record_from call.sheet.now call.at).clause ≡ 0) }
    ensures { (known : Bool) → Leaves (λ w. tried c (record_from call.entry.sheet.now call.entry.at) f
        (model_of links.now axis.old times.old marks.now) w known)
        (model_of links.now axis.new times.new marks.now) result }
{
    let x = x_of(c, call, links, f, false);
    if !process_or_none(c, x) {
        return Ok(Effect::Apart);
    }
    unless_refused(
        activate_now(c, axis, times, marks, f, time, x),
        Ok(Effect::Moves),
    )
}

// After a delay.
pub fn delayed_of(
    c: Counts,
    call: RecordBytes<'_>,
    links: &[u32],
    axis: &mut [u32],
    times: &mut [u64],
    marks: &[u8],
    f: u32,
    time: u64,
) -> Result<Effect, Refusal>
    requires callable { Callable c call.sheet.now call.at f (model_of links.now axis.old times.old marks.now) }
    requires noticed { Noticed (half c) f time axis.old times.old }
    requires i_value { ((record_from call.sheet.now call.at).operation ≡ 10) × ((record_from call.sheet.now call.at).clause ≡ 2) }
    ensures { (known : Bool) → Leaves (λ w. tried c (record_from call.entry.sheet.now call.entry.at) f
        (model_of links.now axis.old times.old marks.now) w known)
        (model_of links.now axis.new times.new marks.now) result }
{
    let x = x_of(c, call, links, f, false);
    if !process_or_none(c, x) {
        return Ok(Effect::Apart);
    }
    let t = call.t();
    unless_refused(
        activate_after(c, axis, times, marks, f, time, x, t),
        Ok(Effect::Moves),
    )
}
