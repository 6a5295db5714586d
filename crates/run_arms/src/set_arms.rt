// The set calls of a record, one for each operation: an operand is resolved where its call uses it.
ghost use Rattle.std.specs.Prelude.{false, ◌+◌, ◌≤◌, length};
ghost use Rattle.model.specs.Counts.{total};
ghost use Rattle.simset_laws.specs.Calls.{out_step, follow_step, precede_step, into_step, clear_step};
ghost use Rattle.simset_laws.specs.Promise.{Moved};
ghost use Rattle.simset_laws.specs.BoundLaws.{Covers, Fits};
ghost use Rattle.simset_laws.specs.Entering.{Entered};
ghost use Rattle.simset_laws.specs.KnownRoom.{Known, Roomy};
ghost use Rattle.sheet.specs.Sheet.{record_from, record_bytes};
ghost use Rattle.run_laws.specs.OnTables.{operand_with};
ghost use Rattle.run_laws.specs.Needs.{Readable};

use crate::reading::{x_of, y_of};
use model::answer::Answer;
use model::{Counts, Refusal};
use sheet::records::RecordBytes;
use simset::room::known_room;
use simset::steps::{clear, follow, into, into_known, out, precede};

pub fn out_of(
    c: Counts,
    call: RecordBytes<'_>,
    links: &mut [u32],
    f: u32,
) -> Result<Answer, Refusal>
    requires { Readable c call.sheet.now call.at links.old f (record_from call.sheet.now call.at).x }
    ensures { Moved (total c + 1) (out_step c (operand_with c false links.entry.now f (record_from call.entry.sheet.now call.entry.at).x)
        links.entry.now) (record { links = links.exit.now; answer = result }) }
{
    let x = x_of(c, call, links, f, false);
    out(c, links, x)
}

pub fn follow_of(
    c: Counts,
    call: RecordBytes<'_>,
    links: &mut [u32],
    f: u32,
    bounds: &mut [u32],
) -> Result<Answer, Refusal>
    requires readable { Readable c call.sheet.now call.at links.old f (record_from call.sheet.now call.at).x }
    requires readable_2 { Readable c call.sheet.now call.at links.old f (record_from call.sheet.now call.at).y }
    requires covers { Covers c 0 links.old bounds.old }
    ensures { Entered c links.entry.now (follow_step c (operand_with c false links.entry.now f
        (record_from call.entry.sheet.now call.entry.at).x) (operand_with c false links.entry.now f (record_from call.entry.sheet.now call.entry.at).y)
        links.entry.now) bounds.new (record { links = links.exit.now; answer = result }) }
{
    let x = x_of(c, call, links, f, false);
    let y = y_of(c, call, links, f, false);
    follow(c, links, x, y, bounds)
}

pub fn precede_of(
    c: Counts,
    call: RecordBytes<'_>,
    links: &mut [u32],
    f: u32,
    bounds: &mut [u32],
) -> Result<Answer, Refusal>
    requires readable { Readable c call.sheet.now call.at links.old f (record_from call.sheet.now call.at).x }
    requires readable_2 { Readable c call.sheet.now call.at links.old f (record_from call.sheet.now call.at).y }
    requires covers { Covers c 0 links.old bounds.old }
    ensures { Entered c links.entry.now (precede_step c (operand_with c false links.entry.now f
        (record_from call.entry.sheet.now call.entry.at).x) (operand_with c false links.entry.now f (record_from call.entry.sheet.now call.entry.at).y)
        links.entry.now) bounds.new (record { links = links.exit.now; answer = result }) }
{
    let x = x_of(c, call, links, f, false);
    let y = y_of(c, call, links, f, false);
    precede(c, links, x, y, bounds)
}

pub fn into_of(
    c: Counts,
    call: RecordBytes<'_>,
    links: &mut [u32],
    f: u32,
    bounds: &mut [u32],
) -> Result<Answer, Refusal>
    requires readable { Readable c call.sheet.now call.at links.old f (record_from call.sheet.now call.at).x }
    requires readable_2 { Readable c call.sheet.now call.at links.old f (record_from call.sheet.now call.at).y }
    requires covers { Covers c 0 links.old bounds.old }
    ensures { Entered c links.entry.now (into_step c (operand_with c false links.entry.now f
        (record_from call.entry.sheet.now call.entry.at).x) (operand_with c false links.entry.now f (record_from call.entry.sheet.now call.entry.at).y)
        links.entry.now) bounds.new (record { links = links.exit.now; answer = result }) }
{
    let link = x_of(c, call, links, f, false);
    let head = y_of(c, call, links, f, false);
    into(c, links, link, head, bounds)
}

pub fn clear_of(
    c: Counts,
    call: RecordBytes<'_>,
    links: &mut [u32],
    f: u32,
) -> Result<Answer, Refusal>
    requires { Readable c call.sheet.now call.at links.old f (record_from call.sheet.now call.at).x }
    ensures { Moved (total c + 1) (clear_step c (operand_with c false links.entry.now f (record_from call.entry.sheet.now call.entry.at).x)
        links.entry.now) (record { links = links.exit.now; answer = result }) }
{
    let x = x_of(c, call, links, f, false);
    clear(c, links, x)
}

// Is room known in the set that y heads? Its bound is raised then. Only a head's own number stands for a head, so y is taken as it is.
pub fn room_of(c: Counts, call: RecordBytes<'_>, bounds: &mut [u32]) -> bool
    requires fits { Fits c bounds.old }
    ensures { Known c (record_from call.entry.sheet.now call.entry.at).y bounds.old bounds.new result }
{
    let y = call.y();
    known_room(c, y, bounds)
}

// Into, where room is known.
pub fn into_known_of(
    c: Counts,
    call: RecordBytes<'_>,
    links: &mut [u32],
    f: u32,
) -> Result<Answer, Refusal>
    requires readable { Readable c call.sheet.now call.at links.old f (record_from call.sheet.now call.at).x }
    requires roomy { Roomy c links.old (operand_with c false links.old f (record_from call.sheet.now call.at).x) (record_from call.sheet.now call.at).y }
    ensures { Moved (total c + 1) (into_step c (operand_with c false links.entry.now f (record_from call.entry.sheet.now call.entry.at).x)
        (operand_with c false links.entry.now f (record_from call.entry.sheet.now call.entry.at).y) links.entry.now)
        (record { links = links.exit.now; answer = result }) }
{
    let x = x_of(c, call, links, f, false);
    let y = call.y();
    into_known(c, links, x, y)
}
