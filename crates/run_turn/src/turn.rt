// One turn on judged tables: main is at its end, or a step is made or turned down; after a step that is made the process is at its next
// record, and the line is written.
ghost use Rattle.std.specs.Prelude.{◌≡◌, true, ◌+◌, ◌*◌, ◌/◌, ◌≤◌, length};
ghost use Rattle.simset_laws.specs.BoundLaws.{Covers};
ghost use Rattle.run_laws.specs.Run.{lent, record_got, record_at_now, turn_on};
ghost use Rattle.run_laws.specs.Standing.{Standing};
ghost use Rattle.run_laws.specs.Tried.{apart};
ghost use Rattle.machine.specs.Run.{line_size, trace_limit};

use crate::stretch::stretch;
use model::{Counts, Refusal};
use run_arms::move_on;
use run_arms::reading::{is_end, next_of, place_now, record_of, time_of};
use run_laws::{Pause, Turn};
use run_step::apart::{goes_to, perform_apart};
use simset::room::unknown_bounds;
use trace::LINE_BYTES;

// A turn whose call no stretch makes. The line, if there is one, goes to byte i.
pub fn turn_apart(
    c: Counts,
    sheet: &[u8],
    links: &mut [u32],
    axis: &mut [u32],
    times: &mut [u64],
    marks: &mut [u8],
    positions: &mut [u32],
    accums: &[i64],
    trace: &mut [u8],
    i: usize,
    bounds: &mut [u32],
) -> Result<Turn, Refusal>
    requires standing { Standing c sheet.now (lent links.old axis.old times.old marks.old positions.old accums.now) }
    requires line_size_in_bounds { i + line_size ≤ length trace.old }
    requires accums_value { apart (record_got c.processes sheet.now
        (record_at_now c (lent links.old axis.old times.old marks.old positions.old accums.now))) ≡ true }
    requires covers { Covers c 0 links.old bounds.old }
    ensures result_after { record {
      run = lent links.new axis.new times.new marks.new
          positions.new accums.now;
      trace = trace.new;
      turn = result;
    }
        ≡ turn_on c sheet.now i (lent links.old axis.old times.old marks.old
        positions.old accums.now) trace.old }
    ensures covers_2 { Covers c 0 links.new bounds.new }
{
    let f = place_now(c, axis);
    let r = record_of(positions, f);
    if is_end(f, r) {
        return Ok(Turn::Finished);
    }
    let time = time_of(times, f);
    let e = perform_apart(c, sheet, r, f, links, axis, times, marks, bounds)?;
    let next = goes_to(Ok(e), next_of(sheet, c.processes, r));
    move_on(c, positions, trace, f, time, r, i, next);
    Ok(Turn::Made)
}

// A turn whose call may be any; byte i is behind whole lines, and there is room for one more: a stretch of one line, and a turn apart where
// that leaves the call. A set that is entered is counted, since a single turn has no bound of its size.
pub fn turn(
    c: Counts,
    sheet: &[u8],
    links: &mut [u32],
    axis: &mut [u32],
    times: &mut [u64],
    marks: &mut [u8],
    positions: &mut [u32],
    accums: &mut [i64],
    trace: &mut [u8],
    i: usize,
) -> Result<Turn, Refusal>
    requires standing { Standing c sheet.now (lent links.old axis.old times.old marks.old positions.old accums.old) }
    requires trace_len_bound { length trace.old ≤ trace_limit }
    requires i_value { i ≡ line_size * (i / line_size) }
    requires line_size_in_bounds { i + line_size ≤ length trace.old }
    ensures { record {
      run = lent links.new axis.new times.new marks.new
          positions.new accums.new;
      trace = trace.new;
      turn = result;
    }
        ≡ turn_on c sheet.now i (lent links.old axis.old times.old marks.old
        positions.old accums.old) trace.old }
{
    let mut bounds = unknown_bounds(c);
    let s = stretch(
        c,
        sheet,
        links,
        axis,
        times,
        marks,
        positions,
        accums,
        trace,
        i,
        i + LINE_BYTES,
        &mut bounds,
    );
    match s.pause {
        Pause::Full => Ok(Turn::Made),
        Pause::Refused(q) => Err(q),
        Pause::Apart => turn_apart(
            c,
            sheet,
            links,
            axis,
            times,
            marks,
            positions,
            accums,
            trace,
            i,
            &mut bounds,
        ),
    }
}
