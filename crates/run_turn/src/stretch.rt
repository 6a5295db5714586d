// A stretch of turns on judged tables, with no call that is made apart: the loop that nearly all steps are made in. Current's place, its
// time and the record that it is at are kept beside the tables; place and time are read again only after a call that may change the first
// notice, and the record goes to the table when another process is current and when the stretch ends. Bounds of the sets' sizes are handed
// on, so that a set is seldom counted when a link enters it.
ghost use Rattle.std.specs.Prelude.{◌≡◌, ◌*◌, ◌-◌, ◌/◌, ◌≤◌, length};
ghost use Rattle.simset_laws.specs.BoundLaws.{Covers};
ghost use Rattle.run_laws.specs.Run.{lent, turns_on};
ghost use Rattle.run_laws.specs.Standing.{Standing};
ghost use Rattle.run_laws.specs.Paused.{Paused};
ghost use Rattle.machine.specs.Run.{line_size, trace_limit};

use model::Counts;
use run_arms::reading::{next_of, place_now, position, record_of, time_of};
use run_arms::{move_on, place, write};
use run_laws::{Effect, Pause, Stretch};
use run_step::perform::perform;
use trace::{LINE_BYTES, past_last};

// The next line goes to byte `from`, behind whole lines, and so on until none fits before byte `end`.
pub fn stretch(
    c: Counts,
    sheet: &[u8],
    links: &mut [u32],
    axis: &mut [u32],
    times: &mut [u64],
    marks: &[u8],
    positions: &mut [u32],
    accums: &mut [i64],
    trace: &mut [u8],
    from: usize,
    end: usize,
    bounds: &mut [u32],
) -> Stretch
    requires standing { Standing c sheet.now (lent links.old axis.old times.old marks.now positions.old accums.old) }
    requires trace_len_bound { length trace.old ≤ trace_limit }
    requires from_value { from ≡ line_size * (from / line_size) }
    requires from_le_end { from ≤ end }
    requires end_in_bounds { end ≤ length trace.old }
    requires covers { Covers c 0 links.old bounds.old }
    ensures paused { Paused c sheet.now (end / line_size) (from / line_size)
        (turns_on c sheet.now (from / line_size) (end / line_size - from / line_size)
        (lent links.old axis.old times.old marks.now positions.old
        accums.old) trace.old)
        trace.old (lent links.new axis.new times.new marks.now positions.new
        accums.new) trace.new result }
    ensures covers_2 { Covers c 0 links.new bounds.new }
{
    let stop = past_last(end);
    let mut at = from;
    let mut f = place_now(c, axis);
    let mut time = time_of(times, f);
    let mut r = record_of(positions, f);
    // no `for`: the byte that is reached when a turn pauses it is the answer
    while at < stop {
        match perform(
            c, sheet, r, f, time, links, axis, times, marks, accums, bounds,
        ) {
            Ok(Effect::Stays) => {
                write(c, trace, f, time, r, at);
                r = next_of(sheet, c.processes, r);
                at += LINE_BYTES;
            }
            Ok(Effect::Jumps(y)) => {
                write(c, trace, f, time, r, at);
                r = y;
                at += LINE_BYTES;
            }
            Ok(Effect::Moves) => {
                let next = next_of(sheet, c.processes, r);
                move_on(c, positions, trace, f, time, r, at, next);
                let g = place_now(c, axis);
                r = position(positions, g, f, next);
                time = time_of(times, g);
                f = g;
                at += LINE_BYTES;
            }
            Ok(Effect::Apart) => {
                place(positions, f, r);
                return Stretch {
                    at,
                    pause: Pause::Apart,
                };
            }
            Err(q) => {
                place(positions, f, r);
                return Stretch {
                    at,
                    pause: Pause::Refused(q),
                };
            }
        }
    }
    place(positions, f, r);
    Stretch {
        at,
        pause: Pause::Full,
    }
}
