// Turn after turn on judged tables, until main has finished, the trace is full or a step is refused: stretches of turns, and between them
// a turn whose call no stretch makes. Bounds of the sets' sizes stand beside the tables while this goes on.
#![tactic(auto)]

ghost use Rattle.std.specs.Prelude.{◌≡◌, ◌/◌, ◌≤◌, length};
ghost use Rattle.run_laws.specs.Run.{lent, turns_on};
ghost use Rattle.run_laws.specs.Standing.{Standing};
ghost use Rattle.machine.specs.Run.{line_size, trace_limit};

use machine::End;
use model::Counts;
use run_arms::reading::{is_end, place_now, record_of};
use run_laws::{Pause, Ran, Turn};
use run_turn::stretch::stretch;
use run_turn::turn::turn_apart;
use simset::room::unknown_bounds;
use trace::{LINE_BYTES, lines_in, past_last};

pub fn turns(
    c: Counts,
    sheet: &[u8],
    links: &mut [u32],
    axis: &mut [u32],
    times: &mut [u64],
    marks: &mut [u8],
    positions: &mut [u32],
    accums: &mut [i64],
    trace: &mut [u8],
) -> Ran
    requires standing { Standing c sheet.now (lent links.old axis.old times.old marks.old positions.old accums.old) }
    requires trace_len_bound { length trace.old ≤ trace_limit }
    ensures { record {
      run = lent links.new axis.new times.new marks.new
          positions.new accums.new;
      trace = trace.new;
      result = result;
    }
        ≡ turns_on c sheet.now 0 (length trace.old / line_size)
        (lent links.old axis.old times.old marks.old positions.old
        accums.old) trace.old }
{
    let mut bounds = unknown_bounds(c);
    let end = trace.len();
    let stop = past_last(end);
    let mut at = 0;
    // no `for`: a stretch goes on by as many lines as it writes
    while at < stop {
        let s = stretch(
            c,
            sheet,
            links,
            axis,
            times,
            marks,
            positions,
            accums,
            trace,
            at,
            end,
            &mut bounds,
        );
        at = s.at;
        match s.pause {
            Pause::Full => {}
            Pause::Refused(q) => {
                return Ran {
                    lines: lines_in(at),
                    end: End::Refused(q),
                };
            }
            Pause::Apart => match turn_apart(
                c,
                sheet,
                links,
                axis,
                times,
                marks,
                positions,
                accums,
                trace,
                at,
                &mut bounds,
            ) {
                Ok(Turn::Finished) => {
                    return Ran {
                        lines: lines_in(at),
                        end: End::Finished,
                    };
                }
                Err(q) => {
                    return Ran {
                        lines: lines_in(at),
                        end: End::Refused(q),
                    };
                }
                Ok(Turn::Made) => {
                    at += LINE_BYTES;
                }
            },
        }
    }
    let f = place_now(c, axis);
    let r = record_of(positions, f);
    if is_end(f, r) {
        return Ran {
            lines: lines_in(at),
            end: End::Finished,
        };
    }
    Ran {
        lines: lines_in(at),
        end: End::Full,
    }
}
