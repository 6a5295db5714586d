// A run call with room for just one line, made by one turn.
ghost use Rattle.std.specs.Prelude.{◌≡◌, ◌≤◌, ◌*◌, ◌&&◌, length, leb, ltb};
ghost use Rattle.machine.specs.Run.{line_size};

use machine::End;
use model::Refusal;
use run::run;
use run_judge::judge_run;
use run_laws::{Ran, Turn};
use run_turn::turn::turn;
use sheet_check::check::check;
use trace::LINE_BYTES;

// Is there room for one line, and for no more?
pub(crate) fn has_one_line(len: usize) -> bool
    ensures { result ≡ (leb line_size len && ltb len (2 * line_size)) }
{
    LINE_BYTES <= len && len < LINE_BYTES + LINE_BYTES
}

// Refusals 8, 1 and 2, then one turn.
fn one_turn(
    sheet: &[u8],
    links: &mut [u32],
    axis: &mut [u32],
    times: &mut [u64],
    marks: &mut [u8],
    positions: &mut [u32],
    accums: &mut [i64],
    trace: &mut [u8],
) -> Result<Turn, Refusal>
    requires { line_size ≤ length trace.old }
{
    let header = check(sheet)?;
    let c = header.counts;
    let room = trace.len();
    judge_run(
        c,
        header.records,
        links,
        axis,
        times,
        marks,
        positions,
        accums,
        room,
    )?;
    turn(
        c, sheet, links, axis, times, marks, positions, accums, trace, 0,
    )
}

// One turn. After a turn that was made, a run call with no room tells how the run stands.
pub(crate) fn run_by_turn(
    sheet: &[u8],
    links: &mut [u32],
    axis: &mut [u32],
    times: &mut [u64],
    marks: &mut [u8],
    positions: &mut [u32],
    accums: &mut [i64],
    trace: &mut [u8],
) -> Ran
    requires { line_size ≤ length trace.old }
{
    match one_turn(sheet, links, axis, times, marks, positions, accums, trace) {
        Err(q) => Ran {
            lines: 0,
            end: End::Refused(q),
        },
        Ok(Turn::Finished) => Ran {
            lines: 0,
            end: End::Finished,
        },
        Ok(Turn::Made) => Ran {
            lines: 1,
            end: run(
                sheet,
                links,
                axis,
                times,
                marks,
                positions,
                accums,
                &mut trace[..0],
            )
            .end,
        },
    }
}
