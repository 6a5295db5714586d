// A piece of a run: one call with the first bytes of the trace buffer, and its lines printed.
ghost use Rattle.std.specs.Prelude.{◌≡◌, ◌+◌, ◌*◌, ◌≤◌, length};
ghost use Rattle.run_laws.specs.Run.{lent};
ghost use Rattle.run_print.specs.Pieces.{left_by};
ghost use Rattle.machine.specs.Run.{line_size};

use crate::output::Output;
use run::run;
use run_laws::Ran;
use std::io::Write;
use trace::LINE_BYTES;
use words::{u32_at, u64_at};

// The call, with the first k bytes of the trace.
pub(crate) fn piece(
    sheet: &[u8],
    links: &mut [u32],
    axis: &mut [u32],
    times: &mut [u64],
    marks: &mut [u8],
    positions: &mut [u32],
    accums: &mut [i64],
    trace: &mut [u8],
    k: usize,
) -> Ran
    requires { k ≤ length trace.old }
    ensures { record {
      run = lent links.new axis.new times.new marks.new
          positions.new accums.new;
      result = result;
    }
        ≡ left_by sheet.now (lent links.old axis.old times.old marks.old
        positions.old accums.old) trace.old k }
{
    run(
        sheet,
        links,
        axis,
        times,
        marks,
        positions,
        accums,
        &mut trace[..k],
    )
}

// The line whose 16 bytes begin at i: its time, process and record.
fn put_line<W: Write>(trace: &[u8], i: usize, output: &mut Output<W>)
    requires { i + line_size ≤ length trace.now }
{
    output.make_room();
    output.put_number(u64_at(trace, i), b' ');
    output.put_number(u32_at(trace, i + 8) as u64, b' ');
    output.put_number(u32_at(trace, i + 12) as u64, b'\n');
}

// The first n lines of the trace.
pub(crate) fn put_lines<W: Write>(trace: &[u8], n: u32, output: &mut Output<W>)
    requires { line_size * n ≤ length trace.now }
{
    let mut i = 0;
    for k in 0..n {
        put_line(trace, i, output);
        i += LINE_BYTES;
    }
}
