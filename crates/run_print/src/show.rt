// The whole run: pieces of 4,096 lines up to 1,000,000 steps, then how it ended.
ghost use Rattle.std.specs.Prelude.{◌≡◌, ◌≤◌, length, get_or, Ok};
ghost use Rattle.model_laws.specs.Now.{half, first_of};
ghost use Rattle.sheet.specs.Accepted.{checked};
ghost use Rattle.run_laws.specs.Run.{lent};
ghost use Rattle.run_laws.specs.Standing.{Standing};
ghost use Rattle.run_laws.specs.Starting.{Startable};
ghost use Rattle.run_print.specs.Pieces.{Located};
ghost use Rattle.machine.specs.Run.{trace_limit};

use crate::output::Output;
use crate::piece::{piece, put_lines};
use machine::End;
use model::{Counts, Refusal};
use run::fresh::fresh_run;
use run_arms::reading::{place_now, record_of};
use run_laws::{RUN_WORDS, TRACE_LIMIT};
use sheet::header::Header;
use std::io::Write;

// Whole pieces: 244 of 4,096 lines, and one of 576 lines, are 1,000,000.
pub const WHOLE: usize = 244;

// Trace bytes for piece i.
fn room(i: usize) -> usize
    ensures { result ≤ trace_limit }
{
    if i < WHOLE { TRACE_LIMIT } else { 9216 }
}

// How the run ended, and after how many steps.
fn done<W: Write>(word: &[u8], steps: u64, output: &mut Output<W>)
    requires { length word.now ≤ 12 }
{
    output.make_room();
    output.put(word);
    output.put_number(steps, b'\n');
    output.flush();
}

// "refused N at record R after S"
fn refused<W: Write>(q: Refusal, rec: u32, steps: u64, output: &mut Output<W>) {
    output.make_room();
    output.put(b"refused ");
    output.put_number(q.number() as u64, b' ');
    output.put(b"at record ");
    output.put_number(rec as u64, b' ');
    output.put(b"after ");
    output.put_number(steps, b'\n');
    output.flush();
}

// The record that current is at.
fn record_now(c: Counts, axis: &[u32], positions: &[u32]) -> u32
    requires { Located c axis.now positions.now }
    ensures { result ≡ get_or positions.now (first_of (half c) axis.now) 0 }
{
    record_of(positions, place_now(c, axis))
}

// Piece after piece, on tables of a run of this sheet.
fn pieces<W: Write>(
    c: Counts,
    sheet: &[u8],
    links: &mut [u32],
    axis: &mut [u32],
    times: &mut [u64],
    marks: &mut [u8],
    positions: &mut [u32],
    accums: &mut [i64],
    trace: &mut [u8],
    output: &mut Output<W>,
)
    requires standing { Standing c sheet.now (lent links.old axis.old times.old marks.old positions.old accums.old) }
    requires trace_limit_in_bounds { trace_limit ≤ length trace.old }
{
    let mut steps = 0;
    for i in 0..=WHOLE {
        let ran = piece(
            sheet,
            links,
            axis,
            times,
            marks,
            positions,
            accums,
            trace,
            room(i),
        );
        put_lines(trace, ran.lines, output);
        steps += ran.lines as u64;
        match ran.end {
            End::Finished => return done(b"finished ", steps, output),
            End::Refused(q) => {
                return refused(q, record_now(c, axis, positions), steps, output);
            }
            End::Full => {}
        }
    }
    done(b"stopped ", steps, output);
}

// A fresh run over local tables, cut to the sheet's lengths.
pub(crate) fn show<W: Write>(header: Header, sheet: &[u8], output: &mut Output<W>)
    requires { checked sheet.now ≡ Ok header }
{
    let c = header.counts;
    let n = c.total() + 1;
    let p = c.processes as usize + 1;
    let mut links = [0u32; 8194];
    let mut axis = [0u32; 2052];
    let mut times = [0u64; 1025];
    let mut marks = [0u8; 1025];
    let mut positions = [0u32; 1025];
    let mut accums = [0i64; RUN_WORDS];
    let mut trace = [0u8; TRACE_LIMIT];
    // two words in links for none and each linkage, in axis for none, each process and its own head
    on_tables(
        header,
        sheet,
        &mut links[..n + n],
        &mut axis[..p + p + 2],
        &mut times[..p],
        &mut marks[..p],
        &mut positions[..p],
        &mut accums,
        &mut trace,
        output,
    );
}

// For a sheet that was accepted and tables of its lengths.
fn on_tables<W: Write>(
    header: Header,
    sheet: &[u8],
    links: &mut [u32],
    axis: &mut [u32],
    times: &mut [u64],
    marks: &mut [u8],
    positions: &mut [u32],
    accums: &mut [i64],
    trace: &mut [u8],
    output: &mut Output<W>,
)
    requires startable { Startable header sheet.now (lent links.old axis.old times.old marks.old positions.old accums.old)
        trace.old }
    requires trace_limit_in_bounds { trace_limit ≤ length trace.old }
{
    let _ = fresh_run(sheet, links, axis, times, marks, positions, accums);
    let c = header.counts;
    pieces(
        c, sheet, links, axis, times, marks, positions, accums, trace, output,
    );
}
