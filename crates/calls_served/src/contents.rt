// The contents of a request and of a response: a model's tables, then accumulators, positions, sheet and trace.
ghost use Rattle.std.specs.Prelude.{◌+◌, ◌≤◌, ◌≡◌, length};
ghost use Rattle.calls_served.specs.Contents.{model_bytes, run_bytes, ModelFits, RunFits};

use crate::copying::{table_in, table_out};
use crate::head::Sizes;
use crate::put::Word;
use crate::reply::Reply;

// The four tables, from the place `at`; answers the place behind them.
pub fn model_in(
    n: Sizes,
    s: &[u8],
    at: usize,
    links: &mut [u32],
    axis: &mut [u32],
    times: &mut [u64],
    marks: &mut [u8],
) -> usize
    requires n_in_bounds { at + model_bytes n ≤ length s.now }
    requires model_fits { ModelFits n (length links.old) (length axis.old) (length times.old) (length marks.old) }
    ensures { result ≡ at + model_bytes n }
{
    let a = table_in(s, at, &mut links[..n.links as usize]);
    let b = table_in(s, a, &mut axis[..n.axis as usize]);
    let c = table_in(s, b, &mut times[..n.times as usize]);
    table_in(s, c, &mut marks[..n.marks as usize])
}

// Accumulators, positions and trace; answers the place of the sheet, which stays where it lies.
pub fn run_in(
    n: Sizes,
    s: &[u8],
    at: usize,
    accums: &mut [i64],
    positions: &mut [u32],
    trace: &mut [u8],
) -> usize
    requires n_in_bounds { at + run_bytes n ≤ length s.now }
    requires run_fits { RunFits n (length accums.old) (length positions.old) (length trace.old) }
    ensures { result + n.sheet ≤ length s.now }
{
    let a = table_in(s, at, &mut accums[..3 * n.accums as usize]);
    let b = table_in(s, a, &mut positions[..n.positions as usize]);
    table_in(s, b + n.sheet as usize, &mut trace[..n.trace as usize]);
    b
}

// A response's first 16 bytes.
pub fn reply_out(r: Reply, s: &mut [u8], at: usize) -> usize
    requires { at + 16 ≤ length s.old }
    ensures { result ≡ at + 16 }
{
    r.code.put(s, at);
    r.lines.put(s, at + 4);
    r.answer.put(s, at + 8);
    at + 16
}

pub fn model_out(
    n: Sizes,
    s: &mut [u8],
    at: usize,
    links: &[u32],
    axis: &[u32],
    times: &[u64],
    marks: &[u8],
) -> usize
    requires n_in_bounds { at + model_bytes n ≤ length s.old }
    requires model_fits { ModelFits n (length links.now) (length axis.now) (length times.now) (length marks.now) }
    ensures { result ≡ at + model_bytes n }
{
    let a = table_out(s, at, &links[..n.links as usize]);
    let b = table_out(s, a, &axis[..n.axis as usize]);
    let c = table_out(s, b, &times[..n.times as usize]);
    table_out(s, c, &marks[..n.marks as usize])
}

// Without the sheet.
pub fn run_out(
    n: Sizes,
    s: &mut [u8],
    at: usize,
    accums: &[i64],
    positions: &[u32],
    trace: &[u8],
) -> usize
    requires n_in_bounds { at + run_bytes n ≤ length s.old }
    requires run_fits { RunFits n (length accums.now) (length positions.now) (length trace.now) }
    ensures { result ≤ at + run_bytes n }
{
    let a = table_out(s, at, &accums[..3 * n.accums as usize]);
    let b = table_out(s, a, &positions[..n.positions as usize]);
    table_out(s, b, &trace[..n.trace as usize])
}
