// Refusals 1 and 2 of a run: lengths first, then what the tables hold.
#![tactic(auto)]

mod positions;

ghost use Rattle.std.specs.Prelude.{◌≡◌};
ghost use Rattle.run_laws.specs.Run.{lent, run_judged};

use crate::positions::judge_positions;
use model::{Counts, Refusal};
use model_judge::{judge_tables, lengths_fine};
use run_laws::{RUN_WORDS, TRACE_LIMIT};

pub fn judge_run(
    c: Counts,
    records: u32,
    links: &[u32],
    axis: &[u32],
    times: &[u64],
    marks: &[u8],
    positions: &[u32],
    accums: &[i64],
    len: usize,
) -> Result<(), Refusal>
    ensures { result ≡ run_judged c records (lent links.now axis.now times.now marks.now
        positions.now accums.now) len }
{
    if !lengths_fine(c, links, axis, times, marks) {
        return Err(Refusal::Size);
    }
    if positions.len() != c.processes as usize + 1 {
        return Err(Refusal::Size);
    }
    if accums.len() != RUN_WORDS {
        return Err(Refusal::Size);
    }
    if TRACE_LIMIT < len {
        return Err(Refusal::Size);
    }
    judge_tables(c, links, axis, times, marks)?;
    judge_positions(c, records, positions)
}
