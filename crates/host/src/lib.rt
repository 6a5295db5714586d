// The edge for a C host: one function, with a fresh run's tables in local arrays.
#![tactic(auto)]

mod start;

ghost use Rattle.std.specs.Prelude.{◌≡◌};
ghost use Rattle.model.specs.Refusals.{refusal_number};
ghost use Rattle.host.specs.Host.{hosted};

use crate::start::start;
use model::Refusal;
use run_answer::number;
use run_laws::{RUN_WORDS, TRACE_LIMIT};
use sheet_check::check::check;

fn refused(q: Refusal) -> u64
    ensures { result ≡ refusal_number q }
{
    q.number() as u64
}

// Runs a sheet from fresh and answers lines × 256 + code: 0 finished, 200 full, else the refusal. The lines are written to the trace;
// the bytes after them stay as they were. The tables come first, before any way out: docs/DECISIONS.md says why.
#[unsafe(no_mangle)]
pub extern "C" fn nodbrize_run(sheet: &[u8], trace: &mut [u8]) -> u64
    ensures { record { trace = trace.new; number = result } ≡ hosted sheet.now trace.old }
{
    let mut links = [0u32; 8194];
    let mut axis = [0u32; 2052];
    let mut times = [0u64; 1025];
    let mut marks = [0u8; 1025];
    let mut positions = [0u32; 1025];
    let mut accums = [0i64; RUN_WORDS];
    match check(sheet) {
        Err(q) => refused(q),
        Ok(header) => {
            if TRACE_LIMIT < trace.len() {
                return refused(Refusal::Size);
            }
            let c = header.counts;
            let n = c.total() + 1;
            let p = c.processes as usize + 1;
            // two words in links for none and each linkage, in axis for none, each process and its own head
            let ran = start(
                header,
                sheet,
                &mut links[..n + n],
                &mut axis[..p + p + 2],
                &mut times[..p],
                &mut marks[..p],
                &mut positions[..p],
                &mut accums,
                trace,
            );
            number(ran)
        }
    }
}
