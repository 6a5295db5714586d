// The runner of model sheets: a run goes on from its lent tables, turn by turn, and writes a line for each accepted step.
#![tactic(auto)]

pub mod fresh;

ghost use Rattle.std.specs.Prelude.{◌≡◌, Ok};
ghost use Rattle.sheet.specs.Accepted.{checked};
ghost use Rattle.run_laws.specs.Run.{lent, refused_ran, checked_run, run_on};

use machine::End;
use model::Refusal;
use run_judge::judge_run;
use run_laws::Ran;
use run_turns::turns;
use sheet::header::Header;
use sheet_check::check::check;

fn refused(q: Refusal) -> Ran
    ensures { result ≡ refused_ran q }
{
    Ran {
        lines: 0,
        end: End::Refused(q),
    }
}

// A call on a sheet that was accepted: refusals 1 and 2, then turns.
fn run_accepted(
    header: Header,
    sheet: &[u8],
    links: &mut [u32],
    axis: &mut [u32],
    times: &mut [u64],
    marks: &mut [u8],
    positions: &mut [u32],
    accums: &mut [i64],
    trace: &mut [u8],
) -> Ran
    requires { checked sheet.now ≡ Ok header }
    ensures { record {
      run = lent links.new axis.new times.new marks.new
          positions.new accums.new;
      trace = trace.new;
      result = result;
    }
        ≡ checked_run (Ok header) sheet.now (lent links.old axis.old times.old
        marks.old positions.old accums.old) trace.old }
{
    let c = header.counts;
    match judge_run(
        c,
        header.records,
        links,
        axis,
        times,
        marks,
        positions,
        accums,
        trace.len(),
    ) {
        Err(q) => refused(q),
        Ok(()) => turns(
            c, sheet, links, axis, times, marks, positions, accums, trace,
        ),
    }
}

// One call of a run: refusals 8, 1 and 2 change nothing; then turns, until main has finished, the trace holds no line more, or a step
// is refused. The tables are the run to go on with, fresh or as the last call left them.
pub fn run(
    sheet: &[u8],
    links: &mut [u32],
    axis: &mut [u32],
    times: &mut [u64],
    marks: &mut [u8],
    positions: &mut [u32],
    accums: &mut [i64],
    trace: &mut [u8],
) -> Ran
    ensures { record {
      run = lent links.new axis.new times.new marks.new
          positions.new accums.new;
      trace = trace.new;
      result = result;
    }
        ≡ run_on sheet.now (lent links.old axis.old times.old marks.old
        positions.old accums.old) trace.old }
{
    match check(sheet) {
        Err(q) => refused(q),
        Ok(header) => run_accepted(
            header, sheet, links, axis, times, marks, positions, accums, trace,
        ),
    }
}
