// A fresh run and its first call in one: the check of the sheet and the tables' lengths are the caller's, and nothing is judged again.
ghost use Rattle.std.specs.Prelude.{◌≡◌};
ghost use Rattle.run_laws.specs.Run.{lent};
ghost use Rattle.run_laws.specs.Starting.{Startable, started_on};

use run_fresh::fill;
use run_laws::Ran;
use run_turns::turns;
use sheet::header::Header;

// For a sheet that was accepted and tables of its lengths, whatever they hold.
pub(crate) fn start(
    header: Header,
    sheet: &[u8],
    links: &mut [u32],
    axis: &mut [u32],
    times: &mut [u64],
    marks: &mut [u8],
    positions: &mut [u32],
    accums: &mut [i64],
    trace: &mut [u8],
) -> Ran
    requires { Startable header sheet.now (lent links.old axis.old times.old marks.old positions.old accums.old)
        trace.old }
    ensures { record {
      run = lent links.new axis.new times.new marks.new
          positions.new accums.new;
      trace = trace.new;
      result = result;
    }
        ≡ started_on header.counts sheet.now trace.old }
{
    let _ = fill(header, sheet, links, axis, times, marks, positions, accums);
    let c = header.counts;
    turns(
        c, sheet, links, axis, times, marks, positions, accums, trace,
    )
}
