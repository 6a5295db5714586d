// The public fresh run: the check of the sheet, then its tables.
ghost use Rattle.std.specs.Prelude.{◌≡◌};
ghost use Rattle.run_laws.specs.Run.{lent};
ghost use Rattle.run_laws.specs.Fresh.{filled};

use model::Refusal;
use run_fresh::fill;
use sheet_check::check::check;

// Fills tables of the sheet's lengths; refuses a sheet by 8 and other lengths by 1, and changes nothing then.
pub fn fresh_run(
    sheet: &[u8],
    links: &mut [u32],
    axis: &mut [u32],
    times: &mut [u64],
    marks: &mut [u8],
    positions: &mut [u32],
    accums: &mut [i64],
) -> Result<(), Refusal>
    ensures { record {
      run = lent links.new axis.new times.new marks.new
          positions.new accums.new;
      answer = result;
    }
        ≡ filled sheet.now (lent links.old axis.old times.old marks.old
        positions.old accums.old) }
{
    let header = check(sheet)?;
    fill(header, sheet, links, axis, times, marks, positions, accums)
}
