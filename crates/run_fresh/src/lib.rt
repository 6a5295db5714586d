// The tables of a fresh run: the fresh model, the sheet's starts, zeros.
#![tactic(auto)]

ghost use Rattle.std.specs.Prelude.{◌≡◌, ◌+◌, ◌*◌, ◌≤◌, length, Ok};
ghost use Rattle.sheet.specs.Accepted.{checked};
ghost use Rattle.sheet.specs.Sheet.{header_bytes};
ghost use Rattle.run_laws.specs.Run.{lent};
ghost use Rattle.run_laws.specs.Fresh.{starts_are, filled_for};

use model::Refusal;
use model_fresh::fresh;
use run_laws::RUN_WORDS;
use sheet::header::Header;
use sheet::records::start_at;

// Each process at the record where it begins.
fn fill_starts(sheet: &[u8], processes: u32, positions: &mut [u32])
    requires positions_len { length positions.old ≡ processes + 1 }
    requires processes_in_bounds { header_bytes + 4 * processes ≤ length sheet.now }
    ensures { positions.new ≡ starts_are processes sheet.now }
{
    positions[0] = 0;
    for p in 1..processes as usize + 1 {
        positions[p] = start_at(sheet, p);
    }
}

// Fills tables of the lengths of an accepted sheet; refuses other lengths by 1, and changes nothing then.
pub fn fill(
    header: Header,
    sheet: &[u8],
    links: &mut [u32],
    axis: &mut [u32],
    times: &mut [u64],
    marks: &mut [u8],
    positions: &mut [u32],
    accums: &mut [i64],
) -> Result<(), Refusal>
    requires { checked sheet.now ≡ Ok header }
    ensures { record {
      run = lent links.new axis.new times.new marks.new
          positions.new accums.new;
      answer = result;
    }
        ≡ filled_for (Ok header) sheet.now (lent links.old axis.old times.old
        marks.old positions.old accums.old) }
{
    let c = header.counts;
    if positions.len() != c.processes as usize + 1 {
        return Err(Refusal::Size);
    }
    if accums.len() != RUN_WORDS {
        return Err(Refusal::Size);
    }
    fresh(c, links, axis, times, marks)?;
    fill_starts(sheet, c.processes, positions);
    accums.fill(0);
    Ok(())
}
