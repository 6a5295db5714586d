// Refusals 1 and 2 of a run's positions. The counts are judged with the model.
ghost use Rattle.std.specs.Prelude.{◌≡◌, ◌+◌, length};
ghost use Rattle.model_laws.specs.Judge.{positions_fine, positions_judged};

use model::{Counts, Refusal};

// The positions of p processes in a sheet of `records` records.
fn positions_fine(positions: &[u32], p: usize, records: u32) -> bool
    requires { length positions.now ≡ p + 1 }
    ensures { result ≡ positions_fine records positions.now p }
{
    for i in (1..=p).rev() {
        if records < positions[i] {
            return false;
        }
    }
    positions[0] == 0
}

pub(crate) fn judge_positions(c: Counts, records: u32, positions: &[u32]) -> Result<(), Refusal>
    ensures { result ≡ positions_judged c records positions.now }
{
    let p = c.processes as usize;
    if positions.len() != p + 1 {
        return Err(Refusal::Size);
    }
    if !positions_fine(positions, p, records) {
        return Err(Refusal::Malformed);
    }
    Ok(())
}
