// A sheet's header: the counts, the number of records, and the exact length that follows from them.
ghost use Rattle.std.specs.Prelude.{◌≡◌, ◌≤◌, length};
ghost use Rattle.model.specs.Counts.{made_of};
ghost use Rattle.sheet.specs.Sheet.{counts_of, header_bytes};
ghost use Rattle.sheet.specs.Accepted.{answer, size_fine, sized, header_of};

use model::{Counts, Refusal};
use sheet::header::Header;
use sheet::records::{HEADER_BYTES, RECORD_BYTES};
use words::u32_at;

// The most records that a sheet has.
pub const MAX_RECORDS: u32 = 2000;

// The header, if it has no more records than it may have and the sheet has exactly the length that it gives.
#[tactic(auto, unfolding(sheet::specs::Accepted::size_fine))]
fn sized(sheet: &[u8], header: Header) -> Result<Header, Refusal>
    ensures { result ≡ answer (size_fine sheet.now header) header }
{
    let processes = header.counts.processes as usize;
    let records = header.records as usize;
    if header.records <= MAX_RECORDS
        && sheet.len() == HEADER_BYTES + 4 * processes + RECORD_BYTES * records
    {
        Ok(header)
    } else {
        Err(Refusal::Layout)
    }
}

// The counts, if they are within their limits.
fn counts_of(sheet: &[u8]) -> Result<Counts, Refusal>
    requires { header_bytes ≤ length sheet.now }
    ensures { result ≡ made_of (counts_of sheet.now) }
{
    Counts::new(u32_at(sheet, 0), u32_at(sheet, 4), u32_at(sheet, 8))
}

// The header of a sheet whose counts and length are in order.
pub(crate) fn read_header(sheet: &[u8]) -> Result<Header, Refusal>
    ensures { result ≡ answer (sized sheet.now) (header_of sheet.now) }
{
    if sheet.len() < HEADER_BYTES {
        return Err(Refusal::Layout);
    }
    match counts_of(sheet) {
        Err(_) => Err(Refusal::Layout),
        Ok(counts) => {
            let records = u32_at(sheet, 12);
            sized(sheet, Header { counts, records })
        }
    }
}
