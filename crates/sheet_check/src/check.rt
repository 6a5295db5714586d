// The layout check: a sheet of any length and bytes is accepted with its header, or refused.
ghost use Rattle.std.specs.Prelude.{◌≡◌, ◌+◌, ◌≤◌, length};
ghost use Rattle.sheet.specs.Accepted.{length_of, pad_fine, starts_to, layout_fine, records_to, checked};
ghost use Rattle.sheet.specs.Sheet.{record_bytes};

use crate::fields::record_fine;
use crate::header::read_header;
use model::Refusal;
use sheet::header::Header;
use sheet::records::{RecordBytes, record_offset, start_at};
use words::u8_at;

// The two bytes between a record's clause and its x.
fn pad_fine(sheet: &[u8], i: usize) -> bool
    requires { i + record_bytes ≤ length sheet.now }
    ensures { result ≡ pad_fine sheet.now i }
{
    u8_at(sheet, i + 6) == 0 && u8_at(sheet, i + 7) == 0
}

// Record r is laid out as it must be.
#[tactic(auto, unfolding(sheet::specs::Accepted::layout_fine))]
fn layout_fine(sheet: &[u8], header: Header, r: u32) -> bool
    requires sheet_len { length sheet.now ≡ length_of header }
    requires le_r { 1 ≤ r }
    requires r_le_records { r ≤ header.records }
    ensures { result ≡ layout_fine sheet.now header r }
{
    let i = record_offset(header.counts.processes, r);
    pad_fine(sheet, i) && record_fine(header, RecordBytes { sheet, at: i }.record())
}

// Starts are 0 to R.
fn starts_fine(sheet: &[u8], header: Header) -> bool
    requires { length sheet.now ≡ length_of header }
    ensures { result ≡ starts_to sheet.now header.records header.counts.processes }
{
    for p in (1..=header.counts.processes as usize).rev() {
        if header.records < start_at(sheet, p) {
            return false;
        }
    }
    true
}

// Every record is laid out as it must be.
fn records_fine(sheet: &[u8], header: Header) -> bool
    requires { length sheet.now ≡ length_of header }
    ensures { result ≡ records_to sheet.now header header.records }
{
    for r in (1..=header.records).rev() {
        if !layout_fine(sheet, header, r) {
            return false;
        }
    }
    true
}

// The header of a sheet that is accepted, or the refusal.
pub fn check(sheet: &[u8]) -> Result<Header, Refusal>
    ensures { result ≡ checked sheet.now }
{
    let header = read_header(sheet)?;
    if starts_fine(sheet, header) && records_fine(sheet, header) {
        Ok(header)
    } else {
        Err(Refusal::Layout)
    }
}
