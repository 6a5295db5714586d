// The fields of a sheet, read where they lie. Core functions: the caller knows that they lie within the sheet.
ghost use Rattle.std.specs.Prelude.{◌≡◌, ◌+◌, ◌≤◌, length};
ghost use Rattle.sheet.specs.Sheet.{start_offset, start_at, record_offset, record_from, record_bytes};

use words::{i64_at, u8_at, u32_at};

// Bytes of the header, and of a record.
pub const HEADER_BYTES: usize = 16;

pub const RECORD_BYTES: usize = 24;

// The operand that stands for current; above it stand the first members of the heads.
pub const CURRENT: u32 = 65536;

// A record's fields, t as a signed number.
#[derive(Clone, Copy)]
pub struct Record {
    pub next: u32,
    pub operation: u8,
    pub clause: u8,
    pub x: u32,
    pub y: u32,
    pub t: i64,
}

// Where the bytes of record r begin.
pub fn record_offset(processes: u32, r: u32) -> usize
    requires { 1 ≤ r }
    ensures { result ≡ record_offset processes r }
{
    HEADER_BYTES + 4 * processes as usize + RECORD_BYTES * (r as usize - 1)
}

// A record's 24 bytes where they lie in a sheet. Whoever writes one down proves that they lie within it.
#[derive(Clone, Copy)]
pub struct RecordBytes<'a> {
    pub sheet: &'a [u8],
    pub at: usize,
    pub ghost inside: { at + record_bytes ≤ length sheet.now },
}

#[tactic(auto, unfolding(crate::specs::Sheet::record_from))]
impl RecordBytes<'_> {
    pub fn next(self) -> u32
        ensures { result ≡ (record_from self.entry.sheet.now self.entry.at).next }
    {
        u32_at(self.sheet, self.at)
    }

    pub fn operation(self) -> u8
        ensures { result ≡ (record_from self.entry.sheet.now self.entry.at).operation }
    {
        u8_at(self.sheet, self.at + 4)
    }

    pub fn clause(self) -> u8
        ensures { result ≡ (record_from self.entry.sheet.now self.entry.at).clause }
    {
        u8_at(self.sheet, self.at + 5)
    }

    pub fn x(self) -> u32
        ensures { result ≡ (record_from self.entry.sheet.now self.entry.at).x }
    {
        u32_at(self.sheet, self.at + 8)
    }

    pub fn y(self) -> u32
        ensures { result ≡ (record_from self.entry.sheet.now self.entry.at).y }
    {
        u32_at(self.sheet, self.at + 12)
    }

    pub fn t(self) -> i64
        ensures { result ≡ (record_from self.entry.sheet.now self.entry.at).t }
    {
        i64_at(self.sheet, self.at + 16)
    }

    // All of them.
    pub fn record(self) -> Record
        ensures { result ≡ record_from self.entry.sheet.now self.entry.at }
    {
        Record {
            next: self.next(),
            operation: self.operation(),
            clause: self.clause(),
            x: self.x(),
            y: self.y(),
            t: self.t(),
        }
    }
}

// The record where the p-th process begins.
pub fn start_at(sheet: &[u8], p: usize) -> u32
    requires le_p { 1 ≤ p }
    requires p_in_bounds { start_offset p + 4 ≤ length sheet.now }
    ensures { result ≡ start_at sheet.now p }
{
    u32_at(sheet, HEADER_BYTES + 4 * (p - 1))
}
