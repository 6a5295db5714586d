// Reading a run's tables: current's place, time and record, and the operands of a record.
ghost use Rattle.std.specs.Prelude.{◌≡◌, ◌≢◌, true, ◌&&◌, ◌+◌, ◌≤◌, ◌<◌, eqb, length, get_or};
ghost use Rattle.model_laws.specs.Now.{half, first_of};
ghost use Rattle.simulation_laws.specs.Promise.{Judged};
ghost use Rattle.sheet.specs.Sheet.{record_offset, record_from, record_bytes};
ghost use Rattle.sheet.specs.Accepted.{is_operand};
ghost use Rattle.run_laws.specs.OnTables.{operand_with};
ghost use Rattle.run_laws.specs.Needs.{Resolvable, Readable};
ghost use Rattle.run_laws.specs.Run.{record_got};

use crate::members::member;
use model::Counts;
use ring::Rings;
use sheet::records::{CURRENT, RecordBytes, record_offset};
use simulation_axis::{first, time_at};

// Current's place in the axis.
pub fn place_now(c: Counts, axis: &[u32]) -> u32
    requires { Judged c axis.now }
    ensures { result ≡ first_of (half c) axis.now }
{
    first(Rings {
        words: axis,
        m: c.processes as usize + 2,
    })
}

// The time of the notice at a place.
pub fn time_of(times: &[u64], f: u32) -> u64
    requires { f < length times.now }
    ensures { result ≡ get_or times.now f 0 }
{
    time_at(times, f as usize)
}

// Where the process at a place is.
pub fn record_of(positions: &[u32], f: u32) -> u32
    requires { f < length positions.now }
    ensures { result ≡ get_or positions.now f 0 }
{
    positions[f as usize]
}

// The same, where the place last is at the record at: a process that stays current needs no read.
pub fn position(positions: &[u32], f: u32, last: u32, at: u32) -> u32
    requires f_in_bounds { f < length positions.now }
    requires at_value { at ≡ get_or positions.now last 0 }
    ensures { result ≡ get_or positions.now f 0 }
{
    if f == last {
        return at;
    }
    record_of(positions, f)
}

// Main is at place 1, and it is at position 0.
pub fn is_end(f: u32, r: u32) -> bool
    ensures { result ≡ (eqb r 0 && eqb f 1) }
{
    r == 0 && f == 1
}

// The next of record r; of the one that stands for finish, 0.
pub fn next_of(sheet: &[u8], processes: u32, r: u32) -> u32
    requires { r ≢ 0 → record_offset processes r + record_bytes ≤ length sheet.now }
    ensures { result ≡ (record_got processes sheet.now r).next }
{
    if r == 0 {
        return 0;
    }
    let at = record_offset(processes, r);
    RecordBytes { sheet, at }.next()
}

// The linkage that an operand stands for; f is current's place, and takes, where the operation takes a process.
pub fn operand(c: Counts, links: &[u32], f: u32, v: u32, takes: bool) -> u32
    requires resolvable { Resolvable c links.now f }
    requires v_value { is_operand c v ≡ true }
    ensures { result ≡ operand_with c takes links.now f v }
{
    if v as usize <= c.total() {
        return v;
    }
    if v == CURRENT {
        return c.heads + f;
    }
    member(c, links, (v - CURRENT) as usize, takes)
}

// What x, and y, stand for in a record.
pub fn x_of(c: Counts, call: RecordBytes<'_>, links: &[u32], f: u32, takes: bool) -> u32
    requires { Readable c call.sheet.now call.at links.now f (record_from call.sheet.now call.at).x }
    ensures { result ≡ operand_with c takes links.now f (record_from call.entry.sheet.now call.entry.at).x }
{
    operand(c, links, f, call.x(), takes)
}

pub fn y_of(c: Counts, call: RecordBytes<'_>, links: &[u32], f: u32, takes: bool) -> u32
    requires { Readable c call.sheet.now call.at links.now f (record_from call.sheet.now call.at).y }
    ensures { result ≡ operand_with c takes links.now f (record_from call.entry.sheet.now call.entry.at).y }
{
    operand(c, links, f, call.y(), takes)
}
