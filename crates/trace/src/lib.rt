// The trace: a line is the time (64 bits), the process (32) and the record (32), little-endian, 16 bytes in all. Where a line goes and
// whether it fits is found with no division, remainder or multiplication; a test reads the source for them.
// Core functions: the caller knows that what is written lies within the slice.
#![tactic(auto)]

ghost use Rattle.std.specs.Prelude.{◌≡◌, ◌+◌, ◌/◌, ◌≤◌, length};
ghost use Rattle.trace.specs.Fits.{past_last};
ghost use Rattle.trace.specs.Lines.{put, line_bytes};

// Bytes of a line.
pub const LINE_BYTES: usize = 16;

// One behind the last byte that a line may begin at in a trace of len bytes, or 0: a line fits at the bytes below it, and at no other.
pub fn past_last(len: usize) -> usize
    ensures { result ≡ past_last len }
{
    if len < LINE_BYTES {
        return 0;
    }
    len - LINE_BYTES + 1
}

// How many lines fit in len bytes: bytes and lines are counted side by side, since a range by steps of 16 would divide.
pub fn lines_in(len: usize) -> u32
    requires { len ≤ 65536 }
    ensures { result ≡ len / 16 }
{
    let stop = past_last(len);
    let mut at = 0;
    let mut n = 0;
    while at < stop {
        at += LINE_BYTES;
        n += 1;
    }
    n
}

// A line at i.
pub fn put_line(s: &mut [u8], i: usize, time: u64, process: u32, rec: u32)
    requires { i + 16 ≤ length s.old }
    ensures { s.new ≡ put s.old i (line_bytes time process rec) }
{
    s[i..i + 8].copy_from_slice(&time.to_le_bytes());
    s[i + 8..i + 12].copy_from_slice(&process.to_le_bytes());
    s[i + 12..i + 16].copy_from_slice(&rec.to_le_bytes());
}
