// Little-endian words in a lent slice of bytes: a reader for each definition in specs/, a line each, so none stands for the others.
// Core functions: the caller knows that the word lies within the slice.
#![tactic(auto)]

ghost use Rattle.std.specs.Prelude.{◌≡◌, ◌+◌, ◌≤◌, length};
ghost use Rattle.words.specs.Words.{u8_at, u32_at, u64_at, i64_at};

pub fn u8_at(s: &[u8], i: usize) -> u8
    requires { i + 1 ≤ length s.now }
    ensures { result ≡ u8_at s.now i }
{
    s[i]
}

pub fn u32_at(s: &[u8], i: usize) -> u32
    requires { i + 4 ≤ length s.now }
    ensures { result ≡ u32_at s.now i }
{
    u32::from_le_bytes([s[i], s[i + 1], s[i + 2], s[i + 3]])
}

pub fn u64_at(s: &[u8], i: usize) -> u64
    requires { i + 8 ≤ length s.now }
    ensures { result ≡ u64_at s.now i }
{
    u64::from(u32_at(s, i)) + 4294967296 * u64::from(u32_at(s, i + 4))
}

pub fn i64_at(s: &[u8], i: usize) -> i64
    requires { i + 8 ≤ length s.now }
    ensures { result ≡ i64_at s.now i }
{
    u64_at(s, i).cast_signed()
}
