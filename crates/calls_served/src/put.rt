// Numbers as little-endian bytes in a slice, by their type.
ghost use Rattle.std.specs.Prelude.{ℕ, ◌+◌, ◌≤◌, length};

use words::{i64_at, u32_at, u64_at};

pub(crate) trait Word: Copy {
    // How many bytes it takes.
    const SIZE: usize;

    ghost SIZE: { ℕ };

    // The number whose bytes begin at i.
    fn at(s: &[u8], i: usize) -> Self
        requires { i + SIZE ≤ length s.now };

    // Puts its bytes at i.
    fn put(self, s: &mut [u8], i: usize)
        requires { i + SIZE ≤ length s.old };
}

impl Word for u8 {
    const SIZE: usize = 1;

    ghost SIZE = { 1 };

    fn at(s: &[u8], i: usize) -> u8 {
        s[i]
    }

    fn put(self, s: &mut [u8], i: usize) {
        s[i] = self;
    }
}

impl Word for u32 {
    const SIZE: usize = 4;

    ghost SIZE = { 4 };

    fn at(s: &[u8], i: usize) -> u32 {
        u32_at(s, i)
    }

    fn put(self, s: &mut [u8], i: usize) {
        s[i..i + 4].copy_from_slice(&self.to_le_bytes());
    }
}

impl Word for u64 {
    const SIZE: usize = 8;

    ghost SIZE = { 8 };

    fn at(s: &[u8], i: usize) -> u64 {
        u64_at(s, i)
    }

    fn put(self, s: &mut [u8], i: usize) {
        s[i..i + 8].copy_from_slice(&self.to_le_bytes());
    }
}

impl Word for i64 {
    const SIZE: usize = 8;

    ghost SIZE = { 8 };

    fn at(s: &[u8], i: usize) -> i64 {
        i64_at(s, i)
    }

    fn put(self, s: &mut [u8], i: usize) {
        s[i..i + 8].copy_from_slice(&self.to_le_bytes());
    }
}
