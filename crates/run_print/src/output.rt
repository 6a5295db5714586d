// Output through a buffer of 4,096 bytes, written when no further line would fit.
ghost use Rattle.std.specs.Prelude.{◌≡◌, ◌+◌, ◌≤◌, ◌++◌, ◌∷◌, [], length, take, IsOk, OnErr, OnOk};
ghost use Rattle.std.specs.Fmt.{decimal};
ghost use Rattle.std.specs.Io.KnownBytes.{Appends};

use itoa::Buffer;
use std::io;
use std::io::Write;

pub(crate) const BUFFER: usize = 4096;

// Standard output, or what stands for it, and the first `len` bytes of the buffer wait. The first write that fails is kept: after it
// nothing is written.
#[derive(Drop)]
pub(crate) struct Output<W> {
    pub(crate) to: W,
    pub(crate) written: io::Result<()>,
    pub(crate) buffer: [u8; BUFFER],
    pub(crate) len: usize,
    ghost waiting: { len ≤ 4096 },
}

impl<W: Write> Output<W> {
    pub(crate) fn new(to: W) -> Output<W>
        ensures { IsOk result.written }
    {
        Output {
            to,
            written: Ok(()),
            buffer: [0; BUFFER],
            len: 0,
        }
    }

    // Writes what waits.
    pub(crate) fn flush(&mut self)
        ensures bytes { OnOk self.new.written
            (Appends (W.contents self.old.to) (W.contents self.new.to) (take self.old.len self.old.buffer)) }
        ensures kept { OnErr self.old.written ((self.new.to ≡ self.old.to) × (self.new.written ≡ self.old.written)) }
        ensures empty { self.new.len ≡ 0 }
    {
        if self.written.is_ok() {
            self.written = self.to.write_all(&self.buffer[..self.len]);
        }
        self.len = 0;
    }

    // Writes what waits where no further line would fit.
    pub(crate) fn make_room(&mut self)
        ensures { self.new.len + 128 ≤ 4096 }
    {
        if BUFFER - self.len < 128 {
            self.flush();
        }
    }

    // Puts a text behind what waits.
    pub(crate) fn put(&mut self, text: &[u8])
        requires { self.old.len + length text.now ≤ 4096 }
        ensures len { self.new.len ≡ self.old.len + length text.now }
        ensures bytes { take self.new.len self.new.buffer ≡ take self.old.len self.old.buffer ++ text.now }
        ensures kept { (self.new.to ≡ self.old.to) × (self.new.written ≡ self.old.written) }
    {
        let end = self.len + text.len();
        self.buffer[self.len..end].copy_from_slice(text);
        self.len = end;
    }

    // Puts a number and a byte behind it.
    pub(crate) fn put_number(&mut self, n: u64, end: u8)
        requires { self.old.len + 21 ≤ 4096 }
        ensures len { self.new.len ≤ self.old.len + 21 }
        ensures bytes { take self.new.len self.new.buffer ≡ take self.old.len self.old.buffer ++ (decimal n ++ (end ∷ [])) }
        ensures kept { (self.new.to ≡ self.old.to) × (self.new.written ≡ self.old.written) }
    {
        let mut digits = Buffer::new();
        self.put(digits.format(n).as_bytes());
        self.put(&[end]);
    }
}
