// Standard input and output, or what stands for them. The first read or write that fails is kept: after it nothing is read or written.
ghost use Rattle.std.specs.Prelude.{◌≡◌, ◌≤◌, length, IsOk, OnErr, OnOk, take};
ghost use Rattle.std.specs.Io.KnownBytes.{Appends, Consumes};

use std::io;
use std::io::{Read, Write};

#[derive(Drop)]
pub struct Streams<R, W> {
    pub reader: R,
    pub writer: W,
    pub moved: io::Result<()>,
}

impl<R: Read, W: Write> Streams<R, W> {
    pub(crate) fn new(reader: R, writer: W) -> Streams<R, W>
        ensures { IsOk result.moved }
    {
        Streams {
            reader,
            writer,
            moved: Ok(()),
        }
    }

    // Reads once, and answers how many bytes it put at the start: none where the input has ended or a read or a write has failed.
    pub(crate) fn read(&mut self, part: &mut [u8]) -> usize
        ensures bound { result ≤ length part.old }
        ensures bytes { OnOk self.new.moved
            (Consumes (R.remaining self.old.reader) (R.remaining self.new.reader) (take result part.new)) }
        ensures failed { OnErr self.new.moved (result ≡ 0) }
        ensures kept { OnErr self.old.moved (self.new ≡ self.old) }
    {
        if self.moved.is_err() {
            return 0;
        }
        match self.reader.read(part) {
            Ok(n) => n,
            Err(error) => {
                self.moved = Err(error);
                0
            }
        }
    }

    // Writes all of it.
    pub(crate) fn write(&mut self, text: &[u8])
        ensures bytes { OnOk self.new.moved
            (Appends (W.contents self.old.writer) (W.contents self.new.writer) text.now) }
        ensures kept { OnErr self.old.moved (self.new ≡ self.old) }
    {
        if self.moved.is_ok() {
            self.moved = self.writer.write_all(text);
        }
    }
}
