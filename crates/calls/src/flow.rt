// The two buffers: bytes at .. end of the input are read and not used, the first `out` bytes of the output wait.
ghost use Rattle.std.specs.Prelude.{◌+◌, ◌≤◌, ◌≡◌, true};

use crate::streams::Streams;
use std::io::{Read, Write};

pub(crate) const BUFFER: usize = 262144;

// A request or a response of the largest tables fits into each buffer.
#[derive(Drop)]
pub(crate) struct Flow<R, W> {
    pub(crate) input: [u8; BUFFER],
    pub(crate) at: usize,
    pub(crate) end: usize,
    pub(crate) output: [u8; BUFFER],
    pub(crate) out: usize,
    pub(crate) streams: Streams<R, W>,
    ghost used: { at ≤ end },
    ghost read: { end ≤ 262144 },
    ghost waiting: { out ≤ 262144 },
}

impl<R: Read, W: Write> Flow<R, W> {
    // Nothing read, nothing to write.
    pub(crate) fn new(reader: R, writer: W) -> Flow<R, W>
        ensures { (result.at ≡ 0) × (result.end ≡ 0) × (result.out ≡ 0) }
    {
        Flow {
            input: [0; BUFFER],
            at: 0,
            end: 0,
            output: [0; BUFFER],
            out: 0,
            streams: Streams::new(reader, writer),
        }
    }

    // Writes what waits.
    pub(crate) fn write_out(&mut self)
        ensures { (self.new.at ≡ self.old.at) × (self.new.end ≡ self.old.end) × (self.new.out ≡ 0) }
    {
        self.streams.write(&self.output[..self.out]);
        self.out = 0;
    }

    // Moves the unused input to the front.
    fn settle(&mut self) {
        self.input.copy_within(self.at..self.end, 0);
        self.end -= self.at;
        self.at = 0;
    }

    // Reads until n bytes stand in front of `end`, the input ends, or a read fails. No `for`: it goes on by what a read returned.
    fn read_up_to(&mut self, n: usize) {
        while self.end < n {
            let k = self.streams.read(&mut self.input[self.end..]);
            if k == 0 {
                return;
            }
            self.end += k;
        }
    }

    // Sees to it that n unused bytes stand in the input, and answers whether it has them. Before it waits for input it writes what waits.
    pub(crate) fn await_bytes(&mut self, n: usize) -> bool
        ensures { result ≡ true → self.new.at + n ≤ self.new.end }
    {
        if self.end - self.at < n {
            self.write_out();
            self.settle();
            self.read_up_to(n);
        }
        n <= self.end - self.at
    }

    // Writes what waits where n bytes would not fit behind it, and answers whether they fit now.
    pub(crate) fn make_room(&mut self, n: usize) -> bool
        ensures kept { (self.new.at ≡ self.old.at) × (self.new.end ≡ self.old.end) }
        ensures room { result ≡ true → self.new.out + n ≤ 262144 }
    {
        if BUFFER - self.out < n {
            self.write_out();
        }
        n <= BUFFER - self.out
    }
}
