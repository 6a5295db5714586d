// The head of a request: the call with its operands, and how long the contents are.
ghost use Rattle.std.specs.Prelude.{◌+◌, ◌<◌, ◌≤◌, ◌≡◌, true, length};
ghost use Rattle.calls_served.specs.Heads.{sizes_at, counts_at, head_at};
ghost use Rattle.calls_served.specs.Contents.{model_bytes, run_bytes, ModelFits, RunFits};

use model::Counts;
use words::{i64_at, u32_at};

// How many of each: words, bytes, and accumulators of three words.
#[derive(Clone, Copy)]
pub struct Sizes {
    pub links: u32,
    pub axis: u32,
    pub times: u32,
    pub marks: u32,
    pub accums: u32,
    pub positions: u32,
    pub sheet: u32,
    pub trace: u32,
}

#[derive(Clone, Copy)]
pub struct Head {
    pub call: u32,
    pub counts: Counts,
    pub clause: u32,
    pub x: u32,
    pub y: u32,
    pub t: i64,
    pub sizes: Sizes,
}

pub const HEAD_BYTES: usize = 72;

fn sizes_at(s: &[u8], at: usize) -> Sizes
    requires { at + 32 ≤ length s.now }
    ensures { result ≡ sizes_at s.now at }
{
    Sizes {
        links: u32_at(s, at),
        axis: u32_at(s, at + 4),
        times: u32_at(s, at + 8),
        marks: u32_at(s, at + 12),
        accums: u32_at(s, at + 16),
        positions: u32_at(s, at + 20),
        sheet: u32_at(s, at + 24),
        trace: u32_at(s, at + 28),
    }
}

fn counts_at(s: &[u8], at: usize) -> Counts
    requires { at + 12 ≤ length s.now }
    ensures { result ≡ counts_at s.now at }
{
    Counts {
        heads: u32_at(s, at),
        processes: u32_at(s, at + 4),
        plains: u32_at(s, at + 8),
    }
}

pub fn head_at(s: &[u8], at: usize) -> Head
    requires { at + 72 ≤ length s.now }
    ensures { result ≡ head_at s.now at }
{
    Head {
        call: u32_at(s, at),
        counts: counts_at(s, at + 4),
        clause: u32_at(s, at + 16),
        x: u32_at(s, at + 20),
        y: u32_at(s, at + 24),
        t: i64_at(s, at + 32),
        sizes: sizes_at(s, at + 40),
    }
}

// Do a model's tables fit into their buffers?
pub fn model_fits(n: Sizes) -> bool
    ensures { result ≡ true → ModelFits n 8448 4352 1088 1088 }
{
    n.links <= 8448 && n.axis <= 4352 && n.times <= 1088 && n.marks <= 1088
}

// Do accumulators, positions, sheet and trace fit?
pub fn run_fits(n: Sizes) -> bool
    ensures { result ≡ true → RunFits n 240 1088 66000 }
{
    n.accums <= 80 && n.positions <= 1088 && n.sheet <= 56000 && n.trace <= 66000
}

// Bytes of the contents.
pub fn contents_bytes(n: Sizes) -> usize
    ensures { (result ≡ model_bytes n + run_bytes n) × (result < 1099511627776) }
{
    let model = 4 * n.links as usize
        + 4 * n.axis as usize
        + 8 * n.times as usize
        + n.marks as usize;
    let run = 24 * n.accums as usize
        + 4 * n.positions as usize
        + n.sheet as usize
        + n.trace as usize;
    model + run
}
