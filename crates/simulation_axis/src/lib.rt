// Reading the time axis: m is P + 2, the axis's own head stands at m - 1, and a process's notice at its place. All other crates read it
// here.
#![tactic(auto)]

ghost use Rattle.std.specs.Prelude.{◌≡◌, ◌<◌, length};
ghost use Rattle.model_laws.specs.Now.{first_of, next_place, prev_place, idle_on};
ghost use Rattle.simulation_laws.specs.Procedures.{found};
ghost use Rattle.simulation_laws.specs.Promise.{sqs, Place, Read, Lone};

use ring::Rings;

// The place of the first notice.
pub fn first(axis: Rings<'_>) -> u32
    ensures { Place axis.entry.m (first_of axis.entry.m axis.entry.words.now) result }
{
    axis.words[axis.m - 1]
}

// The place behind x: another notice's, or the head's; 0 where x has no notice.
pub fn next(axis: Rings<'_>, x: u32) -> u32
    requires { x < axis.m }
    ensures { Place axis.entry.m (next_place axis.entry.words.now x) result }
{
    axis.words[x as usize]
}

// The place before x, likewise.
pub fn prev(axis: Rings<'_>, x: u32) -> u32
    requires { x < axis.m }
    ensures { Place axis.entry.m (prev_place axis.entry.m axis.entry.words.now x) result }
{
    axis.words[axis.m + x as usize]
}

// Whether x has no notice.
pub fn idle(axis: Rings<'_>, x: u32) -> bool
    requires { x < axis.m }
    ensures { result ≡ idle_on axis.entry.words.now x }
{
    next(axis, x) == 0
}

// Whether there is no second notice.
pub fn lone(axis: Rings<'_>) -> bool
    ensures { Lone axis.entry.m axis.entry.words.now result }
{
    let head = axis.m - 1;
    axis.words[axis.words[head] as usize] as usize == head
}

// The time at a place, 0 past the table's end.
pub fn due(times: &[u64], i: usize) -> u64
    ensures { Read i times.now result }
{
    if i < times.len() { times[i] } else { 0 }
}

// The same at a place of the table, with no test.
pub fn time_at(times: &[u64], i: usize) -> u64
    requires { i < length times.now }
    ensures { Read i times.now result }
{
    times[i]
}

// Behind which place a notice stands in front of all from w on, looked for from both ends at once.
pub fn seek(axis: Rings<'_>, times: &[u64], w: u64) -> u32
    ensures { Place axis.entry.m (found axis.entry.m w (sqs axis.entry.words.now times.now)) result }
{
    let head = axis.m - 1;
    let mut f = axis.words[head];
    let mut b = axis.words[axis.m + head];
    for _ in 0..axis.m {
        let q = b as usize;
        if q == head || due(times, q) < w {
            return b;
        }
        let p = f as usize;
        if due(times, p) >= w {
            return axis.words[axis.m + p];
        }
        f = axis.words[p];
        b = axis.words[axis.m + q];
    }
    b
}
