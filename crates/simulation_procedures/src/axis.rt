// Changing the sequencing set: the axis, as rings whose own head stands at m - 1, and the table of times. What reads it is in
// simulation_axis.
ghost use Rattle.std.specs.Prelude.{◌≡◌, ◌+◌, ◌<◌, length};
ghost use Rattle.ring.specs.Rings.{Kept};
ghost use Rattle.simulation_laws.specs.Procedures.{found, drop_on, put_on};
ghost use Rattle.simulation_laws.specs.Promise.{sqs, Left, Read, Stored, First, capped};

use model::TIME_LIMIT;
use ring::RingsMut;
use simulation_axis::seek;

// The mark at a place.
pub fn mark_at(marks: &[u8], i: usize) -> u8
    ensures { Read i marks.now result }
{
    if i < marks.len() { marks[i] } else { 0 }
}

// Stores a time; nothing past the table's end.
pub(crate) fn store(times: &mut [u64], i: usize, v: u64)
    ensures { Stored i v times.old times.new }
{
    if i < times.len() {
        times[i] = v;
    }
}

// The same at a place of the table, with no test.
pub(crate) fn set_time(times: &mut [u64], i: usize, v: u64)
    requires { i < length times.old }
    ensures { Stored i v times.old times.new }
{
    times[i] = v;
}

pub(crate) fn mark(marks: &mut [u8], i: usize)
    ensures { Stored i 1 marks.old marks.new }
{
    if i < marks.len() {
        marks[i] = 1;
    }
}

// A sum of times, or the first number past the limit.
pub(crate) fn plus(a: u64, b: u64) -> u64
    ensures { result ≡ capped (a + b) }
{
    if a > TIME_LIMIT || b > TIME_LIMIT - a {
        return TIME_LIMIT + 1;
    }
    a + b
}

// Takes x's notice away.
pub(crate) fn drop(axis: &mut RingsMut<'_>, times: &mut [u64], x: u32)
    requires { x < axis.old.m }
    ensures left { Left axis.old.m (drop_on axis.old.m x (sqs axis.old.words.now times.old)) axis.new.words.now times.new }
    ensures kept { Kept axis.old axis.new }
{
    axis.unlink(x as usize);
    store(times, x as usize, 0);
}

// Takes the first notice, x's, away.
pub fn drop_first(axis: &mut RingsMut<'_>, times: &mut [u64], x: u32)
    requires { First axis.old.m x axis.old.words.now times.old }
    ensures left { Left axis.old.m (drop_on axis.old.m x (sqs axis.old.words.now times.old)) axis.new.words.now times.new }
    ensures kept { Kept axis.old axis.new }
{
    axis.unlink_behind(x as usize, (axis.m - 1) as u32);
    set_time(times, x as usize, 0);
}

// A notice for x, which has none, at time u behind the place q.
pub(crate) fn put(axis: &mut RingsMut<'_>, times: &mut [u64], x: u32, q: u32, u: u64)
    requires x_lt_m { x < axis.old.m }
    requires q_lt_m { q < axis.old.m }
    ensures left { Left axis.old.m (put_on axis.old.m x q u (sqs axis.old.words.now times.old)) axis.new.words.now times.new }
    ensures kept { Kept axis.old axis.new }
{
    axis.link_behind(x, q);
    store(times, x as usize, u);
}

// The first notice, x's, moves: at time u behind the last whose time is below w.
pub(crate) fn move_to(axis: &mut RingsMut<'_>, times: &mut [u64], x: u32, w: u64, u: u64)
    requires { First axis.old.m x axis.old.words.now times.old }
    ensures left { Left axis.old.m (put_on axis.old.m x (found axis.old.m w (drop_on axis.old.m x (sqs axis.old.words.now times.old))) u
        (drop_on axis.old.m x (sqs axis.old.words.now times.old))) axis.new.words.now times.new }
    ensures kept { Kept axis.old axis.new }
{
    drop_first(axis, times, x);
    let q = seek(axis.reading(), times, w);
    axis.link_behind(x, q);
    set_time(times, x as usize, u);
}
